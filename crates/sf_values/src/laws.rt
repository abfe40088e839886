//! Laws of values: each has an empty body, and its contract is the law.
ghost use Rattle.std.specs.Prelude.{◌≡◌, true, false, Some};
ghost use Rattle.std.specs.List.{list_any};
ghost use Rattle.sf_features.specs.declared.attr_value.AttrValue.{AttrValue};
ghost use Rattle.sf_features.specs.declared.column_type.ColumnType.{ColumnType};
ghost use Rattle.sf_features.specs.Values.{is_of_type};
ghost use Rattle.sf_values.specs.Escapes.{is_control};
ghost use Rattle.sf_values.specs.Values.{value_of, value_text};

/// A value that may stand in a column is read again from its text.
pub fn written_is_read()
    ensures { (column_type : ColumnType) (value : AttrValue) → is_of_type column_type value ≡ true → value_of (value_text value) ≡ Some value }
{}

/// The text of a value has no control character of ASCII, so it stands in one line.
pub fn written_is_one_line()
    ensures { (column_type : ColumnType) (value : AttrValue) → is_of_type column_type value ≡ true → list_any is_control (value_text value) ≡ false }
{}
