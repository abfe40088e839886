//! Laws of values, the contracts of functions that do nothing.

ghost use Rattle.std.specs.Prelude.{◌≡◌, IsTrue};
ghost use Rattle.std.specs.declared.cmp.Ordering.TheVariants.{Equal};
ghost use Rattle.std.specs.Cmp.{IsTotalOrder};
ghost use Rattle.sf_features.specs.Order.{value_cmp};
ghost use Rattle.sf_features.specs.Values.{is_of_type};
ghost use Rattle.sf_features.specs.declared.attr_value.AttrValue.{AttrValue};
ghost use Rattle.sf_features.specs.declared.column_type.ColumnType.{ColumnType};

/// Two values that columns take are equal in order only where they are one value.
pub fn equal_values_are_one()
    ensures { (a b : AttrValue) (c d : ColumnType) → IsTrue (is_of_type c a) → IsTrue (is_of_type d b) → value_cmp a b ≡ Equal → a ≡ b }
{}

/// The order of values is a total one, whatever columns they stand in.
pub fn values_are_ordered()
    ensures { IsTotalOrder value_cmp }
{}
