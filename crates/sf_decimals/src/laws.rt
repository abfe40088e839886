//! Laws of decimals: each has an empty body, and its contract is the law.
ghost use Rattle.std.specs.Prelude.{◌≡◌, ℕ, List, Some};
ghost use Rattle.sf_decimals.specs.declared.number.Number.{Number};
ghost use Rattle.sf_decimals.specs.Decimals.{IsDecimal, decimal_spelled, decimal_text, scaled};

/// A number that is written is read as the same one.
pub fn written_is_read()
    ensures { (d : Number) → IsDecimal d → decimal_spelled (decimal_text d) ≡ Some d }
{}

/// What is read is in its one form.
pub fn read_is_reduced()
    ensures { (text : List ℕ) (d : Number) → decimal_spelled text ≡ Some d → IsDecimal d }
{}

/// Two numbers that are one number have one form.
pub fn one_form()
    ensures { (a b : Number) → IsDecimal a → IsDecimal b → scaled a ≡ scaled b → a ≡ b }
{}
