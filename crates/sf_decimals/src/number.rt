/// The parts of the number mantissa / 10 ^ places, in any of its forms.
#[derive(Clone, Copy, Debug)]
pub struct Number {
    /// All digits of the number as a whole one, with its sign.
    pub mantissa: i64,
    /// How many of the digits stand behind the point.
    pub places: u8,
}
