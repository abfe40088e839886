/// A year, a month and a day, whether there is such a day or not.
#[derive(Clone, Copy, Debug)]
pub struct Day {
    pub year: u16,
    /// From 1 to 12.
    pub month: u8,
    /// From 1.
    pub day: u8,
}
