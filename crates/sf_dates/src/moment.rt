use super::day::Day;

/// A day and a millisecond of it, whether there is such a moment or not.
#[derive(Clone, Copy, Debug)]
pub struct Moment {
    pub date: Day,
    /// The millisecond of the day, from 0.
    pub millisecond: u32,
}
