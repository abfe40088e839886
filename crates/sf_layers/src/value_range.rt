ghost use Rattle.std.specs.Prelude.{◌≡◌};
ghost use Rattle.sf_layers.specs.Found.{are_apart as are_apart_of, is_between};

use super::value_index::are_apart;
use super::value_test::{IsBetween, ValueTest};
use sf_features::AttrValue;

/// The values between two ends, or at one of them, in the order of `AttrValue::compare`. An end that is None bounds nothing.
#[derive(Debug, Drop)]
pub struct ValueRange {
    pub from: Option<AttrValue>,
    pub to: Option<AttrValue>,
}

impl ValueRange {
    /// Whether a value is one of these.
    pub fn contains(&self, value: &AttrValue) -> bool
        ensures { result ≡ is_between self.now.from self.now.to value.now }
    {
        let test = IsBetween {
            from: &self.from,
            to: &self.to,
        };
        test.passes(value)
    }

    /// Whether the first end is behind the second.
    pub fn is_empty(&self) -> bool
        ensures { result ≡ are_apart_of self.now.from self.now.to }
    {
        are_apart(&self.from, &self.to)
    }
}
