//! What is asked of a value.
ghost use Rattle.std.specs.Prelude.{◌≡◌};
ghost use Rattle.sf_features.specs.Values.{same_value};
ghost use Rattle.sf_layers.specs.Found.{is_between, is_from as is_from_of, is_up_to as is_up_to_of};

use sf_features::AttrValue;

/// A test of a value.
pub(crate) trait ValueTest {
    ghost use Rattle.std.specs.Prelude.{Bool};
    ghost use Rattle.sf_features.specs.declared.attr_value.AttrValue.{AttrValue};

    ghost test: { Self → AttrValue → Bool };

    fn passes(&self, value: &AttrValue) -> bool
        ensures { result ≡ test self.now value.now };
}

/// That it is one value.
#[derive(Clone, Copy)]
pub(crate) struct IsSame<'a> {
    pub(crate) value: &'a AttrValue,
}

impl<'a> ValueTest for IsSame<'a> {
    ghost test = { λ s value. same_value s.value.now value };

    fn passes(&self, value: &AttrValue) -> bool {
        self.value.is_same(value)
    }
}

/// That it is between two ends, or at one of them; an end that isn't given bounds nothing.
#[derive(Clone, Copy)]
pub(crate) struct IsBetween<'a> {
    pub(crate) from: &'a Option<AttrValue>,
    pub(crate) to: &'a Option<AttrValue>,
}

impl<'a> ValueTest for IsBetween<'a> {
    ghost test = { λ s value. is_between s.from.now s.to.now value };

    fn passes(&self, value: &AttrValue) -> bool {
        is_from(self.from, value) && is_up_to(self.to, value)
    }
}

fn is_from(from: &Option<AttrValue>, value: &AttrValue) -> bool
    ensures { result ≡ is_from_of from.now value.now }
{
    match from {
        Some(end) => end.compare(value).is_le(),
        None => true,
    }
}

fn is_up_to(to: &Option<AttrValue>, value: &AttrValue) -> bool
    ensures { result ≡ is_up_to_of to.now value.now }
{
    match to {
        Some(end) => value.compare(end).is_le(),
        None => true,
    }
}
