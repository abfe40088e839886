ghost use Rattle.std.specs.Prelude.{◌≡◌, IfOk, Some, refl};
ghost use Rattle.std.specs.Cmp.{eq_by_cmp_equiv, partial_equiv_from_equiv, partial_order_from_agreeing_total};
ghost use Rattle.std.specs.Ordering.{eq_by_cmp};
ghost use Rattle.sf_layers.specs.ValueIndexes.{key, key_cmp};
ghost use Rattle.sf_layers.specs.KeyOrder.{keys_total};

use sf_features::AttrValue;
use std::alloc::{AllocError, Global};
use std::cmp::Ordering;

/// A value with the identifier of a feature that has it or had it: what an index by values has. The order is that of the
/// values, and of the identifiers where these are equal in order.
#[derive(Debug, Drop)]
pub struct ValueKey {
    /// The value.
    pub value: AttrValue,
    /// The feature's identifier.
    pub id: u32,
}

impl ValueKey {
    /// A copy of the value with an identifier.
    pub fn of(alloc: Global, value: &AttrValue, id: u32) -> Result<ValueKey, AllocError>
        ensures { IfOk result (λ pair. pair ≡ key value.now id) }
    {
        let value = value.copy(alloc)?;
        Ok(ValueKey { value, id })
    }
}

impl PartialEq for ValueKey {
    ghost eq = { eq_by_cmp key_cmp };

    ghost laws = { partial_equiv_from_equiv (eq_by_cmp_equiv keys_total) };

    fn eq(&self, other: &ValueKey) -> bool {
        self.cmp(other).is_eq()
    }
}

impl Eq for ValueKey {
    ghost laws = { eq_by_cmp_equiv keys_total };
}

impl PartialOrd for ValueKey {
    ghost partial_cmp = { λ x y. Some (key_cmp x y) };

    ghost laws = { partial_order_from_agreeing_total key_cmp keys_total (λ x y. refl) (λ x y. refl) };

    fn partial_cmp(&self, other: &ValueKey) -> Option<Ordering> {
        Some(self.cmp(other))
    }
}

impl Ord for ValueKey {
    ghost cmp = { key_cmp };

    ghost total = { keys_total };

    ghost matches_partial_cmp = { λ x y. refl };

    ghost matches_eq = { λ x y. refl };

    fn cmp(&self, other: &ValueKey) -> Ordering {
        self.value
            .compare(&other.value)
            .then(self.id.cmp(&other.id))
    }
}
