//! Values in an order in which most are told apart by a number that is made of them.

ghost use Rattle.std.specs.Prelude.{◌≡◌, IfOk, Some, refl};
ghost use Rattle.std.specs.Cmp.{eq_by_cmp_equiv, partial_equiv_from_equiv, partial_order_from_agreeing_total};
ghost use Rattle.std.specs.Ordering.{eq_by_cmp};
ghost use Rattle.sf_rules.specs.Digests.{digest_from, digest_of, digested, digested_cmp};
ghost use Rattle.sf_rules.specs.DigestOrder.{digested_total};

use sf_layers::{AttrValue, ValueKey};
use std::alloc::{AllocError, Global};
use std::cmp::Ordering;

/// What a byte more multiplies a digest by: an odd number that spreads the bits, that of Fowler, Noll and Vo.
const MULTIPLIER: u64 = 1_099_511_628_211;

/// A value with a feature's identifier, and a number that is made of the value. Two texts are compared only where their numbers
/// are one: they stand elsewhere in memory, and to come to them is what takes time.
#[derive(Drop)]
pub(crate) struct Digested {
    pub(crate) digest: u64,
    pub(crate) key: ValueKey,
}

impl Digested {
    /// A copy of a value with an identifier.
    pub(crate) fn of(alloc: Global, value: &AttrValue, id: u32) -> Result<Digested, AllocError>
        ensures { IfOk result (λ found. found ≡ digested value.now id) }
    {
        Ok(Digested {
            digest: digest(value),
            key: ValueKey::of(alloc, value, id)?,
        })
    }
}

/// The number of a value: one of the bytes of a text, and 0 of all others.
fn digest(value: &AttrValue) -> u64
    ensures { result ≡ digest_of value.now }
{
    match value {
        AttrValue::Text(text) => digest_bytes(text.as_str().as_bytes()),
        AttrValue::Int(_)
        | AttrValue::Decimal(_)
        | AttrValue::Bool(_)
        | AttrValue::Date(_)
        | AttrValue::DateTime(_) => 0,
    }
}

/// The number of bytes.
fn digest_bytes(bytes: &[u8]) -> u64
    ensures { result ≡ digest_from 0 bytes.now }
{
    let mut digest = 0_u64;
    for byte in bytes {
        digest = digest
            .wrapping_mul(MULTIPLIER)
            .wrapping_add(u64::from(*byte));
    }
    digest
}

impl PartialEq for Digested {
    ghost eq = { eq_by_cmp digested_cmp };

    ghost laws = { partial_equiv_from_equiv (eq_by_cmp_equiv digested_total) };

    fn eq(&self, other: &Digested) -> bool {
        self.cmp(other).is_eq()
    }
}

impl Eq for Digested {
    ghost laws = { eq_by_cmp_equiv digested_total };
}

impl PartialOrd for Digested {
    ghost partial_cmp = { λ x y. Some (digested_cmp x y) };

    ghost laws = { partial_order_from_agreeing_total digested_cmp digested_total (λ x y. refl) (λ x y. refl) };

    fn partial_cmp(&self, other: &Digested) -> Option<Ordering> {
        Some(self.cmp(other))
    }
}

impl Ord for Digested {
    ghost cmp = { digested_cmp };

    ghost total = { digested_total };

    ghost matches_partial_cmp = { λ x y. refl };

    ghost matches_eq = { λ x y. refl };

    fn cmp(&self, other: &Digested) -> Ordering {
        match self.digest.cmp(&other.digest) {
            Ordering::Equal => self.key.cmp(&other.key),
            unequal => unequal,
        }
    }
}
