//! Features by a value in a column.
ghost use Rattle.std.specs.Prelude.{◌≡◌, ℕ, IfOk, IsTrue, Some, false, filter, nat_eq};
ghost use Rattle.std.specs.List.{Contains};
ghost use Rattle.std.specs.List.Sorted.{IsStrictlySortedBy};
ghost use Rattle.std.specs.Map.{keys_of, lookup};
ghost use Rattle.std.specs.Option.{option_map_or};
ghost use Rattle.std.specs.Ordering.{nat_cmp};
ghost use Rattle.sf_features.specs.Features.{FeatureContent};
ghost use Rattle.sf_layers.specs.Found.{has_value_that};

use super::value_test::ValueTest;
use sf_features::Feature;
use std::alloc::{AllocError, Global};
use std::collections::BTreeMap;

/// The identifiers of the features of which the value in the column of a number passes a test, rising. Each feature is looked at.
pub(crate) fn ids_among_all<T: ValueTest>(
    alloc: Global,
    features: &BTreeMap<u32, Feature>,
    number: u16,
    test: &T,
) -> Result<Vec<u32>, AllocError>
    ensures { IfOk result (λ ids. ids.items
        ≡ keys_of (filter (λ entry. has_value_that (T.test test.now) number entry.1) features.now.entries)) }
{
    let mut ids = Vec::new(alloc);
    for (id, feature) in features.iter() {
        if has_value(feature, number, test) {
            ids.push(*id)?;
        }
    }
    Ok(ids)
}

/// The same, where the identifiers of all these features are among those that are given, rising.
pub(crate) fn ids_among<T: ValueTest>(
    alloc: Global,
    features: &BTreeMap<u32, Feature>,
    number: u16,
    test: &T,
    given: &[u32],
) -> Result<Vec<u32>, AllocError>
    requires rising { IsStrictlySortedBy nat_cmp given.now }
    requires all { (id : ℕ) → (feature : FeatureContent) → lookup (nat_eq id) features.now.entries ≡ Some feature
        → IsTrue (has_value_that (T.test test.now) number feature) → Contains given.now id }
    ensures { IfOk result (λ ids. ids.items
        ≡ keys_of (filter (λ entry. has_value_that (T.test test.now) number entry.1) features.now.entries)) }
{
    // Its identifiers rise.
    let _ = features.len();
    ids_found(alloc, features, number, test, given)
}

// Those of these identifiers under which such a feature is there.
fn ids_found<T: ValueTest>(
    alloc: Global,
    features: &BTreeMap<u32, Feature>,
    number: u16,
    test: &T,
    given: &[u32],
) -> Result<Vec<u32>, AllocError>
    ensures { IfOk result (λ ids. ids.items ≡ filter (λ id. option_map_or
        (has_value_that (T.test test.now) number) (lookup (nat_eq id) features.now.entries) false) given.now) }
{
    let mut ids = Vec::new(alloc);
    for id in given {
        if is_found(features, number, test, *id) {
            ids.push(*id)?;
        }
    }
    Ok(ids)
}

// Whether there is a feature under an identifier of which the value passes the test.
fn is_found<T: ValueTest>(features: &BTreeMap<u32, Feature>, number: u16, test: &T, id: u32) -> bool
    ensures { result ≡ option_map_or
        (has_value_that (T.test test.now) number) (lookup (nat_eq id) features.now.entries) false }
{
    match features.get(&id) {
        Some(feature) => has_value(feature, number, test),
        None => false,
    }
}

// Whether a feature's value in the column of a number passes the test.
fn has_value<T: ValueTest>(feature: &Feature, number: u16, test: &T) -> bool
    ensures { result ≡ has_value_that (T.test test.now) number feature.now }
{
    match feature.value(number) {
        Some(value) => test.passes(value),
        None => false,
    }
}
