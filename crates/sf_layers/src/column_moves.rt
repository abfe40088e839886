ghost use Rattle.std.specs.Prelude.{◌≡◌, ◌≤◌, ◌+◌, List, IfOk, IsSome, None, OnErr, OnOk, count_by, is_some, length, nat_eq, vec_capacity, vec_len, zip};
ghost use Rattle.std.specs.List.{AllByRecursion};
ghost use Rattle.std.specs.List.Sorted.{IsStrictlySortedBy};
ghost use Rattle.std.specs.Map.{keys_of, lookup, values_of};
ghost use Rattle.std.specs.Ordering.{nat_cmp};
ghost use Rattle.sf_features.specs.declared.attr_value.AttrValue.{AttrValue as Attr};
ghost use Rattle.sf_features.specs.Features.{value_in};
ghost use Rattle.sf_layers.specs.Moves.{Features, IsTaking, put_each, values_in};

use sf_features::{AttrValue, Feature};
use std::alloc::{AllocError, Global};
use std::collections::BTreeMap;

/// How many features have a value in the column of a number.
fn count_values(features: &BTreeMap<u32, Feature>, number: u16) -> usize
    ensures { result ≡ count_by (λ feature. is_some (value_in number feature)) (values_of features.now.entries) }
{
    features
        .values()
        .filter(|feature| feature.value(number).is_some())
        .count()
}

/// The identifiers of the features that have a value in the column of a number, rising.
pub(crate) fn ids_with_value(
    alloc: Global,
    features: &BTreeMap<u32, Feature>,
    number: u16,
) -> Result<Vec<u32>, AllocError>
    ensures ids { IfOk result (λ ids. ids.items ≡ keys_of (values_in number features.now.entries)) }
    ensures rising { OnOk result (IsStrictlySortedBy nat_cmp (keys_of features.now.entries)) }
{
    let mut ids = Vec::with_capacity(alloc, count_values(features, number))?;
    for (id, feature) in features.iter() {
        if feature.value(number).is_some() {
            ids.push(*id)?;
        }
    }
    Ok(ids)
}

/// Removes the values of the features of these identifiers from a column, and gives them. It begins with the
/// identifier whose place is the number of values that are there already.
pub(crate) fn take_from(
    features: &mut BTreeMap<u32, Feature>,
    number: u16,
    ids: &[u32],
    values: &mut Vec<AttrValue>,
)
    requires room { length ids.now ≤ vec_capacity values.old }
    requires there { (after : Features) × ((all : List Attr)
        × IsTaking number ids.now after all features.old.entries (vec_len values.old) values.old.items) }
    ensures taken { (after : Features) → (all : List Attr)
        → IsTaking number ids.now after all features.old.entries (vec_len values.old) values.old.items
        → (features.new.entries ≡ after) × (values.new.items ≡ all) }
    ensures capacity { vec_capacity values.old ≤ vec_capacity values.new }
{
    while values.len() < ids.len() {
        let id = ids[values.len()];
        let value = match features.get_mut(&id) {
            Some(feature) => feature.take_value(number).unwrap(),
            None => unreachable!(),
        };
        values.push(value).unwrap();
    }
}

/// Puts values into a column of the features of these identifiers, in which none of them has one.
///
/// # Errors
///
/// Where no memory is found, nothing is changed.
pub(crate) fn put_all(
    features: &mut BTreeMap<u32, Feature>,
    number: u16,
    ids: &[u32],
    values: &mut Vec<AttrValue>,
) -> Result<(), AllocError>
    requires full { vec_len values.old ≡ length ids.now }
    requires room { length ids.now ≤ vec_capacity values.old }
    requires rising { IsStrictlySortedBy nat_cmp ids.now }
    requires there { AllByRecursion (λ id. IsSome (lookup (nat_eq id) features.old.entries)) ids.now }
    requires bare { AllByRecursion (λ feature. value_in number feature ≡ None)
        (values_of features.old.entries) }
    ensures put { OnOk result (features.new.entries
        ≡ put_each number (zip ids.now values.old.items) features.old.entries) }
    ensures kept { OnErr result (features.new.entries ≡ features.old.entries) }
    ensures values { OnErr result (values.new.items ≡ values.old.items) }
    ensures capacity { vec_capacity values.old ≤ vec_capacity values.new }
{
    while let Some(value) = values.pop() {
        let id = ids[values.len()];
        let put = match features.get_mut(&id) {
            Some(feature) => feature.put_value(number, value),
            None => unreachable!(),
        };
        if let Some(value) = put.err() {
            values.push(value).unwrap();
            take_from(features, number, ids, values);
            return Err(AllocError);
        }
    }
    Ok(())
}
