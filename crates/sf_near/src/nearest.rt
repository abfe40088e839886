//! The features of a layer that are nearest to a geometry, by the layer's index where it has one.

ghost use Rattle.std.specs.Prelude.{◌≡◌, ◌≤◌, length, map, take, IfOk, IsSome, OnOk, []};
ghost use Rattle.std.specs.List.{AllByRecursion, prefix_len};
ghost use Rattle.std.specs.Map.{keys_of};
ghost use Rattle.sf_layers.specs.Content.{feature_of, layer_of};
ghost use Rattle.sf_layers.specs.WellFormed.{IsLayer};
ghost use Rattle.sf_near.specs.Found.{AreEnough, AreTold, distance_at, is_told_nearer};
ghost use Rattle.sf_near.specs.Nearest.{in_order, is_nearer, put_in_order};
ghost use Rattle.sf_near.specs.Replies.{IsToldNearest};

use super::distant::Distant;
use super::near::ids_within;
use super::surroundings::Surroundings;
use sf_distance::Reach;
use sf_layers::{Layer, Store};
use sf_nearness::square_between;
use sf_query::Refusal;
use sf_validity::Valid;
use std::alloc::{AllocError, Global};

/// How often at most the features within some reach are looked at, each time within at least one and a half times as much: all that
/// the grid has are within the last.
const REACHES: u32 = 64;

/// In quarters, by how much the reach grows at least and at most.
const LEAST_QUARTERS: usize = 6;

const MOST_QUARTERS: usize = 16;

/// How many times as many features as are asked for are expected within the next reach, in sixteenths.
const EXPECTED: usize = 22;

/// The features of a layer that are nearest to the given geometry, so many at most, by their distance, of all points of the plane that
/// are not in an exterior; those at one distance by their identifiers. Fewer are told only where the layer has fewer.
///
/// # Errors
///
/// `NoLayer` exactly where no layer has the name; `Memory` in the place of an answer.
pub fn nearest_to(
    alloc: Global,
    store: &Store,
    layer: &str,
    count: u16,
    given: &Valid,
) -> Result<Vec<Distant>, Refusal>
    ensures { IsToldNearest (layer_of store.now layer.now) count given.now result }
{
    let Some(layer) = store.layer(layer) else {
        return Err(Refusal::NoLayer);
    };
    let count = usize::from(count);
    let ids = enough_ids(alloc, layer, count, given)?;
    Ok(nearest_among(alloc, layer, ids.as_slice(), count, given)?)
}

/// The identifiers of features among which the nearest are: of all that are within some reach, which are so many at least, or of all
/// that the layer has. The first reach is one grid step.
///
/// # Errors
///
/// Out of memory alone.
fn enough_ids(
    alloc: Global,
    layer: &Layer,
    count: usize,
    given: &Valid,
) -> Result<Vec<u32>, AllocError>
    requires { IsLayer layer.now }
    ensures { IfOk result (λ ids. AreEnough layer.now count given.now ids.items) }
{
    if count < layer.feature_count() && layer.index().is_some() {
        let mut thousandths = 1000;
        for _ in 0..REACHES {
            if let Some(reach) = Reach::of_thousandths(thousandths) {
                let around = Surroundings::new(alloc, given, reach)?;
                let ids = ids_within(alloc, layer, &around)?;
                if count <= ids.len() {
                    return Ok(ids);
                }
                thousandths = farther(thousandths, ids.len(), count);
            }
        }
    }
    all_ids(alloc, layer)
}

/// The next reach, in thousandths of a grid step, where so many features were found within this one and so many are asked for: as far
/// as some more than those are expected, if features are as many everywhere.
fn farther(thousandths: u64, found: usize, count: usize) -> u64 {
    let wanted = count.saturating_mul(EXPECTED);
    for quarters in LEAST_QUARTERS..MOST_QUARTERS {
        if found.saturating_mul(quarters).saturating_mul(quarters) >= wanted {
            return grown_by(thousandths, quarters);
        }
    }
    grown_by(thousandths, MOST_QUARTERS)
}

/// So many quarters of a reach.
fn grown_by(thousandths: u64, quarters: usize) -> u64 {
    thousandths.saturating_mul(quarters as u64) / 4
}

/// The identifiers of all features of a layer.
///
/// # Errors
///
/// Out of memory alone.
fn all_ids(alloc: Global, layer: &Layer) -> Result<Vec<u32>, AllocError>
    ensures { IfOk result (λ ids. ids.items ≡ keys_of layer.now.features) }
{
    let mut ids = Vec::with_capacity(alloc, layer.feature_count())?;
    for (id, _) in layer.features() {
        ids.push(*id)?;
    }
    Ok(ids)
}

/// Of the features under these identifiers the nearest ones, in their order, so many at most.
///
/// # Errors
///
/// Out of memory alone.
fn nearest_among(
    alloc: Global,
    layer: &Layer,
    ids: &[u32],
    count: usize,
    given: &Valid,
) -> Result<Vec<Distant>, AllocError>
    requires { AllByRecursion (λ id. IsSome (feature_of layer.now id)) ids.now }
    ensures { IfOk result (λ found. AreTold found.items (take count (in_order is_nearer [] (map (distance_at layer.now given.now) ids.now)))) }
{
    let mut found = Vec::new(alloc);
    for id in ids {
        let feature = layer.feature(*id).unwrap();
        let square = square_between(alloc, feature.valid(), given)?;
        keep(&mut found, Distant { id: *id, square }, count)?;
    }
    Ok(found)
}

/// Puts a feature in order among those that are kept, where it is one of the nearest so many.
///
/// # Errors
///
/// Out of memory alone; the others are kept as they were then.
fn keep(found: &mut Vec<Distant>, distant: Distant, count: usize) -> Result<(), AllocError>
    requires { length found.old.items ≤ count }
    ensures kept { OnOk result (found.new.items ≡ take count (put_in_order is_told_nearer distant found.old.items)) }
    ensures few { length found.new.items ≤ count }
{
    let place = place_of(found.as_slice(), &distant);
    if place < count {
        found.insert(place, distant)?;
        found.truncate(count);
    }
    Ok(())
}

/// How many features at the front are nearer than this one.
fn place_of(found: &[Distant], distant: &Distant) -> usize
    ensures { result ≡ prefix_len (λ kept. is_told_nearer kept distant.now) found.now }
{
    found
        .iter()
        .take_while(|kept| kept.is_nearer(distant))
        .count()
}
