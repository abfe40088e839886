//! The answers to `check`.
ghost use Rattle.std.specs.Prelude.{◌≡◌, ◌⊎◌, ◌++◌, [], None, Some, IfErr, IfOk, OnOk, nat_lt, string_bytes};
ghost use Rattle.std.specs.Option.{option_map_or};
ghost use Rattle.sf_layers.specs.WellFormed.{id_end};
ghost use Rattle.sf_valid_rules.specs.Faults.{refusal_of as refusal_of_fault};
ghost use Rattle.sf_steps.specs.declared.edit.Edit.TheVariants.{AddFeature};
ghost use Rattle.sf_steps.specs.Steps.{checks, first_refusal};
ghost use Rattle.sf_console.specs.Answers.{line as line_of, refusal_line, reply_text};
ghost use Rattle.sf_console.specs.Checks.{checked as checked_words, place_words, refusal_words, refused_words, ring_words};

use super::reply::Reply;
use sf_faults::{Place, Spot, place_of};
use sf_geometry::Geometry;
use sf_layers::{ID_END, Layer, Store, Text};
use sf_refusals::Refusal;
use sf_steps::{Answer, Refusal as StepRefusal};
use sf_validity::{Fault, check};
use std::alloc::{AllocError, Global};

/// What adding the geometry to the layer would bring, without adding it. Behind a fault of shape stands its place.
pub(crate) fn checked(
    alloc: Global,
    store: &Store,
    layer: &Text,
    geometry: &Geometry,
) -> Result<Reply, Refusal>
    ensures { (reply_text result ≡ line_of (checked_words store.now layer.now geometry.now)) ⊎ (reply_text result ≡ refusal_line Refusal.Memory) }
{
    match try_addition(alloc, store, layer.as_str(), geometry) {
        Ok(()) => Ok(Reply::Accepted(Answer::Done)),
        Err(refusal) => refused(alloc, geometry, refusal),
    }
}

/// The refusal of an addition, with the place of a fault of shape.
fn refused(alloc: Global, geometry: &Geometry, refusal: StepRefusal) -> Result<Reply, Refusal>
    ensures { (reply_text result ≡ line_of (refused_words geometry.now refusal)) ⊎ (reply_text result ≡ refusal_line Refusal.Memory) }
{
    let StepRefusal::Invalid(fault) = refusal else {
        return Err(refusal.into());
    };
    let place = place_of(alloc, geometry, fault)?;
    Ok(Reply::Lines(fault_line(alloc, fault, place)?))
}

/// Makes the checks of an addition, in their order, and adds nothing.
///
/// # Errors
///
/// The refusal of the first check that fails; or `Memory`, where validity is looked at or would be.
fn try_addition(
    alloc: Global,
    store: &Store,
    layer: &str,
    geometry: &Geometry,
) -> Result<(), StepRefusal>
    ensures passed { OnOk result (first_refusal (checks store.now (AddFeature layer.now geometry.now)) ≡ None) }
    ensures refused { IfErr result (λ refusal. (refusal ≡ StepRefusal.Memory)
        ⊎ (first_refusal (checks store.now (AddFeature layer.now geometry.now)) ≡ Some refusal)) }
{
    let Some(layer) = store.layer(layer) else {
        return Err(StepRefusal::NoLayer);
    };
    if !layer.kind().admits(geometry.kind()) {
        return Err(StepRefusal::WrongKind);
    }
    if let Err(refusal) = geometry.check_size() {
        return Err(sf_validity::Refusal::from(refusal).into());
    }
    if let Err(refusal) = check(alloc, geometry) {
        return Err(refusal.into());
    }
    if !has_free_id(layer) {
        return Err(StepRefusal::IdsExhausted);
    }
    Ok(())
}

/// Whether the layer has an identifier left.
fn has_free_id(layer: &Layer) -> bool
    ensures { result ≡ nat_lt layer.now.next_id id_end }
{
    layer.next_id() < ID_END
}

/// The line of a refusal for a fault of shape, with its place.
fn fault_line(alloc: Global, fault: Fault, place: Option<Place>) -> Result<String, AllocError>
    ensures { IfOk result (λ text. string_bytes text ≡ line_of (refusal_words (refusal_of_fault fault) ++ option_map_or place_words place [])) }
{
    let refusal = Refusal::from(fault);
    let mut text = String::new(alloc);
    write!(text, "refused {} {}", refusal.number(), refusal.name())?;
    if let Some(place) = place {
        push_place(&mut text, place)?;
    }
    text.push('\n')?;
    Ok(text)
}

/// Adds the words of a place.
fn push_place(text: &mut String, place: Place) -> Result<(), AllocError>
    ensures { OnOk result (string_bytes text.new ≡ string_bytes text.old ++ place_words place) }
{
    match place {
        Place::Line { part } => write!(text, " line {part}")?,
        Place::Ring { ring } => push_ring(text, ring)?,
        Place::Edges {
            ring,
            first,
            second,
        } => {
            push_ring(text, ring)?;
            write!(text, " edges {first} {second}")?;
        }
        Place::Rings {
            first,
            first_edge,
            second,
            second_edge,
        } => {
            push_ring(text, first)?;
            write!(text, " edge {first_edge}")?;
            push_ring(text, second)?;
            write!(text, " edge {second_edge}")?;
        }
        Place::Hole { hole, edge: None } => push_ring(text, hole)?,
        Place::Hole {
            hole,
            edge: Some(edge),
        } => {
            push_ring(text, hole)?;
            write!(text, " edge {edge}")?;
        }
        Place::Holes {
            part,
            first,
            second,
        } => {
            push_ring(text, Spot { part, ring: first })?;
            push_ring(text, Spot { part, ring: second })?;
        }
        Place::Parts { first, second } => write!(text, " part {first} part {second}")?,
    }
    Ok(())
}

/// Adds the words of a ring.
fn push_ring(text: &mut String, ring: Spot) -> Result<(), AllocError>
    ensures { OnOk result (string_bytes text.new ≡ string_bytes text.old ++ ring_words ring) }
{
    write!(text, " ring {} {}", ring.part, ring.ring)?;
    Ok(())
}
