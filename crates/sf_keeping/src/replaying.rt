//! The edits of a journal, replayed.
ghost use Rattle.std.specs.Prelude.{◌≡◌, ◌⊎◌, Err, None, Some, IfOk, IfErr, OnOk};
ghost use Rattle.sf_console.specs.Readings.{text_reading};
ghost use Rattle.sf_keeping.specs.Changes.{changed};
ghost use Rattle.sf_keeping.specs.Replays.{FailsAt, IsReplayed};

use super::carrying::{Outcome, carry_out};
use sf_console::{Editor, Reply};
use sf_journal::Sum;
use sf_refusals::Refusal;
use sf_text_lines::line_feed;
use std::alloc::Global;

/// What the records of a journal gave.
#[derive(Clone, Copy)]
pub struct Replayed {
    /// The sum behind the last whole record.
    pub sum: Sum,
    /// How many bytes the whole records are.
    pub whole: usize,
    /// Whether a record behind them was not written to its end.
    pub is_cut_short: bool,
}

/// Why the records of a journal could not be replayed. Places are bytes behind the head.
#[derive(Clone, Copy, Debug, PartialEq, Eq)]
pub enum ReplayFault {
    Memory,
    /// What stands there is no record behind those before it.
    Damaged(usize),
    /// The record's text is no edit and no group that is accepted there.
    NotAccepted(usize),
}

/// Replays the edit of a record, which stands at that place.
fn replay_text(
    alloc: Global,
    editor: &mut Editor,
    text: &[u8],
    place: usize,
) -> Result<(), ReplayFault>
    ensures ok { OnOk result (changed editor.old (text_reading text.now) ≡ Some editor.new) }
    ensures fault { IfErr result (λ fault. (fault ≡ ReplayFault.Memory)
        ⊎ ((fault ≡ ReplayFault.NotAccepted place) × (changed editor.old (text_reading text.now) ≡ None))) }
{
    match carry_out(alloc, editor, text) {
        Outcome::Changed(_) | Outcome::Grouped(_) => Ok(()),
        Outcome::Told(told) => Err(refused_by(told, place)),
    }
}

/// Why a record is refused that is answered so, and stands at that place.
fn refused_by(told: Result<Reply, Refusal>, place: usize) -> ReplayFault
    ensures memory { told ≡ Err Refusal.Memory → result ≡ ReplayFault.Memory }
    ensures either { (result ≡ ReplayFault.Memory) ⊎ (result ≡ ReplayFault.NotAccepted place) }
{
    match told {
        Err(Refusal::Memory) => ReplayFault::Memory,
        _ => ReplayFault::NotAccepted(place),
    }
}

/// Replays the edits of the records behind the head of a journal. The sum is that behind the head.
///
/// # Errors
///
/// `Damaged` and `NotAccepted` with the place of the record, `Memory` where none is found. What was done before stays.
pub fn replay(
    alloc: Global,
    editor: &mut Editor,
    sum: Sum,
    bytes: &[u8],
) -> Result<Replayed, ReplayFault>
    ensures ok { IfOk result (λ done. IsReplayed sum bytes.now editor.old done editor.new) }
    ensures fault { IfErr result (λ fault. FailsAt sum bytes.now editor.old fault) }
{
    let mut sum = sum;
    let mut rest = bytes;
    while let Some(end) = line_feed(rest) {
        let place = bytes.len() - rest.len();
        let Some(text) = sum.text_of(rest.split_at(end).0) else {
            return Err(ReplayFault::Damaged(place));
        };
        replay_text(alloc, editor, text, place)?;
        sum = sum.with(text);
        rest = rest.split_at(end + 1).1;
    }
    Ok(Replayed {
        sum,
        whole: bytes.len() - rest.len(),
        is_cut_short: !rest.is_empty(),
    })
}
