//! Which of two journals counts.
ghost use Rattle.std.specs.Prelude.{Decides, IfOk, option_map};
ghost use Rattle.sf_journal.specs.Records.{head_with};
ghost use Rattle.sf_folder.specs.Openings.{HasHead};
ghost use Rattle.sf_folder.specs.Renewals.{Chooses};

use sf_journal::{FileSum, head};
use std::alloc::{AllocError, Global};

/// The journal that counts.
#[derive(Clone, Copy, Debug, PartialEq, Eq)]
pub enum Chosen {
    /// The one under its name.
    UnderItsName,
    /// The one beside: a save was ended before it took its place.
    Beside,
    /// There is none yet.
    NoneYet,
}

/// Whether a journal is there and begins with a head.
fn has_head(head: &[u8], journal: Option<&[u8]>) -> bool
    ensures { Decides result (HasHead head.now (option_map (λ bytes. bytes.now) journal.entry)) }
{
    match journal {
        Some(bytes) => bytes.starts_with(head),
        None => false,
    }
}

/// Which of two journals goes on from a file; None where one is there and neither does.
fn chosen_by(head: &[u8], journal: Option<&[u8]>, beside: Option<&[u8]>) -> Option<Chosen>
    ensures { Chooses head.now (option_map (λ bytes. bytes.now) journal.entry) (option_map (λ bytes. bytes.now) beside.entry) result }
{
    if has_head(head, journal) {
        Some(Chosen::UnderItsName)
    } else if has_head(head, beside) {
        Some(Chosen::Beside)
    } else if journal.is_none() {
        Some(Chosen::NoneYet)
    } else {
        None
    }
}

/// Which of two journals goes on from a store's file: that under its name, else that beside; there is none yet where none
/// is under its name and none beside goes on from the file. Otherwise None: the journal is of another file.
///
/// # Errors
///
/// Where no memory is found.
pub fn choose(
    alloc: Global,
    file: &FileSum,
    journal: Option<&[u8]>,
    beside: Option<&[u8]>,
) -> Result<Option<Chosen>, AllocError>
    ensures { IfOk result (λ chosen. Chooses (head_with file.now.size file.now.digest)
        (option_map (λ bytes. bytes.now) journal.entry) (option_map (λ bytes. bytes.now) beside.entry) chosen) }
{
    let head = head(alloc, file)?;
    Ok(chosen_by(head.as_bytes(), journal, beside))
}
