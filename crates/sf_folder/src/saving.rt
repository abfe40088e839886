//! A save: a new file beside, then a new journal beside, and then each takes its place.
ghost use Rattle.std.specs.Prelude.{OnOk, OnErr, IfOk};
ghost use Rattle.sf_journal.specs.Records.{head_with};
ghost use Rattle.sf_folder.specs.Calls.{Does, Tries};
ghost use Rattle.sf_folder.specs.Saves.{Saves, TriesToSave, finishing_calls, placing_calls};

use super::beside::{Source, write_beside};
use super::folder::Folder;
use super::journals::{begin_journal, place_journal};
use super::names::Name;
use sf_journal::{FileSum, head};
use std::alloc::Global;
use std::io;

/// Saves: the file and the journal of a store are those of the source when this returns, and no crash leaves a mixture.
///
/// # Errors
///
/// Where the folder fails or no memory is found. It isn't known then what is on the disk: open the store anew.
pub fn save<F: Folder, S: Source>(folder: &mut F, alloc: Global, source: &S) -> io::Result<FileSum>
    ensures done { IfOk result (λ file. Saves (S.bytes source.now) file.size file.digest (F.calls folder.old) (F.calls folder.new)) }
    ensures tried { OnErr result (TriesToSave (S.bytes source.now) (F.calls folder.old) (F.calls folder.new)) }
{
    folder.begin(Name::StoreBeside)?;
    let file = write_beside(folder, alloc, source)?;
    finish(folder, alloc, &file)?;
    Ok(file)
}

/// Writes the new journal beside, and then both take their places.
fn finish<F: Folder>(folder: &mut F, alloc: Global, file: &FileSum) -> io::Result<()>
    ensures done { OnOk result (Does (F.calls folder.old) (F.calls folder.new) (finishing_calls (head_with file.now.size file.now.digest))) }
    ensures tried { OnErr result (Tries (F.calls folder.old) (F.calls folder.new) (finishing_calls (head_with file.now.size file.now.digest))) }
{
    let head = head(alloc, file)?;
    finish_with(folder, head.as_bytes())
}

/// The same, with the head of the new journal.
fn finish_with<F: Folder>(folder: &mut F, head: &[u8]) -> io::Result<()>
    ensures done { OnOk result (Does (F.calls folder.old) (F.calls folder.new) (finishing_calls head.now)) }
    ensures tried { OnErr result (Tries (F.calls folder.old) (F.calls folder.new) (finishing_calls head.now)) }
{
    folder.sync(Name::StoreBeside)?;
    begin_journal(folder, head)?;
    folder.sync(Name::JournalBeside)?;
    folder.sync_folder()?;
    place(folder)
}

/// The file beside takes its place, and then the journal beside.
fn place<F: Folder>(folder: &mut F) -> io::Result<()>
    ensures done { OnOk result (Does (F.calls folder.old) (F.calls folder.new) placing_calls) }
    ensures tried { OnErr result (Tries (F.calls folder.old) (F.calls folder.new) placing_calls) }
{
    folder.rename(Name::StoreBeside, Name::Store)?;
    folder.sync_folder()?;
    place_journal(folder)
}
