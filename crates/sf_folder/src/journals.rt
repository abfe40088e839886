//! A journal beside, and how it takes its place.
ghost use Rattle.std.specs.Prelude.{OnOk, OnErr};
ghost use Rattle.sf_journal.specs.Records.{head_with};
ghost use Rattle.sf_folder.specs.Calls.{Does, Tries};
ghost use Rattle.sf_folder.specs.Saves.{beginning_calls, journal_calls};
ghost use Rattle.sf_folder.specs.Renewals.{settling_calls, rewriting_calls, renewing_calls};

use super::choosing::Chosen;
use super::folder::Folder;
use super::names::Name;
use sf_journal::{FileSum, head};
use std::alloc::Global;
use std::io;

/// Begins a journal beside.
pub(crate) fn begin_journal<F: Folder>(folder: &mut F, head: &[u8]) -> io::Result<()>
    ensures done { OnOk result (Does (F.calls folder.old) (F.calls folder.new) (beginning_calls head.now)) }
    ensures tried { OnErr result (Tries (F.calls folder.old) (F.calls folder.new) (beginning_calls head.now)) }
{
    folder.begin(Name::JournalBeside)?;
    folder.write(Name::JournalBeside, head)
}

/// The journal beside takes its place.
pub(crate) fn place_journal<F: Folder>(folder: &mut F) -> io::Result<()>
    ensures done { OnOk result (Does (F.calls folder.old) (F.calls folder.new) journal_calls) }
    ensures tried { OnErr result (Tries (F.calls folder.old) (F.calls folder.new) journal_calls) }
{
    folder.rename(Name::JournalBeside, Name::Journal)?;
    folder.sync_folder()
}

/// A journal that a save has left beside takes its place, once that of the store is on the disk for certain.
fn settle<F: Folder>(folder: &mut F) -> io::Result<()>
    ensures done { OnOk result (Does (F.calls folder.old) (F.calls folder.new) settling_calls) }
    ensures tried { OnErr result (Tries (F.calls folder.old) (F.calls folder.new) settling_calls) }
{
    folder.sync_folder()?;
    place_journal(folder)
}

/// Writes a journal beside, and has it take its place.
fn rewrite<F: Folder>(folder: &mut F, head: &[u8], records: &[u8]) -> io::Result<()>
    ensures done { OnOk result (Does (F.calls folder.old) (F.calls folder.new) (rewriting_calls head.now records.now)) }
    ensures tried { OnErr result (Tries (F.calls folder.old) (F.calls folder.new) (rewriting_calls head.now records.now)) }
{
    folder.sync_folder()?;
    begin_journal(folder, head)?;
    folder.write(Name::JournalBeside, records)?;
    folder.sync(Name::JournalBeside)?;
    folder.sync_folder()?;
    place_journal(folder)
}

/// Writes the journal anew, with the head that names the file and these records. That is done at each opening: after a
/// sync that failed it isn't known whether what is read is on the disk.
///
/// # Errors
///
/// Where the folder fails or no memory is found. What was there opens as before, whatever was done.
pub fn renew<F: Folder>(
    folder: &mut F,
    alloc: Global,
    chosen: Chosen,
    file: &FileSum,
    records: &[u8],
) -> io::Result<()>
    ensures done { OnOk result (Does (F.calls folder.old) (F.calls folder.new)
        (renewing_calls chosen (head_with file.now.size file.now.digest) records.now)) }
    ensures tried { OnErr result (Tries (F.calls folder.old) (F.calls folder.new)
        (renewing_calls chosen (head_with file.now.size file.now.digest) records.now)) }
{
    let head = head(alloc, file)?;
    renew_with(folder, chosen, head.as_bytes(), records)
}

/// The same, with the head of the journal.
fn renew_with<F: Folder>(
    folder: &mut F,
    chosen: Chosen,
    head: &[u8],
    records: &[u8],
) -> io::Result<()>
    ensures done { OnOk result (Does (F.calls folder.old) (F.calls folder.new) (renewing_calls chosen head.now records.now)) }
    ensures tried { OnErr result (Tries (F.calls folder.old) (F.calls folder.new) (renewing_calls chosen head.now records.now)) }
{
    match chosen {
        Chosen::Beside => {
            settle(folder)?;
            rewrite(folder, head, records)
        }
        Chosen::UnderItsName | Chosen::NoneYet => rewrite(folder, head, records),
    }
}
