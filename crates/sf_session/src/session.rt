//! The whole session: the lines of its input, the saves between them, and the one at its end.
ghost use Rattle.std.specs.Prelude.{◌≡◌, [], IfErr, IfOk, OnErr, OnOk};
ghost use Rattle.sf_session.specs.Saving.{HasSaved, IsEnded, IsSumBehind, IsUnsaved, file_of};
ghost use Rattle.sf_session.specs.Answering.{IsUnkept, SavesAnswered};
ghost use Rattle.sf_session.specs.Sessions.{IsServed, IsSession, ServesAll};
ghost use Rattle.sf_session.specs.Faults.{BreaksOff, EndsBy, FailsServing, IsSaveFault};

use super::fault::SessionFault;
use super::home::Home;
use super::opening::{Begun, begin};
use sf_folder::{Source, save};
use sf_journal::{FileSum, Sum, head};
use sf_keeping::{Editor, Input, KeepFault, Pending, Stop, serve_kept};
use sf_loading::Ruled;
use sf_saving::SaveFault;
use std::alloc::Global;
use std::io::{ErrorKind, Read, Write};
use std::{io, mem};

/// Answers the lines of an input over a store that is kept: its lock is taken, its file loaded, and the edits of its journal
/// are replayed. What is accepted is in the journal before it is answered. At the end all is saved; or, where `keep` is asked
/// for, the journal has it.
///
/// # Errors
///
/// Where the lock, the file, the journal, the input or the output fails, and where no memory is found. What was answered is
/// kept.
pub fn run_session<H: Home, R: Read>(
    alloc: Global,
    home: &mut H,
    keep: bool,
    reader: &mut R,
) -> Result<(), SessionFault>
    // What was found, replayed, served and saved, in this order.
    ensures ok { OnOk result (IsSession keep (R.remaining reader.old) (R.remaining reader.new) (H.calls home.old) (H.calls home.new)) }

    // What was done before the fault.
    ensures fault { IfErr result (λ fault. EndsBy keep fault (R.remaining reader.old) (R.remaining reader.new) (H.calls home.old) (H.calls home.new)) }
{
    let begun = begin(alloc, home)?;
    let Begun { editor, sum } = begun;
    serve(alloc, home, keep, reader, editor, sum)
}

/// Answers the lines, and saves.
fn serve<H: Home, R: Read>(
    alloc: Global,
    home: &mut H,
    keep: bool,
    reader: &mut R,
    editor: Editor,
    sum: Sum,
) -> Result<(), SessionFault>
    ensures ok { OnOk result (IsServed keep
        (record { unread = R.remaining reader.old; ahead = []; calls = H.calls home.old; sum = sum; machine = editor })
        (R.remaining reader.new) (H.calls home.new)) }
    ensures fault { IfErr result (λ fault. FailsServing keep fault
        (record { unread = R.remaining reader.old; ahead = []; calls = H.calls home.old; sum = sum; machine = editor })
        (R.remaining reader.new) (H.calls home.new)) }
{
    let mut editor = editor;
    serve_all(alloc, &mut editor, sum, home, reader)?;
    if keep {
        return Ok(());
    }
    save_store(alloc, home, &editor)?;
    Ok(())
}

/// Answers all lines of the input, with a save where one asks for it. The sum is that behind the last record of the journal.
fn serve_all<H: Home, R: Read>(
    alloc: Global,
    editor: &mut Editor,
    sum: Sum,
    home: &mut H,
    reader: &mut R,
) -> Result<(), SessionFault>
    ensures ok { OnOk result (ServesAll
        (record { unread = R.remaining reader.old; ahead = []; calls = H.calls home.old; sum = sum; machine = editor.old })
        (R.remaining reader.new) (H.calls home.new) editor.new) }
    ensures fault { IfErr result (λ fault. BreaksOff fault
        (record { unread = R.remaining reader.old; ahead = []; calls = H.calls home.old; sum = sum; machine = editor.old })
        (R.remaining reader.new) (H.calls home.new)) }
{
    let Ok(mut pending) = Pending::new(alloc, sum) else {
        return Err(SessionFault::Serve(KeepFault::Memory));
    };
    let Ok(mut input) = Input::new(alloc) else {
        return Err(SessionFault::Serve(KeepFault::Memory));
    };
    serve_between_saves(alloc, editor, &mut pending, &mut input, sum, home, reader)
}

/// The same, with what waits to be kept, and what was read of the input.
fn serve_between_saves<H: Home, R: Read>(
    alloc: Global,
    editor: &mut Editor,
    pending: &mut Pending,
    input: &mut Input,
    sum: Sum,
    home: &mut H,
    reader: &mut R,
) -> Result<(), SessionFault>
    ensures ok { OnOk result (ServesAll
        (record { unread = R.remaining reader.old; ahead = input.old.rest; calls = H.calls home.old; sum = sum; machine = editor.old })
        (R.remaining reader.new) (H.calls home.new) editor.new) }
    ensures fault { IfErr result (λ fault. BreaksOff fault
        (record { unread = R.remaining reader.old; ahead = input.old.rest; calls = H.calls home.old; sum = sum; machine = editor.old })
        (R.remaining reader.new) (H.calls home.new)) }
{
    let mut sum = sum;
    for _ in 0..u64::MAX {
        match serve_kept(alloc, editor, pending, input, sum, reader, home) {
            Ok(Stop::Save) => sum = save_and_answer(alloc, editor, home)?,
            Ok(Stop::End) => return Ok(()),
            Err(fault) => return Err(SessionFault::Serve(fault)),
        }
    }
    Err(SessionFault::Serve(KeepFault::Memory))
}

/// Saves where a line asks for it, ends the history, and answers the line.
fn save_and_answer<H: Home>(
    alloc: Global,
    editor: &mut Editor,
    home: &mut H,
) -> Result<Sum, SessionFault>
    ensures ok { IfOk result (λ sum. SavesAnswered editor.old (H.calls home.old) (H.calls home.new) sum) }
    ensures ended { OnOk result (IsEnded editor.old editor.new) }
    ensures fault { IfErr result (λ fault. IsUnkept fault editor.old (H.calls home.old) (H.calls home.new)) }
{
    let sum = save_store(alloc, home, editor)?;
    end_history(alloc, editor);
    match home.answer(b"ok\n") {
        Ok(()) => Ok(sum),
        Err(_) => Err(SessionFault::Serve(KeepFault::Write)),
    }
}

/// Leaves the store and its rules to an editor without a past.
fn end_history(alloc: Global, editor: &mut Editor)
    ensures { IsEnded editor.old editor.new }
{
    let ended = mem::replace(editor, Editor::new(alloc));
    *editor = Editor::from_ruled(alloc, ended.into_ruled());
}

/// A store with its rules on its way to a file.
#[derive(Drop)]
struct Saved<'a>(&'a Ruled);

impl<'a> Source for Saved<'a> {
    ghost use Rattle.sf_saving.specs.Canonical.{canonical_ruled};

    ghost bytes = { λ s. canonical_ruled s.0.now };

    fn write_to<W: Write>(&self, alloc: Global, writer: &mut W) -> io::Result<()> {
        sf_saving::save(alloc, self.0, writer).map_err(|fault| match fault {
            SaveFault::Memory => io::Error::from(ErrorKind::OutOfMemory),
            SaveFault::Write => io::Error::from(ErrorKind::WriteZero),
        })
    }
}

/// Saves, and gives the sum behind the head of the new journal. Where another program has changed the store's file, nothing
/// takes its place, and the journal has all edits.
fn save_store<H: Home>(alloc: Global, home: &mut H, editor: &Editor) -> Result<Sum, SessionFault>
    ensures ok { IfOk result (λ sum. HasSaved (file_of editor.now) (H.calls home.old) (H.calls home.new) sum) }
    ensures unsaved { OnErr result (IsUnsaved (file_of editor.now) (H.calls home.old) (H.calls home.new)) }
    ensures fault { IfErr result IsSaveFault }
{
    check_known(home)?;
    save_known(alloc, home, editor)
}

/// Refuses to save where another program has changed the store's file. It is looked at once more before the rename; so nothing is
/// written beside for nothing.
fn check_known<H: Home>(home: &mut H) -> Result<(), SessionFault>
    ensures unchanged { H.calls home.new ≡ H.calls home.old }
    ensures fault { IfErr result IsSaveFault }
{
    match home.has_known_store() {
        Ok(true) => Ok(()),
        Ok(false) => Err(SessionFault::SaveChanged),
        Err(fault) => Err(save_fault(&fault)),
    }
}

/// Saves in the place of the file that is known.
fn save_known<H: Home>(alloc: Global, home: &mut H, editor: &Editor) -> Result<Sum, SessionFault>
    ensures ok { IfOk result (λ sum. HasSaved (file_of editor.now) (H.calls home.old) (H.calls home.new) sum) }
    ensures unsaved { OnErr result (IsUnsaved (file_of editor.now) (H.calls home.old) (H.calls home.new)) }
    ensures fault { IfErr result IsSaveFault }
{
    match save(home, alloc, &Saved(editor.ruled())) {
        Ok(file) => {
            home.know(file);
            first_of(alloc, &file)
        }
        Err(fault) => Err(save_fault(&fault)),
    }
}

/// Why a save failed.
fn save_fault(fault: &io::Error) -> SessionFault
    ensures { IsSaveFault result }
{
    match fault.kind() {
        ErrorKind::OutOfMemory => SessionFault::Save(SaveFault::Memory),
        ErrorKind::StaleNetworkFileHandle => SessionFault::SaveChanged,
        _ => SessionFault::Save(SaveFault::Write),
    }
}

/// The sum behind the head of the journal that goes on from a file.
fn first_of(alloc: Global, file: &FileSum) -> Result<Sum, SessionFault>
    ensures ok { IfOk result (IsSumBehind file.now.size file.now.digest) }
    ensures fault { IfErr result IsSaveFault }
{
    match head(alloc, file) {
        Ok(head) => Ok(Sum::of_head(head.as_bytes())),
        Err(_) => Err(SessionFault::Save(SaveFault::Memory)),
    }
}
