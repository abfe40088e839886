//! The lines of a reader, answered once they are kept.
ghost use Rattle.std.specs.Prelude.{◌≡◌, ◌≤◌, ◌<◌, ◌+◌, ◌∷◌, ℕ, List, [], true, false, length, option_copied, IfErr, IfOk, OnOk};
ghost use Rattle.sf_text_lines.specs.Lines.{HasNoFeed, line_max, text_of};
ghost use Rattle.sf_text_lines.specs.Buffers.{IsBufferOf};
ghost use Rattle.sf_console.specs.History.{Machine};
ghost use Rattle.sf_console.specs.Answers.{reply_text};
ghost use Rattle.sf_keeping.specs.Waiting.{nothing_waits};
ghost use Rattle.sf_keeping.specs.Saves.{is_save as is_save_of, AskForNone};
ghost use Rattle.sf_console.specs.Requests.{Gathering, Request, line_request};
ghost use Rattle.sf_console.specs.Gatherings.{Asks, IsGrouped, IsHeld};
ghost use Rattle.sf_keeping.specs.Waiting.{with_answer, with_text};
ghost use Rattle.sf_keeping.specs.Underway.{Stays, Breaks, GoesOnBy, BreaksWithin, IsLineText, IsRequestOf, IsTold, TakesLines, TakesSave, BreaksLines, Finishes, asked_at_end, gathered_by, last_asked, last_left};
ghost use Rattle.sf_keeping.specs.Serving.{ServesKept, EndsKept};

use super::carrying::{Outcome, carry_out};
use super::desk::{Desk, KeepFault};
use super::input::Input;
use super::pending::Pending;
use sf_console::{
    AnswerLine, Editor, GroupLines, LineAsks, Reply, answer_end, matrix_line, whole_line,
};
use sf_journal::Sum;
use sf_refusals::Refusal;
use sf_streams::READS_MAX;
use sf_text_lines::{LINE_MAX, LineBuffer, without_return};
use std::alloc::Global;
use std::io::Read;

/// Where serving stops.
#[derive(Clone, Copy, Debug, PartialEq, Eq)]
pub enum Stop {
    /// Behind a line that asks for a save, which is not answered yet.
    Save,
    /// At the end of the input.
    End,
}

/// How long the answer of an accepted edit is at most, in bytes; that of a group is at most this longer than its text.
const ACCEPTED_MAX: usize = 48;

/// Whether a line that had its line feed asks for a save.
fn asks_for_save(line: &LineBuffer) -> bool
    ensures { (bytes : List ℕ) → IsBufferOf bytes line.now →
        result ≡ is_save_of (text_of (record { bytes = bytes; ended = true })) }
{
    match line.line() {
        Some(bytes) => without_return(bytes) == b"save".as_slice(),
        None => false,
    }
}

/// Makes room for the longest record of a line, and for the answer to a text of so many bytes: where there is none, what waits
/// is kept.
fn make_room<D: Desk>(pending: &mut Pending, desk: &mut D, text: usize) -> Result<(), KeepFault>
    requires { text ≤ line_max }
    ensures records { OnOk result (length pending.new.records + 4194322 ≤ 8388608) }
    ensures answers { OnOk result (length pending.new.answers + (text + 48) ≤ 8388608) }
    ensures ok { OnOk result (Stays (D.calls desk.old) (D.calls desk.new) pending.old pending.new) }
    ensures broken { IfErr result (λ fault. Breaks fault (D.calls desk.old) (D.calls desk.new) pending.old) }
{
    if pending.has_room_for_a_record() && pending.has_room_for(text + ACCEPTED_MAX) {
        return Ok(());
    }
    pending.commit(desk)
}

/// Has an answer wait, where there is room for it; else it goes behind what waits.
fn tell<D: Desk>(pending: &mut Pending, desk: &mut D, answer: &[u8]) -> Result<(), KeepFault>
    ensures ok { OnOk result ((machine : Machine) (request : Request) → IsTold machine request answer.now →
        GoesOnBy (D.calls desk.old) (D.calls desk.new) pending.old machine (request ∷ []) pending.new machine) }
    ensures broken { IfErr result (λ fault. (machine : Machine) (request : Request) → IsTold machine request answer.now →
        BreaksWithin fault (D.calls desk.old) (D.calls desk.new) pending.old machine (request ∷ []) machine) }
{
    if pending.has_room_for(answer.len()) {
        pending.put(answer);
        return Ok(());
    }
    tell_behind(pending, desk, answer)
}

/// Keeps what waits, and then has an answer wait; one that is longer than all the room is put out at once.
fn tell_behind<D: Desk>(pending: &mut Pending, desk: &mut D, answer: &[u8]) -> Result<(), KeepFault>
    ensures ok { OnOk result ((machine : Machine) (request : Request) → IsTold machine request answer.now →
        GoesOnBy (D.calls desk.old) (D.calls desk.new) pending.old machine (request ∷ []) pending.new machine) }
    ensures broken { IfErr result (λ fault. (machine : Machine) (request : Request) → IsTold machine request answer.now →
        BreaksWithin fault (D.calls desk.old) (D.calls desk.new) pending.old machine (request ∷ []) machine) }
{
    pending.commit(desk)?;
    if pending.has_room_for(answer.len()) {
        pending.put(answer);
        return Ok(());
    }
    desk.answer(answer)?;
    Ok(())
}

/// Has a reply wait, which changed nothing.
fn tell_reply<D: Desk>(
    pending: &mut Pending,
    desk: &mut D,
    reply: Result<Reply, Refusal>,
) -> Result<(), KeepFault>
    ensures ok { OnOk result ((machine : Machine) (request : Request) → IsTold machine request (reply_text reply) →
        GoesOnBy (D.calls desk.old) (D.calls desk.new) pending.old machine (request ∷ []) pending.new machine) }
    ensures broken { IfErr result (λ fault. (machine : Machine) (request : Request) → IsTold machine request (reply_text reply) →
        BreaksWithin fault (D.calls desk.old) (D.calls desk.new) pending.old machine (request ∷ []) machine) }
{
    match reply {
        Ok(Reply::Nothing) => tell(pending, desk, &[]),
        Ok(Reply::Accepted(answer)) => tell(pending, desk, AnswerLine::accepted(answer).as_bytes()),
        Ok(Reply::Lines(text)) => tell(pending, desk, text.as_bytes()),
        Ok(Reply::Truth(is)) => tell(pending, desk, AnswerLine::truth(is).as_bytes()),
        Ok(Reply::Extent(extent)) => tell(pending, desk, AnswerLine::extent(extent).as_bytes()),
        Ok(Reply::Matrix(matrix)) => tell(pending, desk, &matrix_line(&matrix)),
        Ok(Reply::Identifiers(text)) => tell(pending, desk, text.as_slice()),
        Ok(Reply::MemberRefused(number, refusal)) => {
            tell(
                pending,
                desk,
                AnswerLine::member_refused(number, refusal).as_bytes(),
            )
        }
        Err(refusal) => tell(pending, desk, AnswerLine::refused(refusal).as_bytes()),
    }
}

/// Carries out a text that is no longer than a line. Where it is accepted as an edit, a group, an undo or a redo, its record
/// waits, and its answer behind that.
fn keep_short<D: Desk>(
    alloc: Global,
    editor: &mut Editor,
    pending: &mut Pending,
    desk: &mut D,
    text: &[u8],
) -> Result<(), KeepFault>
    requires { length text.now ≤ line_max }
    ensures ok { OnOk result ((request : Request) → IsRequestOf request text.now →
        GoesOnBy (D.calls desk.old) (D.calls desk.new) pending.old editor.old (request ∷ []) pending.new editor.new) }
    ensures broken { IfErr result (λ fault. (request : Request) → IsRequestOf request text.now →
        BreaksWithin fault (D.calls desk.old) (D.calls desk.new) pending.old editor.old (request ∷ []) editor.new) }
{
    make_room(pending, desk, text.len())?;
    match carry_out(alloc, editor, text) {
        Outcome::Changed(answer) => {
            keep_answered(pending, text, AnswerLine::accepted(answer).as_bytes())
        }
        Outcome::Grouped(answer) => keep_answered(pending, text, answer.as_slice()),
        Outcome::Told(reply) => tell_reply(pending, desk, reply),
    }
}

/// Has the record of a text wait that was accepted, and its answer behind that. There is room for both.
fn keep_answered(pending: &mut Pending, text: &[u8], answer: &[u8]) -> Result<(), KeepFault>
    requires line { length text.now ≤ line_max }
    requires records { length pending.old.records + 4194322 ≤ 8388608 }
    requires answers { length pending.old.answers + (length text.now + 48) ≤ 8388608 }
    ensures ok { OnOk result (pending.new ≡ with_answer (with_text pending.old text.now) answer.now) }
    ensures wanting { IfErr result (λ fault. fault ≡ KeepFault.Memory) }
{
    // Of an edit no answer is longer, and of a group each identifier is shorter than its member: this never comes.
    if answer.len() > text.len() + ACCEPTED_MAX {
        return Err(KeepFault::Memory);
    }
    pending.keep(text);
    pending.put(answer);
    Ok(())
}

/// Carries out a text, however long it is. Only that of a group is longer than a line.
fn keep_text<D: Desk>(
    alloc: Global,
    editor: &mut Editor,
    pending: &mut Pending,
    desk: &mut D,
    text: &[u8],
) -> Result<(), KeepFault>
    ensures ok { OnOk result ((request : Request) → IsRequestOf request text.now → (line_max < length text.now → IsGrouped request.reading) →
        GoesOnBy (D.calls desk.old) (D.calls desk.new) pending.old editor.old (request ∷ []) pending.new editor.new) }
    ensures broken { IfErr result (λ fault. (request : Request) → IsRequestOf request text.now → (line_max < length text.now → IsGrouped request.reading) →
        BreaksWithin fault (D.calls desk.old) (D.calls desk.new) pending.old editor.old (request ∷ []) editor.new) }
{
    if text.len() > LINE_MAX {
        keep_long(alloc, editor, pending, desk, text)
    } else {
        keep_short(alloc, editor, pending, desk, text)
    }
}

/// Carries out the text of a group that is longer than a line, once all that waits is kept. Where it is accepted, it is kept
/// and answered at once.
fn keep_long<D: Desk>(
    alloc: Global,
    editor: &mut Editor,
    pending: &mut Pending,
    desk: &mut D,
    text: &[u8],
) -> Result<(), KeepFault>
    ensures ok { OnOk result ((request : Request) → IsRequestOf request text.now → IsGrouped request.reading →
        GoesOnBy (D.calls desk.old) (D.calls desk.new) pending.old editor.old (request ∷ []) pending.new editor.new) }
    ensures broken { IfErr result (λ fault. (request : Request) → IsRequestOf request text.now → IsGrouped request.reading →
        BreaksWithin fault (D.calls desk.old) (D.calls desk.new) pending.old editor.old (request ∷ []) editor.new) }
{
    pending.commit(desk)?;
    // The record is made first: where no memory is found for it, nothing was changed yet.
    let Ok(record) = pending.record_of(alloc, text) else {
        return tell_reply(pending, desk, Err(Refusal::Memory));
    };
    match carry_out(alloc, editor, text) {
        Outcome::Changed(answer) => {
            let answer = AnswerLine::accepted(answer);
            pending.keep_at_once(desk, text, record.as_slice(), answer.as_bytes())
        }
        Outcome::Grouped(answer) => {
            pending.keep_at_once(desk, text, record.as_slice(), answer.as_slice())
        }
        Outcome::Told(reply) => tell_reply(pending, desk, reply),
    }
}

/// Carries out what a line asks.
fn keep_asked<D: Desk>(
    alloc: Global,
    editor: &mut Editor,
    pending: &mut Pending,
    desk: &mut D,
    line: Option<&[u8]>,
    asks: LineAsks,
) -> Result<(), KeepFault>
    ensures ok { OnOk result ((request : Request) → Asks (option_copied line.entry) request asks → IsLineText (option_copied line.entry) →
        GoesOnBy (D.calls desk.old) (D.calls desk.new) pending.old editor.old (request ∷ []) pending.new editor.new) }
    ensures broken { IfErr result (λ fault. (request : Request) → Asks (option_copied line.entry) request asks → IsLineText (option_copied line.entry) →
        BreaksWithin fault (D.calls desk.old) (D.calls desk.new) pending.old editor.old (request ∷ []) editor.new) }
{
    match asks {
        LineAsks::Nothing => tell_reply(pending, desk, Ok(Reply::Nothing)),
        LineAsks::Itself => keep_alone(alloc, editor, pending, desk, line),
        LineAsks::Group(text) => keep_text(alloc, editor, pending, desk, text.as_bytes()),
        LineAsks::Lost => tell_reply(pending, desk, Err(Refusal::Memory)),
    }
}

/// Carries out a line that asks something by itself.
fn keep_alone<D: Desk>(
    alloc: Global,
    editor: &mut Editor,
    pending: &mut Pending,
    desk: &mut D,
    line: Option<&[u8]>,
) -> Result<(), KeepFault>
    ensures ok { OnOk result (IsLineText (option_copied line.entry) →
        GoesOnBy (D.calls desk.old) (D.calls desk.new) pending.old editor.old (line_request (option_copied line.entry) ∷ []) pending.new editor.new) }
    ensures broken { IfErr result (λ fault. IsLineText (option_copied line.entry) →
        BreaksWithin fault (D.calls desk.old) (D.calls desk.new) pending.old editor.old (line_request (option_copied line.entry) ∷ []) editor.new) }
{
    match line {
        Some(text) => keep_text(alloc, editor, pending, desk, text),
        None => tell_reply(pending, desk, Err(Refusal::LineTooLong)),
    }
}

/// Carries out a line that had its line feed, by itself or as one of a group.
fn keep_line<D: Desk>(
    alloc: Global,
    editor: &mut Editor,
    pending: &mut Pending,
    desk: &mut D,
    group: &mut GroupLines,
    line: &LineBuffer,
) -> Result<(), KeepFault>
    ensures ok { OnOk result ((bytes : List ℕ) (gathering : Gathering) → IsBufferOf bytes line.now → HasNoFeed bytes → IsHeld gathering group.old →
        GoesOnBy (D.calls desk.old) (D.calls desk.new) pending.old editor.old ((gathered_by gathering bytes).1 ∷ []) pending.new editor.new
        × IsHeld (gathered_by gathering bytes).0 group.new) }
    ensures broken { IfErr result (λ fault. (bytes : List ℕ) (gathering : Gathering) → IsBufferOf bytes line.now → HasNoFeed bytes → IsHeld gathering group.old →
        BreaksWithin fault (D.calls desk.old) (D.calls desk.new) pending.old editor.old ((gathered_by gathering bytes).1 ∷ []) editor.new) }
{
    let line = whole_line(line);
    // Most lines are: nothing else need be done for them.
    if group.is_alone(line) {
        return keep_alone(alloc, editor, pending, desk, line);
    }
    let asks = group.take(alloc, line);
    keep_asked(alloc, editor, pending, desk, line, asks)
}

/// Carries out the lines that end in what was read, up to one that asks for a save. Says whether one does.
fn take_lines<D: Desk>(
    alloc: Global,
    editor: &mut Editor,
    pending: &mut Pending,
    desk: &mut D,
    group: &mut GroupLines,
    input: &mut Input,
) -> Result<bool, KeepFault>
    ensures none { IfOk result (λ saves. saves ≡ false → (before : List ℕ) (gathering : Gathering) → IsBufferOf before input.old.begun → HasNoFeed before → IsHeld gathering group.old →
        TakesLines before input.old.rest gathering group.new (D.calls desk.old) (D.calls desk.new) pending.old editor.old input.new pending.new editor.new) }
    ensures all { IfOk result (λ saves. saves ≡ false → input.new.rest ≡ []) }
    ensures save { IfOk result (λ saves. saves ≡ true → (before : List ℕ) (gathering : Gathering) → IsBufferOf before input.old.begun → HasNoFeed before → IsHeld gathering group.old →
        TakesSave before input.old.rest gathering (D.calls desk.old) (D.calls desk.new) pending.old editor.old input.new pending.new editor.new) }
    ensures broken { IfErr result (λ fault. (before : List ℕ) (gathering : Gathering) → IsBufferOf before input.old.begun → HasNoFeed before → IsHeld gathering group.old →
        BreaksLines fault before input.old.rest gathering (D.calls desk.old) (D.calls desk.new) pending.old editor.old editor.new) }
{
    while input.end_line() {
        // Inside of a group the line is a member's, whatever it says.
        if group.is_closed() && asks_for_save(input.line()) {
            input.begin_line();
            return Ok(true);
        }
        keep_line(alloc, editor, pending, desk, group, input.line())?;
        input.begin_line();
    }
    Ok(false)
}

/// Whether the last line, which had no line feed, asks for a save.
fn is_last_save(line: &LineBuffer) -> bool
    ensures { (bytes : List ℕ) → IsBufferOf bytes line.now → result ≡ is_save_of bytes }
{
    match line.line() {
        Some(bytes) => bytes == b"save".as_slice(),
        None => false,
    }
}

/// Carries out the last line, which had no line feed, where there is one.
fn keep_last<D: Desk>(
    alloc: Global,
    editor: &mut Editor,
    pending: &mut Pending,
    desk: &mut D,
    group: &mut GroupLines,
    line: &LineBuffer,
) -> Result<(), KeepFault>
    ensures ok { OnOk result ((bytes : List ℕ) (gathering : Gathering) → IsBufferOf bytes line.now → HasNoFeed bytes → IsHeld gathering group.old →
        GoesOnBy (D.calls desk.old) (D.calls desk.new) pending.old editor.old (last_asked gathering bytes) pending.new editor.new
        × IsHeld (last_left gathering bytes) group.new) }
    ensures broken { IfErr result (λ fault. (bytes : List ℕ) (gathering : Gathering) → IsBufferOf bytes line.now → HasNoFeed bytes → IsHeld gathering group.old →
        BreaksWithin fault (D.calls desk.old) (D.calls desk.new) pending.old editor.old (last_asked gathering bytes) editor.new) }
{
    if line.is_empty() {
        return Ok(());
    }
    let text = line.line();
    let asks = group.take(alloc, text);
    keep_asked(alloc, editor, pending, desk, text, asks)
}

/// Carries out the last line, which had no line feed, where there is one, and the end of the input, which cuts a group off; and
/// keeps what waits. Says whether the line asks for a save.
fn finish<D: Desk>(
    alloc: Global,
    editor: &mut Editor,
    pending: &mut Pending,
    desk: &mut D,
    group: &mut GroupLines,
    line: &LineBuffer,
) -> Result<Stop, KeepFault>
    ensures ok { IfOk result (λ stop. (bytes : List ℕ) (gathering : Gathering) → IsBufferOf bytes line.now → HasNoFeed bytes → IsHeld gathering group.old → pending.old ≡ nothing_waits pending.old.sum →
        Finishes stop bytes gathering (D.calls desk.old) (D.calls desk.new) pending.old editor.old pending.new editor.new) }
    ensures broken { IfErr result (λ fault. (bytes : List ℕ) (gathering : Gathering) → IsBufferOf bytes line.now → HasNoFeed bytes → IsHeld gathering group.old →
        AskForNone (asked_at_end gathering bytes) × BreaksWithin fault (D.calls desk.old) (D.calls desk.new) pending.old editor.old (asked_at_end gathering bytes) editor.new) }
{
    if group.is_closed() && is_last_save(line) {
        return Ok(Stop::Save);
    }
    keep_last(alloc, editor, pending, desk, group, line)?;
    tell_reply(pending, desk, answer_end(alloc, group))?;
    pending.commit(desk)?;
    Ok(Stop::End)
}

/// Carries out the lines of a reader, up to one that asks for a save or to the end of the input. What is accepted goes into
/// the journal and is synced before it is answered: once for all lines that are there at a time. The first sum is that
/// behind the head of the journal.
///
/// # Errors
///
/// `Read`, `Journal` or `Write` where the input, the journal or the output fails, and `Read` after 1,000,000,000 reads.
pub fn serve_kept<R: Read, D: Desk>(
    alloc: Global,
    editor: &mut Editor,
    pending: &mut Pending,
    input: &mut Input,
    sum: Sum,
    reader: &mut R,
    desk: &mut D,
) -> Result<Stop, KeepFault>
    // What was read, carried out, kept and put out.
    ensures ok { IfOk result (λ stop. ServesKept stop (R.remaining reader.old) (R.remaining reader.new) input.old.rest input.new.rest
        (D.calls desk.old) (D.calls desk.new) sum pending.new.sum editor.old editor.new) }

    // What was before the fault.
    ensures fault { IfErr result (λ fault. EndsKept fault (R.remaining reader.old) (R.remaining reader.new) input.old.rest
        (D.calls desk.old) (D.calls desk.new) sum editor.old editor.new) }
{
    pending.begin(sum);
    input.begin_line();
    let mut group = GroupLines::Closed;
    for _ in 0..READS_MAX {
        if take_lines(alloc, editor, pending, desk, &mut group, input)? {
            pending.commit(desk)?;
            return Ok(Stop::Save);
        }
        pending.commit(desk)?;
        if !input.fill(reader)? {
            return finish(alloc, editor, pending, desk, &mut group, input.line());
        }
    }
    Err(KeepFault::Read)
}
