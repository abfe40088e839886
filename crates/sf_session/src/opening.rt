//! How a session begins: the lock, the store of the file, and the journal, its edits replayed, which is written anew.
ghost use Rattle.std.specs.Prelude.{◌≡◌, ◌⊎◌, [], ◌∷◌, None, Some, option_map, drop, take, IfErr, IfOk, OnErr, OnOk};
ghost use Rattle.sf_journal.specs.Records.{head_with};
ghost use Rattle.sf_folder.specs.Calls.{Does, Locks, Reads, Refuses, Stays, Tries};
ghost use Rattle.sf_folder.specs.Openings.{bytes_of as bytes_of_journal};
ghost use Rattle.sf_folder.specs.Renewals.{renewing_calls};
ghost use Rattle.sf_keeping.specs.Replays.{IsReplayed};
ghost use Rattle.sf_session.specs.Openings.{BeginsWith, Counts, FindsBy, IsHeadOf, IsSumOf, OpensBy, RenewsBy, bytes_that_count, warning_calls};
ghost use Rattle.sf_session.specs.Sessions.{BeginsBy};
ghost use Rattle.sf_session.specs.Faults.{HasNoContent, IsUnbegun, IsUnchosen, IsUnloaded, IsUnopenedBy, IsUnreplayed, IsUnrenewed, TellsReplayFault};

use super::fault::{HomeFault, JournalFault, SessionFault};
use super::home::{Home, Opened};
use sf_folder::{Chosen, Name, choose, renew};
use sf_journal::{FileSum, Sum, SumFault, head, is_head_alone, sum_of};
use sf_keeping::{Editor, ReplayFault, Replayed, replay};
use sf_loading::load;
use std::alloc::Global;
use std::io;
use std::io::ErrorKind;

/// A session that has begun: an editor with the store and the history of its journal, and the sum behind the last record.
#[derive(Drop)]
pub(crate) struct Begun {
    pub editor: Editor,
    pub sum: Sum,
}

/// Takes the lock, and opens the store.
pub(crate) fn begin<H: Home>(alloc: Global, home: &mut H) -> Result<Begun, SessionFault>
    ensures ok { IfOk result (λ begun. BeginsBy (H.calls home.old) (H.calls home.new) begun.sum begun.editor) }
    ensures fault { IfErr result (λ fault. IsUnbegun fault (H.calls home.old) (H.calls home.new)) }
{
    take_lock(home)?;
    let loaded = load_store(alloc, home)?;
    let Loaded { editor, file } = loaded;
    let mut editor = editor;
    let sum = open_journal(alloc, &mut editor, &file, home)?;
    Ok(Begun { editor, sum })
}

/// Takes the lock.
fn take_lock<H: Home>(home: &mut H) -> Result<(), SessionFault>
    ensures locked { OnOk result (Does (H.calls home.old) (H.calls home.new) (Locks ∷ [])) }
    ensures refused { OnErr result (Does (H.calls home.old) (H.calls home.new) (Refuses ∷ [])) }
    ensures fault { IfErr result (λ fault. (reason : HomeFault) × (fault ≡ SessionFault.Home reason)) }
{
    match home.lock() {
        Ok(()) => Ok(()),
        Err(fault) => Err(SessionFault::Home(fault)),
    }
}

/// An editor of a store, and the sum of the store's file.
#[derive(Drop)]
struct Loaded {
    editor: Editor,
    file: FileSum,
}

/// The store of the file, or a new one where there is no file.
fn load_store<H: Home>(alloc: Global, home: &mut H) -> Result<Loaded, SessionFault>
    ensures ok { IfOk result (λ loaded.
        FindsBy (H.calls home.old) (H.calls home.new) loaded.file.size loaded.file.digest loaded.editor) }
    ensures fault { IfErr result (λ fault. IsUnloaded fault (H.calls home.old) (H.calls home.new)) }
{
    match home.open() {
        Ok(Some(opened)) => load_opened(alloc, home, opened),
        Ok(None) => new_store(alloc),
        Err(fault) => Err(SessionFault::Home(fault)),
    }
}

/// The store of a file that is open.
fn load_opened<H: Home>(
    alloc: Global,
    home: &mut H,
    opened: Opened<H::File>,
) -> Result<Loaded, SessionFault>
    requires { IsSumOf (H.File.remaining opened.file) opened.sum.size opened.sum.digest }
    ensures ok { IfOk result (λ loaded. BeginsWith (Some (H.File.remaining opened.file)) loaded.file.size loaded.file.digest loaded.editor) }
    ensures calls { OnOk result (Does (H.calls home.old) (H.calls home.new) (Stays ∷ [])) }
    ensures fault { IfErr result (λ fault. HasNoContent fault (H.File.remaining opened.file) (H.calls home.old) (H.calls home.new)) }
{
    let Opened { file, sum } = opened;
    let mut file = file;
    match load(alloc, &mut file) {
        Err(fault) => Err(SessionFault::Load(fault)),
        Ok(ruled) => {
            // The types keep the content well formed and its rules held. Asked for numbers, they show the proof so.
            let _ = ruled.store().layer_count();
            let _ = ruled.rule_count();
            home.close(file).map_err(SessionFault::Home)?;
            Ok(Loaded {
                editor: Editor::from_ruled(alloc, ruled),
                file: sum,
            })
        }
    }
}

/// A new store, where there is no file.
fn new_store(alloc: Global) -> Result<Loaded, SessionFault>
    ensures ok { IfOk result (λ loaded. BeginsWith None loaded.file.size loaded.file.digest loaded.editor) }
    ensures fault { IfErr result (λ fault. (fault ≡ SessionFault.Home HomeFault.Memory) ⊎ (fault ≡ SessionFault.Home HomeFault.Read)) }
{
    let mut nothing: &[u8] = &[];
    match sum_of(alloc, &mut nothing) {
        Ok(file) => Ok(Loaded {
            editor: Editor::new(alloc),
            file,
        }),
        Err(SumFault::Memory) => Err(SessionFault::Home(HomeFault::Memory)),
        Err(SumFault::Read) => Err(SessionFault::Home(HomeFault::Read)),
    }
}

/// Replays the edits of the journal that goes on from a file, and writes it anew. Gives the sum behind its last record.
fn open_journal<H: Home>(
    alloc: Global,
    editor: &mut Editor,
    file: &FileSum,
    home: &mut H,
) -> Result<Sum, SessionFault>
    ensures ok { IfOk result (λ sum.
        OpensBy (head_with file.now.size file.now.digest) editor.old (H.calls home.old) (H.calls home.new) sum editor.new) }
    ensures fault { IfErr result (λ fault.
        IsUnopenedBy fault (head_with file.now.size file.now.digest) editor.old (H.calls home.old) (H.calls home.new)) }
{
    let journal = read_journal(home, Name::Journal)?;
    let beside = read_journal(home, Name::JournalBeside)?;
    renew_chosen(
        alloc,
        editor,
        file,
        home,
        slice_of(&journal),
        slice_of(&beside),
    )
}

/// The bytes of a journal, where it is there.
fn read_journal<H: Home>(home: &mut H, name: Name) -> Result<Option<Vec<u8>>, SessionFault>
    ensures ok { IfOk result (λ bytes.
        Does (H.calls home.old) (H.calls home.new) (Reads name (option_map (λ bytes. bytes.items) bytes) ∷ [])) }
    ensures fault { IfErr result (λ fault.
        (fault ≡ SessionFault.Journal JournalFault.Memory) ⊎ (fault ≡ SessionFault.Journal JournalFault.Read)) }
    ensures refused { OnErr result (Does (H.calls home.old) (H.calls home.new) (Refuses ∷ [])) }
{
    match home.read(name) {
        Ok(bytes) => Ok(bytes),
        Err(fault) => Err(journal_fault(&fault, JournalFault::Read)),
    }
}

/// A fault of the journal: out of memory, or the one that is given.
fn journal_fault(fault: &io::Error, other: JournalFault) -> SessionFault
    ensures { (result ≡ SessionFault.Journal JournalFault.Memory) ⊎ (result ≡ SessionFault.Journal other) }
{
    match fault.kind() {
        ErrorKind::OutOfMemory => SessionFault::Journal(JournalFault::Memory),
        _ => SessionFault::Journal(other),
    }
}

/// The bytes of a journal that is there.
fn slice_of(bytes: &Option<Vec<u8>>) -> Option<&[u8]>
    ensures { option_map (λ bytes. bytes.now) result ≡ option_map (λ bytes. bytes.items) bytes.now }
{
    match bytes {
        Some(bytes) => Some(bytes.as_slice()),
        None => None,
    }
}

/// Replays the edits of that of two journals which goes on from a file, and writes it anew.
fn renew_chosen<H: Home>(
    alloc: Global,
    editor: &mut Editor,
    file: &FileSum,
    home: &mut H,
    journal: Option<&[u8]>,
    beside: Option<&[u8]>,
) -> Result<Sum, SessionFault>
    ensures ok { IfOk result (λ sum. RenewsBy (head_with file.now.size file.now.digest) (option_map (λ bytes. bytes.now) journal.entry)
        (option_map (λ bytes. bytes.now) beside.entry) editor.old (H.calls home.old) (H.calls home.new) sum editor.new) }
    ensures fault { IfErr result (λ fault. IsUnrenewed fault (head_with file.now.size file.now.digest)
        (option_map (λ bytes. bytes.now) journal.entry) (option_map (λ bytes. bytes.now) beside.entry)
        editor.old (H.calls home.old) (H.calls home.new)) }
{
    let chosen = chosen_of(alloc, file, journal, beside)?;
    let (first, front) = first_of(alloc, file)?;
    let records = behind(bytes_of(chosen, journal, beside), front);
    let replayed = replay_behind(alloc, editor, first, front, records)?;
    write_anew(alloc, home, chosen, file, whole_of(records, &replayed))?;
    warn_if_cut(home, replayed.is_cut_short);
    Ok(replayed.sum)
}

/// Which of two journals goes on from a file.
fn chosen_of(
    alloc: Global,
    file: &FileSum,
    journal: Option<&[u8]>,
    beside: Option<&[u8]>,
) -> Result<Chosen, SessionFault>
    ensures ok { IfOk result (λ chosen. Counts (head_with file.now.size file.now.digest)
        (option_map (λ bytes. bytes.now) journal.entry) (option_map (λ bytes. bytes.now) beside.entry) chosen) }
    ensures fault { IfErr result (λ fault. IsUnchosen fault (head_with file.now.size file.now.digest)
        (option_map (λ bytes. bytes.now) journal.entry) (option_map (λ bytes. bytes.now) beside.entry)) }
{
    match choose(alloc, file, journal, beside) {
        Ok(Some(chosen)) => Ok(chosen),
        // Another program wrote the file. Nothing is lost where the journal has no edits.
        Ok(None) if is_head_alone(bytes_in(journal)) => Ok(Chosen::NoneYet),
        Ok(None) => Err(SessionFault::Journal(JournalFault::OtherFile)),
        Err(_) => Err(SessionFault::Journal(JournalFault::Memory)),
    }
}

/// The sum behind the head of the journal that goes on from a file, and how many bytes the head is.
fn first_of(alloc: Global, file: &FileSum) -> Result<(Sum, usize), SessionFault>
    ensures ok { IfOk result (λ first. IsHeadOf (head_with file.now.size file.now.digest) first.0 first.1) }
    ensures fault { IfErr result (λ fault. fault ≡ SessionFault.Journal JournalFault.Memory) }
{
    match head(alloc, file) {
        Ok(head) => Ok((Sum::of_head(head.as_bytes()), head.len())),
        Err(_) => Err(SessionFault::Journal(JournalFault::Memory)),
    }
}

/// The bytes of the journal that counts, its head among them.
fn bytes_of<'a>(chosen: Chosen, journal: Option<&'a [u8]>, beside: Option<&'a [u8]>) -> &'a [u8]
    ensures { result.now ≡ bytes_that_count chosen (option_map (λ bytes. bytes.now) journal.entry)
        (option_map (λ bytes. bytes.now) beside.entry) }
{
    match chosen {
        Chosen::UnderItsName => bytes_in(journal),
        Chosen::Beside => bytes_in(beside),
        Chosen::NoneYet => &[],
    }
}

/// The bytes of a journal; none where it isn't there.
fn bytes_in(journal: Option<&[u8]>) -> &[u8]
    ensures { result.now ≡ bytes_of_journal (option_map (λ bytes. bytes.now) journal.entry) }
{
    journal.unwrap_or(&[])
}

/// The bytes behind a front of so many.
fn behind(bytes: &[u8], front: usize) -> &[u8]
    ensures { result.now ≡ drop front bytes.now }
{
    if front <= bytes.len() {
        bytes.split_at(front).1
    } else {
        &[]
    }
}

/// Replays the edits of the records behind a head of so many bytes.
fn replay_behind(
    alloc: Global,
    editor: &mut Editor,
    first: Sum,
    front: usize,
    records: &[u8],
) -> Result<Replayed, SessionFault>
    ensures ok { IfOk result (λ done. IsReplayed first records.now editor.old done editor.new) }
    ensures fault { IfErr result (λ fault. IsUnreplayed fault front first records.now editor.old) }
{
    match replay(alloc, editor, first, records) {
        Ok(replayed) => Ok(replayed),
        Err(fault) => Err(replay_fault(fault, front)),
    }
}

/// Why a journal could not be replayed; places are bytes from its beginning.
fn replay_fault(fault: ReplayFault, head: usize) -> SessionFault
    ensures { TellsReplayFault fault head result }
{
    SessionFault::Journal(match fault {
        ReplayFault::Memory => JournalFault::Memory,
        ReplayFault::Damaged(place) => JournalFault::Damaged(head.saturating_add(place)),
        ReplayFault::NotAccepted(place) => JournalFault::NotAccepted(head.saturating_add(place)),
    })
}

/// The whole records that were replayed.
fn whole_of<'a>(records: &'a [u8], replayed: &Replayed) -> &'a [u8]
    ensures { result.now ≡ take replayed.now.whole records.now }
{
    records.split_at(replayed.whole.min(records.len())).0
}

/// Writes the journal anew.
fn write_anew<H: Home>(
    alloc: Global,
    home: &mut H,
    chosen: Chosen,
    file: &FileSum,
    records: &[u8],
) -> Result<(), SessionFault>
    ensures ok { OnOk result (Does (H.calls home.old) (H.calls home.new)
        (renewing_calls chosen (head_with file.now.size file.now.digest) records.now)) }
    ensures tried { OnErr result (Tries (H.calls home.old) (H.calls home.new)
        (renewing_calls chosen (head_with file.now.size file.now.digest) records.now)) }
    ensures fault { IfErr result (λ fault.
        (fault ≡ SessionFault.Journal JournalFault.Memory) ⊎ (fault ≡ SessionFault.Journal JournalFault.Write)) }
{
    match renew(home, alloc, chosen, file, records) {
        Ok(()) => Ok(()),
        Err(fault) => Err(journal_fault(&fault, JournalFault::Write)),
    }
}

/// Warns somebody where a record is dropped. What is dropped was never answered.
fn warn_if_cut<H: Home>(home: &mut H, is_cut_short: bool)
    ensures { Does (H.calls home.old) (H.calls home.new) (warning_calls is_cut_short) }
{
    if is_cut_short {
        home.warn_of_cut();
    }
}
