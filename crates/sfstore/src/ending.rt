//! How a run ends before its time: its status, and its last words.
ghost use Rattle.sfstore.specs.Statuses.{IsStatusOf};

use sf_options::OptionsFault;
use sf_run::{BeginFault, FilesFault, LoadFault, RunFault, SaveFault, ServeFault};
use sf_session::{HomeFault, JournalFault, KeepFault, SessionFault};
use std::fmt;

/// Why a run ended before its time.
#[derive(Drop)]
pub enum Ending {
    Serve(ServeFault),
    /// The system's words are no texts.
    Arguments,
    Words(OptionsFault),
    /// The file to load could not be opened.
    LoadOpen,
    Load(LoadFault),
    /// The file to save to could not be opened or made.
    SaveOpen,
    Save(SaveFault),
    /// A store that is kept is named beside a file to load or to save, or is not named where its end is.
    Options,
    /// A session over a store that is kept ended.
    Session(SessionFault),
}

/// The words for what ended serving.
fn serve_words(fault: &ServeFault) -> &'static str {
    match fault {
        ServeFault::Read => "fault serve Read",
        ServeFault::Write => "fault serve Write",
        ServeFault::Memory => "fault serve Memory",
    }
}

/// The words for what ended serving a store that is kept.
fn keep_words(fault: KeepFault) -> &'static str {
    match fault {
        KeepFault::Read => "fault serve Read",
        KeepFault::Write => "fault serve Write",
        KeepFault::Journal => "fault serve Journal",
        KeepFault::Memory => "fault serve Memory",
    }
}

/// The words for why a file was not loaded. A place stands behind those for a bad one.
fn load_words(fault: &LoadFault) -> &'static str {
    match fault {
        LoadFault::Memory => "fault load Memory",
        LoadFault::Read => "fault load Read",
        LoadFault::BadFile { .. } => "fault load BadFile",
    }
}

/// The words for why the lock or the file of a store that is kept could not be had.
fn home_words(fault: HomeFault) -> &'static str {
    match fault {
        HomeFault::Open => "fault load Open",
        HomeFault::Taken => "fault load Taken",
        HomeFault::Read => "fault load Read",
        HomeFault::Changed => "fault load Changed",
        HomeFault::Memory => "fault journal Memory",
    }
}

/// The words for what ended a session over a store that is kept.
fn session_words(fault: &SessionFault) -> &'static str {
    match fault {
        SessionFault::Home(fault) => home_words(*fault),
        SessionFault::Load(fault) => load_words(fault),
        SessionFault::Journal(fault) => journal_words(fault),
        SessionFault::Serve(fault) => keep_words(*fault),
        SessionFault::Save(fault) => save_words(fault),
        SessionFault::SaveChanged => "fault save Changed",
    }
}

/// The words for why a save failed.
fn save_words(fault: &SaveFault) -> &'static str {
    match fault {
        SaveFault::Memory => "fault save Memory",
        SaveFault::Write => "fault save Write",
    }
}

/// The words for why a journal could not be opened. A place stands behind those that have one.
fn journal_words(fault: &JournalFault) -> &'static str {
    match fault {
        JournalFault::Memory => "fault journal Memory",
        JournalFault::Read => "fault journal Read",
        JournalFault::Write => "fault journal Write",
        JournalFault::OtherFile => "fault journal OtherFile",
        JournalFault::Damaged(_) => "fault journal Damaged",
        JournalFault::NotAccepted(_) => "fault journal NotAccepted",
    }
}

impl From<RunFault> for Ending {
    fn from(fault: RunFault) -> Ending {
        match fault {
            RunFault::Load(fault) => Ending::Load(fault),
            RunFault::Serve(fault) => Ending::Serve(fault),
        }
    }
}

impl From<FilesFault> for Ending {
    fn from(fault: FilesFault) -> Ending {
        match fault {
            FilesFault::Open => Ending::LoadOpen,
            FilesFault::Run(fault) => Ending::from(fault),
            FilesFault::Begin(BeginFault::Memory) => Ending::Save(SaveFault::Memory),
            FilesFault::Begin(BeginFault::Open) => Ending::SaveOpen,
            FilesFault::Save(fault) => Ending::Save(fault),
        }
    }
}

impl Ending {
    /// The status of the program: 1 after a fault of serving, 2 of the words, 3 of loading, 4 of
    /// saving, and 0 where help was asked for.
    pub fn status(&self) -> u8
        ensures { IsStatusOf self.now result }
    {
        match self {
            Ending::Serve(_) | Ending::Session(SessionFault::Serve(_)) => 1,
            Ending::Arguments | Ending::Options | Ending::Words(OptionsFault::Memory) => 2,
            Ending::Words(OptionsFault::Refused(error)) => {
                if error.exit_code() == 0 { 0 } else { 2 }
            }
            Ending::LoadOpen | Ending::Load(_) => 3,
            Ending::Session(
                SessionFault::Home(_) | SessionFault::Load(_) | SessionFault::Journal(_),
            ) => 3,
            Ending::SaveOpen | Ending::Save(_) => 4,
            Ending::Session(SessionFault::Save(_) | SessionFault::SaveChanged) => 4,
        }
    }
}

impl Ending {
    /// The words that its line begins with. What is said of refused words of the command line has a text of its own.
    fn words(&self) -> &'static str {
        match self {
            Ending::Serve(fault) => serve_words(fault),
            Ending::Arguments => "error: a word of the command line is not UTF-8",
            Ending::Words(_) => "fault words Memory",
            Ending::LoadOpen => "fault load Open",
            Ending::Load(fault) => load_words(fault),
            Ending::SaveOpen => "fault save Open",
            Ending::Save(fault) => save_words(fault),
            Ending::Options => {
                "error: --store goes with neither --load nor --save, and --keep goes with --store"
            }
            Ending::Session(fault) => session_words(fault),
        }
    }
}

impl fmt::Display for Ending {
    fn fmt<W: fmt::Write>(&self, f: &mut fmt::Formatter<W>) -> fmt::Result {
        match self {
            Ending::Words(OptionsFault::Refused(error)) => write!(f, "{error}"),
            Ending::Load(LoadFault::BadFile { place, inner })
            | Ending::Session(SessionFault::Load(LoadFault::BadFile { place, inner })) => {
                writeln!(f, "{} {place} {inner}", self.words())
            }
            Ending::Session(
                SessionFault::Journal(
                    JournalFault::Damaged(place) | JournalFault::NotAccepted(place),
                ),
            ) => { writeln!(f, "{} {place}", self.words()) }
            _ => writeln!(f, "{}", self.words()),
        }
    }
}
