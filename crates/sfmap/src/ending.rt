//! How a run ends before its time: its status, and its last words.
use super::running::RunFault;
use sf_loading::LoadFault;
use sf_picture::{AskedFault, DrawFault};
use std::{fmt, io};

/// Why a run ended before its time.
#[derive(Debug, Drop)]
pub enum Ending {
    /// The system's words are no texts.
    Arguments,
    Words(AskedFault),
    /// A layer was named that the store has not.
    MissingLayer(String),
    Load(LoadFault),
    Draw(DrawFault),
}

impl From<RunFault> for Ending {
    fn from(fault: RunFault) -> Ending {
        match fault {
            RunFault::Load(fault) => Ending::Load(fault),
            RunFault::MissingLayer(name) => Ending::MissingLayer(name),
            RunFault::Memory => Ending::Words(AskedFault::Memory),
            RunFault::Draw(fault) => Ending::Draw(fault),
        }
    }
}

impl Ending {
    /// The status of the program: 1 after a fault of drawing, 2 of the words, 3 of loading, and 0
    /// where help was asked for.
    pub fn status(&self) -> u8 {
        match self {
            Ending::Draw(_) => 1,
            Ending::Words(AskedFault::Refused(error)) => {
                if error.exit_code() == 0 { 0 } else { 2 }
            }
            Ending::Arguments | Ending::Words(_) | Ending::MissingLayer(_) => 2,
            Ending::Load(_) => 3,
        }
    }

    /// Writes the last words: on standard output where help was asked for, else on standard error, since
    /// the picture goes to standard output.
    pub fn tell(&self, rt: &(impl Print + Eprint)) -> io::Result<()> {
        if self.status() == 0 {
            rt.print(self)
        } else {
            rt.eprint(self)
        }
    }
}

impl fmt::Display for Ending {
    fn fmt<W: fmt::Write>(&self, f: &mut fmt::Formatter<W>) -> fmt::Result {
        match self {
            Ending::Arguments => writeln!(f, "error: a word of the command line is not UTF-8"),
            Ending::Words(AskedFault::Memory) => writeln!(f, "fault words Memory"),
            Ending::Words(AskedFault::EmptyWindow) => writeln!(f, "fault words EmptyWindow"),
            Ending::Words(AskedFault::Refused(error)) => write!(f, "{error}"),
            Ending::MissingLayer(name) => writeln!(f, "fault words NoLayer {name}"),
            Ending::Load(LoadFault::Memory) => writeln!(f, "fault load Memory"),
            Ending::Load(LoadFault::Read) => writeln!(f, "fault load Read"),
            Ending::Load(LoadFault::BadFile { place, inner }) => {
                writeln!(f, "fault load BadFile {place} {inner}")
            }
            Ending::Draw(DrawFault::Memory) => writeln!(f, "fault draw Memory"),
            Ending::Draw(DrawFault::Write) => writeln!(f, "fault draw Write"),
        }
    }
}
