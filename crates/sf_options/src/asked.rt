ghost use Rattle.std.specs.Prelude.{◌≡◌};
ghost use Rattle.sf_options.specs.declared.asked.OptionsFault.TheVariants.{Memory};

use clap::Error;
use std::alloc::AllocError;
use thiserror::Error as ThisError;

/// What the words of the command line ask for.
#[derive(Debug, Drop)]
pub struct Options {
    /// The file to load before serving.
    pub load: Option<String>,
    /// The file to save to after serving.
    pub save: Option<String>,
    /// The store's file, beside which every accepted edit is kept in a journal.
    pub store: Option<String>,
    /// Whether the end of the input leaves the edits in the journal, and saves nothing.
    pub keep: bool,
}

/// Why the words were not taken.
#[derive(Debug, Drop, ThisError)]
pub enum OptionsFault {
    #[error("out of memory")]
    Memory,
    /// The words are refused, or ask for help. The text for the user is in it.
    #[error("the words are refused")]
    Refused(Error),
}

impl From<AllocError> for OptionsFault {
    ghost from_gives = { λ _ fault. fault ≡ Memory };

    fn from(_error: AllocError) -> OptionsFault {
        OptionsFault::Memory
    }
}
