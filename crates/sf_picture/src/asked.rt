ghost use Rattle.std.specs.Prelude.{◌≡◌};
ghost use Rattle.sf_picture.specs.declared.asked.AskedFault.TheVariants.{Memory};

use super::choice::Choice;
use clap::Error;
use std::alloc::AllocError;
use thiserror::Error as ThisError;

/// What the words of the command line ask for.
#[derive(Debug, Drop)]
pub struct Asked {
    /// The features that are shown.
    pub choice: Choice,
    /// How wide the picture is, in pixels.
    pub width: u32,
}

/// Why the words were not taken.
#[derive(Debug, Drop, ThisError)]
pub enum AskedFault {
    #[error("out of memory")]
    Memory,
    /// The words are refused, or ask for help. The text for the user is in it.
    #[error("the words are refused")]
    Refused(Error),
    /// The least coordinate of the window is above the greatest.
    #[error("the window has no point")]
    EmptyWindow,
}

impl From<AllocError> for AskedFault {
    ghost from_gives = { λ _ fault. fault ≡ Memory };

    fn from(_error: AllocError) -> AskedFault {
        AskedFault::Memory
    }
}
