//! The sums of a journal: each is of the one before it and of a text, so of all texts up to there.
ghost use Rattle.std.specs.Prelude.{◌≡◌, ℕ, List, MatchOption};
ghost use Rattle.sf_journal.specs.Crc.{crc};
ghost use Rattle.sf_journal.specs.Records.{sum_with, mark_of, line_of};

use super::crc::{crc_behind_line, crc_of};
use std::marker::Model;

/// How many bytes of a record stand before its text: 16 digits and a blank.
pub const MARK_LEN: usize = 17;

/// How many digits of the sum a record has.
const DIGITS_LEN: usize = 16;

/// The sum behind the head of a journal, or behind a record of it: a CRC-64. Contracts see the number.
#[derive(Clone, Copy)]
pub struct Sum {
    crc: u64,
}

impl Model for Sum {
    ghost use Rattle.std.specs.Prelude.{ℕ};

    ghost Value = { ℕ };

    ghost view = { λ a. a.crc };

    ghost inverse = { λ crc. record { crc = crc } };
}

impl Sum {
    /// The sum behind the head of a journal.
    pub fn of_head(head: &[u8]) -> Sum
        ensures { result ≡ crc head.now }
    {
        Sum { crc: crc_of(head) }
    }

    /// The sum behind a text that follows this one.
    pub fn with(self, text: &[u8]) -> Sum
        ensures { result ≡ sum_with self text.now }
    {
        Sum {
            crc: crc_behind_line(self.crc, text),
        }
    }

    /// What stands before the text of the record that this sum stands behind.
    pub fn mark(self) -> [u8; MARK_LEN]
        ensures { result ≡ mark_of self }
    {
        let mut mark = [b' '; MARK_LEN];
        hex::encode_to_slice(&self.crc.to_be_bytes(), &mut mark[..DIGITS_LEN]).unwrap();
        mark
    }

    /// The text of a line that is a record behind this sum, without its line feed; None where it is no such record.
    pub fn text_of(self, line: &[u8]) -> Option<&[u8]>
        ensures { MatchOption result ((text : List ℕ) → line.now ≡ line_of self text → ⊥) (λ text. line.now ≡ line_of self text.now) }
    {
        if line.len() < MARK_LEN {
            return None;
        }
        let (mark, text) = line.split_at(MARK_LEN);
        if mark == self.with(text).mark().as_slice() {
            Some(text)
        } else {
            None
        }
    }
}
