ghost use Rattle.std.specs.Prelude.{◌≡◌, ◌≤◌, ◌+◌, ◌<◌, ◌++◌, [], ◌∷◌, codes, decimal, length};
ghost use Rattle.std.specs.Fmt.{signed_decimal};
ghost use Rattle.sf_console.specs.Answers.{accepted_line, member_line, refusal_line, line as line_of, truth as truth_word, extent_text};

use sf_geometry::Extent;
use sf_refusals::Refusal;
use sf_steps::Answer;
use std::fmt::{InlineText, Write};
use std::marker::Model;

/// Room for each answer of one line, in bytes: the longest has the name of a refusal, which is at most 16 bytes, its number
/// of at most 3, that of a member of at most 20, and 19 bytes between them.
const ROOM: usize = 60;

/// An answer of one line, with its line feed. It stands on the stack, so it takes no memory.
#[derive(Drop)]
pub struct AnswerLine {
    text: InlineText<ROOM>,
}

impl Model for AnswerLine {
    ghost use Rattle.std.specs.Prelude.{ℕ, List};
    ghost use Rattle.std.specs.Fmt.InlineText.{inline_text, IsIntact, IsOpen};

    ghost Value = { List ℕ };

    ghost view = { λ a. inline_text a.text };

    ghost invariant = { λ a. IsIntact a.text × IsOpen a.text };
}

impl AnswerLine {
    /// The answer of an accepted edit or undo.
    pub fn accepted(answer: Answer) -> AnswerLine
        ensures { result ≡ accepted_line answer }
    {
        let mut line = AnswerLine::empty();
        match answer {
            Answer::Done => line.push("ok\n"),
            Answer::Id(id) => {
                line.push("ok ");
                line.push_decimal(u64::from(id));
                line.push("\n");
            }
        }
        line
    }

    /// The answer of a refusal: its number and its name.
    pub fn refused(refusal: Refusal) -> AnswerLine
        ensures { result ≡ refusal_line refusal }
    {
        let mut line = AnswerLine::empty();
        line.push("refused ");
        line.push_decimal(u64::from(refusal.number()));
        line.push(" ");
        line.push(refusal.name());
        line.push("\n");
        line
    }

    /// The answer of a group of which this member is refused, counted from 1.
    pub fn member_refused(number: usize, refusal: Refusal) -> AnswerLine
        ensures { result ≡ member_line number refusal }
    {
        let mut line = AnswerLine::empty();
        line.push("refused ");
        line.push_decimal(u64::from(refusal.number()));
        line.push(" ");
        line.push(refusal.name());
        line.push(" member ");
        line.push_decimal(number as u64);
        line.push("\n");
        line
    }

    /// One of the identifiers that a group gave, as it stands in its answer: no whole line.
    pub(crate) fn identifier(id: u32) -> AnswerLine
        ensures text { result ≡ codes " " ++ decimal id }
        ensures len { length result ≤ 11 }
    {
        let mut line = AnswerLine::empty();
        line.push_blank();
        line.push_decimal(u64::from(id));
        line
    }

    /// The answer of a test.
    pub fn truth(is: bool) -> AnswerLine
        ensures { result ≡ line_of (truth_word is) }
    {
        let mut line = AnswerLine::empty();
        line.push(if is { "true\n" } else { "false\n" });
        line
    }

    /// The corners of a box, the least one first.
    pub fn extent(extent: Extent) -> AnswerLine
        ensures { result ≡ line_of (extent_text extent) }
    {
        let mut line = AnswerLine::empty();
        line.push_integer(extent.min_x);
        line.push_blank();
        line.push_integer(extent.min_y);
        line.push_blank();
        line.push_integer(extent.max_x);
        line.push_blank();
        line.push_integer(extent.max_y);
        line.push("\n");
        line
    }

    /// The bytes of the answer.
    pub fn as_bytes(&self) -> &[u8]
        ensures { result.now ≡ self.now }
    {
        self.text.as_str().as_bytes()
    }

    fn empty() -> AnswerLine
        ensures { result ≡ [] }
    {
        AnswerLine {
            text: InlineText::new(),
        }
    }

    fn push(&mut self, piece: &str)
        requires { length self.old + length piece.now ≤ ROOM }
        ensures { self.new ≡ self.old ++ piece.now }
    {
        self.text.write_str(piece).unwrap();
    }

    fn push_blank(&mut self)
        requires { length self.old < ROOM }
        ensures text { self.new ≡ self.old ++ codes " " }
        ensures len { length self.new ≡ length self.old + 1 }
    {
        self.push(" ");
    }

    fn push_integer(&mut self, number: i32)
        requires { length self.old + 11 ≤ ROOM }
        ensures text { self.new ≡ self.old ++ signed_decimal number }
        ensures len { length self.new ≤ length self.old + 11 }
    {
        if number < 0 {
            self.push("-");
        }
        self.push_decimal(u64::from(number.unsigned_abs()));
    }

    // `write!` does not promise to succeed where there is room.
    fn push_decimal(&mut self, number: u64)
        requires { length self.old + length (decimal number) ≤ ROOM }
        ensures { self.new ≡ self.old ++ decimal number }
    {
        if number < 10 {
            self.push_digit(number as u8);
        } else {
            self.push_decimal(number / 10);
            self.push_digit((number % 10) as u8);
        }
    }

    fn push_digit(&mut self, digit: u8)
        requires room { length self.old < ROOM }
        requires decimal { digit < 10 }
        ensures { self.new ≡ self.old ++ (48 + digit) ∷ [] }
    {
        let mut bytes = [0; 4];
        self.push(((b'0' + digit) as char).encode_utf8(&mut bytes));
    }
}
