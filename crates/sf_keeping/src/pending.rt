//! Records on their way to the journal, and answers that wait for them.
ghost use Rattle.std.specs.Prelude.{◌≡◌, ◌≤◌, ◌+◌, [], List, nat_le, length, IfErr, IfOk, OnOk, OnErr};
ghost use Rattle.sf_journal.specs.Records.{record_of, sum_with};
ghost use Rattle.sf_keeping.specs.Desks.{Call, Makes};
ghost use Rattle.sf_keeping.specs.Waiting.{nothing_waits, with_text, with_answer, committing_calls, keeping_calls, IsBrokenKeeping, IsBrokenOff};

use super::desk::{Desk, JournalFault, KeepFault};
use sf_journal::{MARK_LEN, Sum};
use sf_text_lines::LINE_MAX;
use std::alloc::{AllocError, Global};
use std::marker::Model;

/// Room for records and for answers, in bytes each: for the longest record, and for many short ones.
const ROOM: usize = 8_388_608;

/// How long a record is at most, in bytes.
const RECORD_MAX: usize = MARK_LEN + LINE_MAX + 1;

/// Records that are not in the journal yet, and answers that were not put out, since they wait for these. The room for
/// both is taken at the beginning. A desk is named at each call, and should be the same.
#[derive(Drop)]
pub struct Pending {
    sum: Sum,
    records: Vec<u8>,
    answers: Vec<u8>,
}

impl Model for Pending {
    ghost use Rattle.std.specs.Prelude.{◌≤◌, length, vec_capacity};
    ghost use Rattle.sf_keeping.specs.Waiting.{Waiting};

    ghost Value = { Waiting };

    ghost view = { λ a. record { sum = a.sum; records = a.records.items; answers = a.answers.items } };

    ghost invariant = { λ a. (length a.records.items ≤ 8388608) × (8388608 ≤ vec_capacity a.records)
        × (length a.answers.items ≤ 8388608) × (8388608 ≤ vec_capacity a.answers) };
}

impl Pending {
    /// Nothing waits, behind a sum.
    pub fn new(alloc: Global, sum: Sum) -> Result<Pending, AllocError>
        ensures { IfOk result (λ pending. pending ≡ nothing_waits sum) }
    {
        Ok(Pending {
            sum,
            records: Vec::with_capacity(alloc, ROOM)?,
            answers: Vec::with_capacity(alloc, ROOM)?,
        })
    }

    /// Nothing waits, behind another sum.
    pub(crate) fn begin(&mut self, sum: Sum)
        ensures { self.new ≡ nothing_waits sum }
    {
        self.sum = sum;
        self.records.clear();
        self.answers.clear();
    }

    /// Whether there is room for the longest record.
    pub(crate) fn has_room_for_a_record(&self) -> bool
        ensures { result ≡ nat_le (length self.now.records + 4194322) 8388608 }
    {
        self.records.len() <= ROOM - RECORD_MAX
    }

    /// Whether there is room for an answer of so many bytes.
    pub(crate) fn has_room_for(&self, answer: usize) -> bool
        ensures { result ≡ nat_le (length self.now.answers + answer) 8388608 }
    {
        answer <= ROOM - self.answers.len()
    }

    /// A text more is to be kept.
    pub(crate) fn keep(&mut self, text: &[u8])
        requires { length self.old.records + 18 + length text.now ≤ 8388608 }
        ensures { self.new ≡ with_text self.old text.now }
    {
        self.sum = self.sum.with(text);
        self.records
            .extend_from_slice(self.sum.mark().as_slice())
            .unwrap();
        self.records.extend_from_slice(text).unwrap();
        self.records.push(b'\n').unwrap();
    }

    /// An answer more is to be put out.
    pub(crate) fn put(&mut self, answer: &[u8])
        requires { length self.old.answers + length answer.now ≤ 8388608 }
        ensures { self.new ≡ with_answer self.old answer.now }
    {
        self.answers.extend_from_slice(answer).unwrap();
    }

    /// The record of a text that comes next.
    pub(crate) fn record_of(&self, alloc: Global, text: &[u8]) -> Result<Vec<u8>, AllocError>
        ensures { IfOk result (λ bytes. bytes.items ≡ record_of self.now.sum text.now) }
    {
        let mut record = Vec::with_capacity(alloc, text.len().saturating_add(MARK_LEN + 1))?;
        record.extend_from_slice(self.sum.with(text).mark().as_slice())?;
        record.extend_from_slice(text)?;
        record.push(b'\n')?;
        Ok(record)
    }

    /// Puts the bytes of the record of a text that comes next into the journal, syncs it, and then puts its answer out, where
    /// nothing waits.
    ///
    /// # Errors
    ///
    /// As those of `commit`.
    pub(crate) fn keep_at_once<D: Desk>(
        &mut self,
        desk: &mut D,
        text: &[u8],
        bytes: &[u8],
        answer: &[u8],
    ) -> Result<(), KeepFault>
        ensures ok { OnOk result (self.old ≡ nothing_waits self.old.sum → bytes.now ≡ record_of self.old.sum text.now →
            Makes (D.calls desk.old) (D.calls desk.new) (committing_calls (with_answer (with_text self.old text.now) answer.now))) }
        ensures sum { OnOk result (self.old ≡ nothing_waits self.old.sum → self.new ≡ nothing_waits (sum_with self.old.sum text.now)) }
        ensures broken { IfErr result (λ fault. self.old ≡ nothing_waits self.old.sum → bytes.now ≡ record_of self.old.sum text.now →
            (calls : List Call) × Makes (D.calls desk.old) (D.calls desk.new) calls
            × IsBrokenOff fault (with_answer (with_text self.old text.now) answer.now) calls) }
    {
        desk.append(bytes)?;
        desk.sync_journal()?;
        self.sum = self.sum.with(text);
        if answer.is_empty() {
            return Ok(());
        }
        desk.answer(answer)?;
        Ok(())
    }

    /// Puts the records into the journal, and syncs it.
    fn keep_all<D: Desk>(&mut self, desk: &mut D) -> Result<(), JournalFault>
        ensures ok { OnOk result (Makes (D.calls desk.old) (D.calls desk.new) (keeping_calls self.old.records)) }
        ensures emptied { OnOk result (self.new ≡ record self.old { records = [] }) }
        ensures broken { OnErr result ((calls : List Call) × Makes (D.calls desk.old) (D.calls desk.new) calls
            × IsBrokenKeeping self.old.records calls) }
    {
        if self.records.is_empty() {
            return Ok(());
        }
        desk.append(self.records.as_slice())?;
        desk.sync_journal()?;
        self.records.clear();
        Ok(())
    }

    /// Puts what waits into the journal, syncs it, and then puts the answers out. Where nothing waits, no call is made.
    ///
    /// # Errors
    ///
    /// `Journal` where a record could not be kept, and then no answer is put out; `Write` where the answers could not
    /// be put out whole.
    pub(crate) fn commit<D: Desk>(&mut self, desk: &mut D) -> Result<(), KeepFault>
        ensures ok { OnOk result (Makes (D.calls desk.old) (D.calls desk.new) (committing_calls self.old)) }
        ensures emptied { OnOk result (self.new ≡ nothing_waits self.old.sum) }
        ensures broken { IfErr result (λ fault. (calls : List Call) × Makes (D.calls desk.old) (D.calls desk.new) calls
            × IsBrokenOff fault self.old calls) }
    {
        self.keep_all(desk)?;
        if self.answers.is_empty() {
            return Ok(());
        }
        desk.answer(self.answers.as_slice())?;
        self.answers.clear();
        Ok(())
    }
}
