//! The head of a journal, and the sum of the file that it names.
ghost use Rattle.std.specs.Prelude.{◌≡◌, IfOk, nat_eq, string_bytes};
ghost use Rattle.std.specs.List.{starts_with};
ghost use Rattle.sf_journal.specs.Records.{head_front, head_with, is_head_alone as is_head_alone_of, is_one_line as is_one_line_of};

use sf_text_lines::line_feed;
use std::alloc::{AllocError, Global};

/// What each head begins with.
const HEAD_FRONT: &str = "sfstore-journal 3 ";

/// A file by its length in bytes and its SHA-256.
#[derive(Clone, Copy, Debug, PartialEq, Eq)]
pub struct FileSum {
    pub size: u64,
    pub digest: [u8; 32],
}

/// The head of the journal that goes on from a file.
pub fn head(alloc: Global, file: &FileSum) -> Result<String, AllocError>
    ensures { IfOk result (λ head. string_bytes head ≡ head_with file.now.size file.now.digest) }
{
    let digest = hex::encode(alloc, file.digest.as_slice())?;
    format!(in alloc; "sfstore-journal 3 {} {}\n", file.size, digest)
}

/// Whether a journal is a head, of whatever file, with nothing behind it: it has no record that could be lost.
pub fn is_head_alone(journal: &[u8]) -> bool
    ensures { result ≡ is_head_alone_of journal.now }
{
    begins_as_head(journal) && is_one_line(journal)
}

/// Whether bytes begin as each head does.
fn begins_as_head(bytes: &[u8]) -> bool
    ensures { result ≡ starts_with nat_eq bytes.now head_front }
{
    bytes.starts_with(HEAD_FRONT.as_bytes())
}

/// Whether the first line feed of bytes is the last of them.
fn is_one_line(bytes: &[u8]) -> bool
    ensures { result ≡ is_one_line_of bytes.now }
{
    match line_feed(bytes) {
        Some(place) => place + 1 == bytes.len(),
        None => false,
    }
}
