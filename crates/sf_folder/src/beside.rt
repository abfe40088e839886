//! The file beside, while it is written.
ghost use Rattle.std.specs.Prelude.{◌≡◌, false, List, ℕ, Option, None, IsOk, IfOk, OnOk, OnErr};
ghost use Rattle.sha2.specs.Sha256.{sha256};
ghost use Rattle.sha2.specs.Hashers.{Holds256};
ghost use Rattle.std.specs.Io.KnownBytes.{Appends};
ghost use Rattle.sf_folder.specs.Calls.{Call};
ghost use Rattle.sf_folder.specs.Besides.{Continues, Wrote, TriesToWrite, written_behind};

use super::folder::Folder;
use super::names::Name;
use sf_journal::FileSum;
use sha2::{Digest, Sha256};
use std::alloc::Global;
use std::io;
use std::io::{ErrorKind, Write};
use std::marker::{Brand, PhantomData};

/// What can be written to a writer: a store.
pub trait Source {
    /// The bytes of its file.
    ghost bytes: { Self → List ℕ };

    /// Writes the bytes.
    ///
    /// # Errors
    ///
    /// Where the writer fails, or no memory is found.
    fn write_to<W: Write>(&self, alloc: Global, writer: &mut W) -> io::Result<()>
        ensures { OnOk result (Appends (W.contents writer.old) (W.contents writer.new) (bytes self.now)) };
}

/// What was before a file was begun.
trait Before {
    ghost use Rattle.std.specs.Prelude.{List, ℕ, Option};
    ghost use Rattle.sf_folder.specs.Calls.{Call};

    /// The calls that were known.
    ghost known: { Option (List Call) };

    /// The name of the folder's borrow.
    ghost place: { ℕ };
}

impl Before for Brand {
    ghost use Rattle.std.specs.Prelude.{None};

    ghost known = { None };

    ghost place = { 0 };
}

/// The file beside: what is written to it goes into a folder, and is counted and hashed. It holds nothing back.
#[derive(Drop)]
struct Beside<'a, B: Before, F: Folder> {
    folder: &'a mut F,
    hasher: Sha256,
    size: u64,
    // The folder failed: it isn't known what it has written.
    failed: bool,
    before: PhantomData<B>,
    ghost same: { folder.ghost_name ≡ B.place },
    ghost continues: { ∥ Continues B.known (F.calls folder.now) hasher size failed ∥₁ },
}

impl<'a, B: Before, F: Folder> Write for Beside<'a, B, F> {
    ghost contents = { λ s. written_behind B.known (F.calls s.folder.now) s.size };

    fn write(&mut self, buf: &[u8]) -> io::Result<usize> {
        let Some(size) = self.size.checked_add(buf.len() as u64) else {
            return Err(io::Error::from(ErrorKind::FileTooLarge));
        };
        if self.failed {
            return Err(io::Error::from(ErrorKind::Other));
        }
        self.failed = true;
        self.folder.write(Name::StoreBeside, buf)?;
        self.failed = false;
        self.hasher.update(buf);
        self.size = size;
        Ok(buf.len())
    }

    fn flush(&mut self) -> io::Result<()> {
        Ok(())
    }
}

/// What came of a writing, with the folder.
struct Written<'a, F: Folder> {
    folder: &'a mut F,
    sum: io::Result<FileSum>,
}

/// The sum of what was written, where all of it was.
fn sum_of(written: io::Result<()>, hasher: Sha256, size: u64, failed: bool) -> io::Result<FileSum>
    ensures { IfOk result (λ file. IsOk written × (failed ≡ false) × (file.size ≡ size)
        × ((m : List ℕ) → Holds256 hasher m → file.digest ≡ sha256 m)) }
{
    written?;
    if failed {
        return Err(io::Error::from(ErrorKind::Other));
    }
    Ok(FileSum {
        size,
        digest: hasher.finalize(),
    })
}

/// Writes a source to the file that was just begun.
fn write_within<'a, B: Before, F: Folder, S: Source>(
    folder: &'a mut F,
    alloc: Global,
    source: &S,
) -> Written<'a, F>
    requires known { B.known ≡ F.calls folder.old }
    requires place { folder.ghost_name ≡ B.place }
    ensures same_reference { result.folder.ghost_name ≡ folder.entry.ghost_name }
    ensures done { IfOk result.sum (λ file. Wrote (S.bytes source.now) file.size file.digest (F.calls folder.old) (F.calls result.folder.now)) }
    ensures tried { OnErr result.sum (TriesToWrite (F.calls folder.old) (F.calls result.folder.now)) }
{
    let mut beside = Beside::<'a, B, F> {
        folder,
        hasher: Sha256::new(),
        size: 0,
        failed: false,
        before: PhantomData,
    };
    let written = source.write_to(alloc, &mut beside);
    let Beside {
        folder,
        hasher,
        size,
        failed,
        before: _,
    } = beside;
    let sum = sum_of(written, hasher, size, failed);
    Written { folder, sum }
}

/// Writes a source to the file that was just begun, and gives the sum of what was written.
///
/// # Errors
///
/// Where the source gives up, or the folder has failed.
pub(crate) fn write_beside<F: Folder, S: Source>(
    folder: &mut F,
    alloc: Global,
    source: &S,
) -> io::Result<FileSum>
    ensures done { IfOk result (λ file. Wrote (S.bytes source.now) file.size file.digest (F.calls folder.old) (F.calls folder.new)) }
    ensures tried { OnErr result (TriesToWrite (F.calls folder.old) (F.calls folder.new)) }
{
    let Written { folder: _, sum } = write_within::<Brand, F, S>(folder, alloc, source);
    sum
}
