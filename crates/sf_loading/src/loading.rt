//! A store with rules from the bytes of a reader.
ghost use Rattle.std.specs.Prelude.{◌≡◌, IfErr, IfOk, nat_eq};
ghost use Rattle.sf_streams.specs.Streams.{nothing_ahead};
ghost use Rattle.sf_format.specs.declared.defect.Defect.TheVariants.{BadFile};
ghost use Rattle.sf_format.specs.Format.{allowed as allowed_of, bits_of as bits_of_version, file as read_file, grid_of as grid_of_version, head as read_head, version_of as read_version};
ghost use Rattle.sf_format.specs.Readings.{bytes, field, number};
ghost use Rattle.sf_loading.specs.Loading.{FailsBy, Loads};
ghost use Rattle.sf_loading.specs.Streaming.{Ends, Gives, Judges};

use super::fields::allowed;
use super::halt::Halt;
use super::layers::layers;
use super::load_fault::LoadFault;
use super::numbers::{number_u8, require};
use super::rules::ruled;
use sf_format::{Defect, Ruled, Version};
use sf_streams::Window;
use sf_wkb::Grid;
use std::alloc::Global;
use std::io::Read;

/// The first bytes of each file of the first version.
const FIRST: &[u8; 8] = b"SFSTORE1";

/// The first bytes of each file of the second version.
const SECOND: &[u8; 8] = b"SFSTORE2";

/// The first bytes of each file of the third version.
const THIRD: &[u8; 8] = b"SFSTORE3";

/// The first bytes of each file of the fourth version.
const FOURTH: &[u8; 8] = b"SFSTORE4";

/// The version that the bytes at a place say.
fn version_of(place: u64, front: &[u8]) -> Result<Version, Halt>
    ensures { Judges (λ version. version) place (read_version front.now) result }
{
    if front == FIRST.as_slice() {
        Ok(Version::First)
    } else if front == SECOND.as_slice() {
        Ok(Version::Second)
    } else if front == THIRD.as_slice() {
        Ok(Version::Third)
    } else if front == FOURTH.as_slice() {
        Ok(Version::Fourth)
    } else {
        Err(Halt::Found(place, Defect::BadFile))
    }
}

/// The version that the first bytes say.
fn version<R: Read>(window: &mut Window, reader: &mut R) -> Result<Version, Halt>
    ensures { Gives (λ version. version) (field (bytes 8) read_version) (R.remaining reader.old)
        (R.remaining reader.new) window.old window.new result }
{
    let place = window.place();
    require(window, reader, FIRST.len())?;
    let version = version_of(place, window.front(FIRST.len()));
    window.skip(FIRST.len());
    version
}

/// How many bits a coordinate has with its sign, in a file of a version.
fn bits_of(version: Version) -> u8
    ensures { result ≡ bits_of_version version }
{
    match version {
        Version::First => 20,
        Version::Second | Version::Third => 24,
        Version::Fourth => 31,
    }
}

/// The version, where the byte behind it is that of the grid.
fn on_grid<R: Read>(window: &mut Window, reader: &mut R, version: Version) -> Result<Version, Halt>
    ensures { Gives (λ version. version) (field (number 1) (λ byte. allowed_of (nat_eq byte (bits_of_version version)) BadFile version))
        (R.remaining reader.old) (R.remaining reader.new) window.old window.new result }
{
    let place = window.place();
    let byte = number_u8(window, reader)?;
    allowed(byte == bits_of(version), place, Defect::BadFile, version)
}

/// The bytes at the front of a file: its version.
fn head<R: Read>(window: &mut Window, reader: &mut R) -> Result<Version, Halt>
    ensures { Gives (λ version. version) read_head (R.remaining reader.old) (R.remaining reader.new)
        window.old window.new result }
{
    let version = version(window, reader)?;
    match version {
        Version::First => Ok(Version::First),
        Version::Second => on_grid(window, reader, Version::Second),
        Version::Third => on_grid(window, reader, Version::Third),
        Version::Fourth => on_grid(window, reader, Version::Fourth),
    }
}

/// The grid on which the geometries of a file are.
fn grid_of(version: Version) -> Grid
    ensures { result ≡ grid_of_version version }
{
    match version {
        Version::First => Grid::Bits20,
        Version::Second | Version::Third => Grid::Bits24,
        Version::Fourth => Grid::Bits31,
    }
}

/// The store with its rules that all bytes are a file of.
fn file<R: Read>(alloc: Global, window: &mut Window, reader: &mut R) -> Result<Ruled, Halt>
    requires { window.old ≡ nothing_ahead }
    ensures ok { IfOk result (λ ruled. Loads (R.remaining reader.old) (R.remaining reader.new) ruled) }
    ensures ended { IfErr result (λ halt.
        Ends read_file (R.remaining reader.old) (R.remaining reader.new) nothing_ahead halt) }
{
    let version = head(window, reader)?;
    let store = layers(alloc, window, reader, grid_of(version))?;
    let ruled = ruled(alloc, window, reader, version, store)?;
    if window.need(reader, 1)? {
        return Err(Halt::Found(window.place(), Defect::Trailing));
    }
    Ok(ruled)
}

/// Loads the store with its rules that a reader's bytes are a file of, up to the reader's end. Each layer
/// has an index where memory was found for it. A file of the first two versions has no rules.
///
/// # Errors
///
/// `BadFile` where the bytes are no file of a store, at the first field that is refused. `Read` where
/// the reader fails, or after 1,000,000,000 reads. `Memory` where no memory is found.
pub fn load<R: Read>(alloc: Global, reader: &mut R) -> Result<Ruled, LoadFault>
    // All bytes were read, and the store has their content and their rules.
    ensures ok { IfOk result (λ ruled. Loads (R.remaining reader.old) (R.remaining reader.new) ruled) }

    // The bytes have no content, and this is their first fault; or some bytes were read.
    ensures fault { IfErr result (λ fault. FailsBy (R.remaining reader.old) (R.remaining reader.new) fault) }
{
    let Ok(mut window) = Window::new(alloc) else {
        return Err(LoadFault::Memory);
    };
    match file(alloc, &mut window, reader) {
        Ok(ruled) => Ok(ruled),
        Err(Halt::Memory) => Err(LoadFault::Memory),
        Err(Halt::Read) => Err(LoadFault::Read),
        Err(Halt::Found(place, defect)) => Err(LoadFault::BadFile {
            place,
            inner: defect.number(),
        }),
    }
}
