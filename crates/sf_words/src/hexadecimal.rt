//! Bytes that words spell.
ghost use Rattle.std.specs.Prelude.{◌≡◌, ◌⊎◌, Ok, IsErr, MatchResult};
ghost use Rattle.hex.specs.Hex.{decode_of};

use hex::FromHexError;
use sf_refusals::Refusal;
use std::alloc::Global;

/// The bytes that a word spells in hexadecimal, two digits in either case for each byte. `Syntax` where
/// the word isn't that, `Memory` where no memory was found.
pub fn bytes_of(alloc: Global, word: &str) -> Result<Vec<u8>, Refusal>
    ensures { MatchResult result
        (λ bytes. decode_of word.now ≡ Ok bytes.items)
        (λ refusal. (refusal ≡ Refusal.Memory) ⊎ ((refusal ≡ Refusal.Syntax) × IsErr (decode_of word.now))) }
{
    match hex::decode(alloc, word) {
        Ok(bytes) => Ok(bytes),
        Err(FromHexError::OutOfMemory) => Err(Refusal::Memory),
        Err(_) => Err(Refusal::Syntax),
    }
}
