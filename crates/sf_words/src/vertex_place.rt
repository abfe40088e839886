//! Words that name vertices.
ghost use Rattle.std.specs.Prelude.{◌≡◌};
ghost use Rattle.sf_words.specs.Naming.{vertex_place};

use super::naming::{Naming, id_named};
use super::numerals::id_of;
use sf_refusals::Refusal;

/// Where a vertex stands in a layer: its feature, part and ring, and its index there.
#[derive(Clone, Copy)]
pub struct VertexPlace {
    pub id: u32,
    pub part: u32,
    pub ring: u32,
    pub index: u32,
}

/// The vertex that four words name.
pub fn place_of(
    naming: Naming,
    id: &str,
    part: &str,
    ring: &str,
    index: &str,
) -> Result<VertexPlace, Refusal>
    ensures { result ≡ vertex_place naming id.now part.now ring.now index.now }
{
    let id = id_named(naming, id).ok_or(Refusal::BadCommand)?;
    let part = id_of(part).ok_or(Refusal::BadCommand)?;
    let ring = id_of(ring).ok_or(Refusal::BadCommand)?;
    let index = id_of(index).ok_or(Refusal::BadCommand)?;
    Ok(VertexPlace {
        id,
        part,
        ring,
        index,
    })
}
