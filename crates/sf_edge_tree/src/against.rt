use crate::boxes::{Edge, box_of};
use crate::search::has_near;
use crate::tests::{EdgeTest, LOOKS_FOR_A_PAIR, PairTest, WithFirst};

/// Single edges, each asked about together with the edges of a run of others: whether one of those has a box that meets
/// its own, and passes with it.
#[derive(Drop)]
pub(crate) struct AgainstRun<'a, P> {
    pub edges: &'a [Edge],
    pub others: &'a [Edge],
    pub start: usize,
    pub end: usize,
    pub test: &'a P,
}

impl<P: PairTest> EdgeTest for AgainstRun<'_, P> {
    ghost use Rattle.std.specs.Prelude.{ℕ, ◌<◌, ◌≤◌, length};
    ghost use Rattle.sf_edge_tree.specs.Boxes.{extent_at_edge};
    ghost use Rattle.sf_edge_tree.specs.Searches.{HasNear};

    ghost CanTest = { λ s edge. (edge < length s.edges.now) × (s.end ≤ length s.others.now)
        × ((i : ℕ) → s.start ≤ i → i < s.end → P.CanTest s.test.now edge i) };

    ghost Passes = { λ s edge. HasNear s.others.now (extent_at_edge s.edges.now edge) s.start s.end
        (P.Passes s.test.now edge) };

    fn test(&self, edge: usize, looks: &mut usize) -> bool {
        *looks = looks.saturating_sub(LOOKS_FOR_A_PAIR);
        if self.test.is_clear(edge, self.start, self.end) {
            return false;
        }
        let test = WithFirst {
            first: edge,
            test: self.test,
        };
        has_near(
            self.others,
            self.start,
            self.end,
            box_of(&self.edges[edge]),
            &test,
            looks,
        )
    }
}
