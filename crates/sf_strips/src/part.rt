use crate::level::Level;

/// A part of a column or slab, from the top.
#[derive(Clone, Copy, Debug)]
pub enum Part {
    /// So many edges that go on, each alone at its height.
    Alone(usize),
    /// What is at one height.
    Together(Level),
}
