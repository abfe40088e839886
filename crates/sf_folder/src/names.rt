//! The four files of a store.

/// A file of a store, by what it is.
#[derive(Clone, Copy, Debug, PartialEq, Eq)]
pub enum Name {
    /// The store's file.
    Store,
    /// A new file that is to take its place.
    StoreBeside,
    /// The journal.
    Journal,
    /// A new journal that is to take its place.
    JournalBeside,
}
