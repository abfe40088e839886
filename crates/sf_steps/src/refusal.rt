ghost use Rattle.std.specs.Prelude.{◌≡◌};
ghost use Rattle.sf_steps.specs.Refusals.{from_validity, refusal_of};

use sf_refusals::Refusal as StoreRefusal;
use sf_validity::Fault;

/// Why an edit was refused.
#[derive(Clone, Copy, Debug, PartialEq, Eq)]
pub enum Refusal {
    /// No memory was found for the change.
    Memory,
    /// A list of the geometry is empty, or would be.
    Empty,
    /// The geometry has more than 65,536 points, or would have.
    TooManyVertices,
    /// The geometry isn't valid, or would not be: its first fault.
    Invalid(Fault),
    /// No layer has the name.
    NoLayer,
    /// A layer has the name already.
    LayerExists,
    /// The text isn't 1 to 32 ASCII letters, digits or underscores, the first of them a letter.
    BadName,
    /// The layer has no feature of the identifier.
    NoFeature,
    /// The layer has no column of the name.
    NoColumn,
    /// A column of the layer has the name already.
    ColumnExists,
    /// The value isn't of the column's type, or is a text that is too long or has a byte 0.
    WrongValue,
    /// The geometry has no such vertex.
    NoVertex,
    /// The layer takes no geometry of this kind.
    WrongKind,
    /// The layer's identifiers, or the store's 65,535 layers, are used up.
    IdsExhausted,
    /// The layer's column numbers are used up.
    ColumnsExhausted,
    /// The place isn't below the number of layers.
    BadPlace,
}

impl From<Refusal> for StoreRefusal {
    ghost from_gives = { λ refusal result. result ≡ refusal_of refusal };

    fn from(refusal: Refusal) -> StoreRefusal {
        match refusal {
            Refusal::Memory => StoreRefusal::Memory,
            Refusal::Empty => StoreRefusal::Empty,
            Refusal::TooManyVertices => StoreRefusal::TooManyVertices,
            Refusal::Invalid(fault) => fault.into(),
            Refusal::NoLayer => StoreRefusal::NoLayer,
            Refusal::LayerExists => StoreRefusal::LayerExists,
            Refusal::BadName => StoreRefusal::BadName,
            Refusal::NoFeature => StoreRefusal::NoFeature,
            Refusal::NoColumn => StoreRefusal::NoColumn,
            Refusal::ColumnExists => StoreRefusal::ColumnExists,
            Refusal::WrongValue => StoreRefusal::WrongValue,
            Refusal::NoVertex => StoreRefusal::NoVertex,
            Refusal::WrongKind => StoreRefusal::WrongKind,
            Refusal::IdsExhausted => StoreRefusal::IdsExhausted,
            Refusal::ColumnsExhausted => StoreRefusal::ColumnsExhausted,
            Refusal::BadPlace => StoreRefusal::BadPlace,
        }
    }
}

impl From<sf_validity::Refusal> for Refusal {
    ghost from_gives = { λ lower refusal. refusal ≡ from_validity lower };

    fn from(lower: sf_validity::Refusal) -> Refusal {
        match lower {
            sf_validity::Refusal::Memory => Refusal::Memory,
            sf_validity::Refusal::Empty => Refusal::Empty,
            sf_validity::Refusal::TooManyVertices => Refusal::TooManyVertices,
            sf_validity::Refusal::NoVertex => Refusal::NoVertex,
            sf_validity::Refusal::Invalid(fault) => Refusal::Invalid(fault),
        }
    }
}
