ghost use Rattle.std.specs.Prelude.{◌≡◌};
ghost use Rattle.sf_refusals.specs.Refusals.{name_of, number_of};

/// Why a request was refused. Each crate has an enum of those that it gives, and converts to this one.
#[derive(Clone, Copy, Debug, PartialEq, Eq)]
pub enum Refusal {
    /// No memory was found.
    Memory,
    /// The text isn't well-known text, or the bytes can't be decoded.
    Syntax,
    /// A coordinate is no whole number.
    OffGrid,
    /// A whole coordinate is outside the grid.
    OutOfRange,
    /// A geometry, or one of its lists, has no point.
    Empty,
    /// The kind of geometry is none of the six that are kept.
    UnsupportedType,
    /// The bytes end too early.
    Truncated,
    /// Bytes are left over.
    Trailing,
    /// A geometry has more than 65,536 points.
    TooManyVertices,
    /// A line has fewer than two different points in a row.
    ShortLine,
    /// The first and the last point of a ring differ.
    OpenRing,
    /// A ring has fewer than four points in a row that differ.
    ShortRing,
    /// A ring touches or crosses itself.
    RingNotSimple,
    /// Two rings share a piece of an edge.
    RingsMeet,
    /// A hole leaves its shell.
    HoleOutside,
    /// Two holes of a polygon have an inner point in common.
    HolesNested,
    /// Two polygons have an inner point in common.
    PolygonsOverlap,
    /// No layer has the name.
    NoLayer,
    /// A layer has the name already.
    LayerExists,
    /// The text isn't 1 to 32 ASCII letters, digits or underscores, the first of them a letter.
    BadName,
    /// The layer has no feature under the identifier.
    NoFeature,
    /// The layer has no column of the name.
    NoColumn,
    /// The layer has a column of the name already.
    ColumnExists,
    /// The value isn't of the column's type, or breaks its limits.
    WrongValue,
    /// The geometry has no such vertex.
    NoVertex,
    /// The layer takes no geometry of this kind.
    WrongKind,
    /// The layer's identifiers, or the store's 65,535 layers, are used up.
    IdsExhausted,
    /// The layer's column numbers are used up.
    ColumnsExhausted,
    /// No edit is left to undo.
    NothingToUndo,
    /// No edit is left to redo.
    NothingToRedo,
    /// The line is no command.
    BadCommand,
    /// The text is no DE-9IM pattern.
    BadPattern,
    /// The line has more than 4,194,304 bytes before its line feed.
    LineTooLong,
    /// The bytes are no file of the store.
    BadFile,
    /// The order of layers has no such place.
    BadPlace,
    /// The step is another editor's, whose number this is.
    NotYours(u8),
    /// A rule would be broken.
    RuleBroken,
    /// The input ended inside a group of edits.
    Unfinished,
    /// No rule has the name.
    NoRule,
    /// A rule has the name already.
    RuleExists,
    /// A rule names the layer that is to be dropped.
    LayerRuled,
    /// A rule names the column that is to be dropped.
    ColumnRuled,
}

impl Refusal {
    /// The number of the refusal, from 1 on.
    pub fn number(self) -> u8
        ensures { result ≡ number_of self }
    {
        match self {
            Refusal::Memory => 1,
            Refusal::Syntax => 2,
            Refusal::OffGrid => 3,
            Refusal::OutOfRange => 4,
            Refusal::Empty => 5,
            Refusal::UnsupportedType => 6,
            Refusal::Truncated => 7,
            Refusal::Trailing => 8,
            Refusal::TooManyVertices => 9,
            Refusal::ShortLine => 10,
            Refusal::OpenRing => 11,
            Refusal::ShortRing => 12,
            Refusal::RingNotSimple => 13,
            Refusal::RingsMeet => 14,
            Refusal::HoleOutside => 15,
            Refusal::HolesNested => 16,
            Refusal::PolygonsOverlap => 17,
            Refusal::NoLayer => 18,
            Refusal::LayerExists => 19,
            Refusal::BadName => 20,
            Refusal::NoFeature => 21,
            Refusal::NoColumn => 22,
            Refusal::ColumnExists => 23,
            Refusal::WrongValue => 24,
            Refusal::NoVertex => 25,
            Refusal::WrongKind => 26,
            Refusal::IdsExhausted => 27,
            Refusal::ColumnsExhausted => 28,
            Refusal::NothingToUndo => 29,
            Refusal::NothingToRedo => 30,
            Refusal::BadCommand => 31,
            Refusal::BadPattern => 32,
            Refusal::LineTooLong => 33,
            Refusal::BadFile => 34,
            Refusal::BadPlace => 35,
            Refusal::NotYours(_) => 36,
            Refusal::RuleBroken => 37,
            Refusal::Unfinished => 38,
            Refusal::NoRule => 39,
            Refusal::RuleExists => 40,
            Refusal::LayerRuled => 41,
            Refusal::ColumnRuled => 42,
        }
    }

    /// The name of the refusal.
    pub fn name(self) -> &'static str
        ensures { result.now ≡ name_of self }
    {
        match self {
            Refusal::Memory => "Memory",
            Refusal::Syntax => "Syntax",
            Refusal::OffGrid => "OffGrid",
            Refusal::OutOfRange => "OutOfRange",
            Refusal::Empty => "Empty",
            Refusal::UnsupportedType => "UnsupportedType",
            Refusal::Truncated => "Truncated",
            Refusal::Trailing => "Trailing",
            Refusal::TooManyVertices => "TooManyVertices",
            Refusal::ShortLine => "ShortLine",
            Refusal::OpenRing => "OpenRing",
            Refusal::ShortRing => "ShortRing",
            Refusal::RingNotSimple => "RingNotSimple",
            Refusal::RingsMeet => "RingsMeet",
            Refusal::HoleOutside => "HoleOutside",
            Refusal::HolesNested => "HolesNested",
            Refusal::PolygonsOverlap => "PolygonsOverlap",
            Refusal::NoLayer => "NoLayer",
            Refusal::LayerExists => "LayerExists",
            Refusal::BadName => "BadName",
            Refusal::NoFeature => "NoFeature",
            Refusal::NoColumn => "NoColumn",
            Refusal::ColumnExists => "ColumnExists",
            Refusal::WrongValue => "WrongValue",
            Refusal::NoVertex => "NoVertex",
            Refusal::WrongKind => "WrongKind",
            Refusal::IdsExhausted => "IdsExhausted",
            Refusal::ColumnsExhausted => "ColumnsExhausted",
            Refusal::NothingToUndo => "NothingToUndo",
            Refusal::NothingToRedo => "NothingToRedo",
            Refusal::BadCommand => "BadCommand",
            Refusal::BadPattern => "BadPattern",
            Refusal::LineTooLong => "LineTooLong",
            Refusal::BadFile => "BadFile",
            Refusal::BadPlace => "BadPlace",
            Refusal::NotYours(_) => "NotYours",
            Refusal::RuleBroken => "RuleBroken",
            Refusal::Unfinished => "Unfinished",
            Refusal::NoRule => "NoRule",
            Refusal::RuleExists => "RuleExists",
            Refusal::LayerRuled => "LayerRuled",
            Refusal::ColumnRuled => "ColumnRuled",
        }
    }
}
