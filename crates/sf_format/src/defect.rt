ghost use Rattle.std.specs.Prelude.{◌≡◌};
ghost use Rattle.sf_format.specs.Defects.{number_of, refusal_of};

use sf_refusals::Refusal;
use sf_valid_rules::Fault;
use sf_wkb::WkbFault;

/// What is wrong with a field of a file.
#[derive(Clone, Copy, Debug, PartialEq, Eq)]
pub enum Defect {
    /// The file ends before the field does.
    Truncated,
    /// A byte follows the last field.
    Trailing,
    /// The length of a binary geometry is above 2,097,152.
    TooManyVertices,
    /// The bytes of a binary geometry have no geometry.
    Wkb(WkbFault),
    /// A geometry isn't valid: its first fault.
    Invalid(Fault),
    /// An earlier layer has the name.
    LayerExists,
    /// The text isn't 1 to 32 ASCII letters, digits or underscores, the first of them a letter.
    BadName,
    /// A column number names no column of the layer or isn't above the one before, there are more values than columns, or
    /// the layer that a rule names has no column of the name.
    NoColumn,
    /// An earlier column of the layer has the name.
    ColumnExists,
    /// The byte is of no type of a column, the bytes are of no value of the type, or what a rule names doesn't fit its column: no
    /// value or more than 1,000, one that may not stand there, or a range whose first end is behind the second.
    WrongValue,
    /// The byte is of no kind of a layer, or the geometry isn't of its layer's kind.
    WrongKind,
    /// There are too many layers, an identifier isn't above the one before or below the layer's next
    /// one, or these are too few for the features.
    IdsExhausted,
    /// A column number is 0, used before or not below the layer's next one, or these are too few for
    /// the columns.
    ColumnsExhausted,
    /// The first eight bytes aren't those of a file of a store, the byte of the grid isn't that of their version, the byte is of no form of a
    /// rule that files of the version have, or says of no end of a range that it is given.
    BadFile,
    /// No layer of the file has the name.
    NoLayer,
    /// An earlier rule has the name.
    RuleExists,
    /// The byte is of no ask of a rule, or the nine letters are no pattern.
    BadPattern,
    /// The rule doesn't hold in the layers of the file.
    RuleBroken,
}

impl Defect {
    /// Its number among the refusals of the store.
    pub fn number(self) -> u8
        ensures { result ≡ number_of self }
    {
        Refusal::from(self).number()
    }
}

impl From<Defect> for Refusal {
    ghost from_gives = { λ defect refusal. refusal ≡ refusal_of defect };

    fn from(defect: Defect) -> Refusal {
        match defect {
            Defect::Truncated => Refusal::Truncated,
            Defect::Trailing => Refusal::Trailing,
            Defect::TooManyVertices => Refusal::TooManyVertices,
            Defect::Wkb(fault) => fault.into(),
            Defect::Invalid(fault) => fault.into(),
            Defect::LayerExists => Refusal::LayerExists,
            Defect::BadName => Refusal::BadName,
            Defect::NoColumn => Refusal::NoColumn,
            Defect::ColumnExists => Refusal::ColumnExists,
            Defect::WrongValue => Refusal::WrongValue,
            Defect::WrongKind => Refusal::WrongKind,
            Defect::IdsExhausted => Refusal::IdsExhausted,
            Defect::ColumnsExhausted => Refusal::ColumnsExhausted,
            Defect::BadFile => Refusal::BadFile,
            Defect::NoLayer => Refusal::NoLayer,
            Defect::RuleExists => Refusal::RuleExists,
            Defect::BadPattern => Refusal::BadPattern,
            Defect::RuleBroken => Refusal::RuleBroken,
        }
    }
}
