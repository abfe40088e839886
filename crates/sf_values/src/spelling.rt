//! What single words spell: kinds of layers, types of columns, predicates, names.
ghost use Rattle.std.specs.Prelude.{◌≡◌, IfOk};
ghost use Rattle.sf_values.specs.Kinds.{layer_kind_of as layer_kind_named, column_type_of as column_type_named, predicate_of as predicate_named};

use sf_features::{ColumnType, Text};
use sf_geometry::Kind;
use sf_known::Predicate;
use sf_layers::LayerKind;
use std::alloc::{AllocError, Global};

/// The kind of a layer that a word spells, in small letters.
pub fn layer_kind_of(word: &str) -> Option<LayerKind>
    ensures { result ≡ layer_kind_named word.now }
{
    match word {
        "any" => Some(LayerKind::Any),
        "point" => Some(LayerKind::Only(Kind::Point)),
        "linestring" => Some(LayerKind::Only(Kind::LineString)),
        "polygon" => Some(LayerKind::Only(Kind::Polygon)),
        "multipoint" => Some(LayerKind::Only(Kind::MultiPoint)),
        "multilinestring" => Some(LayerKind::Only(Kind::MultiLineString)),
        "multipolygon" => Some(LayerKind::Only(Kind::MultiPolygon)),
        _ => None,
    }
}

/// The type of a column that a word spells, in small letters.
pub fn column_type_of(word: &str) -> Option<ColumnType>
    ensures { result ≡ column_type_named word.now }
{
    match word {
        "int" => Some(ColumnType::Int),
        "text" => Some(ColumnType::Text),
        "decimal" => Some(ColumnType::Decimal),
        "bool" => Some(ColumnType::Bool),
        "date" => Some(ColumnType::Date),
        "datetime" => Some(ColumnType::DateTime),
        _ => None,
    }
}

/// The predicate that a word spells, in small letters.
pub fn predicate_of(word: &str) -> Option<Predicate>
    ensures { result ≡ predicate_named word.now }
{
    match word {
        "equals" => Some(Predicate::Equals),
        "disjoint" => Some(Predicate::Disjoint),
        "touches" => Some(Predicate::Touches),
        "crosses" => Some(Predicate::Crosses),
        "within" => Some(Predicate::Within),
        "contains" => Some(Predicate::Contains),
        "overlaps" => Some(Predicate::Overlaps),
        "intersects" => Some(Predicate::Intersects),
        _ => None,
    }
}

/// A copy of a word, to be kept.
pub fn text_of(alloc: Global, word: &str) -> Result<Text, AllocError>
    ensures { IfOk result (λ text. text ≡ word.now) }
{
    Ok(Text::from_string(String::from_str(alloc, word)?))
}
