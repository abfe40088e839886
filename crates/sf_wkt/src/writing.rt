//! The writer.
ghost use Rattle.std.specs.Prelude.{◌≡◌, ◌++◌, string_bytes, codes, IfOk, OnErr, OnOk};
ghost use Rattle.std.specs.List.{flat_map};
ghost use Rattle.std.specs.Fmt.InlineText.{inline_text};
ghost use Rattle.sf_wkt.specs.Grammar.{canonical, point_text as point_text_of, in_brackets, list_text};

use sf_geometry::{Geometry, Sequence};
use sf_grid::GridPoint;
use std::alloc::{AllocError, Global};
use std::fmt::{self, InlineText, Write};

/// At least the length of the canonical text of a point, whatever its coordinates: 9 bytes beside two
/// of them, of which each takes 11 at most.
const POINT_LEN: usize = 32;

/// The canonical text of a geometry: the keyword in capitals, a comma and a space between two items,
/// each point of a MultiPoint in brackets, and numbers with no sign for plus, leading zero or fraction.
///
/// # Errors
///
/// Where no memory was found for the text.
pub fn write(alloc: Global, geometry: &Geometry) -> Result<String, AllocError>
    ensures { IfOk result (λ text. string_bytes text ≡ canonical geometry.now) }
{
    let mut text = String::new(alloc);
    push_geometry(&mut text, geometry)?;
    Ok(text)
}

/// Puts the canonical text of a geometry behind a text.
///
/// # Errors
///
/// Where no memory was found for it. The text is then as it was.
pub fn append(alloc: Global, text: &mut String, geometry: &Geometry) -> Result<(), AllocError>
    ensures appended { OnOk result
        (string_bytes text.new ≡ string_bytes text.old ++ canonical geometry.now) }
    ensures unchanged { OnErr result (string_bytes text.new ≡ string_bytes text.old) }
{
    match geometry {
        // A point's text is made on the stack: a layer of points takes no memory for its pieces.
        Geometry::Point(point) => {
            let piece = whole_point_text(point).map_err(|_| AllocError)?;
            text.push_str(piece.as_str())
        }
        _ => {
            let piece = write(alloc, geometry)?;
            text.push_str(piece.as_str())
        }
    }
}

/// Puts x and y behind a text, with a space between them.
///
/// # Errors
///
/// Where no memory was found for them. The text is then as it was.
pub fn append_point(text: &mut String, point: &GridPoint) -> Result<(), AllocError>
    ensures appended { OnOk result
        (string_bytes text.new ≡ string_bytes text.old ++ point_text_of point.now) }
    ensures unchanged { OnErr result (string_bytes text.new ≡ string_bytes text.old) }
{
    let piece = point_text(point).map_err(|_| AllocError)?;
    text.push_str(piece.as_str())
}

/// The canonical text of a point, which has room: an Err never comes.
fn whole_point_text(point: &GridPoint) -> Result<InlineText<POINT_LEN>, fmt::Error>
    ensures { IfOk result (λ text. inline_text text ≡ canonical (Geometry.Point point.now)) }
{
    let x = point.x();
    let y = point.y();
    let mut text = InlineText::new();
    write!(text, "POINT ({x} {y})")?;
    Ok(text)
}

/// Puts the canonical text of a geometry behind a text. After an Err a front of it may stand there.
fn push_geometry(text: &mut String, geometry: &Geometry) -> Result<(), AllocError>
    ensures { OnOk result (string_bytes text.new ≡ string_bytes text.old ++ canonical geometry.now) }
{
    match geometry {
        Geometry::Point(point) => {
            text.push_str("POINT ")?;
            push_item(text, point)
        }
        Geometry::LineString(points) => {
            text.push_str("LINESTRING ")?;
            push_line(text, points.as_slice())
        }
        Geometry::Polygon(rings) => {
            text.push_str("POLYGON ")?;
            push_lists(text, rings.as_slice())
        }
        Geometry::MultiPoint(points) => {
            text.push_str("MULTIPOINT ")?;
            push_items(text, points.as_slice())
        }
        Geometry::MultiLineString(lines) => {
            text.push_str("MULTILINESTRING ")?;
            push_lists(text, lines.as_slice())
        }
        Geometry::MultiPolygon(polygons) => {
            text.push_str("MULTIPOLYGON ")?;
            push_polygons(text, polygons.as_slice())
        }
    }
}

/// The text of x and y, which has room: an Err never comes.
fn point_text(point: &GridPoint) -> Result<InlineText<POINT_LEN>, fmt::Error>
    ensures { IfOk result (λ text. inline_text text ≡ point_text_of point.now) }
{
    let x = point.x();
    let y = point.y();
    let mut text = InlineText::new();
    write!(text, "{x} {y}")?;
    Ok(text)
}

/// Puts x and y in brackets behind a text.
fn push_item(text: &mut String, point: &GridPoint) -> Result<(), AllocError>
    ensures { OnOk result (string_bytes text.new ≡ string_bytes text.old ++ in_brackets (point_text_of point.now)) }
{
    text.push_str("(")?;
    append_point(text, point)?;
    text.push_str(")")
}

/// Puts a line or a ring behind a text.
fn push_line(text: &mut String, points: &[GridPoint]) -> Result<(), AllocError>
    ensures { OnOk result (string_bytes text.new
        ≡ string_bytes text.old ++ list_text point_text_of points.now) }
{
    let Some((first, others)) = points.split_first() else {
        return text.push_str("()");
    };
    text.push_str("(")?;
    append_point(text, first)?;
    push_more_points(text, others)?;
    text.push_str(")")
}

/// Puts further points of a line behind a text.
fn push_more_points(text: &mut String, points: &[GridPoint]) -> Result<(), AllocError>
    ensures { OnOk result (string_bytes text.new
        ≡ string_bytes text.old ++ flat_map (λ p. codes ", " ++ point_text_of p) points.now) }
{
    for point in points {
        text.push_str(", ")?;
        append_point(text, point)?;
    }
    Ok(())
}

/// Puts the points of a MultiPoint behind a text.
fn push_items(text: &mut String, points: &[GridPoint]) -> Result<(), AllocError>
    ensures { OnOk result (string_bytes text.new
        ≡ string_bytes text.old ++ list_text (λ p. in_brackets (point_text_of p)) points.now) }
{
    let Some((first, others)) = points.split_first() else {
        return text.push_str("()");
    };
    text.push_str("(")?;
    push_item(text, first)?;
    push_more_items(text, others)?;
    text.push_str(")")
}

/// Puts further points of a MultiPoint behind a text.
fn push_more_items(text: &mut String, points: &[GridPoint]) -> Result<(), AllocError>
    ensures { OnOk result (string_bytes text.new
        ≡ string_bytes text.old ++ flat_map (λ p. codes ", " ++ in_brackets (point_text_of p)) points.now) }
{
    for point in points {
        text.push_str(", ")?;
        push_item(text, point)?;
    }
    Ok(())
}

/// Puts the rings of a polygon, or the lines of a MultiLineString, behind a text.
fn push_lists(text: &mut String, lists: &[Sequence<GridPoint>]) -> Result<(), AllocError>
    ensures { OnOk result (string_bytes text.new
        ≡ string_bytes text.old ++ list_text (list_text point_text_of) lists.now) }
{
    let Some((first, others)) = lists.split_first() else {
        return text.push_str("()");
    };
    text.push_str("(")?;
    push_line(text, first.as_slice())?;
    push_more_lists(text, others)?;
    text.push_str(")")
}

/// Puts further rings or lines behind a text.
fn push_more_lists(text: &mut String, lists: &[Sequence<GridPoint>]) -> Result<(), AllocError>
    ensures { OnOk result (string_bytes text.new
        ≡ string_bytes text.old ++ flat_map (λ ps. codes ", " ++ list_text point_text_of ps) lists.now) }
{
    for points in lists {
        text.push_str(", ")?;
        push_line(text, points.as_slice())?;
    }
    Ok(())
}

/// Puts the polygons of a MultiPolygon behind a text.
fn push_polygons(
    text: &mut String,
    polygons: &[Sequence<Sequence<GridPoint>>],
) -> Result<(), AllocError>
    ensures { OnOk result (string_bytes text.new
        ≡ string_bytes text.old ++ list_text (list_text (list_text point_text_of)) polygons.now) }
{
    let Some((first, others)) = polygons.split_first() else {
        return text.push_str("()");
    };
    text.push_str("(")?;
    push_lists(text, first.as_slice())?;
    push_more_polygons(text, others)?;
    text.push_str(")")
}

/// Puts further polygons of a MultiPolygon behind a text.
fn push_more_polygons(
    text: &mut String,
    polygons: &[Sequence<Sequence<GridPoint>>],
) -> Result<(), AllocError>
    ensures { OnOk result (string_bytes text.new
        ≡ string_bytes text.old ++ flat_map (λ rings. codes ", " ++ list_text (list_text point_text_of) rings) polygons.now) }
{
    for rings in polygons {
        text.push_str(", ")?;
        push_lists(text, rings.as_slice())?;
    }
    Ok(())
}
