//! The elements of features.
ghost use Rattle.std.specs.Prelude.{◌≡◌, ◌++◌, ◌-ℤ◌, codes, flat_map, string_bytes, OnOk};
ghost use Rattle.std.specs.Fmt.{signed_decimal};
ghost use Rattle.sf_picture.specs.Elements.{class_of as class_of_kind, dot, element, element_head, line_path, line_to, path_of, place_text, polygon_path, ring_path};

use super::view::View;
use sf_geometry::{Geometry, Kind, Sequence};
use sf_grid::GridPoint;
use sf_layers::Feature;
use std::alloc::AllocError;

/// The class of the geometries of a kind.
fn class_of(kind: Kind) -> &'static str
    ensures { result.now ≡ class_of_kind kind }
{
    match kind {
        Kind::Point => "point",
        Kind::LineString => "linestring",
        Kind::Polygon => "polygon",
        Kind::MultiPoint => "multipoint",
        Kind::MultiLineString => "multilinestring",
        Kind::MultiPolygon => "multipolygon",
    }
}

/// Puts the element of a feature of the layer of a name behind a text.
pub(crate) fn push_element(
    text: &mut String,
    view: &View,
    name: &str,
    id: u32,
    feature: &Feature,
) -> Result<(), AllocError>
    ensures { OnOk result (string_bytes text.new ≡ string_bytes text.old ++ element view.now name.now (id, feature.now)) }
{
    let geometry = feature.valid().geometry();
    push_element_head(text, name, id, class_of(geometry.kind()))?;
    push_path(text, view, geometry)?;
    text.push_str("'/>\n")
}

/// Puts the front of a feature's element, up to its path, behind a text.
fn push_element_head(text: &mut String, name: &str, id: u32, class: &str) -> Result<(), AllocError>
    ensures { OnOk result (string_bytes text.new
        ≡ string_bytes text.old ++ element_head name.now id class.now) }
{
    write!(text, "<path id='{name}-{id}' class='feature {class}' d='")
}

/// Puts the path of a geometry behind a text.
fn push_path(text: &mut String, view: &View, geometry: &Geometry) -> Result<(), AllocError>
    ensures { OnOk result (string_bytes text.new ≡ string_bytes text.old ++ path_of view.now geometry.now) }
{
    match geometry {
        Geometry::Point(point) => push_dot(text, view, point),
        Geometry::LineString(points) => push_line(text, view, points.as_slice()),
        Geometry::Polygon(rings) => push_polygon(text, view, rings.as_slice()),
        Geometry::MultiPoint(points) => push_dots(text, view, points.as_slice()),
        Geometry::MultiLineString(lines) => push_lines(text, view, lines.as_slice()),
        Geometry::MultiPolygon(polygons) => push_polygons(text, view, polygons.as_slice()),
    }
}

/// Puts where a point is, from the map's corner, behind a text: browsers place it with single precision,
/// which holds small numbers alone to a part of a pixel.
fn push_place(text: &mut String, view: &View, point: &GridPoint) -> Result<(), AllocError>
    ensures { OnOk result (string_bytes text.new ≡ string_bytes text.old ++ place_text view.now point.now) }
{
    let x = steps(view.left, point.x());
    let y = steps(view.top, point.y());
    push_steps(text, x, y)
}

/// How many steps a coordinate is from another one.
fn steps(from: i32, to: i32) -> i64
    ensures { result ≡ to -ℤ from }
{
    i64::from(to) - i64::from(from)
}

/// Puts two numbers of steps behind a text.
fn push_steps(text: &mut String, x: i64, y: i64) -> Result<(), AllocError>
    ensures { OnOk result (string_bytes text.new
        ≡ string_bytes text.old ++ (signed_decimal x ++ (codes " " ++ signed_decimal y))) }
{
    write!(text, "{x} {y}")
}

/// Puts a point behind a text.
fn push_dot(text: &mut String, view: &View, point: &GridPoint) -> Result<(), AllocError>
    ensures { OnOk result (string_bytes text.new ≡ string_bytes text.old ++ dot view.now point.now) }
{
    text.push_str("M")?;
    push_place(text, view, point)?;
    text.push_str("h0")
}

/// Puts points behind a text.
fn push_dots(text: &mut String, view: &View, points: &[GridPoint]) -> Result<(), AllocError>
    ensures { OnOk result (string_bytes text.new ≡ string_bytes text.old ++ flat_map (dot view.now) points.now) }
{
    for point in points {
        push_dot(text, view, point)?;
    }
    Ok(())
}

/// Puts a line through points behind a text.
fn push_line(text: &mut String, view: &View, points: &[GridPoint]) -> Result<(), AllocError>
    ensures { OnOk result (string_bytes text.new ≡ string_bytes text.old ++ line_path view.now points.now) }
{
    let Some((first, others)) = points.split_first() else {
        return Ok(());
    };
    text.push_str("M")?;
    push_place(text, view, first)?;
    push_further(text, view, others)
}

/// Puts the points of a line behind its first one behind a text.
fn push_further(text: &mut String, view: &View, points: &[GridPoint]) -> Result<(), AllocError>
    ensures { OnOk result (string_bytes text.new ≡ string_bytes text.old ++ flat_map (line_to view.now) points.now) }
{
    for point in points {
        text.push_str("L")?;
        push_place(text, view, point)?;
    }
    Ok(())
}

/// Puts lines behind a text.
fn push_lines(
    text: &mut String,
    view: &View,
    lines: &[Sequence<GridPoint>],
) -> Result<(), AllocError>
    ensures { OnOk result (string_bytes text.new ≡ string_bytes text.old ++ flat_map (line_path view.now) lines.now) }
{
    for line in lines {
        push_line(text, view, line.as_slice())?;
    }
    Ok(())
}

/// Puts a ring behind a text.
fn push_ring(text: &mut String, view: &View, points: &[GridPoint]) -> Result<(), AllocError>
    ensures { OnOk result (string_bytes text.new ≡ string_bytes text.old ++ ring_path view.now points.now) }
{
    push_line(text, view, points)?;
    text.push_str("Z")
}

/// Puts the rings of a polygon behind a text.
fn push_polygon(
    text: &mut String,
    view: &View,
    rings: &[Sequence<GridPoint>],
) -> Result<(), AllocError>
    ensures { OnOk result (string_bytes text.new ≡ string_bytes text.old ++ polygon_path view.now rings.now) }
{
    for ring in rings {
        push_ring(text, view, ring.as_slice())?;
    }
    Ok(())
}

/// Puts polygons behind a text.
fn push_polygons(
    text: &mut String,
    view: &View,
    polygons: &[Sequence<Sequence<GridPoint>>],
) -> Result<(), AllocError>
    ensures { OnOk result (string_bytes text.new ≡ string_bytes text.old ++ flat_map (polygon_path view.now) polygons.now) }
{
    for rings in polygons {
        push_polygon(text, view, rings.as_slice())?;
    }
    Ok(())
}
