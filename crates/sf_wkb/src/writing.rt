//! The writer.
ghost use Rattle.std.specs.Prelude.{◌≡◌, ◌+◌, ◌++◌, ◌<◌, ◌^◌, ◌≤◌, length, vec_capacity, IfOk, OnOk, OnErr};
ghost use Rattle.byteorder.specs.Endian.{little_bytes};
ghost use Rattle.sf_geometry.specs.Parts.{joined};
ghost use Rattle.sf_geometry.specs.Size.{IsSized, points_max};
ghost use Rattle.sf_wkb.specs.Grammar.{canonical, header as header_of, point_bytes, line_bytes, list_bytes, rings_bytes};
ghost use Rattle.std.specs.List.{AllByRecursion};
ghost use Rattle.sf_geometry.specs.declared.kind.Kind.TheVariants as kinds;

use super::rules::code_of;
use super::words::word_of;
use byteorder::{ByteOrder, LittleEndian};
use sf_geometry::{Geometry, Kind, Sequence};
use sf_grid::GridPoint;
use std::alloc::{AllocError, Global};

/// The canonical bytes of a geometry, at most 118,793: the least significant byte first at every level,
/// and of each coordinate the word that `word_of` gives.
///
/// # Errors
///
/// Where no memory was found for the bytes.
pub fn write(alloc: Global, geometry: &Geometry) -> Result<Vec<u8>, AllocError>
    requires { IsSized geometry.now }
    ensures { IfOk result (λ bytes. bytes.items ≡ canonical geometry.now) }
{
    let mut bytes = Vec::new(alloc);
    append(&mut bytes, geometry)?;
    Ok(bytes)
}

/// Puts the canonical bytes of a geometry behind others. Where these have room for them, no memory is
/// taken; else they grow once.
///
/// # Errors
///
/// Where no memory was found for them. The others are then as they were.
pub fn append(bytes: &mut Vec<u8>, geometry: &Geometry) -> Result<(), AllocError>
    requires { IsSized geometry.now }
    ensures appended { OnOk result (bytes.new.items ≡ bytes.old.items ++ canonical geometry.now) }
    ensures unchanged { OnErr result (bytes.new.items ≡ bytes.old.items) }
{
    bytes.reserve(byte_count(geometry))?;
    push_geometry(bytes, geometry);
    Ok(())
}

/// How many bytes the canonical form of a geometry has.
fn byte_count(geometry: &Geometry) -> usize
    requires { IsSized geometry.now }
    ensures { result ≡ length (canonical geometry.now) }
{
    let points = geometry.point_count();
    match geometry {
        Geometry::Point(_) => 21,
        Geometry::LineString(_) => 9 + 16 * points,
        Geometry::Polygon(rings) => 9 + 4 * rings.as_slice().len() + 16 * points,
        Geometry::MultiPoint(_) => 9 + 21 * points,
        Geometry::MultiLineString(lines) => 9 + 9 * lines.as_slice().len() + 16 * points,
        Geometry::MultiPolygon(polygons) => {
            let polygons = polygons.as_slice();
            9 + 9 * polygons.len() + 4 * ring_count(polygons) + 16 * points
        }
    }
}

/// How many rings polygons have.
fn ring_count(polygons: &[Sequence<Sequence<GridPoint>>]) -> usize
    requires { length (joined polygons.now) ≤ points_max }
    ensures count { result ≡ length (joined polygons.now) }
    ensures few { result ≤ points_max }
{
    let mut count = 0;
    for rings in polygons {
        count += rings.as_slice().len();
    }
    count
}

/// Puts the canonical bytes of a geometry behind others, which have room for them.
fn push_geometry(bytes: &mut Vec<u8>, geometry: &Geometry)
    requires sized { IsSized geometry.now }
    requires room { length bytes.old.items + length (canonical geometry.now) ≤ vec_capacity bytes.old }
    ensures { bytes.new.items ≡ bytes.old.items ++ canonical geometry.now }
{
    push_header(bytes, geometry.kind());
    match geometry {
        Geometry::Point(point) => push_point(bytes, point),
        Geometry::LineString(points) => push_line(bytes, points.as_slice()),
        Geometry::Polygon(rings) => push_rings(bytes, rings.as_slice()),
        Geometry::MultiPoint(points) => push_points(bytes, points.as_slice()),
        Geometry::MultiLineString(lines) => push_lines(bytes, lines.as_slice()),
        Geometry::MultiPolygon(polygons) => push_polygons(bytes, polygons.as_slice()),
    }
}

/// Puts bytes behind others, which have room for them.
fn push_bytes(bytes: &mut Vec<u8>, others: &[u8])
    requires room { length bytes.old.items + length others.now ≤ vec_capacity bytes.old }
    ensures items { bytes.new.items ≡ bytes.old.items ++ others.now }
    ensures capacity { vec_capacity bytes.old ≤ vec_capacity bytes.new }
{
    bytes.extend_from_slice(others).unwrap();
}

/// Puts a number of four bytes behind others, which have room for it.
fn push_number(bytes: &mut Vec<u8>, number: u32)
    requires room { length bytes.old.items + length (little_bytes 4 number) ≤ vec_capacity bytes.old }
    ensures items { bytes.new.items ≡ bytes.old.items ++ little_bytes 4 number }
    ensures capacity { vec_capacity bytes.old ≤ vec_capacity bytes.new }
{
    let mut field = [0u8; 4];
    LittleEndian::write_u32(&mut field, number);
    push_bytes(bytes, &field);
}

/// Puts the byte of order and the code of a kind behind others, which have room for them.
fn push_header(bytes: &mut Vec<u8>, kind: Kind)
    requires room { length bytes.old.items + length (header_of kind) ≤ vec_capacity bytes.old }
    ensures items { bytes.new.items ≡ bytes.old.items ++ header_of kind }
    ensures capacity { vec_capacity bytes.old ≤ vec_capacity bytes.new }
{
    push_bytes(bytes, &[1]);
    push_number(bytes, code_of(kind));
}

/// Puts x and y behind other bytes, which have room for them.
fn push_point(bytes: &mut Vec<u8>, point: &GridPoint)
    requires room { length bytes.old.items + length (point_bytes point.now) ≤ vec_capacity bytes.old }
    ensures items { bytes.new.items ≡ bytes.old.items ++ point_bytes point.now }
    ensures capacity { vec_capacity bytes.old ≤ vec_capacity bytes.new }
{
    let field = two_words(word_of(point.x()), word_of(point.y()));
    push_bytes(bytes, &field);
}

/// The bytes of two words.
fn two_words(first: u64, second: u64) -> [u8; 16]
    ensures { result ≡ little_bytes 8 first ++ little_bytes 8 second }
{
    let mut field = [0; 16];
    LittleEndian::write_u64(&mut field, first);
    LittleEndian::write_u64(&mut field[8..], second);
    field
}

/// Puts the points of a line or a ring behind other bytes, which have room for them.
fn push_line(bytes: &mut Vec<u8>, points: &[GridPoint])
    requires count { length points.now < 2 ^ 32 }
    requires room { length bytes.old.items + length (line_bytes points.now) ≤ vec_capacity bytes.old }
    ensures items { bytes.new.items ≡ bytes.old.items ++ line_bytes points.now }
    ensures capacity { vec_capacity bytes.old ≤ vec_capacity bytes.new }
{
    push_number(bytes, points.len() as u32);
    for point in points {
        push_point(bytes, point);
    }
}

/// Puts the rings of a polygon behind other bytes, which have room for them.
fn push_rings(bytes: &mut Vec<u8>, rings: &[Sequence<GridPoint>])
    requires count { length rings.now < 2 ^ 32 }
    requires counts { AllByRecursion (λ ring. length ring < 2 ^ 32) rings.now }
    requires room { length bytes.old.items + length (rings_bytes rings.now) ≤ vec_capacity bytes.old }
    ensures items { bytes.new.items ≡ bytes.old.items ++ rings_bytes rings.now }
    ensures capacity { vec_capacity bytes.old ≤ vec_capacity bytes.new }
{
    push_number(bytes, rings.len() as u32);
    for ring in rings {
        push_line(bytes, ring.as_slice());
    }
}

/// Puts the points of a MultiPoint behind other bytes, which have room for them.
fn push_points(bytes: &mut Vec<u8>, points: &[GridPoint])
    requires count { length points.now < 2 ^ 32 }
    requires room { length bytes.old.items + length (list_bytes (λ p. header_of kinds.Point ++ point_bytes p) points.now) ≤ vec_capacity bytes.old }
    ensures { bytes.new.items ≡ bytes.old.items ++ list_bytes (λ p. header_of kinds.Point ++ point_bytes p) points.now }
{
    push_number(bytes, points.len() as u32);
    for point in points {
        push_header(bytes, Kind::Point);
        push_point(bytes, point);
    }
}

/// Puts the lines of a MultiLineString behind other bytes, which have room for them.
fn push_lines(bytes: &mut Vec<u8>, lines: &[Sequence<GridPoint>])
    requires count { length lines.now < 2 ^ 32 }
    requires counts { AllByRecursion (λ line. length line < 2 ^ 32) lines.now }
    requires room { length bytes.old.items + length (list_bytes (λ ps. header_of kinds.LineString ++ line_bytes ps) lines.now) ≤ vec_capacity bytes.old }
    ensures { bytes.new.items ≡ bytes.old.items ++ list_bytes (λ ps. header_of kinds.LineString ++ line_bytes ps) lines.now }
{
    push_number(bytes, lines.len() as u32);
    for line in lines {
        push_header(bytes, Kind::LineString);
        push_line(bytes, line.as_slice());
    }
}

/// Puts the polygons of a MultiPolygon behind other bytes, which have room for them.
fn push_polygons(bytes: &mut Vec<u8>, polygons: &[Sequence<Sequence<GridPoint>>])
    requires count { length polygons.now < 2 ^ 32 }
    requires counts { AllByRecursion (λ rings. (length rings < 2 ^ 32) × AllByRecursion (λ ring. length ring < 2 ^ 32) rings) polygons.now }
    requires room { length bytes.old.items + length (list_bytes (λ rings. header_of kinds.Polygon ++ rings_bytes rings) polygons.now) ≤ vec_capacity bytes.old }
    ensures { bytes.new.items ≡ bytes.old.items ++ list_bytes (λ rings. header_of kinds.Polygon ++ rings_bytes rings) polygons.now }
{
    push_number(bytes, polygons.len() as u32);
    for rings in polygons {
        push_header(bytes, Kind::Polygon);
        push_rings(bytes, rings.as_slice());
    }
}
