//! Where the map of a picture lies, and how large the picture is.
ghost use Rattle.std.specs.Prelude.{◌≡◌, ◌+◌, ◌*◌, ◌/◌, ◌≤◌, ◌+ℤ◌, ◌-ℤ◌, IfNone, IfSome, max, min, pos};
ghost use Rattle.std.specs.Int.{int_max, int_min, saturate_signed, w32};
ghost use Rattle.sf_layers.specs.WellFormed.{IsWellFormed, layers_max};
ghost use Rattle.sf_picture.specs.Pictures.{row_height};
ghost use Rattle.sf_picture.specs.Views.{HasAllShown, IsBoxOnGrid, IsFrameOf, IsFrameRound, IsOver, IsRound, bar_length as bar_length_of, box_shown as box_shown_of, boxes_in, framing_height, longest_within as longest_within_of, map_height_max, margin_of as margin_of_box, share as share_of, shown_count, shown_extent, side as side_of, united, united_all};

use super::choice::Choice;
use sf_geometry::Extent;
use sf_layers::{Layer, Store};

/// How long the bar of a scale can be, in grid steps.
const BAR_LENGTHS: [u64; 27] = [
    1,
    2,
    5,
    10,
    20,
    50,
    100,
    200,
    500,
    1_000,
    2_000,
    5_000,
    10_000,
    20_000,
    50_000,
    100_000,
    200_000,
    500_000,
    1_000_000,
    2_000_000,
    5_000_000,
    10_000_000,
    20_000_000,
    50_000_000,
    100_000_000,
    200_000_000,
    500_000_000,
];

/// The box of the origin alone.
const ORIGIN: Extent = Extent {
    min_x: 0,
    min_y: 0,
    max_x: 0,
    max_y: 0,
};

/// How high the map is at most, in pixels.
const MAP_HEIGHT_MAX: u64 = 1_000_000;

/// How high a picture is without its map and its legend, in pixels.
const FRAMING_HEIGHT: u64 = 40;

/// The distance of two rows of the legend, in pixels.
pub(crate) const ROW_HEIGHT: u64 = 20;

/// Where the map of a picture lies, and how large the picture is.
#[derive(Clone, Copy, Debug, PartialEq, Eq)]
pub struct View {
    /// The least x of the map, in grid steps.
    pub left: i32,
    /// The greatest y of the map, in grid steps.
    pub top: i32,
    /// How wide the map is, in grid steps.
    pub wide: u64,
    /// How high the map is, in grid steps.
    pub high: u64,
    /// How wide the picture and its map are, in pixels.
    pub width: u32,
    /// How high the map is, in pixels.
    pub map_height: u32,
    /// How high the picture is, with its scale and its legend, in pixels.
    pub height: u64,
    /// How long the bar of the scale is, in grid steps.
    pub bar_steps: u64,
    /// How long the bar of the scale is, in pixels.
    pub bar_pixels: u32,
}

impl View {
    /// The view of what is shown of a store: the window where there is one, else the least box with
    /// all that is shown, or with the origin where nothing is, with a margin of a twentieth of its
    /// greater side and at least one grid step.
    pub fn of(store: &Store, choice: &Choice, width: u32) -> View
        ensures window { IfSome choice.now.window (λ window. IsOver window result) }
        ensures round { IfNone choice.now.window (IsRound (box_shown_of choice.now store.now) result) }
        ensures inside { IfNone choice.now.window (HasAllShown choice.now store.now result) }
        ensures width { result.width ≡ width }
        ensures map_height { result.map_height ≡ min (max (share_of result.high result.wide width) 1) map_height_max }
        ensures height { result.height ≡ result.map_height + framing_height + row_height * shown_count choice.now store.now }
        ensures bar_steps { result.bar_steps ≡ bar_length_of (result.wide / 4) }
        ensures bar { result.bar_pixels ≡ min (share_of result.bar_steps result.wide width) width }
    {
        let Frame {
            left,
            top,
            wide,
            high,
        } = frame_shown(store, choice);
        let bar_steps = bar_length(wide / 4);
        let map_height = share(high, wide, width.into()).clamp(1, MAP_HEIGHT_MAX);
        View {
            left,
            top,
            wide,
            high,
            width,
            map_height: map_height as u32,
            height: map_height + FRAMING_HEIGHT + ROW_HEIGHT * layers_shown(store, choice),
            bar_steps,
            bar_pixels: share(bar_steps, wide, width.into()).min(width.into()) as u32,
        }
    }
}

/// Where a map lies, in grid steps.
struct Frame {
    left: i32,
    top: i32,
    wide: u64,
    high: u64,
}

/// The frame of what is shown: the window where there is one.
fn frame_shown(store: &Store, choice: &Choice) -> Frame
    ensures window { IfSome choice.now.window (λ window. IsFrameOf window result) }
    ensures round { IfNone choice.now.window (IsFrameRound (box_shown_of choice.now store.now) result) }
{
    match choice.window() {
        Some(window) => frame_of(window, 0),
        None => frame_round(box_shown(store, choice)),
    }
}

/// The frame of a box with its margin.
fn frame_round(extent: Extent) -> Frame
    requires { IsBoxOnGrid extent }
    ensures { IsFrameRound extent result }
{
    frame_of(extent, margin_of(extent))
}

/// The frame of a box, with a margin.
fn frame_of(extent: Extent, margin: u32) -> Frame
    ensures wide { result.wide ≡ side_of extent.min_x extent.max_x margin }
    ensures high { result.high ≡ side_of extent.min_y extent.max_y margin }
    ensures left { result.left ≡ saturate_signed w32 (extent.min_x -ℤ pos margin) }
    ensures top { result.top ≡ saturate_signed w32 (extent.max_y +ℤ pos margin) }
{
    Frame {
        left: extent.min_x.saturating_sub_unsigned(margin),
        top: extent.max_y.saturating_add_unsigned(margin),
        wide: side(extent.min_x, extent.max_x, margin),
        high: side(extent.min_y, extent.max_y, margin),
    }
}

/// The margin of a box, in grid steps.
fn margin_of(extent: Extent) -> u32
    ensures { result ≡ margin_of_box extent }
{
    let wide = extent.min_x.abs_diff(extent.max_x);
    let high = extent.min_y.abs_diff(extent.max_y);
    (wide.max(high) / 20).max(1)
}

/// How long a side from one coordinate to another is with a margin at either end, at least one step.
fn side(min: i32, max: i32, margin: u32) -> u64
    ensures { result ≡ side_of min max margin }
{
    (u64::from(min.abs_diff(max)) + 2 * u64::from(margin)).max(1)
}

/// As large a part of a length as some steps are of a whole, which is at least one.
fn share(steps: u64, whole: u64, length: u64) -> u64
    ensures { result ≡ share_of steps whole length }
{
    steps.saturating_mul(length) / whole.max(1)
}

/// The greatest length of a bar that is at most a limit, or the least of all.
fn bar_length(limit: u64) -> u64
    ensures { result ≡ bar_length_of limit }
{
    longest_within(&BAR_LENGTHS, limit)
}

/// The greatest of some lengths that is at most a limit, or one step.
fn longest_within(lengths: &[u64], limit: u64) -> u64
    ensures { result ≡ longest_within_of lengths.now limit }
{
    let mut longest = 1;
    for length in lengths {
        if *length <= limit {
            longest = longest.max(*length);
        }
    }
    longest
}

/// How many layers are shown.
fn layers_shown(store: &Store, choice: &Choice) -> u64
    ensures value { result ≡ shown_count choice.now store.now }
    ensures few { result ≤ layers_max }
{
    let mut shown = 0;
    for place in 0..store.layer_count() {
        let (name, _) = store.layer_at(place).unwrap();
        if choice.shows_layer(name) {
            shown += 1;
        }
    }
    shown
}

/// The least box with all that is shown, or that of the origin where nothing is.
fn box_shown(store: &Store, choice: &Choice) -> Extent
    ensures value { result ≡ box_shown_of choice.now store.now }
    ensures on_grid { IsBoxOnGrid result }
{
    extent_shown(store, choice).unwrap_or(ORIGIN)
}

/// The least box with all that is shown, or None where nothing is.
fn extent_shown(store: &Store, choice: &Choice) -> Option<Extent>
    ensures value { result ≡ shown_extent choice.now store.now }
    ensures well_formed { IsWellFormed store.now }
{
    let mut extent = None;
    for place in 0..store.layer_count() {
        let (name, layer) = store.layer_at(place).unwrap();
        if choice.shows_layer(name) {
            extent = with_layer(extent, layer);
        }
    }
    extent
}

/// The least box with a box and all features of a layer.
fn with_layer(extent: Option<Extent>, layer: &Layer) -> Option<Extent>
    ensures { result ≡ united_all extent (boxes_in layer.now.features) }
{
    let mut extent = extent;
    for (_, feature) in layer.features() {
        extent = Some(with_extent(extent, feature.valid().geometry().envelope()));
    }
    extent
}

/// The least box with two boxes, or the other one where there is none.
fn with_extent(extent: Option<Extent>, other: Extent) -> Extent
    ensures { result ≡ united extent other }
{
    match extent {
        None => other,
        Some(extent) => Extent {
            min_x: lesser(extent.min_x, other.min_x),
            min_y: lesser(extent.min_y, other.min_y),
            max_x: greater(extent.max_x, other.max_x),
            max_y: greater(extent.max_y, other.max_y),
        },
    }
}

fn lesser(a: i32, b: i32) -> i32
    ensures { result ≡ int_min a b }
{
    a.min(b)
}

fn greater(a: i32, b: i32) -> i32
    ensures { result ≡ int_max a b }
{
    a.max(b)
}
