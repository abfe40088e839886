//! What stands before and behind the layers of a picture: its size and style, a scale, a legend.
ghost use Rattle.std.specs.Prelude.{◌≡◌, ◌++◌, string_bytes, OnOk};
ghost use Rattle.sf_picture.specs.Pictures.{back, bar_text, frame_text, front, legend_row, legend_rows, legend_top, map_corner, map_sides, map_size, picture_head, scale_text, steps_text, style};

use super::choice::Choice;
use super::layers::TINT_COUNT;
use super::view::{ROW_HEIGHT, View};
use sf_layers::Store;
use std::alloc::AllocError;

/// Colours, and how wide lines and points are.
const STYLE: &str =
    "<style>.background{fill:#fff}.frame{fill:none;stroke:#888}.feature{fill:none;stroke:currentColor;stroke-width:1.5;stroke-linejoin:round;vector-effect:non-scaling-stroke}.point,.multipoint{stroke-width:7;stroke-linecap:round}.polygon,.multipolygon{fill:currentColor;fill-opacity:.2;fill-rule:evenodd}.swatch{fill:currentColor}.scale{fill:none;stroke:#222}text{fill:#222;stroke:none;font:13px sans-serif}.tint-0{color:#1b6ca8}.tint-1{color:#b5442e}.tint-2{color:#2e7d4f}.tint-3{color:#8a5a9e}.tint-4{color:#a8741b}.tint-5{color:#0f7f86}.tint-6{color:#b03a72}.tint-7{color:#5b6470}</style>\n";

/// Puts what stands before the layers behind a text.
pub(crate) fn push_front(text: &mut String, view: &View) -> Result<(), AllocError>
    ensures { OnOk result (string_bytes text.new ≡ string_bytes text.old ++ front view.now) }
{
    push_picture_head(text, view)?;
    text.push_str(STYLE)?;
    push_map_size(text, view)?;
    push_map_sides(text, view)?;
    push_map_corner(text, view)?;
    text.push_str("'>\n<g transform='scale(1 -1)'>\n")
}

/// Puts the size of the whole picture behind a text.
fn push_picture_head(text: &mut String, view: &View) -> Result<(), AllocError>
    ensures { OnOk result (string_bytes text.new ≡ string_bytes text.old ++ picture_head view.now) }
{
    let width = view.width;
    let height = view.height;
    writeln!(
        text,
        "<svg xmlns='http://www.w3.org/2000/svg' width='{width}' height='{height}' viewBox='0 0 {width} {height}'>"
    )
}

/// Puts the size of the map behind a text.
fn push_map_size(text: &mut String, view: &View) -> Result<(), AllocError>
    ensures { OnOk result (string_bytes text.new ≡ string_bytes text.old ++ map_size view.now) }
{
    let width = view.width;
    let height = view.map_height;
    write!(
        text,
        "<rect class='background' width='100%' height='100%'/>\n<svg class='map' width='{width}' height='{height}' viewBox='"
    )
}

/// Puts how wide and how high the map is behind a text.
fn push_map_sides(text: &mut String, view: &View) -> Result<(), AllocError>
    ensures { OnOk result (string_bytes text.new ≡ string_bytes text.old ++ map_sides view.now) }
{
    let wide = view.wide;
    let high = view.high;
    write!(text, "0 0 {wide} {high}' data-corner='")
}

/// Puts where the map's corner lies behind a text.
fn push_map_corner(text: &mut String, view: &View) -> Result<(), AllocError>
    ensures { OnOk result (string_bytes text.new ≡ string_bytes text.old ++ map_corner view.now) }
{
    let left = view.left;
    let top = view.top;
    write!(text, "{left} {top}")
}

/// Puts what stands behind the layers behind a text.
pub(crate) fn push_back(
    text: &mut String,
    choice: &Choice,
    view: &View,
    store: &Store,
) -> Result<(), AllocError>
    ensures { OnOk result (string_bytes text.new ≡ string_bytes text.old ++ back choice.now view.now store.now) }
{
    push_frame(text, view)?;
    push_scale(text, view)?;
    push_legend(text, choice, view, store)?;
    text.push_str("</svg>\n")
}

/// Puts the end of the map and a frame round it behind a text.
fn push_frame(text: &mut String, view: &View) -> Result<(), AllocError>
    ensures { OnOk result (string_bytes text.new ≡ string_bytes text.old ++ frame_text view.now) }
{
    let width = view.width;
    let height = view.map_height;
    writeln!(
        text,
        "</g>\n</svg>\n<rect class='frame' width='{width}' height='{height}'/>"
    )
}

/// Puts a bar with its length behind a text.
fn push_scale(text: &mut String, view: &View) -> Result<(), AllocError>
    ensures { OnOk result (string_bytes text.new ≡ string_bytes text.old ++ scale_text view.now) }
{
    push_bar(text, view)?;
    push_steps(text, view.bar_steps)
}

/// Puts a bar that is as long as so many grid steps behind a text.
fn push_bar(text: &mut String, view: &View) -> Result<(), AllocError>
    ensures { OnOk result (string_bytes text.new ≡ string_bytes text.old ++ bar_text view.now) }
{
    let top = u64::from(view.map_height) + 15;
    let pixels = view.bar_pixels;
    let behind = u64::from(pixels) + 8;
    write!(
        text,
        "<g class='scale' transform='translate(10 {top})'><path d='M0 0v6h{pixels}v-6'/><text x='{behind}' y='8'>"
    )
}

/// Puts so many grid steps in words, and the end of the scale, behind a text.
fn push_steps(text: &mut String, steps: u64) -> Result<(), AllocError>
    ensures { OnOk result (string_bytes text.new ≡ string_bytes text.old ++ steps_text steps) }
{
    if steps == 1 {
        writeln!(text, "1 grid step</text></g>")
    } else {
        writeln!(text, "{steps} grid steps</text></g>")
    }
}

/// Puts the legend behind a text: a row for each layer that is shown, in drawing order.
fn push_legend(
    text: &mut String,
    choice: &Choice,
    view: &View,
    store: &Store,
) -> Result<(), AllocError>
    ensures { OnOk result (string_bytes text.new
        ≡ string_bytes text.old ++ legend_rows choice.now (legend_top view.now) 0 store.now) }
{
    let mut top = u64::from(view.map_height) + 35;
    for place in 0..store.layer_count() {
        let (name, _) = store.layer_at(place).unwrap();
        if choice.shows_layer(name) {
            push_legend_row(text, top, place, name)?;
            top += ROW_HEIGHT;
        }
    }
    Ok(())
}

/// Puts the row of the legend for a layer behind a text.
fn push_legend_row(text: &mut String, top: u64, place: usize, name: &str) -> Result<(), AllocError>
    ensures { OnOk result (string_bytes text.new ≡ string_bytes text.old ++ legend_row top place name.now) }
{
    let tint = place % TINT_COUNT;
    writeln!(
        text,
        "<g class='entry tint-{tint}' transform='translate(10 {top})'><rect class='swatch' width='14' height='14'/><text x='22' y='12'>{name}</text></g>"
    )
}
