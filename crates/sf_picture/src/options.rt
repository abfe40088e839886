//! The words of the command line of `sfmap`, read.
ghost use Rattle.std.specs.Prelude.{◌≡◌, ℤ, [], codes, option_map, false, map, string_bytes, IfNone, IfOk, IfSome};
ghost use Rattle.std.specs.List.{list_any};
ghost use Rattle.clap.specs.Words.{app_of, found_of, rows_of, rule_of, FailsBy};
ghost use Rattle.sf_picture.specs.Options.{Answers, IsBox, IsNumber, IsReadAs, IsRefusedBy, IsWidth, IsWindow, has_negative as has_negative_number, is_negative as is_negative_number, layer_rule, program, program_faults, program_matches, values_of, width_rule, window_rule, with_version};

use super::asked::{Asked, AskedFault};
use super::choice::Choice;
use clap::error::ErrorKind;
use clap::{Arg, ArgAction, ArgMatches, Command, Error, value_parser};
use sf_geometry::Extent;
use std::alloc::{AllocError, Global};

/// What the program is.
const ABOUT: &str =
    "Draws a map of the store of a file: reads the file from standard input, and writes a picture, as scalable vector graphics (SVG), to standard output.";

/// The version, with the toolchain that proves and builds it.
const VERSION: &str = "0.1.0 (rattle-kit-13f)";

/// An example, and what the picture has.
const EXAMPLE: &str = "Example:
  sfmap --layer parcels --layer wells < town.sfs > town.svg

Layers are drawn in the order of the store, each with its own colour and a row in the legend.
A layer has its name as identifier, a feature the layer's name, a minus and its number.";

/// How wide a picture is if nothing is said, in pixels.
const WIDTH: u32 = 800;

/// How wide a picture is at most, in pixels.
const WIDTH_MAX: i64 = 100_000;

/// The names of a window's values.
const WINDOW_NAMES: &[&str] = &["MINX", "MINY", "MAXX", "MAXY"];

/// The option that names layers.
fn layer_option<'a>(alloc: Global) -> Arg<'a>
    ensures rule { rule_of result ≡ layer_rule }
    ensures local { result.global ≡ false }
{
    Arg::new(alloc, "layer")
        .long("layer")
        .value_name("NAME")
        .action(ArgAction::Append)
        .help("Draws this layer, and of the others only those that are named too")
}

/// The option of a window, whose values may be negative numbers, or may not.
fn window_option<'a>(alloc: Global, takes_negative: bool) -> Arg<'a>
    ensures rule { takes_negative ≡ false → rule_of result ≡ window_rule }
    ensures local { result.global ≡ false }
{
    Arg::new(alloc, "window")
        .long("window")
        .value_names(WINDOW_NAMES)
        .allow_negative_numbers(takes_negative)
        .value_parser(value_parser!(i32))
        .help("Draws only what has a part in this rectangle, given in grid steps")
}

/// The option of a width.
fn width_option<'a>(alloc: Global) -> Arg<'a>
    ensures rule { rule_of result ≡ width_rule }
    ensures local { result.global ≡ false }
{
    Arg::new(alloc, "width")
        .long("width")
        .value_name("PIXELS")
        .value_parser(value_parser!(u32).range(1..=WIDTH_MAX))
        .help("How wide the picture is, up to 100000 [default: 800]")
}

/// The command with its version, and with its texts for the user, which change nothing of what it takes.
fn described<'a>(command: Command<'a>) -> Command<'a>
    ensures { app_of result ≡ with_version (app_of command.entry) }
{
    command.version(VERSION).about(ABOUT).after_help(EXAMPLE)
}

/// The command: three options.
fn command<'a>(alloc: Global, takes_negative: bool) -> Result<Command<'a>, AllocError>
    ensures { takes_negative ≡ false → IfOk result (λ command. app_of command ≡ program) }
{
    described(Command::new(alloc, "sfmap"))
        .arg(layer_option(alloc))?
        .arg(window_option(alloc, takes_negative))?
        .arg(width_option(alloc))
}

/// Whether a word begins as a negative number does.
fn is_negative(word: &str) -> bool
    ensures { result ≡ is_negative_number word.now }
{
    match word.as_bytes() {
        [b'-', digit, ..] => digit.is_ascii_digit(),
        _ => false,
    }
}

/// Whether one of the words begins as a negative number does.
fn has_negative(words: &[&str]) -> bool
    ensures { result ≡ list_any (λ word. is_negative_number word.now) words.now }
{
    words.iter().any(|word| is_negative(word))
}

/// What clap makes of the words. Negative numbers are let through only where a word begins as one: what
/// becomes of all other words, clap's own definitions then say.
fn matches_of<'a>(alloc: Global, words: &'a [&'a str]) -> Result<ArgMatches<'a>, Error>
    ensures values { has_negative_number (map (λ word. word.now) words.now) ≡ false
        → IfOk result (λ matches. rows_of (found_of matches) ≡ program_matches (map (λ word. word.now) words.now)) }
    ensures faults { has_negative_number (map (λ word. word.now) words.now) ≡ false
        → FailsBy (program_faults (map (λ word. word.now) words.now)) result }
{
    command(alloc, has_negative(words))?.try_get_matches_from(words)
}

/// Texts of their own.
fn owned(alloc: Global, given: &[&str]) -> Result<Vec<String>, AllocError>
    ensures { IfOk result (λ texts. map string_bytes texts.items ≡ map (λ text. text.now) given.now) }
{
    let mut texts = Vec::new(alloc);
    for text in given {
        texts.push(String::from_str(alloc, text)?)?;
    }
    Ok(texts)
}

/// The names of the layers that are to be drawn.
fn layer_names(alloc: Global, matches: &ArgMatches<'_>) -> Result<Vec<String>, AllocError>
    ensures { IfOk result (λ names. map string_bytes names.items
        ≡ values_of (codes "layer") (rows_of (found_of matches.now))) }
{
    match matches.get_strs("layer") {
        None => Ok(Vec::new(alloc)),
        Some(given) => owned(alloc, given),
    }
}

/// The number that a text spells, or None.
fn number(text: &str) -> Option<i32>
    ensures some { IfSome result (λ number. IsNumber text.now number) }
    ensures none { IfNone result ((number : ℤ) → IsNumber text.now number → ⊥) }
{
    text.parse().ok()
}

/// The box whose sides four texts spell, and which has a point; or None.
fn box_between(left: &str, bottom: &str, right: &str, top: &str) -> Option<Extent>
    ensures some { IfSome result (IsBox left.now bottom.now right.now top.now) }
    ensures none { IfNone result ((window : Extent) → IsBox left.now bottom.now right.now top.now window → ⊥) }
{
    let min_x = number(left)?;
    let min_y = number(bottom)?;
    let max_x = number(right)?;
    let max_y = number(top)?;
    if min_x > max_x || min_y > max_y {
        return None;
    }
    Some(Extent {
        min_x,
        min_y,
        max_x,
        max_y,
    })
}

/// The box of the four values of a window, or None.
fn window_of(values: &[&str]) -> Option<Extent>
    ensures some { IfSome result (IsWindow (map (λ text. text.now) values.now)) }
    ensures none { IfNone result ((window : Extent) → IsWindow (map (λ text. text.now) values.now) window → ⊥) }
{
    match values {
        [left, bottom, right, top] => box_between(left, bottom, right, top),
        _ => None,
    }
}

/// The width that a text spells, or the usual one.
fn width_of(text: Option<&str>) -> u32
    ensures { IsWidth (option_map (λ text. text.now) text.entry) result }
{
    match text {
        None => WIDTH,
        Some(text) => text.parse().unwrap_or(WIDTH),
    }
}

/// What the matches ask for.
fn asked_by(alloc: Global, matches: &ArgMatches<'_>) -> Result<Asked, AskedFault>
    ensures answers { Answers (rows_of (found_of matches.now)) result }
    ensures taken { IsRefusedBy [] result }
{
    let layers = layer_names(alloc, matches)?;
    let window = match matches.get_strs("window") {
        None => None,
        Some(values) => match window_of(values) {
            None => return Err(AskedFault::EmptyWindow),
            Some(window) => Some(window),
        },
    };
    Ok(Asked {
        choice: Choice::new(layers, window),
        width: width_of(matches.get_str("width")),
    })
}

/// Reads the words of the command line of `sfmap`, of which the first is the program's name.
///
/// # Errors
///
/// `Refused` where the words are not those of the command or ask for help, `EmptyWindow` where the
/// window has no point, `Memory` where no memory is found.
pub fn asked<'a>(alloc: Global, words: &'a [&'a str]) -> Result<Asked, AskedFault>
    // The layers, the window and the width are those of the values that the matches give the options.
    ensures asked { IsReadAs (map (λ word. word.now) words.now) result }

    // Words are taken only where they have no fault, and refused only for one that they have.
    ensures faults { has_negative_number (map (λ word. word.now) words.now) ≡ false
        → IsRefusedBy (program_faults (map (λ word. word.now) words.now)) result }
{
    match matches_of(alloc, words) {
        Ok(matches) => asked_by(alloc, &matches),
        Err(error) => match error.kind() {
            ErrorKind::OutOfMemory => Err(AskedFault::Memory),
            _ => Err(AskedFault::Refused(error)),
        },
    }
}
