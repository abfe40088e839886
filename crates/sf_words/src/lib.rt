//! The words of a line, and what single words spell that need no layer: verbs, identifiers, points, editors.
#![tactic(auto)]

mod addressing;
mod hexadecimal;
mod identifiers;
mod naming;
mod numerals;
mod parts;
mod point;
mod reach;
mod verb;
mod vertex_place;
mod words;

pub use addressing::addressed;
pub use hexadecimal::bytes_of;
pub use identifiers::Identifiers;
pub use naming::{Naming, id_named, is_last, is_until};
pub use numerals::id_of;
pub use parts::{parts_count, split_part};
pub use point::point_of;
pub use reach::{is_near, reach_of};
pub use verb::{Action, Verb, action_of, verb_of};
pub use vertex_place::{VertexPlace, place_of};
pub use words::{Words, are_blanks, is_blank, is_blank_text, trimmed_end};
