//! What a line of text asks for: its words, and the command that they spell.
#![tactic(auto)]

mod boxed;
mod column_commands;
mod command;
mod feature_commands;
mod group_text;
mod head;
mod join_commands;
pub mod laws;
mod layer_commands;
mod lookup_commands;
mod members;
mod named_values;
mod parsing;
mod query_commands;
mod reach_commands;
mod rule_commands;
mod spelling;
mod value_lists;
mod vertex_commands;

pub use boxed::BoxedRule;
pub use command::{Command, Sought};
pub use group_text::{GroupRefusal, parse_group, parse_members};
pub use head::{Head, begins_as_head, head_of};
pub use members::parse_member;
pub use parsing::parse;
pub use sf_refusals::Refusal;
pub use sf_words::{Identifiers, are_blanks, is_blank_text};
pub use spelling::DemandWord;
