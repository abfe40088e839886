//! A sweep that hands out what an event changes: items that represent the cells of pieces.
#![tactic(auto)]

mod bundle;
mod class_sweep;
mod classes;
mod cutting;
mod front;
mod meetings;
mod nearest;
mod parities;
mod repair;
mod row;
mod settle;
mod sides;
mod strips;
mod window;

pub use classes::walk_classes;
