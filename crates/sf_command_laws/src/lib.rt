//! A law of commands, and rows of them that the checker computes: nothing that the program calls.
#![tactic(auto)]

pub mod laws;
