//! Rules between features of layers, and on their values: what breaks them, in a whole store and after a change; and exchanges
//! under rules.
#![tactic(auto)]

mod allowed_values;
mod alone;
mod at_one;
mod between;
mod boxed_range;
mod breaks;
mod column;
mod digested;
mod doubles;
mod exchanging;
pub mod laws;
mod leaving;
mod near;
mod pairs;
mod rule;
mod whole;

pub use allowed_values::{AllowedValues, VALUES_MAX};
pub use at_one::first_broken_at;
pub use boxed_range::BoxedRange;
pub use breaks::{Break, Broken};
pub use exchanging::{NotExchanged, exchange_under, make_indexes};
pub use rule::{Demand, Form, LayerRule, Rule, Says, ValueRule};
pub use sf_joins::{Ask, PairAsk};
pub use whole::first_break;
