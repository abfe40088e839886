//! Exact decimal numbers: a whole number of 64 bits with its sign, and 0 to 18 places behind the point.
#![tactic(auto)]

mod comparing;
mod decimal;
pub mod laws;
mod number;
mod reading;
mod writing;

pub use comparing::compare;
pub use decimal::Decimal;
pub use number::Number;
pub use reading::decimal_of;
pub use writing::push_decimal;
