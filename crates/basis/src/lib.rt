// What every crate needs of lists, numbers and text.
#![tactic(auto)]

mod number;
mod place;

pub use number::{digit, high_digit, low_digit, places, put_number};
pub use place::put;
