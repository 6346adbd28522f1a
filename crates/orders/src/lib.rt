// The orders: the code of each, what it needs, and the tests that it is put to; and the room that a block asks for.
#![tactic(auto)]

mod late;
mod order;

pub use late::{allowed_at, goes_on, spare_of};
pub use order::{fault_of, needs_of, order_of};
