// Four drives on one cable: the step that answers an event, and loops over it.
#![tactic(auto)]

mod many;
mod own;
mod steps;
mod tapes;
mod within;

pub use many::{Handed, give_bytes, read_on, take_bytes};
pub use steps::{step, step_core, step_lent};
pub use tapes::Tapes;
pub use within::{Inside, within_block};
