// What the selected drive does: the acts of the host on the port, the staging block, its own record and its own tape, and on nothing else.
// The staging block is a slice with its length asked for, as the step is lent it.
#![tactic(auto)]

mod acts;
mod at;
mod edge;
mod effect;
mod given;
mod online;
mod taken;

pub use acts::act;
pub use at::At;
pub use edge::{check, is_block};
pub use effect::command;
pub use given::{give, stage};
pub use online::{drop_online, raise_online};
pub use taken::take;
