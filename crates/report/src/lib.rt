// The report of a drive: its six octets, made from the record and taken by the host.
#![tactic(auto)]

mod made;
mod taken;

pub use made::octets;
pub use taken::{after_octet, next_octet};
