// Raw traces: where each event ends, what a run over them leaves, and the text that tells of it.
#![tactic(auto)]

mod cut;
mod line;
mod rest;
mod run;

pub use cut::{Cut, kind_size, next_event};
pub use line::show_line;
pub use rest::keep_rest;
pub use run::{Halt, Played, play};
