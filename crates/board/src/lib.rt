// The unit for C and Rust: one event step on a record that lies as bytes in a lent buffer.
#![tactic(auto, using(layout::proofs::Form::record_long))]

mod exports;
mod judge;
mod many;
mod result;
mod serve;

pub use exports::{
    glenoulty_fresh, glenoulty_give, glenoulty_lines, glenoulty_size, glenoulty_step,
    glenoulty_take,
};

// The bytes of the lines, and of a result.
pub const LINES: usize = 3;

pub const RESULT: usize = 6;
