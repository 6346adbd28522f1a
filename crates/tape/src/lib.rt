// One cartridge's tape: a lent buffer of records, each one byte of kind and a body whose length the kind fixes.
#![tactic(auto)]

mod found;
mod pass;
mod record;

pub use found::{Kind, Why, found_at};
pub use pass::{Stopped, Way, pass_marks, pass_to_mark};
pub use record::{erase, has_room, record_block, record_mark};

// Kind 00: end of data. Kind 01: a block. Kind 02: a file mark.
pub const END: u8 = 0;

pub const BLOCK: u8 = 1;

pub const MARK: u8 = 2;

// The body of a block; a block with its kind; a mark, which is its kind alone.
pub const BODY: usize = 512;

pub const BLOCK_SIZE: usize = 513;

pub const MARK_SIZE: usize = 1;

// The longest tape.
pub const LONGEST: usize = 16777216;
