// Document 01 as a book: the records of the unit with their moves by value. The rules stand in specs/.
#![tactic(auto)]

mod answer;
mod counter;
mod drive;
mod event;
mod order;
mod phase;
mod unit;

pub use answer::{Answer, Lines, Turn};
pub use counter::Counter;
pub use drive::{Bit, Drive, Errors, Latched, Mode, Underruns};
pub use event::{Act, Event, What};
pub use order::{Checked, Fault, Needs, Order};
pub use phase::Phase;
pub use unit::{Core, Moved, Port, Unit};

// The last place of a block, counted from 0.
pub const LAST_PLACE: usize = tape::BODY - 1;

// The octets of one report.
pub const OCTETS: usize = 6;

// What is kept behind a block: past early warning, and behind a late block.
pub const KEPT: usize = 1028;

pub const KEPT_LATE: usize = 1;

// The room that WRITE asks for, that of a late block; and how many such blocks it may take.
pub const WRITE_ROOM: usize = tape::BLOCK_SIZE + KEPT_LATE;

pub const LATE_BLOCKS: u8 = 2;

// The highest count.
pub const HIGHEST: u16 = 65535;
