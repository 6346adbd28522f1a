// What an event means, what refuses it, and what it is answered: all of it without a tape.
#![tactic(auto)]

mod event;
mod looks;
mod place;
mod possibility;
mod refusal;
mod slots;
mod three_lines;
mod turn;

pub use event::event_of;
pub use looks::{Seen, look};
pub use place::{body, given_place, octets_left, taken_place};
pub use possibility::{possible, possible_at, possible_drive};
pub use refusal::{Sound, in_step, refusal_by, short, slot_answer, unless};
pub use slots::{reset, slot};
pub use three_lines::lines;
pub use turn::{done, moved_on, moved_to, refuse};

// The drives are 0 to 3.
pub const LAST_DRIVE: u8 = 3;

// The kind of a byte given by the host, and of one that it takes.
pub const GIVEN: u8 = 0x02;

pub const TAKEN: u8 = 0x03;
