// The unit's record as bytes: written, recognised and read. Slices with their length asked for: what C lends is of any length until it was looked at.
#![tactic(auto)]

mod read;
mod write;

pub use read::{core_of, drive_in, is_record, port_in};
pub use write::{flag, write_core, write_phase, write_record};

// The first byte of each record.
pub(crate) const VERSION: u8 = 2;

// The bytes of the port, of the phase in it, and of a drive.
pub(crate) const PORT: usize = 18;

pub(crate) const PHASE_BYTES: usize = 9;

pub(crate) const DRIVE: usize = 32;

// Where the phase, each drive and the staging block begin, and where the record ends.
pub(crate) const PHASE: usize = 3;

pub(crate) const DRIVE_0: usize = PORT;

pub(crate) const DRIVE_1: usize = DRIVE_0 + DRIVE;

pub(crate) const DRIVE_2: usize = DRIVE_1 + DRIVE;

pub(crate) const DRIVE_3: usize = DRIVE_2 + DRIVE;

pub const STAGING: usize = DRIVE_3 + DRIVE;

pub const RECORD: usize = STAGING + tape::BODY;
