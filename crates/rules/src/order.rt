// The orders, what each needs, and what the tests and the edge check find.
use crate::drive::Drive;

// SELECT has its drive's number, a byte as in `Port`.
#[derive(Clone, Copy)]
pub enum Order {
    Select(u8),
    Bot,
    Erase,
    Initialize,
    Write,
    WriteMark,
    Read,
    ReadMark,
    ReadStatus,
}

// A row for each order, and none for an unknown code: READ STATUS; taken in Writing; taken in Reading; what it needs of the line, the slot
// and the plug; the room it asks for, 0 for who asks for none, as the book's column is a number.
#[derive(Clone, Copy, Default)]
pub struct Needs {
    pub status: bool,
    pub writing: bool,
    pub reading: bool,
    pub online: bool,
    pub cartridge: bool,
    pub plug: bool,
    pub room: usize,
}

// The first test that fits: tests 1 to 4, test 5, test 6, test 7.
#[derive(Clone, Copy)]
pub enum Fault {
    Illegal,
    Empty,
    Plugged,
    Full,
}

// What the edge check leaves of the drive, and whether it raised EXCEPTION: the drive is there in both cases, so no `Result` tells them apart.
#[derive(Clone, Copy)]
pub struct Checked {
    pub raised: bool,
    pub drive: Drive,
}
