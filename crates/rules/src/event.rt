// What an event asks, sorted by whom it means.

// What the host does with the selected drive.
#[derive(Clone, Copy)]
pub enum Act {
    Command(u8),
    Give(u8),
    Take,
    Online,
    Offline,
}

// What happens at a drive that the event names: cartridge in (protected or not), cartridge out, a count.
#[derive(Clone, Copy)]
pub enum What {
    In(bool),
    Out,
    Error,
    Underrun,
}

// A drive's number is a byte, as in `Port`.
#[derive(Clone, Copy)]
pub enum Event {
    Reset,
    Named(u8, What),
    Own(Act),
}
