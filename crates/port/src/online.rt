// ONLINE raised and dropped.
ghost use Rattle.std.specs.Prelude.{◌≡◌, true, List, ℕ};
ghost use Rattle.rules.specs.declared.drive.Mode.TheVariants.{Writing};
ghost use Rattle.rules.specs.Effect.{seat, acted};
ghost use Rattle.rules.specs.Online.{levelled, leaving, dropped};

use crate::at::{At, leaves};
use rules::{Bit, Mode, Moved};
use tape::record_mark;

// Only the level changes.
pub fn raise_online(at: At) -> Moved
    ensures { (t : List ℕ) → acted result t ≡ levelled true (seat at.port at.drive t) }
{
    leaves(false, at.port.at_level(true), at.drive)
}

// Writing: a mark recorded, then Idle, head 0; without room for it EOM, Idle, head stays.
fn leave_writing(at: At, tape: &mut [u8]) -> Moved
    ensures { acted result tape.new ≡ leaving (seat at.port at.drive tape.old) Writing }
{
    match record_mark(tape, at.drive.head) {
        Some(_) => at.falls(false, at.drive.in_mode(Mode::Idle).rewind()),
        None => at.falls(true, at.drive.stop(Bit::Eom)),
    }
}

// A loaded drive without EXCEPTION goes home, and one that was Writing leaves a mark first.
fn leave(at: At, tape: &mut [u8]) -> Moved
    ensures { acted result tape.new ≡ leaving (seat at.port at.drive tape.old) at.drive.mode }
{
    if at.drive.mode.is_writing() {
        return leave_writing(at, tape);
    }
    at.falls(false, at.drive.in_mode(Mode::Idle).rewind())
}

// With EXCEPTION up: Idle. With neither cartridge nor EXCEPTION only the level falls. A level repeated changes nothing.
pub fn drop_online(at: At, tape: &mut [u8]) -> Moved
    ensures { acted result tape.new ≡ dropped (seat at.port at.drive tape.old) }
{
    if at.port.online & at.drive.exception {
        return at.falls(false, at.drive.in_mode(Mode::Idle));
    }
    if at.port.online & at.drive.loaded {
        return leave(at, tape);
    }
    at.falls(false, at.drive)
}
