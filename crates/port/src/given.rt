// A byte given by the host.
ghost use Rattle.std.specs.Prelude.{◌≡◌, length};
ghost use Rattle.tape.specs.Record.{body_size};
ghost use Rattle.rules.specs.declared.phase.Phase.TheVariants.{Rest};
ghost use Rattle.rules.specs.Unit.{at_phase};
ghost use Rattle.rules.specs.Effect.{seat, acted};
ghost use Rattle.rules.specs.Phase.{given_before};
ghost use Rattle.rules.specs.Bytes.{staged_byte, after_block, stored, byte_given};
ghost use Rattle.rules.specs.Step.{staged};

use crate::at::{At, leaves};
use orders::{goes_on, spare_of};
use rules::{Act, Bit, Drive, LAST_PLACE, Moved, Phase};
use tape::record_block;

// A byte staged at place n, counted from 0; the last place is 511.
fn put(staging: &mut [u8], n: usize, byte: u8)
    requires { length staging.old ≡ body_size }
    ensures { staging.new ≡ staged_byte n byte staging.old }
{
    staging[n.min(LAST_PLACE)] = byte;
}

// The staging block as the act is to find it: a byte given is in it.
pub fn stage(staging: &mut [u8], phase: Phase, a: Act)
    requires { length staging.old ≡ body_size }
    ensures { staging.new ≡ staged phase a staging.old }
{
    if let Act::Give(byte) = a {
        put(staging, phase.given_before(), byte);
    }
}

// After recording: EOM, unless the late blocks allowed before it let the WRITE go on.
fn after_block(at: At, drive: Drive, tape: &[u8]) -> Moved
    ensures { acted result tape.now ≡ after_block at.drive.late (at_phase Rest at.port) drive tape.now }
{
    if goes_on(at.drive.late, drive.head, tape.len()) {
        at.rests(false, drive)
    } else {
        at.rests(true, drive.stop(Bit::Eom))
    }
}

// The whole block is recorded, or dropped with EOM where it has no room.
fn store(at: At, staging: &[u8], tape: &mut [u8]) -> Moved
    requires { length staging.now ≡ body_size }
    ensures { acted result tape.new ≡ stored staging.now (at_phase Rest at.port) at.drive tape.old }
{
    match record_block(tape, at.drive.head, staging, spare_of(at.drive.late)) {
        Some(next) => after_block(at, at.drive.made(next).one_less(), tape),
        None => at.rests(true, at.drive.stop(Bit::Eom)),
    }
}

// The byte is staged already. No tape byte changes before the 512th.
pub fn give(at: At, staging: &[u8], tape: &mut [u8]) -> Moved
    requires { length staging.now ≡ body_size }
    ensures { acted result tape.new
        ≡ byte_given staging.now (seat at.port at.drive tape.old) (given_before at.port.phase) }
{
    let n = at.port.phase.given_before();
    if n < LAST_PLACE {
        return leaves(false, at.port.at_phase(Phase::Taking(n + 1)), at.drive);
    }
    store(at, staging, tape)
}
