// The edge check, and what passing records comes to.
ghost use Rattle.std.specs.Prelude.{◌≡◌};
ghost use Rattle.rules.specs.Edge.{is_block, halted, spoilt, checked, standing};

use rules::{Bit, Checked, Drive};
use tape::{Kind, MARK_SIZE, Stopped, Why, found_at};

pub fn is_block(found: Result<Kind, Why>) -> bool
    ensures { result ≡ is_block found }
{
    matches!(found, Ok(Kind::Block))
}

// No record to go on with: the bits tell why, and the drive is Idle. Only a kind that nobody knows latches BNL beside UDE.
pub(crate) fn halt(drive: Drive, why: Why) -> Drive
    ensures { result ≡ halted why drive }
{
    match why {
        Why::End => drive.stop(Bit::Ndt),
        Why::Unknown => drive.stop(Bit::Ude).latch(Bit::Bnl),
        Why::Bad => drive.stop(Bit::Ude),
    }
}

// In the middle of a block all but a whole block is a bad record; only a kind that nobody knows is told apart.
pub(crate) fn spoilt(found: Result<Kind, Why>) -> Why
    ensures { result ≡ spoilt found }
{
    match found {
        Err(Why::Unknown) => Why::Unknown,
        _ => Why::Bad,
    }
}

// What stands at the head decides: only a block lets the drive go on; a mark is passed and reported.
pub fn check(drive: Drive, tape: &[u8]) -> Checked
    ensures { result ≡ checked tape.now drive }
{
    match found_at(tape, drive.head) {
        Ok(Kind::Block) => Checked {
            raised: false,
            drive,
        },
        Ok(Kind::Mark) => Checked {
            raised: true,
            drive: drive.pass_to(drive.head + MARK_SIZE).stop(Bit::Fil),
        },
        Err(why) => Checked {
            raised: true,
            drive: halt(drive, why),
        },
    }
}

// READ FILE MARK: past the next mark FIL; at end of data or at a bad record as above, head there.
pub(crate) fn stand_where(drive: Drive, passed: Result<usize, Stopped>) -> Drive
    ensures { result ≡ standing passed drive }
{
    match passed {
        Ok(at) => drive.pass_to(at).stop(Bit::Fil),
        Err(Stopped { at, why }) => halt(drive.pass_to(at), why),
    }
}
