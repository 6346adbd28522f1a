// A byte within a block, given or taken: the phase moves on, and nothing else of the record.
ghost use Rattle.std.specs.Prelude.{◌≡◌, ◌<◌};
ghost use Rattle.rules.specs.Phase.{last_place};
ghost use Rattle.unit.specs.Within.{next_of, inside_of};

use answers::{given_place, taken_place};
use port::is_block;
use rules::{Act, Drive, Phase};
use tape::found_at;

// What an event comes to that is a byte within a block: the act, the phase after it, and the byte that it hands out.
#[derive(Clone, Copy)]
pub struct Inside {
    pub act: Act,
    pub phase: Phase,
    pub byte: Option<u8>,
}

// Byte n of the block at the head, if there is a whole one and the drive gives data.
pub(crate) fn next_of(drive: Drive, tape: &[u8], n: usize) -> Option<u8>
    requires { n < last_place }
    ensures { result ≡ next_of drive tape.now n }
{
    if drive.reads() && is_block(found_at(tape, drive.head)) {
        return Some(tape[drive.head + 1 + n]);
    }
    None
}

// What an event comes to in a phase, on the drive that is selected and its tape, if it is a byte within a block.
// A phase beside the drive, and no `At` of `port`: of the port nothing else is looked at.
pub fn within_block(phase: Phase, drive: Drive, tape: &[u8], event: &[u8]) -> Option<Inside>
    ensures { result ≡ inside_of phase drive tape.now event.now }
{
    if let Some((n, byte)) = given_place(phase, event) {
        if drive.writes() {
            return Some(Inside {
                act: Act::Give(byte),
                phase: Phase::Taking(n + 1),
                byte: None,
            });
        }
    }
    let n = taken_place(phase, event)?;
    let byte = next_of(drive, tape, n)?;
    Some(Inside {
        act: Act::Take,
        phase: Phase::Giving(n + 1),
        byte: Some(byte),
    })
}
