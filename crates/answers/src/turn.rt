// What a step hands back.
ghost use Rattle.std.specs.Prelude.{◌≡◌};
ghost use Rattle.basis.specs.Choice.{pick};
ghost use Rattle.rules.specs.declared.answer.Answer.TheVariants.{Taken, Raised};
ghost use Rattle.rules.specs.Unit.{moved_to};
ghost use Rattle.answers.specs.Moved.{moved_on};
ghost use Rattle.rules.specs.Step.{refused_turn, taken_turn};

use crate::three_lines::{lines, lines_after};
use rules::{Answer, Core, Lines, Phase, Turn};

// 1 where a rule raised EXCEPTION on a drive, else 0.
fn taken(raised: bool) -> Answer
    ensures { result ≡ pick raised Raised Taken }
{
    if raised {
        Answer::Raised
    } else {
        Answer::Taken
    }
}

// An event that was taken, and the core as it is left.
pub fn done(raised: bool, byte: Option<u8>, core: Core) -> Turn
    ensures { result ≡ taken_turn raised byte core }
{
    let answer = taken(raised);
    let lines = lines(core);
    Turn {
        answer,
        byte,
        lines,
        core,
    }
}

// An event that was refused: the core as found, no byte.
pub fn refuse(answer: Answer, core: Core) -> Turn
    ensures { result ≡ refused_turn answer core }
{
    let lines = lines_after(answer, core);
    Turn {
        answer,
        byte: None,
        lines,
        core,
    }
}

// Another phase, and nothing else. A copy that is changed, as with the moves of a port.
pub fn moved_to(core: Core, phase: Phase) -> Core
    ensures { result ≡ moved_to core phase }
{
    let mut after = core;
    after.port = core.port.at_phase(phase);
    after
}

// The phase moved on, no EXCEPTION, and DIRECTION up where the host takes bytes.
// `direction` stands beside the byte, since the contract holds for any two.
pub fn moved_on(core: Core, phase: Phase, byte: Option<u8>, direction: bool) -> Turn
    ensures { result ≡ moved_on core phase byte direction }
{
    let after = moved_to(core, phase);
    Turn {
        answer: Answer::Taken,
        byte,
        lines: Lines {
            direction,
            ..Lines::default()
        },
        core: after,
    }
}
