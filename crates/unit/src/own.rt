// An act of the host, with the record of the selected drive and its own tape of the four.
ghost use Rattle.std.specs.Prelude.{◌≡◌, length};
ghost use Rattle.tape.specs.Record.{body_size};
ghost use Rattle.unit.specs.Own.{own_turn, own_by};

use answers::{Sound, done, in_step, refusal_by, refuse, unless};
use port::{At, act, stage};
use rules::{Act, Answer, Core, Drive, Turn};

// Refused, or a byte given staged first and then the act: nothing is in reach but this drive's tape.
// The staging block is a slice with its length asked for, as the step is lent it.
pub(crate) fn act_on(
    core: Core,
    sound: Sound,
    drive: Drive,
    staging: &mut [u8],
    tape: &mut [u8],
    a: Act,
) -> Turn
    requires { length staging.old ≡ body_size }
    ensures { own_turn result staging.new tape.new
        ≡ own_by core sound.possible sound.short drive staging.old tape.old a }
{
    let port = core.port;
    let fits = in_step(port.phase, drive.writes(), drive.reads(), a);
    let answer = refusal_by(sound, unless(fits, Answer::OutOfStep));
    if answer.refuses() {
        return refuse(answer, core);
    }
    stage(staging, port.phase, a);
    let moved = act(At { port, drive }, staging, tape, a);
    let whole = core.put(moved.port, port.selected, moved.drive);
    done(moved.raised, moved.byte, whole)
}
