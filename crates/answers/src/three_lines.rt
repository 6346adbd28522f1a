// The three lines of the cable.
ghost use Rattle.std.specs.Prelude.{◌≡◌};
ghost use Rattle.basis.specs.Choice.{pick};
ghost use Rattle.rules.specs.Answer.{row_of};
ghost use Rattle.rules.specs.Lines.{lines_of, lines_down};

use rules::{Answer, Core, Lines};

// All three by the selected drive and the phase: READY and EXCEPTION are never up together, DIRECTION is up while the host takes bytes.
pub fn lines(core: Core) -> Lines
    ensures { result ≡ lines_of core }
{
    let phase = core.port.phase;
    let drive = core.drive(core.port.selected);
    Lines {
        ready: !drive.exception & phase.rest_or_status(),
        exception: drive.exception,
        direction: phase.is_status() | drive.reads(),
    }
}

// The lines after an event was refused: those of the record as found, but down after 5.
pub(crate) fn lines_after(answer: Answer, core: Core) -> Lines
    ensures { result ≡ pick (row_of answer).lines_down lines_down (lines_of core) }
{
    if answer.lines_down() {
        Lines::default()
    } else {
        lines(core)
    }
}
