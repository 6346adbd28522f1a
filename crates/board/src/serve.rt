// Calls on a buffer that is a record: what has to be read of it is read, and what a call changed is written back.
// Each asks for a record: a ghost field beside the lent bytes would be owed again after each part that is written. Buffer and tapes one
// beside the other: a struct of both would have to promise that the buffer is the one lent, as `Same` does of the tapes.
ghost use Rattle.std.specs.Prelude.{◌≡◌, true, false, ◌∷◌, ◌++◌, length, take, is_some, unwrap_or};
ghost use Rattle.basis.specs.Placed.{placed};
ghost use Rattle.tape.specs.Record.{body_size};
ghost use Rattle.rules.specs.declared.answer.Answer.TheVariants.{Taken};
ghost use Rattle.rules.specs.Answer.{row_of};
ghost use Rattle.rules.specs.Step.{staged};
ghost use Rattle.layout.specs.Written.{record_size, flag, phase_at, phase_bytes};
ghost use Rattle.layout.specs.Read.{is_record, staging_of};
ghost use Rattle.unit.specs.Tapes.{Same};
ghost use Rattle.board.specs.Serve.{tapes_of, lines_bytes, SteppedIn, Served};

use crate::RESULT;
use crate::judge::calm;
use crate::result::{byte_bytes, turn_bytes};
use layout::{RECORD, STAGING, core_of, drive_in, port_in, write_core, write_phase};
use port::stage;
use rules::{Phase, Turn};
use unit::{Inside, Tapes, step_lent, within_block};

// A byte within a block: it is staged, and the phase written, where they stand.
fn move_on(buffer: &mut [u8], phase: Phase, inside: Inside) -> [u8; RESULT]
    requires { length buffer.old ≡ record_size }
    ensures value { result ≡ (row_of Taken).number ∷ flag (is_some inside.byte) ∷ unwrap_or inside.byte 0
        ∷ lines_bytes (record { ready = false; exception = false; direction = is_some inside.byte }) }
    ensures buffer_after { buffer.new ≡ placed (take 146 buffer.old ++ staged phase inside.act (staging_of buffer.old))
        phase_at (phase_bytes inside.phase) }
    ensures buffer_len { length (staged phase inside.act (staging_of buffer.old)) ≡ body_size }
{
    stage(&mut buffer[STAGING..RECORD], phase, inside.act);
    write_phase(buffer, inside.phase);
    byte_bytes(inside.byte)
}

// One event by the unit's step: the staging block is lent from where it stands, the rest read, stepped and written back.
pub(crate) fn step_in(buffer: &mut [u8], tapes: &mut Tapes<'_>, event: &[u8]) -> Turn
    requires { is_record buffer.old ≡ true }
    ensures stepped { SteppedIn buffer.old (tapes_of tapes.old)
        event.now result buffer.new (tapes_of tapes.new) }
    ensures same { Same tapes.old tapes.new }
{
    let core = core_of(buffer);
    let turn = step_lent(core, &mut buffer[STAGING..RECORD], tapes, event);
    write_core(buffer, turn.core);
    turn
}

// One event. A byte within a block is looked for first: it moves the phase alone, and no core is built for it.
pub(crate) fn serve(buffer: &mut [u8], tapes: &mut Tapes<'_>, event: &[u8]) -> [u8; RESULT]
    requires { is_record buffer.old ≡ true }
    ensures served { Served buffer.old (tapes_of tapes.old)
        event.now result buffer.new (tapes_of tapes.new) }
    ensures same { Same tapes.old tapes.new }
{
    let port = port_in(buffer);
    let drive = drive_in(buffer, port.selected);
    if let Some(inside) = within_block(port.phase, drive, tapes.of(port.selected), event)
        && calm(buffer, tapes)
    {
        return move_on(buffer, port.phase, inside);
    }
    turn_bytes(step_in(buffer, tapes, event))
}
