// What a buffer holds, asked of its bytes: no core is built for it. A slice with its length asked for, as C lends it.
ghost use Rattle.std.specs.Prelude.{◌≡◌, ◌&&◌, length};
ghost use Rattle.rules.specs.Refusal.{possible, short};
ghost use Rattle.layout.specs.Written.{record_size};
ghost use Rattle.layout.specs.Read.{core_of, staging_of};
ghost use Rattle.board.specs.Serve.{tapes_of, lent_with, holds};

use answers::{LAST_DRIVE, Sound, possible_at, possible_drive};
use layout::{drive_in, is_record, port_in};
use unit::Tapes;

// Whether a record is possible. Apart from `possible` of `answers`: one function of both would take the port and five drives,
// and be longer than the two.
pub(crate) fn possible_in(buffer: &[u8]) -> bool
    requires { length buffer.now ≡ record_size }
    ensures { result ≡ possible (core_of buffer.now) }
{
    let port = port_in(buffer);
    let place = possible_at(port.phase, drive_in(buffer, port.selected));
    let drive0 = possible_drive(drive_in(buffer, 0));
    let drive1 = possible_drive(drive_in(buffer, 1));
    let drive2 = possible_drive(drive_in(buffer, 2));
    let drive3 = possible_drive(drive_in(buffer, 3));
    (port.selected <= LAST_DRIVE) & (place & (drive0 & (drive1 & (drive2 & drive3))))
}

// Whether a buffer holds a possible record.
#[tactic(auto, using(layout::proofs::Form::record_long), unfolding(crate::specs::Serve::holds))]
pub(crate) fn holds(buffer: &[u8]) -> bool
    ensures { result ≡ holds buffer.now }
{
    is_record(buffer) && possible_in(buffer)
}

// Whether a record is possible, and none of the tapes longer than the longest.
pub(crate) fn calm(buffer: &[u8], tapes: &Tapes<'_>) -> bool
    requires { length buffer.now ≡ record_size }
    ensures { result ≡ (possible (core_of buffer.now) && short (lent_with (staging_of buffer.now) (tapes_of tapes.now))) }
{
    let sound = Sound {
        possible: possible_in(buffer),
        short: tapes.short(),
    };
    sound.calm()
}
