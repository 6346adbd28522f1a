// One event: the drive that it means, then refusal first and effect second.
ghost use Rattle.std.specs.Prelude.{◌≡◌, [], length};
ghost use Rattle.tape.specs.Record.{body_size};
ghost use Rattle.rules.specs.Refusal.{possible, short};
ghost use Rattle.rules.specs.Step.{Steps};
ghost use Rattle.unit.specs.Tapes.{lent_on, Same};

use crate::own::act_on;
use crate::tapes::Tapes;
use crate::within::next_of;
use answers::{
    Sound, done, event_of, given_place, look, moved_on, moved_to, octets_left, possible,
    refusal_by, refuse, reset, slot, taken_place,
};
use port::stage;
use report::{after_octet, next_octet};
use rules::{Act, Answer, Core, Event, Phase, Turn, Unit};
use tape::BODY;

// Whether the record is possible and the four lent tapes are short.
pub(crate) fn sound_of(core: Core, tapes: &Tapes<'_>) -> Sound
    ensures possible { result.possible ≡ possible core }
    ensures short { result.short ≡ short (lent_on [] tapes.now) }
{
    Sound {
        possible: possible(core),
        short: tapes.short(),
    }
}

// One event on a core, with the 512 bytes of the staging block lent from where they stand, beside the four tapes.
// A slice with its length asked for: as an array, the last bytes of a record would come with a case that cannot be. Beside the core and the
// tapes, and no struct with them: a core is handed on by value, and each caller has its staging block elsewhere.
pub fn step_lent(core: Core, staging: &mut [u8], tapes: &mut Tapes<'_>, event: &[u8]) -> Turn
    requires { length staging.old ≡ body_size }
    ensures step { Steps core
        (lent_on staging.old tapes.old)
        event.now result
        (lent_on staging.new tapes.new) }
    ensures same { Same tapes.old tapes.new }
{
    let sound = sound_of(core, tapes);
    let port = core.port;
    // written out, and not by `within_block`: what that hands back goes by memory, and a byte takes a third longer and misses its bar
    if sound.calm() {
        if let Some((n, byte)) = given_place(port.phase, event) {
            if look(core, port.selected).writes {
                stage(staging, port.phase, Act::Give(byte));
                return moved_on(core, Phase::Taking(n + 1), None, false);
            }
        }
        if let Some(n) = taken_place(port.phase, event) {
            let drive = core.drive(port.selected);
            if let Some(byte) = next_of(drive, tapes.of(port.selected), n) {
                return moved_on(core, Phase::Giving(n + 1), Some(byte), true);
            }
        }
        if let Some(k) = octets_left(port.phase, event) {
            let after = moved_to(core, after_octet(k));
            return done(false, Some(next_octet(port, k)), after);
        }
    }
    match event_of(event) {
        None => refuse(refusal_by(sound, Answer::Malformed), core),
        Some(Event::Reset) => reset(core, sound),
        Some(Event::Named(i, what)) => slot(core, sound, i, what),
        // the drive and its tape by their names: the tape is lent to be changed
        Some(Event::Own(a)) => match port.selected {
            0 => act_on(core, sound, core.drive0, staging, tapes.tape0, a),
            1 => act_on(core, sound, core.drive1, staging, tapes.tape1, a),
            2 => act_on(core, sound, core.drive2, staging, tapes.tape2, a),
            _ => act_on(core, sound, core.drive3, staging, tapes.tape3, a),
        },
    }
}

// The same with a staging block that is an array, and so with nothing asked for. A public function, as docs/CONTRACTS.md has it.
pub fn step_core(core: Core, staging: &mut [u8; BODY], tapes: &mut Tapes<'_>, event: &[u8]) -> Turn
    ensures step { Steps core
        (lent_on staging.old tapes.old)
        event.now result
        (lent_on staging.new tapes.new) }
    ensures same { Same tapes.old tapes.new }
{
    step_lent(core, staging, tapes, event)
}

// One event on a unit, which holds its staging block.
pub fn step(unit: &mut Unit, tapes: &mut Tapes<'_>, event: &[u8]) -> Turn
    ensures step { Steps unit.old.core
        (lent_on unit.old.staging tapes.old)
        event.now result
        (lent_on unit.new.staging tapes.new) }
    ensures left { unit.new.core ≡ result.core }
    ensures same { Same tapes.old tapes.new }
{
    let turn = step_core(unit.core, &mut unit.staging, tapes, event);
    unit.core = turn.core;
    turn
}
