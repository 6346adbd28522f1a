// Cartridges, counts and RESET: what happens at the slots, with no tape in reach.
ghost use Rattle.std.specs.Prelude.{◌≡◌};
ghost use Rattle.rules.specs.declared.event.Event.TheVariants.{Reset, Named};
ghost use Rattle.rules.specs.declared.event.What.TheVariants.{In, Out};
ghost use Rattle.rules.specs.Slot.{is_out, part_dropped, phase_after};
ghost use Rattle.rules.specs.Step.{befallen_at};
ghost use Rattle.answers.specs.Settled.{Settles};

use crate::looks::look;
use crate::refusal::{Sound, refusal_by, slot_answer};
use crate::turn::{done, refuse};
use count::count_in;
use rules::{Answer, Core, Errors, Phase, Turn, Underruns, What};

fn is_out(what: What) -> bool
    ensures { result ≡ is_out what }
{
    matches!(what, What::Out)
}

// A part block is dropped, but Status stays.
fn part_dropped(phase: Phase) -> Phase
    ensures { result ≡ part_dropped phase }
{
    match phase {
        Phase::Status(_) => phase,
        _ => Phase::Rest,
    }
}

// That is so where a cartridge is out of the selected drive; else the phase stays.
fn phase_after(here: bool, phase: Phase) -> Phase
    ensures { result ≡ phase_after Out here phase }
{
    if here { part_dropped(phase) } else { phase }
}

fn cartridge_out(core: Core, i: u8) -> Core
    ensures { result ≡ befallen_at core i Out }
{
    let here = i == core.port.selected;
    let after = core.port.at_phase(phase_after(here, core.port.phase));
    core.put(after, i, core.drive(i).unload())
}

fn cartridge_in(core: Core, i: u8, plug: bool) -> Core
    ensures { result ≡ befallen_at core i (In plug) }
{
    core.put(core.port, i, core.drive(i).load(plug))
}

// Cartridge in, cartridge out, or one counter raised where the record stands.
fn befall(core: Core, i: u8, what: What) -> Core
    ensures { result ≡ befallen_at core i what }
{
    match what {
        What::In(plug) => cartridge_in(core, i, plug),
        What::Out => cartridge_out(core, i),
        What::Error => count_in::<Errors>(core, i),
        What::Underrun => count_in::<Underruns>(core, i),
    }
}

// Refused, or the record of the drive named is changed, whichever is selected. Here, below and for an act the refusal is these three lines:
// a function that takes the effect as a closure, with what it asks and promises, is longer.
pub fn slot(core: Core, sound: Sound, i: u8, what: What) -> Turn
    ensures { Settles core sound.possible sound.short (Some (Named i what)) result }
{
    let loaded = look(core, i).loaded;
    let answer = refusal_by(sound, slot_answer(loaded, what));
    if answer.refuses() {
        return refuse(answer, core);
    }
    done(is_out(what), None, befall(core, i, what))
}

// RESET, which nothing refuses but 5 and 6.
pub fn reset(core: Core, sound: Sound) -> Turn
    ensures { Settles core sound.possible sound.short (Some Reset) result }
{
    let answer = refusal_by(sound, Answer::Taken);
    if answer.refuses() {
        return refuse(answer, core);
    }
    done(true, None, core.reset())
}
