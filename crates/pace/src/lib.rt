// Loops over the step, for a program in C that takes their time, and lends four tapes one beside the other.
#![tactic(auto)]

ghost use Rattle.std.specs.Prelude.{◌≡◌, length};
ghost use Rattle.rules.specs.Unit.{fresh_core};
ghost use Rattle.unit.specs.Tapes.{lent_on, Same};
ghost use Rattle.rules.specs.Ran.{RunsTo};
ghost use Rattle.unit.specs.Handover.{GivesOver, TakesOver};
ghost use Rattle.pace.specs.Pairs.{pair_size, event_of, pairs_of, Paced, PacedThen};

use rules::{Core, Unit};
use tape::BODY;
use trace::kind_size;
use unit::{Tapes, give_bytes, step_lent, take_bytes};

// What a fresh staging block holds.
const FRESH: u8 = 0;

// The bytes of a pair.
const PAIR: usize = 2;

// A pair as an event: as many of its bytes as its kind has; of an unknown kind none.
fn event_of(pair: &[u8]) -> &[u8]
    requires { length pair.now ≡ pair_size }
    ensures { result.now ≡ event_of pair.now }
{
    let size = kind_size(pair[0]).unwrap_or(0);
    &pair[..size]
}

// A fresh core over pairs of bytes, each an event of its kind's size. Not by `step_core`, though the block is an array: through it a core is
// copied once more, and a byte misses its bar (docs/SPEED.md).
fn run_core(staging: &mut [u8; BODY], tapes: &mut Tapes<'_>, pairs: &[u8]) -> Core
    ensures runs { RunsTo fresh_core
        (lent_on staging.old tapes.old)
        (pairs_of pairs.now) result
        (lent_on staging.new tapes.new) }
    ensures same { Same tapes.old tapes.new }
{
    let mut after = Core::fresh();
    for pair in pairs.chunks_exact(PAIR) {
        after = step_lent(after, staging, tapes, event_of(pair)).core;
    }
    after
}

// The run on a core. What is handed back is the number of the selected drive.
#[unsafe(no_mangle)]
pub extern "C" fn pace_core(
    tape0: &mut [u8],
    tape1: &mut [u8],
    tape2: &mut [u8],
    tape3: &mut [u8],
    pairs: &[u8],
) -> u8
    ensures { Paced tape0.old tape1.old tape2.old tape3.old pairs.now result
        tape0.new tape1.new tape2.new tape3.new }
{
    let mut tapes = Tapes {
        tape0,
        tape1,
        tape2,
        tape3,
    };
    let mut staging = [FRESH; BODY];
    let after = run_core(&mut staging, &mut tapes, pairs);
    after.port.selected
}

// The same, and then bytes given by one call.
#[unsafe(no_mangle)]
pub extern "C" fn pace_give(
    tape0: &mut [u8],
    tape1: &mut [u8],
    tape2: &mut [u8],
    tape3: &mut [u8],
    pairs: &[u8],
    bytes: &[u8],
) -> u8
    ensures { PacedThen (λ c l h l'. GivesOver c l bytes.now h l')
        tape0.old tape1.old tape2.old tape3.old pairs.now result
        tape0.new tape1.new tape2.new tape3.new }
{
    let mut tapes = Tapes {
        tape0,
        tape1,
        tape2,
        tape3,
    };
    let mut staging = [FRESH; BODY];
    let after = run_core(&mut staging, &mut tapes, pairs);
    let handed = give_bytes(after, &mut staging, &mut tapes, bytes);
    handed.last.core.port.selected
}

// Or bytes taken by one. Apart from `pace_give`, as `take_bytes` from `give_bytes`.
#[unsafe(no_mangle)]
pub extern "C" fn pace_take(
    tape0: &mut [u8],
    tape1: &mut [u8],
    tape2: &mut [u8],
    tape3: &mut [u8],
    pairs: &[u8],
    bytes: &mut [u8],
) -> u8
    ensures { PacedThen (λ c l h l'. TakesOver c l bytes.old h l' bytes.new)
        tape0.old tape1.old tape2.old tape3.old pairs.now result
        tape0.new tape1.new tape2.new tape3.new }
{
    let mut tapes = Tapes {
        tape0,
        tape1,
        tape2,
        tape3,
    };
    let mut staging = [FRESH; BODY];
    let after = run_core(&mut staging, &mut tapes, pairs);
    let handed = take_bytes(after, &mut staging, &mut tapes, bytes);
    handed.last.core.port.selected
}

// The loop on a unit that holds its staging block. Two loops of three lines each: one over a trait of both, with its two
// impls and their ghost members, is longer than both.
fn run_unit(whole: Unit, tapes: &mut Tapes<'_>, pairs: &[u8]) -> Unit
    ensures runs { RunsTo whole.core
        (lent_on whole.staging tapes.old)
        (pairs_of pairs.now) result.core
        (lent_on result.staging tapes.new) }
    ensures same { Same tapes.old tapes.new }
{
    let mut after = whole;
    for pair in pairs.chunks_exact(PAIR) {
        unit::step(&mut after, tapes, event_of(pair));
    }
    after
}

// From a fresh unit.
#[unsafe(no_mangle)]
pub extern "C" fn pace_unit(
    tape0: &mut [u8],
    tape1: &mut [u8],
    tape2: &mut [u8],
    tape3: &mut [u8],
    pairs: &[u8],
) -> u8
    ensures { Paced tape0.old tape1.old tape2.old tape3.old pairs.now result
        tape0.new tape1.new tape2.new tape3.new }
{
    let mut tapes = Tapes {
        tape0,
        tape1,
        tape2,
        tape3,
    };
    let after = run_unit(Unit::fresh(), &mut tapes, pairs);
    after.core.port.selected
}
