// Many data bytes in one call: those before the last of a block go by one copy, every other one by the step.
// The staging block is a slice with its length asked for, as the step is lent it.
ghost use Rattle.std.specs.Prelude.{◌≡◌, ◌-◌, ◌≤◌, ◌<◌, length, eqb};
ghost use Rattle.basis.specs.Placed.{placed};
ghost use Rattle.tape.specs.Record.{body_size};
ghost use Rattle.rules.specs.Answer.{row_of};
ghost use Rattle.unit.specs.Tapes.{lent_on, tape_of, Same};
ghost use Rattle.unit.specs.Handover.{GivesOver, TakesOver};
ghost use Rattle.unit.specs.Ahead.{ahead_of, given_ahead, read_ahead, next_bytes, ReadsOn, TakesAhead, GivesSome, TakesSome};

use crate::steps::{sound_of, step_lent};
use crate::tapes::Tapes;
use answers::{GIVEN, TAKEN, done, look, moved_on};
use basis::put;
use port::is_block;
use rules::{Answer, Core, Drive, LAST_PLACE, Phase, Turn};
use tape::found_at;

// How many bytes went over, and what the last event was answered.
#[derive(Clone, Copy)]
pub struct Handed {
    pub count: usize,
    pub last: Turn,
}

// Of so many bytes, those before the last of a block in which n went over; at Rest a block begins, and elsewhere none goes on at place 0,
// so "at Rest" stands beside the place, as the phase tells both. None is 0, as of any count: nothing is copied then.
#[tactic(auto, using(basis::specs::Tests::tests), unfolding(basis::specs::Choice::pick, crate::specs::Ahead::ahead_of))]
fn ahead_of(rest: bool, n: usize, want: usize) -> usize
    ensures { result ≡ ahead_of rest n want }
{
    if (rest | (0 < n)) && n < LAST_PLACE {
        return want.min(LAST_PLACE - n);
    }
    0
}

// How many of so many bytes can be staged by one copy.
fn given_ahead(core: Core, calm: bool, want: usize) -> usize
    ensures { result ≡ given_ahead core calm want }
{
    let phase = core.port.phase;
    if calm & look(core, core.port.selected).writes {
        return ahead_of(phase.at_rest(), phase.given_before(), want);
    }
    0
}

// Bytes of the whole block at the head of a drive that reads, copied to the buffer from an offset on; how many.
// An offset and no part, here and below: every byte of the whole buffer is promised. A phase and no `At`, as for `within_block`.
fn read_ahead(drive: Drive, tape: &[u8], phase: Phase, out: &mut [u8], at: usize) -> usize
    requires { at ≤ length out.old }
    ensures { (result ≡ read_ahead drive tape.now phase (length out.old - at))
        × (out.new ≡ placed out.old at (next_bytes drive tape.now phase result)) }
{
    if drive.reads() && is_block(found_at(tape, drive.head)) {
        let n = phase.taken_before();
        let k = ahead_of(phase.at_rest(), n, out.len() - at);
        if 0 < k {
            let from = drive.head + 1 + n;
            let end = from + k;
            put(out, at, &tape[from..end]);
            return k;
        }
    }
    0
}

// The same, to the front of the buffer.
pub fn read_on(drive: Drive, tape: &[u8], phase: Phase, out: &mut [u8]) -> usize
    ensures { ReadsOn drive tape.now phase out.old result out.new }
{
    read_ahead(drive, tape, phase, out, 0)
}

// The same off the tape of the selected drive, from an offset on.
fn taken_ahead(core: Core, calm: bool, tapes: &Tapes<'_>, out: &mut [u8], at: usize) -> usize
    requires { at ≤ length out.old }
    ensures { TakesAhead core calm
        (tape_of tapes.now core.port.selected)
        out.old at result out.new }
{
    if calm {
        let i = core.port.selected;
        return read_ahead(core.drive(i), tapes.of(i), core.port.phase, out, at);
    }
    0
}

fn answered_0(answer: Answer) -> bool
    ensures { result ≡ eqb (row_of answer).number 0 }
{
    matches!(answer, Answer::Taken)
}

// Some of the bytes, by one copy or by one step.
fn give_some(core: Core, staging: &mut [u8], tapes: &mut Tapes<'_>, bytes: &[u8]) -> Handed
    requires { (length staging.old ≡ body_size) × (1 ≤ length bytes.now) }
    ensures gives { GivesSome core
        (lent_on staging.old tapes.old)
        bytes.now result
        (lent_on staging.new tapes.new) }
    ensures same { Same tapes.old tapes.new }
{
    let calm = sound_of(core, tapes).calm();
    let k = given_ahead(core, calm, bytes.len());
    if 0 < k {
        let n = core.port.phase.given_before();
        put(staging, n, &bytes[0..k]);
        return Handed {
            count: k,
            last: moved_on(core, Phase::Taking(n + k), None, false),
        };
    }
    let event = [GIVEN, bytes[0]];
    let last = step_lent(core, staging, tapes, &event);
    Handed {
        count: usize::from(!last.answer.refuses()),
        last,
    }
}

// Bytes given by the host one after the other, up to and with the first that is not answered 0.
pub fn give_bytes(core: Core, staging: &mut [u8], tapes: &mut Tapes<'_>, bytes: &[u8]) -> Handed
    requires { length staging.old ≡ body_size }
    ensures gives { GivesOver core
        (lent_on staging.old tapes.old)
        bytes.now result
        (lent_on staging.new tapes.new) }
    ensures same { Same tapes.old tapes.new }
{
    let mut count: usize = 0;
    let mut last = done(false, None, core);
    // No `for`: how many bytes go at a time is known only at their turn.
    while count < bytes.len() {
        let some = give_some(last.core, staging, tapes, &bytes[count..]);
        count += some.count;
        last = some.last;
        if !answered_0(last.answer) {
            return Handed { count, last };
        }
    }
    Handed { count, last }
}

// Some bytes into the buffer from an offset on, by one copy or by one step. Apart from `give_some`: those bytes are read, these are written,
// and what is copied ahead is another thing.
fn take_some(
    core: Core,
    staging: &mut [u8],
    tapes: &mut Tapes<'_>,
    out: &mut [u8],
    at: usize,
) -> Handed
    requires { (length staging.old ≡ body_size) × (at < length out.old) }
    ensures takes { TakesSome core
        (lent_on staging.old tapes.old)
        out.old at result
        (lent_on staging.new tapes.new)
        out.new }
    ensures same { Same tapes.old tapes.new }
{
    let calm = sound_of(core, tapes).calm();
    let k = taken_ahead(core, calm, tapes, out, at);
    if 0 < k {
        let n = core.port.phase.taken_before();
        return Handed {
            count: k,
            last: moved_on(core, Phase::Giving(n + k), Some(out[at + k - 1]), true),
        };
    }
    let event = [TAKEN];
    let last = step_lent(core, staging, tapes, &event);
    put(out, at, last.byte.as_slice());
    Handed {
        count: usize::from(last.byte.is_some()),
        last,
    }
}

// Bytes taken by the host one after the other, up to and with the first that is not answered 0.
// Apart from `give_bytes`: one loop over a trait of both, with its two impls and their ghost members, is longer than the two.
pub fn take_bytes(core: Core, staging: &mut [u8], tapes: &mut Tapes<'_>, out: &mut [u8]) -> Handed
    requires { length staging.old ≡ body_size }
    ensures takes { TakesOver core
        (lent_on staging.old tapes.old)
        out.old result
        (lent_on staging.new tapes.new)
        out.new }
    ensures same { Same tapes.old tapes.new }
{
    let mut count: usize = 0;
    let mut last = done(false, None, core);
    // No `for`, as above.
    while count < out.len() {
        let some = take_some(last.core, staging, tapes, out, count);
        count += some.count;
        last = some.last;
        if !answered_0(last.answer) {
            return Handed { count, last };
        }
    }
    Handed { count, last }
}
