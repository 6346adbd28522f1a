// Events run one after the other over a unit and its tapes, and a line shown for each.
ghost use Rattle.std.specs.Prelude.{◌≡◌, true, length};
ghost use Rattle.unit.specs.Tapes.{lent_on, Same};
ghost use Rattle.trace.specs.Play.{has_room, stops, AnswersOne, Plays};

use crate::cut::next_size;
use crate::line::{FIELDS, put_line};
use basis::places;
use rules::{Answer, Core};
use tape::BODY;
use unit::Tapes;

// The highest number that an event can have.
const LAST_NUMBER: u64 = u64::MAX;

// Why a run halted: no whole event is left, no room is left for its line, or an answer 4 stopped it.
#[derive(Clone, Copy)]
pub enum Halt {
    InputOut,
    RoomOut,
    Stopped,
}

// What a run hands back: the core, the bytes of input that its events took, the bytes of output written, the events answered in all.
#[derive(Clone, Copy)]
pub struct Played {
    pub core: Core,
    pub used: usize,
    pub written: usize,
    pub count: u64,
    pub halt: Halt,
}

// What one event leaves: the core, the bytes of output written, whether reading stops; the other two are there in both cases.
#[derive(Clone, Copy)]
struct Answered {
    core: Core,
    full: usize,
    stop: bool,
}

// Whether the line of the event after so many has room.
#[tactic(auto, using(basis::proofs::Digits::few_digits), unfolding(crate::specs::Play::has_room, crate::specs::Line::line_size))]
fn has_room(room: usize, full: usize, count: u64) -> bool
    ensures { result ≡ has_room room full count }
{
    count < LAST_NUMBER && tape::has_room(full, places(count + 1) + FIELDS, room)
}

// Whether reading stops after this answer.
fn stops(answer: Answer) -> bool
    ensures { result ≡ stops answer }
{
    matches!(answer, Answer::Malformed)
}

// One event answered, and its line written where the output ends.
fn answer_event(
    core: Core,
    staging: &mut [u8; BODY],
    tapes: &mut Tapes<'_>,
    event: &[u8],
    count: u64,
    out: &mut [u8],
    full: usize,
) -> Answered
    requires { has_room (length out.old) full count ≡ true }
    ensures answers { AnswersOne core
        (lent_on staging.old tapes.old)
        event.now count out.old full result
        (lent_on staging.new tapes.new)
        out.new }
    ensures same { Same tapes.old tapes.new }
{
    // not by `step_core`, though the block is an array: through it a core is copied once more (docs/SPEED.md)
    let turn = unit::step_lent(core, staging, tapes, event);
    let next = put_line(out, full, count + 1, turn.answer, turn.lines, turn.byte);
    Answered {
        core: turn.core,
        full: next,
        stop: stops(turn.answer),
    }
}

// Whole events of the input in their order, and where the input is ending what is cut off too, while there is room,
// up to and with the first answer 4.
// `written` stands beside the whole of `out`: each line is put behind those before it, and every byte of the buffer is promised.
pub fn play(
    core: Core,
    staging: &mut [u8; BODY],
    tapes: &mut Tapes<'_>,
    input: &[u8],
    ending: bool,
    count: u64,
    out: &mut [u8],
) -> Played
    ensures plays { Plays core
        (lent_on staging.old tapes.old)
        input.now ending count out.old result
        (lent_on staging.new tapes.new)
        out.new }
    ensures same { Same tapes.old tapes.new }
{
    let mut c = core;
    let mut used: usize = 0;
    let mut written: usize = 0;
    let mut n = count;
    // No `for`: how many bytes an event takes is known only at its turn.
    let halt = loop {
        let Some(size) = next_size(&input[used..], ending) else {
            break Halt::InputOut;
        };
        if !has_room(out.len(), written, n) {
            break Halt::RoomOut;
        }
        let end = used + size;
        let a = answer_event(c, staging, tapes, &input[used..end], n, out, written);
        c = a.core;
        used = end;
        written = a.full;
        n += 1;
        if a.stop {
            break Halt::Stopped;
        }
    };
    Played {
        core: c,
        used,
        written,
        count: n,
        halt,
    }
}
