// What refuses an event, in the order of the answers: 5, 6, 4, 2, 3.
ghost use Rattle.std.specs.Prelude.{◌≡◌, ◌&&◌, leb};
ghost use Rattle.basis.specs.Choice.{pick};
ghost use Rattle.rules.specs.declared.answer.Answer.TheVariants.{Taken};
ghost use Rattle.tape.specs.Record.{longest};
ghost use Rattle.rules.specs.Refusal.{takes, gives, in_step, slot_answer, refusal_by};

use rules::{Act, Answer, Phase, What};
use tape::LONGEST;

// 6: none of the four lent tapes is longer than the longest. Four lengths and no array, as `Tapes` has four fields.
pub fn short(tape0: usize, tape1: usize, tape2: usize, tape3: usize) -> bool
    ensures { result ≡ (leb tape0 longest && (leb tape1 longest && (leb tape2 longest && leb tape3 longest))) }
{
    (tape0 <= LONGEST) & ((tape1 <= LONGEST) & ((tape2 <= LONGEST) & (tape3 <= LONGEST)))
}

// What 5 and 6 go by: whether the record is possible, and whether the four lent tapes are short. Handed on beside the core that it was
// found of, which goes by value.
#[derive(Clone, Copy)]
pub struct Sound {
    pub possible: bool,
    pub short: bool,
}

impl Sound {
    // Neither of them refuses.
    pub fn calm(self) -> bool
        ensures { result ≡ (self.possible && self.short) }
    {
        self.possible & self.short
    }
}

// 2: a byte given asks for Writing without EXCEPTION, at Rest or inside a block.
fn takes(phase: Phase, writing: bool) -> bool
    ensures { result ≡ takes phase writing }
{
    matches!(phase, Phase::Rest | Phase::Taking(_)) & writing
}

// A byte taken asks for Status, for a block under way, or for Reading without EXCEPTION at Rest.
fn gives(phase: Phase, reading: bool) -> bool
    ensures { result ≡ gives phase reading }
{
    match phase {
        Phase::Rest => reading,
        Phase::Taking(_) => false,
        Phase::Giving(_) | Phase::Status(_) => true,
    }
}

// Each act of the host by what it asks for: a command and a change of ONLINE for Rest.
pub fn in_step(phase: Phase, writing: bool, reading: bool, a: Act) -> bool
    ensures { result ≡ in_step phase writing reading a }
{
    match a {
        Act::Command(_) | Act::Online | Act::Offline => phase.at_rest(),
        Act::Give(_) => takes(phase, writing),
        Act::Take => gives(phase, reading),
    }
}

// Taken where it fits, else refused with the answer. `Taken` here and below where nothing refuses, as the book's `refusal_in` has it, and no
// `Option`: bytes that are no event are always refused, and there its empty case could not come.
pub fn unless(fits: bool, answer: Answer) -> Answer
    ensures { result ≡ pick fits Taken answer }
{
    if fits { Answer::Taken } else { answer }
}

// 3: cartridge in asks for an empty slot, all else for a cartridge.
pub fn slot_answer(loaded: bool, what: What) -> Answer
    ensures { result ≡ slot_answer loaded what }
{
    match what {
        What::In(_) => unless(!loaded, Answer::WrongSlot),
        What::Out | What::Error | What::Underrun => unless(loaded, Answer::WrongSlot),
    }
}

// 5 before 6, and 6 before the others.
pub fn refusal_by(sound: Sound, answer: Answer) -> Answer
    ensures { result ≡ refusal_by sound.possible sound.short answer }
{
    if sound.possible {
        if sound.short { answer } else { Answer::TooLong }
    } else {
        Answer::Impossible
    }
}
