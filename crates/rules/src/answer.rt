// What an event is answered.
ghost use Rattle.std.specs.Prelude.{◌≡◌};
ghost use Rattle.rules.specs.Answer.{row_of};

use crate::unit::Core;

// Document 01's answers 0 to 6, in the order of their numbers.
#[derive(Clone, Copy, Debug, PartialEq, Eq)]
pub enum Answer {
    Taken,
    Raised,
    OutOfStep,
    WrongSlot,
    Malformed,
    Impossible,
    TooLong,
}

impl Answer {
    // Document 01's number of an answer. A method and no `From`: a column of the table of answers, as the two below.
    pub fn number(self) -> u8
        ensures { result ≡ (row_of self).number }
    {
        self as u8
    }

    // All as found: every answer but 0 and 1.
    pub fn refuses(self) -> bool
        ensures { result ≡ (row_of self).refuses }
    {
        !matches!(self, Answer::Taken | Answer::Raised)
    }

    // The three lines down: after 5 alone.
    pub fn lines_down(self) -> bool
        ensures { result ≡ (row_of self).lines_down }
    {
        matches!(self, Answer::Impossible)
    }
}

#[derive(Clone, Copy, Default)]
pub struct Lines {
    pub ready: bool,
    pub exception: bool,
    pub direction: bool,
}

// What a step hands back.
#[derive(Clone, Copy)]
pub struct Turn {
    pub core: Core,
    pub answer: Answer,
    pub byte: Option<u8>,
    pub lines: Lines,
}
