// Passing records.
ghost use Rattle.std.specs.Prelude.{◌≡◌};
ghost use Rattle.tape.specs.Walk.{passed, way_past};

use crate::found::{Kind, Why, found_at};
use crate::{BLOCK_SIZE, MARK_SIZE};

// Where passing records stopped, since there was no record to pass, and why.
#[derive(Clone, Copy)]
pub struct Stopped {
    pub at: usize,
    pub why: Why,
}

// A way over the tape: where it ended, just past a mark or stopped before it, and how many marks and how many records it passed.
#[derive(Clone, Copy)]
pub struct Way {
    pub end: Result<usize, Stopped>,
    pub marks: usize,
    pub records: usize,
}

// The one walk: from the head past the next marks, however many are asked for.
pub fn pass_marks(tape: &[u8], head: usize, marks: usize) -> Way
    ensures { result ≡ way_past tape.now head marks }
{
    let mut at = head;
    let mut left = marks;
    let mut records: usize = 0;
    // No `for` over the marks: it would ask for a second loop inside it, over the blocks between two of them.
    while 0 < left {
        match found_at(tape, at) {
            Ok(Kind::Block) => {
                at += BLOCK_SIZE;
                records += 1;
            }
            Ok(Kind::Mark) => {
                at += MARK_SIZE;
                records += 1;
                left -= 1;
            }
            Err(why) => {
                return Way {
                    end: Err(Stopped { at, why }),
                    marks: marks - left,
                    records,
                };
            }
        }
    }
    Way {
        end: Ok(at),
        marks,
        records,
    }
}

// From the head to just past the next mark, or to the end of data, or to a bad record.
pub fn pass_to_mark(tape: &[u8], head: usize) -> Result<usize, Stopped>
    ensures { result ≡ passed tape.now head }
{
    pass_marks(tape, head, 1).end
}
