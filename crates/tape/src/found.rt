// What stands at an offset of a tape.
ghost use Rattle.std.specs.Prelude.{◌≡◌};
ghost use Rattle.tape.specs.Record.{found_at};

use crate::{BLOCK, BLOCK_SIZE, END, MARK};

// A record to pass.
#[derive(Clone, Copy, PartialEq, Eq, Debug)]
pub enum Kind {
    Block,
    Mark,
}

// Why there is no record to pass: the data ends, or the record is bad by its kind or otherwise.
#[derive(Clone, Copy, PartialEq, Eq, Debug)]
pub enum Why {
    End,
    Unknown,
    Bad,
}

// The record at an offset, for any offset and any bytes.
pub fn found_at(tape: &[u8], head: usize) -> Result<Kind, Why>
    ensures { result ≡ found_at tape.now head }
{
    let n = tape.len();
    if n < head {
        return Err(Why::Bad);
    }
    if n == head {
        return Err(Why::End);
    }
    match tape[head] {
        END => Err(Why::End),
        BLOCK if BLOCK_SIZE <= n - head => Ok(Kind::Block),
        BLOCK => Err(Why::Bad),
        MARK => Ok(Kind::Mark),
        _ => Err(Why::Unknown),
    }
}
