// What C and Rust link: numbers for answers, and four tapes one beside the other, as C has them.
ghost use Rattle.std.specs.Prelude.{◌≡◌};
ghost use Rattle.layout.specs.Written.{record_size};
ghost use Rattle.board.specs.Serve.{tapes, Serves, Gives, Takes, Freshens, Shows};

use crate::judge::holds;
use crate::many::{Given, Taken, serve_many};
use crate::result::{lines_bytes, no_record};
use crate::serve::serve;
use crate::{LINES, RESULT};
use answers::lines;
use layout::{RECORD, core_of, is_record, write_record};
use rules::{Answer, Unit};
use unit::Tapes;

// The size of a record in bytes.
#[unsafe(no_mangle)]
pub extern "C" fn glenoulty_size() -> usize
    ensures { result ≡ record_size }
{
    RECORD
}

// A fresh record written, and 0; or 5 where the buffer has another size, and nothing written.
#[unsafe(no_mangle)]
pub extern "C" fn glenoulty_fresh(buffer: &mut [u8]) -> u8
    ensures { Freshens buffer.old result buffer.new }
{
    if buffer.len() == RECORD {
        let unit = Unit::fresh();
        write_record(buffer, unit.core, &unit.staging);
        return Answer::Taken.number();
    }
    Answer::Impossible.number()
}

// One event: answer, flag, byte and lines in the result; 5 and all as found where the buffer is no record.
#[unsafe(no_mangle)]
pub extern "C" fn glenoulty_step(
    buffer: &mut [u8],
    tape0: &mut [u8],
    tape1: &mut [u8],
    tape2: &mut [u8],
    tape3: &mut [u8],
    event: &[u8],
    res: &mut [u8; RESULT],
)
    ensures { Serves buffer.old (tapes tape0.old tape1.old tape2.old tape3.old)
        event.now res.new buffer.new
        (tapes tape0.new tape1.new tape2.new tape3.new) }
{
    let mut tapes = Tapes {
        tape0,
        tape1,
        tape2,
        tape3,
    };
    if is_record(buffer) {
        *res = serve(buffer, &mut tapes, event);
    } else {
        *res = no_record();
    }
}

// Bytes given one after the other, up to and with the first that is not answered 0: how many went over, and the result of the last.
#[unsafe(no_mangle)]
pub extern "C" fn glenoulty_give(
    buffer: &mut [u8],
    tape0: &mut [u8],
    tape1: &mut [u8],
    tape2: &mut [u8],
    tape3: &mut [u8],
    bytes: &[u8],
    res: &mut [u8; RESULT],
) -> usize
    ensures { Gives buffer.old (tapes tape0.old tape1.old tape2.old tape3.old)
        bytes.now result res.new buffer.new
        (tapes tape0.new tape1.new tape2.new tape3.new) }
{
    let mut tapes = Tapes {
        tape0,
        tape1,
        tape2,
        tape3,
    };
    if is_record(buffer) {
        return serve_many(buffer, &mut tapes, &mut Given { bytes }, res);
    }
    *res = no_record();
    0
}

// Bytes taken one after the other, up to and with the first that is not answered 0: how many came, and the result of the last.
// Apart from `glenoulty_give`: one function of both would say `Gives` and `Takes` once more, as one.
#[unsafe(no_mangle)]
pub extern "C" fn glenoulty_take(
    buffer: &mut [u8],
    tape0: &mut [u8],
    tape1: &mut [u8],
    tape2: &mut [u8],
    tape3: &mut [u8],
    bytes: &mut [u8],
    res: &mut [u8; RESULT],
) -> usize
    ensures { Takes buffer.old (tapes tape0.old tape1.old tape2.old tape3.old)
        bytes.old result res.new buffer.new
        (tapes tape0.new tape1.new tape2.new tape3.new)
        bytes.new }
{
    let mut tapes = Tapes {
        tape0,
        tape1,
        tape2,
        tape3,
    };
    if is_record(buffer) {
        return serve_many(buffer, &mut tapes, &mut Taken { bytes }, res);
    }
    *res = no_record();
    0
}

// The lines of a record, and 0; or the lines down, and 5 where the buffer holds no possible record.
#[unsafe(no_mangle)]
pub extern "C" fn glenoulty_lines(buffer: &[u8], res: &mut [u8; LINES]) -> u8
    ensures { Shows buffer.now result res.new }
{
    if holds(buffer) {
        *res = lines_bytes(lines(core_of(buffer)));
        return Answer::Taken.number();
    }
    *res = [0; LINES];
    Answer::Impossible.number()
}
