// What a call writes into the result that it is lent.
ghost use Rattle.std.specs.Prelude.{◌≡◌, ◌∷◌, false, is_some, unwrap_or};
ghost use Rattle.rules.specs.Answer.{row_of};
ghost use Rattle.layout.specs.Written.{flag};
ghost use Rattle.rules.specs.declared.answer.Answer.TheVariants.{Taken};
ghost use Rattle.board.specs.Serve.{lines_bytes, result_bytes, no_record};

use crate::{LINES, RESULT};
use layout::flag;
use rules::{Answer, Lines, Turn};

// Here and below each byte stands at its place, as in a record.
pub(crate) fn lines_bytes(lines: Lines) -> [u8; LINES]
    ensures { result ≡ lines_bytes lines }
{
    [
        flag(lines.ready),
        flag(lines.exception),
        flag(lines.direction),
    ]
}

// The answer's number, whether a byte was given, the byte or 0, the lines. Three values and no `Turn`: within a block no core is built for one.
fn result_bytes(answer: Answer, byte: Option<u8>, lines: Lines) -> [u8; RESULT]
    ensures { result ≡ (row_of answer).number ∷ flag (is_some byte) ∷ unwrap_or byte 0 ∷ lines_bytes lines }
{
    let l = lines_bytes(lines);
    [
        answer.number(),
        flag(byte.is_some()),
        byte.unwrap_or(0),
        l[0],
        l[1],
        l[2],
    ]
}

// What a turn tells.
pub(crate) fn turn_bytes(turn: Turn) -> [u8; RESULT]
    ensures { result ≡ result_bytes turn }
{
    result_bytes(turn.answer, turn.byte, turn.lines)
}

// A byte within a block: taken, READY and EXCEPTION down, DIRECTION up where it was handed out.
pub(crate) fn byte_bytes(byte: Option<u8>) -> [u8; RESULT]
    ensures { result ≡ (row_of Taken).number ∷ flag (is_some byte) ∷ unwrap_or byte 0
        ∷ lines_bytes (record { ready = false; exception = false; direction = is_some byte }) }
{
    result_bytes(
        Answer::Taken,
        byte,
        Lines {
            direction: byte.is_some(),
            ..Lines::default()
        },
    )
}

// 5, no byte, the lines down.
pub(crate) fn no_record() -> [u8; RESULT]
    ensures { result ≡ no_record }
{
    result_bytes(Answer::Impossible, None, Lines::default())
}
