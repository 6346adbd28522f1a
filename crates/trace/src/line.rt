// One answered event as a line: number, answer, lines and byte. Not by `write!`: a line is asked for its length before a byte of it is written.
ghost use Rattle.std.specs.Prelude.{◌≡◌, ◌+◌, ◌≤◌, [], ◌∷◌, length};
ghost use Rattle.std.specs.Option.{option_map_or};
ghost use Rattle.basis.specs.Text.{high_digit, low_digit};
ghost use Rattle.basis.specs.Placed.{placed};
ghost use Rattle.trace.specs.Line.{dash, or_dash, fields_of, line_of, line_size, page, shown_at};

use basis::{digit, high_digit, low_digit, places, put, put_number};
use rules::{Answer, Lines};

const DASH: u8 = b'-';

const LETTER_D: u8 = b'D';

const LETTER_E: u8 = b'E';

const LETTER_R: u8 = b'R';

const SPACE: u8 = b' ';

const NEWLINE: u8 = b'\n';

// What follows the number, its newline too.
pub(crate) const FIELDS: usize = 10;

// A character where something is so, else a dash.
fn or_dash(b: bool, character: u8) -> u8
    ensures { result ≡ or_dash b character }
{
    if b { character } else { DASH }
}

// A byte in hex, or two dashes.
fn two_digits(byte: Option<u8>) -> [u8; 2]
    ensures { result ≡ option_map_or high_digit byte dash ∷ option_map_or low_digit byte dash ∷ [] }
{
    match byte {
        Some(b) => [high_digit(b), low_digit(b)],
        None => [DASH, DASH],
    }
}

// The answer's number, the lines, the byte: each character at its place.
fn fields(answer: Answer, lines: Lines, byte: Option<u8>) -> [u8; FIELDS]
    ensures { result ≡ fields_of answer lines byte }
{
    let number = digit(answer.number());
    let digits = two_digits(byte);
    [
        SPACE,
        number,
        SPACE,
        or_dash(lines.ready, LETTER_R),
        or_dash(lines.exception, LETTER_E),
        or_dash(lines.direction, LETTER_D),
        SPACE,
        digits[0],
        digits[1],
        NEWLINE,
    ]
}

// A line that has room, and the offset just past it: in the whole buffer and no part, since every byte of it is promised.
pub(crate) fn put_line(
    out: &mut [u8],
    at: usize,
    number: u64,
    answer: Answer,
    lines: Lines,
    byte: Option<u8>,
) -> usize
    requires { at + line_size number ≤ length out.old }
    ensures { (result ≡ at + line_size number) × (out.new ≡ placed out.old at (line_of number answer lines byte)) }
{
    let k = places(number);
    put_number(out, at, number, k);
    let rest = fields(answer, lines, byte);
    put(out, at + k, &rest);
    at + k + FIELDS
}

// The line of an answered event at an offset of the buffer, and the offset just past it; without room for all of it nothing is written.
// Answer, lines and byte and no `Turn`: a line shows no core, and its callers need have none. A struct of the three would be a second turn.
// The offset is that of `put_line`.
pub fn show_line(
    out: &mut [u8],
    at: usize,
    number: u64,
    answer: Answer,
    lines: Lines,
    byte: Option<u8>,
) -> Option<usize>
    ensures { page result out.new ≡ shown_at out.old at (line_of number answer lines byte) }
{
    if tape::has_room(at, places(number) + FIELDS, out.len()) {
        Some(put_line(out, at, number, answer, lines, byte))
    } else {
        None
    }
}
