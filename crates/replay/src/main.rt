// Runs a raw trace from standard input on a fresh unit with four blank tapes, and shows each answer as a line.
#![tactic(auto)]

ghost use Rattle.std.specs.Prelude.{◌≤◌, length, IfSome};

use rules::Core;
use std::io::{Eprint, Input, Print, Read};
use tape::BODY;
use trace::Halt;
use unit::Tapes;

// The bytes of each tape.
const TAPE: usize = 16384;

// The bytes that are read or written at a time.
const PIECE: usize = 65536;

// The bytes of input that are not run yet, and whether no more will come. Offsets beside the lent buffer: what is left can move to its front.
#[derive(Clone, Copy)]
struct Piece {
    from: usize,
    to: usize,
    ending: bool,
}

// Writes to standard output, or says why it cannot; then nothing more is run, and there is no error left to hand on.
fn write<R: Print + Eprint>(rt: &R, text: &[u8]) -> Option<()> {
    match rt.write_all(text) {
        Ok(()) => Some(()),
        Err(e) => {
            let _ = eprintln!(rt; "standard output: {e}");
            None
        }
    }
}

// Reads once, behind what was left over. A read that fails is said, and nothing more is run: what was left over is no event.
fn read_more<R: Input + Eprint>(rt: &R, input: &mut [u8], left: Piece) -> Option<Piece>
    ensures { IfSome result (λ p. (p.from ≤ p.to) × (p.to ≤ length input.old)) }
{
    let rest = trace::keep_rest(input, left.from, left.to);
    match rt.reader().read(&mut input[rest..]) {
        Ok(n) => Some(Piece {
            from: 0,
            to: rest + n,
            ending: n == 0,
        }),
        Err(e) => {
            let _ = eprintln!(rt; "standard input: {e}");
            None
        }
    }
}

// Writes the lines of a run, and goes by why it halted: what is to be run next, if anything.
fn go_on<R: Input + Print + Eprint>(
    rt: &R,
    halt: Halt,
    lines: &[u8],
    input: &mut [u8],
    left: Piece,
) -> Option<Piece>
    requires { (left.from ≤ left.to) × (left.to ≤ length input.old) }
    ensures { IfSome result (λ p. (p.from ≤ p.to) × (p.to ≤ length input.old)) }
{
    write(rt, lines)?;
    match halt {
        Halt::RoomOut => Some(left),
        Halt::InputOut => if left.ending {
            None
        } else {
            read_more(rt, input, left)
        },
        Halt::Stopped => None,
    }
}

// Runs and reads by turns, and answers how many events were answered. No run uses up so many turns.
fn replay<R: Input + Print + Eprint>(
    rt: &R,
    staging: &mut [u8; BODY],
    tapes: &mut Tapes<'_>,
    input: &mut [u8],
    out: &mut [u8],
) -> u64 {
    let mut core = Core::fresh();
    let mut count: u64 = 0;
    let mut piece = Piece {
        from: 0,
        to: 0,
        ending: false,
    };
    // A range and no `loop`: each function is proved to end, and how much input comes is not known.
    for _ in 0..u64::MAX {
        let run = trace::play(
            core,
            staging,
            tapes,
            &input[piece.from..piece.to],
            piece.ending,
            count,
            out,
        );
        core = run.core;
        count = run.count;
        let left = Piece {
            from: piece.from + run.used,
            ..piece
        };
        let Some(next) = go_on(rt, run.halt, &out[..run.written], input, left) else {
            break;
        };
        piece = next;
    }
    count
}

fn main(rt: HostRuntime) {
    let mut staging = [0u8; BODY];
    let mut tape0 = [0u8; TAPE];
    let mut tape1 = [0u8; TAPE];
    let mut tape2 = [0u8; TAPE];
    let mut tape3 = [0u8; TAPE];
    let mut tapes = Tapes {
        tape0: &mut tape0,
        tape1: &mut tape1,
        tape2: &mut tape2,
        tape3: &mut tape3,
    };
    let mut input = [0u8; PIECE];
    let mut out = [0u8; PIECE];
    if write(&rt, b"tape unit, 4 drives\n").is_some() {
        let count = replay(&rt, &mut staging, &mut tapes, &mut input, &mut out);
        if let Err(e) = println!(rt; "{count} events") {
            let _ = eprintln!(rt; "standard output: {e}");
        }
    }
}
