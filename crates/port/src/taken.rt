// A byte taken by the host.
ghost use Rattle.std.specs.Prelude.{◌≡◌, List, ℕ, ◌+◌, ◌≤◌, length};
ghost use Rattle.tape.specs.Record.{found_at, block_size};
ghost use Rattle.rules.specs.Edge.{checked};
ghost use Rattle.rules.specs.Effect.{seat, acted};
ghost use Rattle.rules.specs.Bytes.{handed, first_taken, next_taken, octet_taken, byte_taken};

use crate::at::{At, leaves};
use crate::edge::{check, halt, is_block, spoilt};
use report::{after_octet, next_octet};
use rules::{LAST_PLACE, Moved, Phase};
use tape::{BLOCK_SIZE, BODY, found_at};

// The next byte of the whole block at the head, off the tape itself; behind its last byte comes the edge check.
fn hand(at: At, tape: &[u8], n: usize) -> Moved
    requires { at.drive.head + block_size ≤ length tape.now }
    ensures { acted result tape.now ≡ handed (seat at.port at.drive tape.now) n }
{
    let head = at.drive.head;
    if n < LAST_PLACE {
        return at.hands(false, tape[head + 1 + n], Phase::Giving(n + 1), at.drive);
    }
    let edge = check(at.drive.pass_to(head + BLOCK_SIZE), tape);
    at.hands(edge.raised, tape[head + BODY], Phase::Rest, edge.drive)
}

// At Rest the edge check is repeated first.
fn take_first(at: At, tape: &[u8]) -> Moved
    ensures { acted result tape.now ≡ first_taken (seat at.port at.drive tape.now) (checked tape.now at.drive) }
{
    let edge = check(at.drive, tape);
    if edge.raised {
        at.rests(true, edge.drive)
    } else {
        hand(at, tape, 0)
    }
}

// In the middle of a block the record is looked at anew: where it is no whole block any more, it is a bad one.
fn take_next(at: At, tape: &[u8], n: usize) -> Moved
    ensures { acted result tape.now ≡ next_taken (seat at.port at.drive tape.now) n (found_at tape.now at.drive.head) }
{
    let found = found_at(tape, at.drive.head);
    if is_block(found) {
        hand(at, tape, n)
    } else {
        at.rests(true, halt(at.drive, spoilt(found)))
    }
}

// The octet goes out, and the one behind it is next.
fn take_octet(at: At, k: usize) -> Moved
    ensures { (t : List ℕ) → acted result t ≡ octet_taken (seat at.port at.drive t) k }
{
    at.hands(false, next_octet(at.port, k), after_octet(k), at.drive)
}

// At Rest the first byte of a block, inside one its next byte, in Status the next octet.
pub fn take(at: At, tape: &[u8]) -> Moved
    ensures { acted result tape.now ≡ byte_taken (seat at.port at.drive tape.now) at.port.phase }
{
    match at.port.phase {
        Phase::Rest => take_first(at, tape),
        Phase::Taking(_) => leaves(false, at.port, at.drive),
        Phase::Giving(n) => take_next(at, tape, n),
        Phase::Status(k) => take_octet(at, k),
    }
}
