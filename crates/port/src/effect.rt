// A command octet: the tests, and the effect of each order that passed them.
ghost use Rattle.std.specs.Prelude.{◌≡◌, true, List, ℕ, ◌+◌, leb, length};
ghost use Rattle.basis.specs.Choice.{pick};
ghost use Rattle.rules.specs.declared.order.Order.TheVariants.{Erase, Write, WriteMark, Read, ReadMark, ReadStatus};
ghost use Rattle.rules.specs.declared.order.Fault.TheVariants.{Full};
ghost use Rattle.rules.specs.Order.{order_of, row_for, mark_room, has_room};
ghost use Rattle.rules.specs.Effect.{seat, acted, ordered, fault_of, commanded};

use crate::at::{At, leaves};
use crate::edge::{check, stand_where};
use orders::{allowed_at, fault_of, needs_of, order_of};
use report::octets;
use rules::{Bit, Fault, Mode, Moved, Order};
use tape::{pass_to_mark, record_mark};

// Every byte of the tape 0, head 0.
fn erase(at: At, tape: &mut [u8]) -> Moved
    ensures { acted result tape.new ≡ ordered (seat at.port at.drive tape.old) (Some Erase) }
{
    tape::erase(tape);
    at.rests(false, at.drive.rewind())
}

// Writing, and past early warning two late blocks.
fn write(at: At, tape: &[u8]) -> Moved
    ensures { acted result tape.now ≡ ordered (seat at.port at.drive tape.now) (Some Write) }
{
    let late = allowed_at(at.drive.head, tape.len());
    at.rests(false, at.drive.in_mode(Mode::Writing).allow(late))
}

// A mark recorded, mode Idle; without room for it EOM, as test 7 has it.
fn write_mark(at: At, tape: &mut [u8]) -> Moved
    ensures { acted result tape.new
        ≡ commanded (seat at.port at.drive tape.old) (Some WriteMark) (pick (leb (at.drive.head + mark_room) (length tape.old)) (Ok tt) (Err Full)) }
{
    match record_mark(tape, at.drive.head) {
        Some(next) => at.rests(false, at.drive.made(next).in_mode(Mode::Idle)),
        None => at.rests(true, at.drive.stop(Bit::Eom)),
    }
}

// Reading, and the edge check.
fn read(at: At, tape: &[u8]) -> Moved
    ensures { acted result tape.now ≡ ordered (seat at.port at.drive tape.now) (Some Read) }
{
    let edge = check(at.drive.in_mode(Mode::Reading), tape);
    at.rests(edge.raised, edge.drive)
}

// Blocks passed, to just past the next mark, or to the end of data, or to a bad record.
fn read_mark(at: At, tape: &[u8]) -> Moved
    ensures { acted result tape.now ≡ ordered (seat at.port at.drive tape.now) (Some ReadMark) }
{
    let passed = pass_to_mark(tape, at.drive.head);
    at.rests(true, stand_where(at.drive, passed))
}

// The six octets made, then the latched bits, both counters and EXCEPTION cleared.
fn read_status(at: At) -> Moved
    ensures { (t : List ℕ) → acted result t ≡ ordered (seat at.port at.drive t) (Some ReadStatus) }
{
    leaves(
        false,
        at.port.show(octets(at.drive)),
        at.drive.clear_status(),
    )
}

// An order that passed the tests.
fn carry_out(at: At, tape: &mut [u8], order: Order) -> Moved
    requires { has_room (row_for order).room at.drive.head (length tape.old) ≡ true }
    ensures { acted result tape.new ≡ ordered (seat at.port at.drive tape.old) (Some order) }
{
    match order {
        Order::Select(n) => leaves(false, at.port.at_drive(n), at.drive.select()),
        Order::Bot | Order::Initialize => at.rests(false, at.drive.rewind()),
        Order::Erase => erase(at, tape),
        Order::Write => write(at, tape),
        Order::WriteMark => write_mark(at, tape),
        Order::Read => read(at, tape),
        Order::ReadMark => read_mark(at, tape),
        Order::ReadStatus => read_status(at),
    }
}

// Tests 1 to 4 latch ILL, 5 CNI, 6 raises EXCEPTION alone, 7 latches EOM and makes the mode Idle.
pub fn command(at: At, tape: &mut [u8], code: u8) -> Moved
    ensures { acted result tape.new
        ≡ commanded (seat at.port at.drive tape.old) (order_of code) (fault_of (seat at.port at.drive tape.old) (order_of code)) }
{
    let order = order_of(code);
    let tested = fault_of(at.port.online, at.drive, tape.len(), needs_of(order));
    match (order, tested) {
        (Some(order), Ok(())) => carry_out(at, tape, order),
        (None, _) | (_, Err(Fault::Illegal)) => at.rests(true, at.drive.latch(Bit::Ill)),
        (_, Err(Fault::Empty)) => at.rests(true, at.drive.latch(Bit::Cni)),
        (_, Err(Fault::Plugged)) => at.rests(true, at.drive.raise()),
        (_, Err(Fault::Full)) => at.rests(true, at.drive.stop(Bit::Eom)),
    }
}
