// Commands: the codes, what each order needs, and the tests, of which the first that fits decides.
ghost use Rattle.std.specs.Prelude.{◌≡◌};
ghost use Rattle.rules.specs.Order.{order_of, row_for, needs_of, in_sequence, illegal, has_room, fault_by};

use rules::{Drive, Fault, Mode, Needs, Order, WRITE_ROOM};
use tape::{MARK_SIZE, has_room};

// The order of a command octet, for each of the 256. No `TryFrom`: an unknown code is `None` in the book, and no error to name.
pub fn order_of(code: u8) -> Option<Order>
    ensures { result ≡ order_of code }
{
    match code {
        0x01 => Some(Order::Select(0)),
        0x02 => Some(Order::Select(1)),
        0x04 => Some(Order::Select(2)),
        0x08 => Some(Order::Select(3)),
        0x21 => Some(Order::Bot),
        0x22 => Some(Order::Erase),
        0x24 => Some(Order::Initialize),
        0x40 => Some(Order::Write),
        0x60 => Some(Order::WriteMark),
        0x80 => Some(Order::Read),
        0xA0 => Some(Order::ReadMark),
        0xC0 => Some(Order::ReadStatus),
        _ => None,
    }
}

// What each order needs.
fn row_for(order: Order) -> Needs
    ensures { result ≡ row_for order }
{
    match order {
        Order::Select(_) => Needs::default(),
        Order::Bot | Order::Initialize => Needs {
            cartridge: true,
            ..Needs::default()
        },
        Order::Erase => Needs {
            cartridge: true,
            plug: true,
            ..Needs::default()
        },
        Order::Write => Needs {
            online: true,
            cartridge: true,
            plug: true,
            room: WRITE_ROOM,
            ..Needs::default()
        },
        Order::WriteMark => Needs {
            writing: true,
            online: true,
            cartridge: true,
            plug: true,
            room: MARK_SIZE,
            ..Needs::default()
        },
        Order::Read => Needs {
            online: true,
            cartridge: true,
            ..Needs::default()
        },
        Order::ReadMark => Needs {
            reading: true,
            online: true,
            cartridge: true,
            ..Needs::default()
        },
        Order::ReadStatus => Needs {
            status: true,
            writing: true,
            reading: true,
            ..Needs::default()
        },
    }
}

// Test 2: an unknown code has no row.
pub fn needs_of(order: Option<Order>) -> Option<Needs>
    ensures { result ≡ needs_of order }
{
    order.map(row_for)
}

// Test 3: Idle takes all; Writing and Reading take what their column says.
fn in_sequence(mode: Mode, needs: Needs) -> bool
    ensures { result ≡ in_sequence mode needs }
{
    match mode {
        Mode::Idle => true,
        Mode::Writing => needs.writing,
        Mode::Reading => needs.reading,
    }
}

// Tests 1, 3 and 4: EXCEPTION up, sequence, ONLINE low.
fn illegal(online: bool, drive: Drive, needs: Needs) -> bool
    ensures { result ≡ illegal online drive needs }
{
    let sequence = in_sequence(drive.mode, needs);
    (drive.exception & !needs.status) | (!sequence | (needs.online & !online))
}

// Test 7: who asks for no room is not tested.
fn room_for(room: usize, head: usize, length: usize) -> bool
    ensures { result ≡ has_room room head length }
{
    (room == 0) | has_room(head, room, length)
}

// The seven tests against the level of ONLINE, the record and the tape's length: the first that fits decides.
pub fn fault_of(
    online: bool,
    drive: Drive,
    length: usize,
    needs: Option<Needs>,
) -> Result<(), Fault>
    ensures { result ≡ fault_by online drive length needs }
{
    let needs = needs.ok_or(Fault::Illegal)?;
    if illegal(online, drive, needs) {
        return Err(Fault::Illegal);
    }
    if needs.cartridge & !drive.loaded {
        return Err(Fault::Empty);
    }
    if needs.plug & drive.protected {
        return Err(Fault::Plugged);
    }
    if !room_for(needs.room, drive.head, length) {
        return Err(Fault::Full);
    }
    Ok(())
}
