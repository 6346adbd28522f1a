// A counter raised in the core: the drive named is lent from within it, and the core handed back.
ghost use Rattle.std.specs.Prelude.{◌≡◌};
ghost use Rattle.rules.specs.Unit.{drive_at, put_drive};

use crate::raise;
use rules::{Core, Counter};

// The drive by its number; a number above 3 means the last. Lent by its name where it stands: document 01 asks for a counter raised in a lent record.
pub fn count_in<C: Counter>(core: Core, i: u8) -> Core
    ensures { result ≡ put_drive core core.port i (C.counted (drive_at core i)) }
{
    let mut c = core;
    match i {
        0 => raise::<C>(&mut c.drive0),
        1 => raise::<C>(&mut c.drive1),
        2 => raise::<C>(&mut c.drive2),
        _ => raise::<C>(&mut c.drive3),
    }
    c
}
