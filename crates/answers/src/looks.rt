// What a drive has and does, by its number.
ghost use Rattle.std.specs.Prelude.{◌≡◌};
ghost use Rattle.rules.specs.Unit.{drive_at};
ghost use Rattle.answers.specs.Looks.{look_of};

use rules::{Core, Drive};

// A cartridge in, and whether the drive takes data. Public, as docs/CONTRACTS.md has it.
#[derive(Clone, Copy)]
pub struct Seen {
    pub loaded: bool,
    pub writes: bool,
}

fn sight(drive: Drive) -> Seen
    ensures { result ≡ look_of drive }
{
    Seen {
        loaded: drive.loaded,
        writes: drive.writes(),
    }
}

pub fn look(core: Core, i: u8) -> Seen
    ensures { result ≡ look_of (drive_at core i) }
{
    sight(core.drive(i))
}
