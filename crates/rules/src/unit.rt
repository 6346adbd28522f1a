// The unit's record: what the cable and the selected drive share, four drives, and the staging block.
ghost use Rattle.std.specs.Prelude.{◌≡◌};
ghost use Rattle.rules.specs.Unit.{at_phase, at_level, at_drive, showing, fresh_port};
ghost use Rattle.rules.specs.Unit.{drive_at, put_drive, fresh_core, reset_core, fresh_unit};

use crate::OCTETS;
use crate::drive::Drive;
use crate::phase::Phase;
use tape::BODY;

// The selected drive is a byte and no enum: a record may hold any, and a number above 3 is answered 5.
// Small, since what a step hands back is copied with each event. The octets are an array, and how many are outstanding is in the phase.
#[derive(Clone, Copy)]
pub struct Port {
    pub phase: Phase,
    pub octets: [u8; OCTETS],
    pub selected: u8,
    pub online: bool,
}

// Four fields and no array: a law of an array would have to ask how long it is.
#[derive(Clone, Copy)]
pub struct Core {
    pub port: Port,
    pub drive0: Drive,
    pub drive1: Drive,
    pub drive2: Drive,
    pub drive3: Drive,
}

// An array of a fixed size, and how far it is filled in the phase: document 01 asks for the staging array, and there is no heap.
#[derive(Clone, Copy)]
pub struct Unit {
    pub core: Core,
    pub staging: [u8; BODY],
}

// What an act of the selected drive leaves of the port and its record, whether it raised EXCEPTION, and the byte that it handed out.
// Raised or not, port and record are there: no `Result`.
#[derive(Clone, Copy)]
pub struct Moved {
    pub port: Port,
    pub drive: Drive,
    pub raised: bool,
    pub byte: Option<u8>,
}

// Each move, of a port and of a core, changes a copy of the whole: by struct update, field by field, a block taken misses its bar (docs/SPEED.md).
impl Port {
    pub fn fresh() -> Port
        ensures { result ≡ fresh_port }
    {
        Port {
            selected: 0,
            online: false,
            phase: Phase::Rest,
            octets: [0; OCTETS],
        }
    }

    // Another phase. The one place that changes it.
    pub fn at_phase(self, phase: Phase) -> Port
        ensures { result ≡ at_phase phase self }
    {
        let mut p = self;
        p.phase = phase;
        p
    }

    // ONLINE at another level, at Rest.
    pub fn at_level(self, online: bool) -> Port
        ensures { result ≡ at_level online self }
    {
        let mut p = self.at_phase(Phase::Rest);
        p.online = online;
        p
    }

    // Another drive selected, at Rest.
    pub fn at_drive(self, selected: u8) -> Port
        ensures { result ≡ at_drive selected self }
    {
        let mut p = self.at_phase(Phase::Rest);
        p.selected = selected;
        p
    }

    // Six octets made, all of them outstanding.
    pub fn show(self, octets: [u8; OCTETS]) -> Port
        ensures { result ≡ showing octets self }
    {
        let mut p = self.at_phase(Phase::Status(OCTETS));
        p.octets = octets;
        p
    }
}

impl Core {
    pub fn fresh() -> Core
        ensures { result ≡ fresh_core }
    {
        let drive = Drive::fresh();
        Core {
            port: Port::fresh(),
            drive0: drive,
            drive1: drive,
            drive2: drive,
            drive3: drive,
        }
    }

    // The record of a drive by its number: by `match` and no array, whose laws would ask how long it is.
    pub fn drive(self, i: u8) -> Drive
        ensures { result ≡ drive_at self i }
    {
        match i {
            0 => self.drive0,
            1 => self.drive1,
            2 => self.drive2,
            _ => self.drive3,
        }
    }

    // The port, and the record of one drive, put back: by `match`, for the same reason.
    pub fn put(self, port: Port, i: u8, drive: Drive) -> Core
        ensures { result ≡ put_drive self port i drive }
    {
        let mut c = self;
        c.port = port;
        match i {
            0 => c.drive0 = drive,
            1 => c.drive1 = drive,
            2 => c.drive2 = drive,
            _ => c.drive3 = drive,
        }
        c
    }

    // RESET: drive 0 selected, Rest, each drive reset.
    pub fn reset(self) -> Core
        ensures { result ≡ reset_core self }
    {
        Core {
            port: self.port.at_drive(0),
            drive0: self.drive0.reset(),
            drive1: self.drive1.reset(),
            drive2: self.drive2.reset(),
            drive3: self.drive3.reset(),
        }
    }
}

impl Unit {
    // A fresh unit: drive 0 selected, ONLINE low, Rest, the staging block all zeros.
    pub fn fresh() -> Unit
        ensures { result ≡ fresh_unit }
    {
        Unit {
            core: Core::fresh(),
            staging: [0; BODY],
        }
    }
}
