// What an act sees beside its tape, the port and the drive's own record, and what it hands back.
// The tape stands beside it: some acts are lent it to be changed and others to be read, and an `At` is handed on by value.
ghost use Rattle.std.specs.Prelude.{◌≡◌, false, None, Some};
ghost use Rattle.rules.specs.declared.phase.Phase.TheVariants.{Rest};
ghost use Rattle.rules.specs.Unit.{at_phase, at_level};

use rules::{Drive, Moved, Phase, Port};

#[derive(Clone, Copy)]
pub struct At {
    pub port: Port,
    pub drive: Drive,
}

// Without a byte. Port and drive apart and no `At`: it is handed a port that moved and a drive that moved, each made anew.
pub(crate) fn leaves(raised: bool, port: Port, drive: Drive) -> Moved
    ensures { result ≡ record { raised = raised; byte = None; port = port; drive = drive } }
{
    Moved {
        raised,
        byte: None,
        port,
        drive,
    }
}

impl At {
    // At Rest, without a byte, with this record.
    pub(crate) fn rests(self, raised: bool, drive: Drive) -> Moved
        ensures { result ≡ record { raised = raised; byte = None; port = at_phase Rest self.port; drive = drive } }
    {
        leaves(raised, self.port.at_phase(Phase::Rest), drive)
    }

    // The level low, without a byte, with this record.
    pub(crate) fn falls(self, raised: bool, drive: Drive) -> Moved
        ensures { result ≡ record { raised = raised; byte = None; port = at_level false self.port; drive = drive } }
    {
        leaves(raised, self.port.at_level(false), drive)
    }

    // At the next phase, with a byte and this record.
    pub(crate) fn hands(self, raised: bool, byte: u8, next: Phase, drive: Drive) -> Moved
        ensures { result ≡ record { raised = raised; byte = Some byte; port = at_phase next self.port; drive = drive } }
    {
        Moved {
            raised,
            byte: Some(byte),
            port: self.port.at_phase(next),
            drive,
        }
    }
}
