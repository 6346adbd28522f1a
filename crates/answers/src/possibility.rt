// Answer 5: whether a unit record is possible.
ghost use Rattle.std.specs.Prelude.{◌≡◌};
ghost use Rattle.rules.specs.Unit.{drive_at};
ghost use Rattle.rules.specs.Refusal.{mode_fits, late_fits, possible_drive, possible_phase, possible};

use crate::LAST_DRIVE;
use rules::{Core, Drive, LAST_PLACE, LATE_BLOCKS, Mode, OCTETS, Phase};
use tape::LONGEST;

// An empty slot is Idle and has no plug; a protected cartridge is never Writing.
fn mode_fits(mode: Mode, loaded: bool, protected: bool) -> bool
    ensures { result ≡ mode_fits mode loaded protected }
{
    if loaded {
        !(protected & mode.is_writing())
    } else {
        matches!(mode, Mode::Idle) & !protected
    }
}

// Late blocks are at most two, and none outside Writing. Mostly there are none.
fn late_fits(mode: Mode, late: u8) -> bool
    ensures { result ≡ late_fits mode late }
{
    late == 0 || (mode.is_writing() & (late <= LATE_BLOCKS))
}

// A head above the longest tape is impossible.
#[tactic(auto, unfolding(rules::specs::Refusal::possible_drive))]
pub fn possible_drive(drive: Drive) -> bool
    ensures { result ≡ possible_drive drive }
{
    drive.head <= LONGEST
        && (mode_fits(drive.mode, drive.loaded, drive.protected)
            & late_fits(drive.mode, drive.late))
}

// A part block given needs the selected drive Writing, taken needs it Reading; octets outstanding are 1 to 6.
pub fn possible_at(phase: Phase, drive: Drive) -> bool
    ensures { result ≡ possible_phase phase drive.mode }
{
    match phase {
        Phase::Rest => true,
        Phase::Taking(n) => (1 <= n) & ((n <= LAST_PLACE) & drive.mode.is_writing()),
        Phase::Giving(n) => (1 <= n) & ((n <= LAST_PLACE) & drive.mode.is_reading()),
        Phase::Status(k) => (1 <= k) & (k <= OCTETS),
    }
}

// The phase beside the selected drive: each drive is called by its name, since a look by number copies the record.
fn possible_place(core: Core) -> bool
    ensures { result ≡ possible_phase core.port.phase (drive_at core core.port.selected).mode }
{
    match core.port.selected {
        0 => possible_at(core.port.phase, core.drive0),
        1 => possible_at(core.port.phase, core.drive1),
        2 => possible_at(core.port.phase, core.drive2),
        _ => possible_at(core.port.phase, core.drive3),
    }
}

// The selected drive's number, the phase, and each of the four drives; the first test that fails decides.
#[tactic(auto, unfolding(rules::specs::Refusal::possible))]
pub fn possible(core: Core) -> bool
    ensures { result ≡ possible core }
{
    core.port.selected <= LAST_DRIVE
        && possible_place(core)
        && possible_drive(core.drive0)
        && possible_drive(core.drive1)
        && possible_drive(core.drive2)
        && possible_drive(core.drive3)
}
