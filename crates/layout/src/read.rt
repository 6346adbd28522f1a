// Bytes read as a record.
ghost use Rattle.std.specs.Prelude.{◌≡◌, ◌+◌, ◌≤◌, ◌&&◌, true, length, fold};
ghost use Rattle.rules.specs.Unit.{one_of, drive_at};
ghost use Rattle.layout.specs.Number.{eight_at};
ghost use Rattle.layout.specs.Written.{record_size};
ghost use Rattle.layout.specs.Read.{stretch, is_flag, is_phase, is_latched, leaves_room, is_drive, is_port, is_record};
ghost use Rattle.layout.specs.Read.{mode_of, phase_of, latched_of, drive_of, port_of, core_of};

use crate::{DRIVE, DRIVE_0, DRIVE_1, DRIVE_2, DRIVE_3, PORT, RECORD, VERSION};
use rules::{Core, Drive, Errors, Latched, Mode, Phase, Port, Underruns};

// No number at Rest.
fn is_phase(b: u8, n: usize) -> bool
    ensures { result ≡ is_phase b n }
{
    (b <= 3) & ((1 <= b) | (n == 0))
}

// No `TryFrom` here and below: `core_of` is promised of any bytes of a record's length and cannot fail, and the numbers are C's.
fn mode_of(b: u8) -> Mode
    ensures { result ≡ mode_of b }
{
    match b {
        0 => Mode::Idle,
        1 => Mode::Writing,
        _ => Mode::Reading,
    }
}

fn phase_of(b: u8, n: usize) -> Phase
    ensures { result ≡ phase_of b n }
{
    match b {
        0 => Phase::Rest,
        1 => Phase::Taking(n),
        2 => Phase::Giving(n),
        _ => Phase::Status(n),
    }
}

// The bytes that begin at an offset, as many as the caller takes.
fn part<const N: usize>(buffer: &[u8], at: usize) -> [u8; N]
    requires { at + N ≤ length buffer.now }
    ensures { result ≡ stretch at N buffer.now }
{
    let mut part = [0; N];
    part.copy_from_slice(&buffer[at..at + N]);
    part
}

// Each byte is looked at, whatever the ones before it are: that takes no jumps.
fn are_flags(bytes: &[u8]) -> bool
    ensures { result ≡ fold (λ so b. so && is_flag b) true bytes.now }
{
    bytes.iter().fold(true, |so, b| so & (*b <= 1))
}

fn is_latched(p: &[u8; DRIVE]) -> bool
    ensures { result ≡ is_latched p.now }
{
    are_flags(&p[22..30])
}

// Room that no field has is 0.
fn leaves_room(p: &[u8; DRIVE]) -> bool
    ensures { result ≡ leaves_room p.now }
{
    (u32::from_le_bytes(part(p, 8)) == 0) & ((p[18] == 0) & (u16::from_le_bytes(part(p, 30)) == 0))
}

fn is_drive(p: &[u8; DRIVE]) -> bool
    ensures { result ≡ is_drive p.now }
{
    (p[16] <= 1)
        & ((p[17] <= 1) & ((p[19] <= 2) & ((p[21] <= 1) & (is_latched(p) & leaves_room(p)))))
}

fn phase_number(p: &[u8; PORT]) -> usize
    ensures { result ≡ eight_at p.now 4 }
{
    usize::from_le_bytes(part(p, 4))
}

fn is_port(p: &[u8; PORT]) -> bool
    ensures { result ≡ is_port p.now }
{
    (p[0] == VERSION) & ((p[2] <= 1) & is_phase(p[3], phase_number(p)))
}

fn latched_of(p: &[u8; DRIVE]) -> Latched
    ensures { result ≡ latched_of p.now }
{
    Latched {
        cni: p[22] == 1,
        eom: p[23] == 1,
        ude: p[24] == 1,
        bnl: p[25] == 1,
        fil: p[26] == 1,
        ill: p[27] == 1,
        ndt: p[28] == 1,
        por: p[29] == 1,
    }
}

fn drive_of(p: &[u8; DRIVE]) -> Drive
    ensures { result ≡ drive_of p.now }
{
    Drive {
        head: usize::from_le_bytes(part(p, 0)),
        errors: Errors(u16::from_le_bytes(part(p, 12))),
        underruns: Underruns(u16::from_le_bytes(part(p, 14))),
        loaded: p[16] == 1,
        protected: p[17] == 1,
        mode: mode_of(p[19]),
        late: p[20],
        exception: p[21] == 1,
        latched: latched_of(p),
    }
}

fn port_of(p: &[u8; PORT]) -> Port
    ensures { result ≡ port_of p.now }
{
    Port {
        selected: p[1],
        online: p[2] == 1,
        phase: phase_of(p[3], phase_number(p)),
        octets: part(p, 12),
    }
}

// Whether a buffer is a record, possible or not.
pub fn is_record(buffer: &[u8]) -> bool
    ensures { result ≡ is_record buffer.now }
{
    if buffer.len() != RECORD {
        return false;
    }
    let port = part(buffer, 0);
    let drive0 = part(buffer, DRIVE_0);
    let drive1 = part(buffer, DRIVE_1);
    let drive2 = part(buffer, DRIVE_2);
    let drive3 = part(buffer, DRIVE_3);
    is_port(&port)
        & (is_drive(&drive0) & (is_drive(&drive1) & (is_drive(&drive2) & is_drive(&drive3))))
}

// The port of a record.
pub fn port_in(buffer: &[u8]) -> Port
    requires { length buffer.now ≡ record_size }
    ensures { result ≡ (core_of buffer.now).port }
{
    port_of(&part(buffer, 0))
}

// Where a drive begins; a number above 3 means the last.
fn drive_place(i: u8) -> usize
    ensures { result ≡ one_of i 18 50 82 114 }
{
    DRIVE_0 + DRIVE * usize::from(i.min(3))
}

// A drive of a record by its number.
pub fn drive_in(buffer: &[u8], i: u8) -> Drive
    requires { length buffer.now ≡ record_size }
    ensures { result ≡ drive_at (core_of buffer.now) i }
{
    drive_of(&part(buffer, drive_place(i)))
}

// All of a record but its staging block: the port and four drives.
pub fn core_of(buffer: &[u8]) -> Core
    requires { length buffer.now ≡ record_size }
    ensures { result ≡ core_of buffer.now }
{
    Core {
        port: port_in(buffer),
        drive0: drive_of(&part(buffer, DRIVE_0)),
        drive1: drive_of(&part(buffer, DRIVE_1)),
        drive2: drive_of(&part(buffer, DRIVE_2)),
        drive3: drive_of(&part(buffer, DRIVE_3)),
    }
}
