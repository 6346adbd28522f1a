// The record of a unit written as bytes.
ghost use Rattle.std.specs.Prelude.{◌≡◌, ◌+◌, ◌≤◌, length};
ghost use Rattle.basis.specs.Placed.{placed};
ghost use Rattle.rules.specs.Phase.{report_size};
ghost use Rattle.layout.specs.Written.{flag, mode_byte, latched_bytes, drive_bytes, phase_bytes, port_bytes, unit_bytes};
ghost use Rattle.layout.specs.Written.{unit, Sized, phase_at, port_size, drive_size, record_size};
ghost use Rattle.layout.specs.Read.{staging_of};

use crate::{
    DRIVE, DRIVE_0, DRIVE_1, DRIVE_2, DRIVE_3, PHASE, PHASE_BYTES, PORT, STAGING, VERSION,
};
use basis::put;
use rules::{Core, Drive, Latched, Mode, Phase, Port};
use tape::BODY;

// What stands in room that no field has.
const UNUSED: u8 = 0;

// A bool as a byte.
pub fn flag(b: bool) -> u8
    ensures { result ≡ flag b }
{
    u8::from(b)
}

// The number that C has for each: the modes stand in the order of their numbers.
fn mode_byte(mode: Mode) -> u8
    ensures { result ≡ mode_byte mode }
{
    mode as u8
}

// Here and below each byte stands at its place, as docs/BOARD.md has it: stretches that are copied would need their offsets, and read no plainer.
fn latched_bytes(l: Latched) -> [u8; 8]
    ensures { result ≡ latched_bytes l }
{
    [
        flag(l.cni),
        flag(l.eom),
        flag(l.ude),
        flag(l.bnl),
        flag(l.fil),
        flag(l.ill),
        flag(l.ndt),
        flag(l.por),
    ]
}

fn drive_bytes(drive: Drive) -> [u8; DRIVE]
    ensures { result ≡ drive_bytes drive }
{
    let h = drive.head.to_le_bytes();
    let e = drive.errors.0.to_le_bytes();
    let u = drive.underruns.0.to_le_bytes();
    let l = latched_bytes(drive.latched);
    [
        h[0],
        h[1],
        h[2],
        h[3],
        h[4],
        h[5],
        h[6],
        h[7],
        UNUSED,
        UNUSED,
        UNUSED,
        UNUSED,
        e[0],
        e[1],
        u[0],
        u[1],
        flag(drive.loaded),
        flag(drive.protected),
        UNUSED,
        mode_byte(drive.mode),
        drive.late,
        flag(drive.exception),
        l[0],
        l[1],
        l[2],
        l[3],
        l[4],
        l[5],
        l[6],
        l[7],
        UNUSED,
        UNUSED,
    ]
}

fn phase_bytes(phase: Phase) -> [u8; PHASE_BYTES]
    ensures { result ≡ phase_bytes phase }
{
    let n = phase.how_far().to_le_bytes();
    [
        phase.which(),
        n[0],
        n[1],
        n[2],
        n[3],
        n[4],
        n[5],
        n[6],
        n[7],
    ]
}

fn port_bytes(port: Port) -> [u8; PORT]
    ensures { result ≡ port_bytes port }
{
    let p = phase_bytes(port.phase);
    let o = port.octets;
    [
        VERSION,
        port.selected,
        flag(port.online),
        p[0],
        p[1],
        p[2],
        p[3],
        p[4],
        p[5],
        p[6],
        p[7],
        p[8],
        o[0],
        o[1],
        o[2],
        o[3],
        o[4],
        o[5],
    ]
}

fn put_port(buffer: &mut [u8], port: Port)
    requires { port_size ≤ length buffer.old }
    ensures buffer_after { buffer.new ≡ placed buffer.old 0 (port_bytes port) }
    ensures octets_len { length port.octets ≡ report_size }
{
    put(buffer, 0, &port_bytes(port));
}

fn put_drive(buffer: &mut [u8], at: usize, drive: Drive)
    requires { at + drive_size ≤ length buffer.old }
    ensures { buffer.new ≡ placed buffer.old at (drive_bytes drive) }
{
    put(buffer, at, &drive_bytes(drive));
}

// All of a record but its staging block, which stays as it stands there.
pub fn write_core(buffer: &mut [u8], core: Core)
    requires { length buffer.old ≡ record_size }
    ensures buffer_after { buffer.new ≡ unit_bytes (unit core (staging_of buffer.old)) }
    ensures sized { Sized (unit core (staging_of buffer.old)) }
{
    put_port(buffer, core.port);
    put_drive(buffer, DRIVE_0, core.drive0);
    put_drive(buffer, DRIVE_1, core.drive1);
    put_drive(buffer, DRIVE_2, core.drive2);
    put_drive(buffer, DRIVE_3, core.drive3);
}

// A whole record, into a buffer of its size.
pub fn write_record(buffer: &mut [u8], core: Core, staging: &[u8; BODY])
    requires { length buffer.old ≡ record_size }
    ensures buffer_after { buffer.new ≡ unit_bytes (unit core staging.now) }
    ensures sized { Sized (unit core staging.now) }
{
    put(buffer, STAGING, staging);
    write_core(buffer, core);
}

// Another phase of a record, and nothing else.
pub fn write_phase(buffer: &mut [u8], phase: Phase)
    requires { length buffer.old ≡ record_size }
    ensures { buffer.new ≡ placed buffer.old phase_at (phase_bytes phase) }
{
    put(buffer, PHASE, &phase_bytes(phase));
}
