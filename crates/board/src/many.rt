// Many bytes in one call on a buffer that is a record. Bytes that end with the last of a block, as a block in one call
// does, move the record where it stands up to that byte; all else goes by the unit's call. Each asks for a record, as in `serve`.
ghost use Rattle.std.specs.Prelude.{Bool, ◌≡◌, true, ◌&&◌, length};
ghost use Rattle.tape.specs.Record.{body_size};
ghost use Rattle.rules.specs.Drive.{writes};
ghost use Rattle.rules.specs.Phase.{at_rest, given_before, taken_before};
ghost use Rattle.rules.specs.declared.phase.Phase.{Phase};
ghost use Rattle.rules.specs.declared.drive.Drive.{Drive};
ghost use Rattle.rules.specs.declared.unit.Core.{Core};
ghost use Rattle.unit.specs.declared.many.Handed.{Handed};
ghost use Rattle.rules.specs.Unit.{Lent, drive_at};
ghost use Rattle.rules.specs.Refusal.{possible, short};
ghost use Rattle.layout.specs.Read.{is_record, core_of, staging_of};
ghost use Rattle.unit.specs.Handover.{GivesOver, TakesOver};
ghost use Rattle.unit.specs.Tapes.{lent_on, Same};
ghost use Rattle.board.specs.Serve.{tapes_of, lent_with, ServedMany};
ghost use Rattle.board.specs.Ends.{ends_block};

use crate::RESULT;
use crate::judge::calm;
use crate::result::turn_bytes;
use crate::serve::step_in;
use answers::{GIVEN, TAKEN};
use basis::put;
use layout::{RECORD, STAGING, core_of, drive_in, port_in, write_core, write_phase};
use rules::{Core, Drive, LAST_PLACE, Phase, Port};
use tape::BODY;
use unit::{Handed, Tapes, give_bytes, read_on, take_bytes};

// Whether so many bytes, two or more, are the rest of a block in which n went over. `rest` beside n: at Rest a block begins at place 0,
// in any other phase place 0 is none. Not by `ahead_of` of `unit`: that counts bytes before the last, this asks whether the last is the end.
#[tactic(auto, using(basis::specs::Tests::tests), unfolding(basis::specs::Choice::pick, crate::specs::Ends::ends_block))]
fn ends_block(rest: bool, n: usize, count: usize) -> bool
    ensures { result ≡ ends_block rest n count }
{
    (rest | (0 < n)) && n < LAST_PLACE && count == BODY - n
}

// Bytes that go one way: the unit's call on them, and what it comes to. The staging block is a slice with its length asked for, as the step
// is lent it.
pub(crate) trait Over {
    ghost goes: { Self → Core → Lent → Handed → Lent → Self → Type 0 };

    ghost stays: { Self → Self → Type 0 };

    fn go_over(&mut self, core: Core, staging: &mut [u8], tapes: &mut Tapes<'_>) -> Handed
        requires { length staging.old ≡ body_size }
        ensures goes { goes self.old core
            (lent_on staging.old tapes.old)
            result
            (lent_on staging.new tapes.new)
            self.new }
        ensures same { Same tapes.old tapes.new }
        ensures stays { stays self.old self.new };
}

// Bytes that may be the rest of a block: all but the last are moved where they stand, the last goes by the step.
// A phase beside the drive, and no `At` of `port`: of the port nothing else is looked at.
pub(crate) trait Way: Over {
    ghost ends: { Self → Phase → Drive → Bool };

    fn ends(&self, phase: Phase, drive: Drive) -> bool
        ensures { result ≡ ends self.now phase drive };

    fn complete(
        &mut self,
        buffer: &mut [u8],
        tapes: &mut Tapes<'_>,
        port: Port,
        res: &mut [u8; RESULT],
    ) -> usize
        requires { (is_record buffer.old ≡ true)
            × (((possible (core_of buffer.old) && short (lent_with (staging_of buffer.old) (tapes_of tapes.old))) ≡ true)
            × ((port ≡ (core_of buffer.old).port)
            × (ends self.old port.phase (drive_at (core_of buffer.old) port.selected) ≡ true))) }
        ensures served { ServedMany (λ c l h l'. Self.goes self.old c l h l' self.new) buffer.old
            (tapes_of tapes.old) result res.new buffer.new
            (tapes_of tapes.new) }
        ensures same { Same tapes.old tapes.new }
        ensures stays { Self.stays self.old self.new };
}

// Any bytes on a buffer that is a record, by the unit's call.
fn serve_all<W: Over>(
    buffer: &mut [u8],
    tapes: &mut Tapes<'_>,
    way: &mut W,
    res: &mut [u8; RESULT],
) -> usize
    requires { is_record buffer.old ≡ true }
    ensures served { ServedMany (λ c l h l'. W.goes way.old c l h l' way.new) buffer.old
        (tapes_of tapes.old) result res.new buffer.new
        (tapes_of tapes.new) }
    ensures same { Same tapes.old tapes.new }
    ensures stays { W.stays way.old way.new }
{
    let core = core_of(buffer);
    let handed = way.go_over(core, &mut buffer[STAGING..RECORD], tapes);
    write_core(buffer, handed.last.core);
    *res = turn_bytes(handed.last);
    handed.count
}

// Bytes on a buffer that is a record.
pub(crate) fn serve_many<W: Way>(
    buffer: &mut [u8],
    tapes: &mut Tapes<'_>,
    way: &mut W,
    res: &mut [u8; RESULT],
) -> usize
    requires { is_record buffer.old ≡ true }
    ensures served { ServedMany (λ c l h l'. W.goes way.old c l h l' way.new) buffer.old
        (tapes_of tapes.old) result res.new buffer.new
        (tapes_of tapes.new) }
    ensures same { Same tapes.old tapes.new }
    ensures stays { W.stays way.old way.new }
{
    let port = port_in(buffer);
    if way.ends(port.phase, drive_in(buffer, port.selected)) && calm(buffer, tapes) {
        return way.complete(buffer, tapes, port, res);
    }
    serve_all(buffer, tapes, way, res)
}

// Bytes given.
#[derive(Drop)]
pub(crate) struct Given<'a> {
    pub bytes: &'a [u8],
}

impl Over for Given<'_> {
    ghost goes = { λ s c l h l' s'. GivesOver c l s.bytes.now h l' };

    ghost stays = { λ s s'. s' ≡ s };

    fn go_over(&mut self, core: Core, staging: &mut [u8], tapes: &mut Tapes<'_>) -> Handed {
        give_bytes(core, staging, tapes, self.bytes)
    }
}

impl Way for Given<'_> {
    ghost ends = { λ s phase drive. ends_block (at_rest phase) (given_before phase) (length s.bytes.now) && writes drive };

    fn ends(&self, phase: Phase, drive: Drive) -> bool {
        ends_block(phase.at_rest(), phase.given_before(), self.bytes.len()) & drive.writes()
    }

    fn complete(
        &mut self,
        buffer: &mut [u8],
        tapes: &mut Tapes<'_>,
        port: Port,
        res: &mut [u8; RESULT],
    ) -> usize {
        let n = port.phase.given_before();
        let k = self.bytes.len() - 1;
        put(&mut buffer[STAGING..RECORD], n, &self.bytes[0..k]);
        write_phase(buffer, Phase::Taking(n + k));
        let event = [GIVEN, self.bytes[k]];
        let last = step_in(buffer, tapes, &event);
        *res = turn_bytes(last);
        k + usize::from(!last.answer.refuses())
    }
}

// Bytes taken, into a buffer that is lent.
#[derive(Drop)]
pub(crate) struct Taken<'a> {
    pub bytes: &'a mut [u8],
}

impl Over for Taken<'_> {
    ghost goes = { λ s c l h l' s'. TakesOver c l s.bytes.now h l' s'.bytes.now };

    ghost stays = { λ s s'. (s'.bytes.ghost_name ≡ s.bytes.ghost_name)
        × (length s'.bytes.now ≡ length s.bytes.now) };

    fn go_over(&mut self, core: Core, staging: &mut [u8], tapes: &mut Tapes<'_>) -> Handed {
        take_bytes(core, staging, tapes, self.bytes)
    }
}

impl Way for Taken<'_> {
    ghost ends = { λ s phase drive. ends_block (at_rest phase) (taken_before phase) (length s.bytes.now) };

    fn ends(&self, phase: Phase, _drive: Drive) -> bool {
        ends_block(phase.at_rest(), phase.taken_before(), self.bytes.len())
    }

    fn complete(
        &mut self,
        buffer: &mut [u8],
        tapes: &mut Tapes<'_>,
        port: Port,
        res: &mut [u8; RESULT],
    ) -> usize {
        let drive = drive_in(buffer, port.selected);
        let k = read_on(drive, tapes.of(port.selected), port.phase, self.bytes);
        if k == 0 {
            return serve_all(buffer, tapes, self, res);
        }
        write_phase(buffer, Phase::Giving(port.phase.taken_before() + k));
        let event = [TAKEN];
        let last = step_in(buffer, tapes, &event);
        *res = turn_bytes(last);
        put(self.bytes, k, last.byte.as_slice());
        k + usize::from(last.byte.is_some())
    }
}
