// The one cutting of a raw trace into events: the kind fixes how long an event is.
ghost use Rattle.std.specs.Prelude.{◌≡◌, ◌≤◌, IfSome};
ghost use Rattle.trace.specs.Cut.{bodied_size, kind_size, cut_of, next_size};

// The kinds are 01 to 0A; those from 03 to 06 have no body, the others one of one byte.
const FIRST_KIND: u8 = 0x01;

const FIRST_BARE: u8 = 0x03;

const LAST_BARE: u8 = 0x06;

const LAST_KIND: u8 = 0x0A;

// An event of its kind alone, and one with a body.
const BARE_SIZE: usize = 1;

const BODIED_SIZE: usize = 2;

// Why no whole event begins a stretch of bytes: its first byte is of a kind unknown; the event is cut off by the end of the stretch; or none is left.
#[derive(Clone, Copy)]
pub enum Cut {
    UnknownKind,
    CutOff,
    NoneLeft,
}

// The bytes of an event of this kind, if the kind is known.
#[tactic(auto, using(basis::specs::Tests::tests), unfolding(basis::specs::Choice::pick, crate::specs::Cut::kind_size))]
pub fn kind_size(kind: u8) -> Option<usize>
    ensures { (result ≡ kind_size kind) × IfSome result (λ n. n ≤ bodied_size) }
{
    match kind {
        FIRST_BARE..=LAST_BARE => Some(BARE_SIZE),
        FIRST_KIND..=LAST_KIND => Some(BODIED_SIZE),
        _ => None,
    }
}

// The size of the whole event that bytes begin with, wherever they end.
pub fn next_event(bytes: &[u8]) -> Result<usize, Cut>
    ensures { result ≡ cut_of bytes.now }
{
    let kind = bytes.first().ok_or(Cut::NoneLeft)?;
    let size = kind_size(*kind).ok_or(Cut::UnknownKind)?;
    if size <= bytes.len() {
        return Ok(size);
    }
    Err(Cut::CutOff)
}

// The bytes to answer as one event, if any: an unknown kind is one byte, and where the input is ending what is cut off is one event.
pub(crate) fn next_size(bytes: &[u8], ending: bool) -> Option<usize>
    ensures { result ≡ next_size ending bytes.now }
{
    match next_event(bytes) {
        Ok(size) => Some(size),
        Err(Cut::UnknownKind) => Some(BARE_SIZE),
        Err(Cut::CutOff) => ending.then_some(bytes.len()),
        Err(Cut::NoneLeft) => None,
    }
}
