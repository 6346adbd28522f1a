// The event's form: one byte of kind and its body.
ghost use Rattle.std.specs.Prelude.{◌≡◌};
ghost use Rattle.rules.specs.Event.{named, cartridge_in, bare_event, bodied_event, event_of};

use crate::{GIVEN, LAST_DRIVE, TAKEN};
use rules::{Act, Event, What};

// What a protected cartridge adds to the number of its drive.
const PLUG: u8 = 0x80;

// A body that names a drive: 0 to 3.
fn named(body: u8, what: What) -> Option<Event>
    ensures { result ≡ named body what }
{
    (body <= LAST_DRIVE).then_some(Event::Named(body, what))
}

// Cartridge in: the drive, plus 80 hex if protected.
fn cartridge_in(body: u8) -> Option<Event>
    ensures { result ≡ cartridge_in body }
{
    if body < PLUG {
        named(body, What::In(false))
    } else {
        named(body - PLUG, What::In(true))
    }
}

// The kinds without a body.
fn bare_event(kind: u8) -> Option<Event>
    ensures { result ≡ bare_event kind }
{
    match kind {
        TAKEN => Some(Event::Own(Act::Take)),
        0x04 => Some(Event::Own(Act::Online)),
        0x05 => Some(Event::Own(Act::Offline)),
        0x06 => Some(Event::Reset),
        _ => None,
    }
}

// The kinds with a body of one byte.
fn bodied_event(kind: u8, body: u8) -> Option<Event>
    ensures { result ≡ bodied_event kind body }
{
    match kind {
        0x01 => Some(Event::Own(Act::Command(body))),
        GIVEN => Some(Event::Own(Act::Give(body))),
        0x07 => cartridge_in(body),
        0x08 => named(body, What::Out),
        0x09 => named(body, What::Error),
        0x0A => named(body, What::Underrun),
        _ => None,
    }
}

// A string of bytes of any length: a kind unknown, a length wrong or a drive body of another form is no event.
// No `TryFrom`: what is no event is `None` in the book, and no error to name.
pub fn event_of(event: &[u8]) -> Option<Event>
    ensures { result ≡ event_of event.now }
{
    match event {
        [kind] => bare_event(*kind),
        [kind, body] => bodied_event(*kind, *body),
        _ => None,
    }
}
