// The events that change the phase alone, by their bytes and the phase: they come most often, and are looked for first.
ghost use Rattle.std.specs.Prelude.{◌≡◌, ◌<◌, IfSome};
ghost use Rattle.rules.specs.Phase.{last_place};
ghost use Rattle.answers.specs.Place.{within, is_taken, given_place, taken_place, octets_left, body_of};

use crate::{GIVEN, TAKEN};
use rules::{LAST_PLACE, Phase};

// A place within a block: after its first byte, and before the last one.
fn within(n: usize) -> bool
    ensures { result ≡ within n }
{
    (0 < n) & (n < LAST_PLACE)
}

// A byte taken by the host, which has no body.
fn is_taken(event: &[u8]) -> bool
    ensures { result ≡ is_taken event.now }
{
    matches!(event, [TAKEN])
}

// The place within a block of a byte given, and the byte. A plain number with its bound promised: `next_of` of `unit` alone asks for it.
pub fn given_place(phase: Phase, event: &[u8]) -> Option<(usize, u8)>
    ensures value { result ≡ given_place phase event.now }
    ensures bound { IfSome result (λ p. p.0 < last_place) }
{
    let n = phase.given_before();
    match event {
        [GIVEN, byte] => within(n).then_some((n, *byte)),
        _ => None,
    }
}

// The place within a block of a byte taken.
pub fn taken_place(phase: Phase, event: &[u8]) -> Option<usize>
    ensures value { result ≡ taken_place phase event.now }
    ensures bound { IfSome result (λ n. n < last_place) }
{
    let n = phase.taken_before();
    (is_taken(event) & within(n)).then_some(n)
}

// How many octets are outstanding where a byte is taken.
pub fn octets_left(phase: Phase, event: &[u8]) -> Option<usize>
    ensures { result ≡ octets_left phase event.now }
{
    let k = phase.outstanding();
    (is_taken(event) & (0 < k)).then_some(k)
}

// The byte that comes with an event of two bytes. Public, as docs/CONTRACTS.md has it.
pub fn body(event: &[u8]) -> u8
    ensures { result ≡ body_of event.now }
{
    if event.len() == 2 { event[1] } else { 0 }
}
