// The octets of a report as the host takes them, one after the other.
ghost use Rattle.std.specs.Prelude.{◌≡◌, ◌<◌, get_or};
ghost use Rattle.rules.specs.Bytes.{octet_place, after_octet};

use rules::{OCTETS, Phase, Port};

// The place of the next octet where k are outstanding. For any k, since a record may hold any number of them: above six it is the first.
fn octet_place(k: usize) -> usize
    ensures { (result ≡ octet_place k) × (result < 6) }
{
    OCTETS.saturating_sub(k.max(1))
}

// After the sixth, Rest.
pub fn after_octet(k: usize) -> Phase
    ensures { result ≡ after_octet k }
{
    if k <= 1 {
        Phase::Rest
    } else {
        Phase::Status(k - 1)
    }
}

// The next octet of the report, where k are outstanding.
pub fn next_octet(port: Port, k: usize) -> u8
    ensures { result ≡ get_or port.octets (octet_place k) 0 }
{
    port.octets[octet_place(k)]
}
