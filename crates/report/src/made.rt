// The six octets of a report.
ghost use Rattle.std.specs.Prelude.{◌≡◌, ◌≤◌};
ghost use Rattle.rules.specs.Octets.{bit, high, low, octets_of};

use rules::{Counter, Drive, Errors, OCTETS, Underruns};

// The places of the bits in an octet, by their weights.
const BIT_0: u8 = 1;

const BIT_1: u8 = 2;

const BIT_2: u8 = 4;

const BIT_3: u8 = 8;

const BIT_4: u8 = 16;

const BIT_5: u8 = 32;

const BIT_6: u8 = 64;

const BIT_7: u8 = 128;

// The weight of a bit that stands.
fn bit(weight: u8, stands: bool) -> u8
    ensures { (result ≡ bit weight stands) × (result ≤ weight) }
{
    if stands { weight } else { 0 }
}

// Octets 2 to 5 see one counter alone, which each call names: 2 and 3 the errors, 4 and 5 the underruns. Two functions: the book has two words.
fn high<C: Counter>(counter: C) -> u8
    ensures { result ≡ high (C.number counter) }
{
    let [high, _] = counter.number().to_be_bytes();
    high
}

fn low<C: Counter>(counter: C) -> u8
    ensures { result ≡ low (C.number counter) }
{
    let [_, low] = counter.number().to_be_bytes();
    low
}

// Octets 1 and 0 as section 5 of QIC-02 Rev D lists them, a line for each bit from bit 0 to bit 7: its name, its place, where it comes from.
// A name of document 01 that differs stands behind the standard's: RES is ERM and BPE, UDA is UDE. A bit that is never set comes from `false`.
pub fn octets(drive: Drive) -> [u8; OCTETS]
    ensures { result ≡ octets_of drive }
{
    let latched = drive.latched;
    let rewound = drive.head == 0;
    // octet 1
    let por = bit(BIT_0, latched.por);
    let res_erm = bit(BIT_1, false);
    let res_bpe = bit(BIT_2, false);
    let bom = bit(BIT_3, drive.loaded & rewound);
    let mbd = bit(BIT_4, false);
    let ndt = bit(BIT_5, latched.ndt);
    let ill = bit(BIT_6, latched.ill);
    let st1 = bit(BIT_7, por + res_erm + res_bpe + bom + mbd + ndt + ill != 0);
    let octet1 = por + res_erm + res_bpe + bom + mbd + ndt + ill + st1;
    // octet 0
    let fil = bit(BIT_0, latched.fil);
    let bnl = bit(BIT_1, latched.bnl);
    let uda_ude = bit(BIT_2, latched.ude);
    let eom = bit(BIT_3, latched.eom);
    let wrp = bit(BIT_4, drive.protected);
    let usl = bit(BIT_5, false);
    let cni = bit(BIT_6, latched.cni | !drive.loaded);
    let st0 = bit(BIT_7, fil + bnl + uda_ude + eom + wrp + usl + cni != 0);
    let octet0 = fil + bnl + uda_ude + eom + wrp + usl + cni + st0;
    [
        octet0,
        octet1,
        high::<Errors>(drive.errors),
        low::<Errors>(drive.errors),
        high::<Underruns>(drive.underruns),
        low::<Underruns>(drive.underruns),
    ]
}
