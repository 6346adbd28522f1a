// A number in decimal, a byte in hex. Not by `write!`: a text is asked for its length before a byte of it is written.
ghost use Rattle.std.specs.Prelude.{◌≡◌, ◌+◌, ◌≤◌, ◌<◌, length};
ghost use Rattle.basis.specs.Placed.{placed};
ghost use Rattle.basis.specs.Text.{digit, decimal, high_digit, low_digit};

const TEN: u64 = 10;

const SIXTEEN: u8 = 16;

const DIGIT_0: u8 = b'0';

const DIGIT_A: u8 = b'A';

// A digit of a number in decimal or upper-case hex.
pub fn digit(d: u8) -> u8
    requires { d < 16 }
    ensures { result ≡ digit d }
{
    if d < 10 {
        DIGIT_0 + d
    } else {
        DIGIT_A - 10 + d
    }
}

// The two digits of a byte in hex.
pub fn high_digit(byte: u8) -> u8
    ensures { result ≡ high_digit byte }
{
    digit(byte / SIXTEEN)
}

pub fn low_digit(byte: u8) -> u8
    ensures { result ≡ low_digit byte }
{
    digit(byte % SIXTEEN)
}

// How many digits a number has in decimal.
#[tactic(auto, using(crate::proofs::Digits::digits_of_power, crate::proofs::Digits::decimal_last))]
pub fn places(n: u64) -> usize
    ensures { result ≡ length (decimal n) }
{
    n.checked_ilog10().map_or(1, |d| d as usize + 1)
}

// A number of k digits, from its last digit to its first. An offset and no part: every byte of the whole buffer is promised.
pub fn put_number(out: &mut [u8], at: usize, n: u64, k: usize)
    requires { (k ≡ length (decimal n)) × (at + k ≤ length out.old) }
    ensures { out.new ≡ placed out.old at (decimal n) }
{
    let mut rest = n;
    for i in (1..k).rev() {
        out[at + i] = digit((rest % TEN) as u8);
        rest /= TEN;
    }
    out[at] = digit(rest as u8);
}
