// The four lent tapes, which travel together.
ghost use Rattle.std.specs.Prelude.{◌≡◌, []};
ghost use Rattle.rules.specs.Refusal.{short};
ghost use Rattle.unit.specs.Tapes.{tape_of, lent_on};

use answers::short;

// Each is lent from where it stands. Four fields and no array: a law of an array would have to ask how long it is.
// Whoever is lent the four says that they stay the same, `Same`: a field could be exchanged, and no type names what C lent.
#[derive(Drop)]
pub struct Tapes<'a> {
    pub tape0: &'a mut [u8],
    pub tape1: &'a mut [u8],
    pub tape2: &'a mut [u8],
    pub tape3: &'a mut [u8],
}

impl Tapes<'_> {
    // The tape of a drive by its number; a number above 3 means the last. By `match`, since the four are no array, and apart from
    // `Core::drive`: that hands out a copy, this a slice that stays lent.
    pub fn of(&self, i: u8) -> &[u8]
        ensures { result.now ≡ tape_of self.now i }
    {
        match i {
            0 => self.tape0,
            1 => self.tape1,
            2 => self.tape2,
            _ => self.tape3,
        }
    }

    // None of them is longer than the longest.
    pub fn short(&self) -> bool
        ensures { result ≡ short (lent_on [] self.now) }
    {
        short(
            self.tape0.len(),
            self.tape1.len(),
            self.tape2.len(),
            self.tape3.len(),
        )
    }
}
