// One counter of a drive raised where its record stands: the record is lent, changed, and stays where it is.
#![tactic(auto)]

ghost use Rattle.std.specs.Prelude.{◌≡◌};

mod counted;

pub use counted::count_in;
use rules::{Counter, Drive};

// The record is taken whole, moved by value, and put back whole.
pub fn raise<C: Counter>(drive: &mut Drive)
    ensures { drive.new ≡ C.counted drive.old }
{
    *drive = C::count(*drive);
}
