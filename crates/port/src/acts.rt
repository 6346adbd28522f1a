// What the selected drive does with an act of the host.
ghost use Rattle.std.specs.Prelude.{◌≡◌, length};
ghost use Rattle.tape.specs.Record.{body_size};
ghost use Rattle.rules.specs.Effect.{seat, acted};
ghost use Rattle.rules.specs.Step.{act};

use crate::at::At;
use crate::effect::command;
use crate::given::give;
use crate::online::{drop_online, raise_online};
use crate::taken::take;
use rules::{Act, Moved};

// The port, the staging block with a byte given in it, the drive's own record and its own tape: nothing else is in reach.
pub fn act(at: At, staging: &[u8], tape: &mut [u8], a: Act) -> Moved
    requires { length staging.now ≡ body_size }
    ensures { acted result tape.new ≡ act staging.now (seat at.port at.drive tape.old) a }
{
    match a {
        Act::Command(code) => command(at, tape, code),
        Act::Give(_) => give(at, staging, tape),
        Act::Take => take(at, tape),
        Act::Online => raise_online(at),
        Act::Offline => drop_online(at, tape),
    }
}
