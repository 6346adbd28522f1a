// Early warning: the room that a block asks for, and the late blocks that a WRITE past it may still take.
// Head and length are two plain numbers, as in the book: no tape is in reach.
ghost use Rattle.std.specs.Prelude.{◌≡◌};
ghost use Rattle.rules.specs.Late.{spare_of, block_room, allowed_at, goes_on};

use rules::{KEPT, KEPT_LATE, LATE_BLOCKS};
use tape::{BLOCK_SIZE, has_room};

// What is kept behind a block where so many late ones are still allowed.
pub fn spare_of(late: u8) -> usize
    ensures { result ≡ spare_of late }
{
    if late == 0 { KEPT } else { KEPT_LATE }
}

// The room test of a block, the one that `record_block` makes.
fn block_room(late: u8, head: usize, length: usize) -> bool
    ensures { result ≡ block_room late head length }
{
    has_room(head, BLOCK_SIZE + spare_of(late), length)
}

// The late blocks that a WRITE allows: it is a late one where the test of other blocks fails.
pub fn allowed_at(head: usize, length: usize) -> u8
    ensures { result ≡ allowed_at head length }
{
    if block_room(0, head, length) {
        return 0;
    }
    LATE_BLOCKS
}

// Whether a WRITE goes on behind a block that it recorded with so many late ones still allowed.
pub fn goes_on(late: u8, head: usize, length: usize) -> bool
    ensures { result ≡ goes_on late head length }
{
    let last = late == 1;
    !last & block_room(late, head, length)
}
