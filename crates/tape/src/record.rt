// Recording on a tape, and erasing it.
ghost use Rattle.std.specs.Prelude.{◌≡◌, ◌+◌, ◌≤◌, length, leb};
ghost use Rattle.tape.specs.Record.{body_size, mark_record, block_record};
ghost use Rattle.tape.specs.Recording.{put_in, ended_at, written, mark_written, block_written, erased};

use crate::{BLOCK, BLOCK_SIZE, BODY, END, MARK, MARK_SIZE};

// Whether n bytes from the head on lie inside a tape of this length, for any three numbers.
pub fn has_room(head: usize, n: usize, length: usize) -> bool
    ensures { result ≡ leb (head + n) length }
{
    n <= length && head <= length - n
}

// One 00 at an offset of the part, if that lies inside it.
fn end_at(part: &mut [u8], n: usize)
    ensures { part.new ≡ ended_at part.old n }
{
    if n < part.len() {
        part[n] = END;
    }
}

// A mark at the front of the part, and one 00 after it. Apart from `put_block`: a block's kind and body are no one slice.
fn put_mark(part: &mut [u8])
    requires { 1 ≤ length part.old }
    ensures { part.new ≡ put_in mark_record part.old }
{
    part[0] = MARK;
    end_at(part, MARK_SIZE);
}

// A block at the front of the part, and one 00 after it. A slice with its length asked for, since the staging block is lent as a slice.
fn put_block(part: &mut [u8], body: &[u8])
    requires { (513 ≤ length part.old) × (length body.now ≡ 512) }
    ensures { part.new ≡ put_in (block_record body.now) part.old }
{
    part[0] = BLOCK;
    // not by `copy_from_slice`, as `put` of `basis`
    for i in 0..BODY {
        part[1 + i] = body[i];
    }
    end_at(part, BLOCK_SIZE);
}

// A mark at the head, if it has room, and the offset just past it; else the tape as found.
pub fn record_mark(tape: &mut [u8], head: usize) -> Option<usize>
    ensures { written result tape.new ≡ mark_written tape.old head }
{
    if has_room(head, MARK_SIZE, tape.len()) {
        put_mark(&mut tape[head..]);
        return Some(head + MARK_SIZE);
    }
    None
}

// A block at the head, if it and the spare bytes behind it have room, and the offset just past it; else the tape as found.
// Apart from `record_mark`, as `put_block` from `put_mark`.
pub fn record_block(tape: &mut [u8], head: usize, body: &[u8], spare: usize) -> Option<usize>
    requires { length body.now ≡ body_size }
    ensures { written result tape.new ≡ block_written tape.old head body.now spare }
{
    let room = tape.len().checked_sub(spare)?;
    if has_room(head, BLOCK_SIZE, room) {
        put_block(&mut tape[head..], body);
        return Some(head + BLOCK_SIZE);
    }
    None
}

// Every byte 0.
pub fn erase(tape: &mut [u8])
    ensures { tape.new ≡ erased tape.old }
{
    tape.fill(0);
}
