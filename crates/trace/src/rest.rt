// Bytes that a run left over, kept for the next piece of input.
ghost use Rattle.trace.specs.Rest.{Keeps};

// The bytes from one offset up to another, at the front of the buffer, and how many they are. Of a stretch outside it none are kept,
// which is 0 of them and no error.
pub fn keep_rest(buffer: &mut [u8], from: usize, to: usize) -> usize
    ensures { Keeps buffer.old from to result buffer.new }
{
    if (from <= to) & (to <= buffer.len()) {
        buffer.copy_within(from..to, 0);
        return to - from;
    }
    0
}
