// Bytes put into a buffer.
ghost use Rattle.std.specs.Prelude.{◌≡◌, ◌+◌, ◌≤◌, length};
ghost use Rattle.basis.specs.Placed.{placed};

// These bytes at an offset of the buffer: the whole of it and no part, since every byte of it is promised. Byte by byte:
// `copy_from_slice` between two lent slices has the archive ask for `memmove`, which a board need not have (docs/BOARD.md).
pub fn put(out: &mut [u8], at: usize, bytes: &[u8])
    requires { at + length bytes.now ≤ length out.old }
    ensures { out.new ≡ placed out.old at bytes.now }
{
    for i in 0..bytes.len() {
        out[at + i] = bytes[i];
    }
}
