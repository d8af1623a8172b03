// Bytes copied from one area to another.
ghost use Rattle.std.specs.Prelude.{◌≡◌, length};

// Over an area of their length. Not by `copy_from_slice`, which becomes a call of `memmove`: the archive for C asks for `memcpy` and `memset`
// alone.
pub fn copy(to: &mut [u8], from: &[u8])
    requires { length to.old ≡ length from.now }
    ensures { to.new ≡ from.now }
{
    for i in 0..from.len() {
        to[i] = from[i];
    }
}
