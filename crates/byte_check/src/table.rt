// Tables of a byte for each row.
ghost use Rattle.std.specs.Prelude.{◌≡◌, ◌<◌, get_or};

// The byte of row i, 0 past the end.
pub fn byte_at(table: &[u8], i: usize) -> usize
    ensures { (result ≡ get_or table.now i 0) × (result < 256) }
{
    table.get(i).map_or(0, |b| usize::from(*b))
}
