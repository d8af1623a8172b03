// Numbers as words.
ghost use Rattle.std.specs.Prelude.{◌≡◌, ◌%◌, ◌^◌};

// A number as a word of 32 bits.
pub fn low(x: usize) -> u32
    ensures { result ≡ x % 2 ^ 32 }
{
    (x % 4294967296) as u32
}
