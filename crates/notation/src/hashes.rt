// Hashes of bytes. The hash of any part of an area is had in little time, from those of the bytes before some places of the area.
ghost use Rattle.std.specs.Prelude.{◌≡◌, ◌+◌, ◌-◌, ◌%◌, ◌^◌, ◌<◌, ◌≤◌, length, take, drop};
ghost use Rattle.notation.specs.Hashes.{bytes_hash, gap, mixed, Marked};

const BASE: usize = 16777619;

const MODULUS: usize = 2147483647;

// The hash of bytes that come after others, of which the hash is `start`.
fn hash_of(start: usize, bytes: &[u8]) -> usize
    requires { start < 2147483647 }
    ensures { (result ≡ bytes_hash start bytes.now) × (result < 2147483647) }
{
    let mut hash = start;
    for b in bytes {
        hash = (hash * BASE + usize::from(*b)) % MODULUS;
    }
    hash
}

// The hash of a kind, a class, and a class or a number: by a prime, so that numbers with a factor in common do not share their chains.
#[tactic(auto, unfolding(crate::specs::Hashes::mixed))]
pub(crate) fn mixed(kind: usize, prefix: usize, last: usize) -> usize
    requires { (kind < 4) × (prefix < 4294967296) }
    ensures { result ≡ mixed kind prefix last }
{
    (kind + prefix * 7919 + last % MODULUS * BASE) % MODULUS
}

fn gap(bytes: &[u8], count: usize) -> usize
    ensures { result ≡ gap bytes.now count }
{
    bytes.len() / count.max(1) + 1
}

// The marks of an area, in one pass over it.
pub(crate) fn mark(bytes: &[u8], marks: &mut [u32])
    ensures { Marked bytes.now marks.new }
{
    let apart = gap(bytes, marks.len());
    let mut at = 0;
    let mut hash = 0;
    for k in 0..marks.len() {
        marks[k] = hash as u32;
        let end = (at + apart).min(bytes.len());
        hash = hash_of(hash, &bytes[at..end]);
        at = end;
    }
}

// The hash of the first n bytes: of those from the last mark on alone, which are fewer than the marks are apart.
fn hash_before(bytes: &[u8], marks: &[u32], n: usize) -> usize
    requires marks { Marked bytes.now marks.now }
    requires some { 0 < length marks.now }
    requires inside { n ≤ length bytes.now }
    ensures { (result ≡ bytes_hash 0 (take n bytes.now)) × (result < 2147483647) }
{
    let apart = gap(bytes, marks.len());
    let k = n / apart;
    hash_of(marks[k] as usize, &bytes[k * apart..n])
}

// BASE to the power n, by squares.
fn power(n: usize) -> usize
    ensures { (result ≡ 16777619 ^ n % 2147483647) × (result < 2147483647) }
{
    if n == 0 {
        return 1;
    }
    let half = power(n / 2);
    let square = half * half % MODULUS;
    if n % 2 == 0 {
        return square;
    }
    square * BASE % MODULUS
}

// The hash of the bytes from one place to another: that of all before the end, from which that of all before the start is taken away.
pub(crate) fn part_hash(bytes: &[u8], marks: &[u32], from: usize, to: usize) -> usize
    requires marks { Marked bytes.now marks.now }
    requires some { 0 < length marks.now }
    requires order { from ≤ to }
    requires inside { to ≤ length bytes.now }
    ensures { (result ≡ bytes_hash 0 (take (to - from) (drop from bytes.now))) × (result < 2147483647) }
{
    let before = hash_before(bytes, marks, from) * power(to - from) % MODULUS;
    (hash_before(bytes, marks, to) + MODULUS - before) % MODULUS
}
