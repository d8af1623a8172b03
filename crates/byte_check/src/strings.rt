// The strings: pairs into the byte area. Offsets never fall, and bytes that are UTF-8 may be cut before any byte that goes on with no code
// point: so what an earlier string has in common with a later one is not read again.
ghost use Rattle.std.specs.Prelude.{◌≡◌, ℕ, ◌+◌, ◌<◌, ◌≤◌, length, max, fold};
ghost use Rattle.utf8.specs.Utf8.{utf8, is_follower};
ghost use Rattle.pool.specs.Tables.{S, string_word};
ghost use Rattle.pool.specs.Rules.{string_ok};
ghost use Rattle.pool.specs.Views.{read};
ghost use Rattle.byte_check.specs.Scan.{found};
ghost use Rattle.byte_check.specs.Runs.{span, Known, Ascii, before};

use pool::fields::{STRING_LENGTH, STRING_OFFSET};
use pool::names::Names;
use pool::pool::Pool;

// Where the bytes of string row r end.
pub(crate) fn string_end(names: &Names<'_>, r: usize) -> usize
    ensures { (result ≡ string_word names.now.words.now r 0 + string_word names.now.words.now r 1) × (result < 8589934592) }
{
    names.string(r, STRING_OFFSET) + names.string(r, STRING_LENGTH)
}

// A byte that goes on with a code point.
fn is_follower(b: u8) -> bool
    ensures { result ≡ is_follower b }
{
    0x80 <= b && b < 0xc0
}

// How many bytes are looked at before the next decision.
const BLOCK: usize = 64;

// How many bytes are looked at for each string at most, so that few strings in a large byte area are quickly checked.
const SHARE: usize = 256;

// At least every byte. It stops nowhere, so that the machine takes many bytes at a time.
fn largest(bytes: &[u8]) -> u8
    ensures { result ≡ fold (λ most b. max most b) 0 bytes.now }
{
    bytes.iter().fold(0, |most, b| most.max(*b))
}

// How far the bytes are ASCII for certain: up to their first block that is not.
fn ascii_blocks(bytes: &[u8]) -> usize
    ensures { (result ≤ length bytes.now) × (Ascii bytes.now result) }
{
    let mut at = 0;
    for block in bytes.chunks(BLOCK) {
        if 0x80 <= largest(block) {
            return at;
        }
        at += block.len();
    }
    at
}

// Whether the bytes from `from` on and before `to` are UTF-8; those before `known` were read.
fn is_valid(bytes: &[u8], from: usize, to: usize, known: usize) -> bool
    requires { (Known bytes.now from known) × (to ≤ length bytes.now) }
    ensures { result ≡ utf8 (span bytes.now from to) }
{
    if to <= from {
        return true;
    }
    if is_follower(bytes[from]) {
        return false;
    }
    if to < known {
        return !is_follower(bytes[to]);
    }
    let unread = from.max(known);
    utf8::is_utf8(&bytes[unread..to])
}

// The offset before row r is `last`, and the bytes before `ascii` are ASCII: what ends there needs no reading.
fn string_ok(pool: &Pool<'_>, r: usize, last: usize, ascii: usize, known: usize) -> bool
    requires { (Known pool.now.bytes.now last known)
        × (last ≡ before (λ i. string_word (read pool.now).names i 0) r)
        × (Ascii pool.now.bytes.now ascii) }
    ensures { result ≡ string_ok (read pool.now) r }
{
    let offset = pool.names.string(r, STRING_OFFSET);
    let end = string_end(&pool.names, r);
    if pool.bytes.len() < end {
        return false;
    }
    if offset < last {
        return false;
    }
    if end <= ascii {
        return true;
    }
    is_valid(pool.bytes, offset, end, known)
}

// The first string row that breaks a rule.
pub fn first_bad_string(pool: &Pool<'_>) -> Option<usize>
    ensures { result ≡ found (string_ok (read pool.now)) (S (read pool.now).names) }
{
    let count = pool.names.tables.strings;
    let share = pool.bytes.len().min(SHARE * count);
    let ascii = ascii_blocks(&pool.bytes[..share]);
    let mut last = 0;
    let mut known = 0;
    for r in 0..count {
        if !string_ok(pool, r, last, ascii, known) {
            return Some(r);
        }
        last = pool.names.string(r, STRING_OFFSET);
        known = known.max(string_end(&pool.names, r));
    }
    None
}
