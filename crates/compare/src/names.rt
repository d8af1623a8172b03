// Equality of strings and of names.
ghost use Rattle.std.specs.Prelude.{◌≡◌, ◌+◌, ◌<◌, ◌≤◌, length};
ghost use Rattle.utf8.specs.Letterlike.{same_bytes};
ghost use Rattle.pool.specs.Views.{lent};
ghost use Rattle.pool.specs.Codes.{Stands, name_code};
ghost use Rattle.pool.specs.Tables.{N, string_word, name_word};
ghost use Rattle.pool.specs.Tree.{name_shape, same_shape};
ghost use Rattle.pool.specs.Unfold.{name_at};
ghost use Rattle.compare.specs.Equal.{string_of, number_of, TwoNames, ends_same};

use pool::checked::CheckedPool;
use pool::fields::{NAME_HIGH, NAME_LOW, NAME_PREFIX, STRING_LENGTH, STRING_OFFSET};
use pool::kinds::NameKind;
use pool::names::Names;

// The strings of two rows.
pub fn same_string(bytes: &[u8], names: &Names<'_>, a: usize, b: usize) -> bool
    requires { let ns = names.now.words.now in (string_word ns a 0 + string_word ns a 1 ≤ length bytes.now)
        × (string_word ns b 0 + string_word ns b 1 ≤ length bytes.now) }
    ensures { let ns = names.now.words.now in result ≡ same_bytes (string_of bytes.now ns a) (string_of bytes.now ns b) }
{
    if a == b {
        return true;
    }
    let x = names.string(a, STRING_OFFSET);
    let y = names.string(b, STRING_OFFSET);
    let x_end = x + names.string(a, STRING_LENGTH);
    let y_end = y + names.string(b, STRING_LENGTH);
    bytes[x..x_end] == bytes[y..y_end]
}

fn number_of(names: &Names<'_>, r: usize) -> usize
    ensures { result ≡ number_of names.now.words.now r }
{
    names.name(r, NAME_LOW) + names.name(r, NAME_HIGH) * 4294967296
}

// The last parts of two names of one kind, which is not the anonymous one.
fn same_end(pool: &CheckedPool<'_>, kind: Option<NameKind>, a: usize, b: usize) -> bool
    requires two { let p = lent pool.now in TwoNames p (name_word p.names a 0) a b }
    requires kind_is { Stands name_code 2 (name_word (lent pool.now).names a 0) kind }
    ensures { let p = lent pool.now in result ≡ ends_same p.bytes p.names (name_word p.names a 0) a b }
{
    if kind == Some(NameKind::String) {
        let string_a = pool.names.name(a, NAME_LOW);
        let string_b = pool.names.name(b, NAME_LOW);
        return same_string(pool.bytes, &pool.names, string_a, string_b);
    }
    number_of(&pool.names, a) == number_of(&pool.names, b)
}

// Two names, down their prefixes.
pub fn same_name(pool: &CheckedPool<'_>, a: usize, b: usize) -> bool
    requires { (a < N (lent pool.now).names) × (b < N (lent pool.now).names) }
    ensures { result ≡ same_shape (name_shape (name_at (lent pool.now) a))
        (name_shape (name_at (lent pool.now) b)) }
{
    let mut x = a;
    let mut y = b;
    while x != y {
        let kind = pool.names.kind(x);
        if kind != pool.names.kind(y) {
            return false;
        }
        if kind == Some(NameKind::Anonymous) {
            return true;
        }
        if !same_end(pool, kind, x, y) {
            return false;
        }
        x = pool.names.name(x, NAME_PREFIX);
        y = pool.names.name(y, NAME_PREFIX);
    }
    true
}
