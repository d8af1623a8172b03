// The rows of names: what the last component is, and the row of the name before it.
ghost use Rattle.std.specs.Prelude.{◌≡◌, false, [], ◌∷◌, ◌+◌, ◌<◌, ◌≤◌, length, take, drop};
ghost use Rattle.utf8.specs.Quoted.{bytes as quotedBytes};
ghost use Rattle.utf8.specs.Letterlike.{same_bytes};
ghost use Rattle.document.specs.Leaves.{Leaves};
ghost use Rattle.document.specs.Sink.{put_bytes};
ghost use Rattle.pool.specs.Tables.{N, string_word};
ghost use Rattle.pool.specs.Unfold.{name_at};
ghost use Rattle.pool.specs.Views.{lent};
ghost use Rattle.names.specs.Names.{is_anonymous, escaped};
ghost use Rattle.names.specs.Components.{prefix_of, component, is_number, is_hyg, put_dot};

use document::sink::Sink;
use pieces::digits::put_digits;
use pool::checked::CheckedPool;
use pool::fields::{NAME_HIGH, NAME_LOW, NAME_PREFIX, STRING_LENGTH, STRING_OFFSET};
use pool::kinds::NameKind;
use pool::names::Names;
use utf8::letterlike::ok_str;

// The bytes of string row r.
pub fn read_string<'a>(bytes: &'a [u8], names: &Names<'_>, r: usize) -> &'a [u8]
    requires { string_word names.now.words.now r 0 + string_word names.now.words.now r 1 ≤ length bytes.now }
    ensures { result.now ≡ take (string_word names.now.words.now r 1) (drop (string_word names.now.words.now r 0) bytes.now) }
{
    let from = names.string(r, STRING_OFFSET);
    let to = from + names.string(r, STRING_LENGTH);
    &bytes[from..to]
}

pub fn is_anonymous(pool: &CheckedPool<'_>, r: usize) -> bool
    requires { (r < N (lent pool.now).names) }
    ensures { result ≡ is_anonymous (name_at (lent pool.now) r) }
{
    pool.names.kind(r) == Some(NameKind::Anonymous)
}

pub fn is_number(pool: &CheckedPool<'_>, r: usize) -> bool
    requires { (r < N (lent pool.now).names) }
    ensures { result ≡ is_number (name_at (lent pool.now) r) }
{
    pool.names.kind(r) == Some(NameKind::Number)
}

// The row of the name before the last component.
pub fn prefix_of(pool: &CheckedPool<'_>, r: usize) -> usize
    requires { (r < N (lent pool.now).names)
        × (is_anonymous (name_at (lent pool.now) r) ≡ false) }
    ensures { (name_at (lent pool.now) result ≡ prefix_of (name_at (lent pool.now) r)) × (result < r) }
{
    pool.names.name(r, NAME_PREFIX)
}

// "_hyg"
fn is_hyg_text(s: &[u8]) -> bool
    ensures { result ≡ same_bytes s.now (quotedBytes "_hyg") }
{
    s == b"_hyg".as_slice()
}

// Whether the last component is "_hyg".
pub fn is_hyg(pool: &CheckedPool<'_>, r: usize) -> bool
    requires { (r < N (lent pool.now).names) }
    ensures { result ≡ is_hyg (name_at (lent pool.now) r) }
{
    if pool.names.kind(r) == Some(NameKind::String) {
        let string = pool.names.name(r, NAME_LOW);
        return is_hyg_text(read_string(pool.bytes, &pool.names, string));
    }
    false
}

// « or », which differ in their second byte.
fn put_mark(sink: &mut Sink<'_>, second: u8)
    ensures { Leaves sink.old sink.new (put_bytes (194 ∷ second ∷ [])) }
{
    sink.put_byte(194);
    sink.put_byte(second)
}

// A string component, between « and » if it is not plain.
fn put_escaped(sink: &mut Sink<'_>, string: &[u8])
    ensures { Leaves sink.old sink.new (put_bytes (escaped string.now)) }
{
    if ok_str(string) {
        return sink.put_bytes(string);
    }
    put_mark(sink, 171);
    sink.put_bytes(string);
    put_mark(sink, 187)
}

// The bytes of the last component.
pub fn put_component(pool: &CheckedPool<'_>, sink: &mut Sink<'_>, r: usize)
    requires { (r < N (lent pool.now).names)
        × (is_anonymous (name_at (lent pool.now) r) ≡ false) }
    ensures { Leaves sink.old sink.new (put_bytes (component (name_at (lent pool.now) r))) }
{
    let low = pool.names.name(r, NAME_LOW);
    if pool.names.kind(r) == Some(NameKind::String) {
        return put_escaped(sink, read_string(pool.bytes, &pool.names, low));
    }
    let high = pool.names.name(r, NAME_HIGH);
    put_digits(sink, (low + high * 4294967296) as u64)
}

// A dot, unless the text is as long as it was, at `from`: none after an empty prefix. (Where the sink has stopped, a dot adds nothing.)
pub fn put_dot(sink: &mut Sink<'_>, from: usize)
    ensures { Leaves sink.old sink.new (put_dot from) }
{
    if sink.written.text == from {
        return;
    }
    sink.put_byte(46)
}
