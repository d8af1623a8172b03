// Names: their document, one text, and whether they are hygienic.
ghost use Rattle.std.specs.Prelude.{◌≡◌, ◌<◌};
ghost use Rattle.document.specs.Leaves.{Leaves};
ghost use Rattle.document.specs.Sink.{put_bytes, emit};
ghost use Rattle.pool.specs.Tables.{N};
ghost use Rattle.pool.specs.Unfold.{name_at};
ghost use Rattle.pool.specs.Views.{lent};
ghost use Rattle.names.specs.Names.{joined, is_hygienic, name_doc};

use crate::components::{is_anonymous, is_hyg, is_number, prefix_of, put_component, put_dot};
use document::sink::Sink;
use pieces::words::put_word;
use pool::checked::CheckedPool;

// A name's components, joined, without their row (the Rust's name_to_string). After a refusal no component is read: strings can be long.
pub fn put_name_bytes(pool: &CheckedPool<'_>, sink: &mut Sink<'_>, r: usize)
    requires { (r < N (lent pool.now).names) }
    ensures { Leaves sink.old sink.new (put_bytes (joined (name_at (lent pool.now) r))) }
{
    if is_anonymous(pool, r) {
        return;
    }
    let prefix = prefix_of(pool, r);
    let from = sink.written.text;
    put_name_bytes(pool, sink, prefix);
    if sink.is_stopped() {
        return;
    }
    put_dot(sink, from);
    put_component(pool, sink, r)
}

// Past trailing numbers, the last component is "_hyg".
pub fn has_macro_scopes(pool: &CheckedPool<'_>, r: usize) -> bool
    requires { (r < N (lent pool.now).names) }
    ensures { result ≡ is_hygienic (name_at (lent pool.now) r) }
{
    let mut at = r;
    while is_number(pool, at) {
        at = prefix_of(pool, at);
    }
    is_hyg(pool, at)
}

pub fn pp_name_safe(pool: &CheckedPool<'_>, sink: &mut Sink<'_>, r: usize)
    requires { (r < N (lent pool.now).names) }
    ensures { Leaves sink.old sink.new (emit (name_doc (name_at (lent pool.now) r))) }
{
    if is_anonymous(pool, r) {
        return put_word(sink, b"\xc2\xab\xc2\xbb");
    }
    let from = sink.written.text;
    put_name_bytes(pool, sink, r);
    sink.end_text(from)
}
