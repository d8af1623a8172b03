// Constants and literals to documents.
ghost use Rattle.std.specs.Prelude.{◌≡◌, ◌<◌};
ghost use Rattle.document.specs.Walk.{textᵐ};
ghost use Rattle.document.specs.Leaves.{Leaves};
ghost use Rattle.document.specs.Sink.{emit};
ghost use Rattle.pool.specs.Tables.{S, N, string_at};
ghost use Rattle.pool.specs.Unfold.{name_at};
ghost use Rattle.pool.specs.Views.{lent};
ghost use Rattle.pieces.specs.Docs.{◌⊹◌, quoted};
ghost use Rattle.names.specs.Names.{name_doc};

use crate::components::read_string;
use crate::names::pp_name_safe;
use document::sink::Sink;
use pieces::words::{join_word, put_word};
use pool::checked::CheckedPool;

// The constant of name row r.
pub fn pp_const(pool: &CheckedPool<'_>, sink: &mut Sink<'_>, r: usize)
    requires { (r < N (lent pool.now).names) }
    ensures { Leaves sink.old sink.new (emit (quoted "@" ⊹ name_doc (name_at (lent pool.now) r))) }
{
    put_word(sink, b"@");
    pp_name_safe(pool, sink, r);
    sink.put_join()
}

// The bytes of string row r as they are: the digits of a natural, the string of an operator.
pub fn pp_raw(pool: &CheckedPool<'_>, sink: &mut Sink<'_>, r: usize)
    requires { (r < S (lent pool.now).names) }
    ensures { Leaves sink.old sink.new (emit (textᵐ (string_at (lent pool.now) r))) }
{
    sink.put_text(read_string(pool.bytes, &pool.names, r))
}

// The string literal of string row r: its raw bytes in quotes.
pub fn pp_string(pool: &CheckedPool<'_>, sink: &mut Sink<'_>, r: usize)
    requires { (r < S (lent pool.now).names) }
    ensures { Leaves sink.old sink.new (emit (quoted "\"" ⊹ textᵐ (string_at (lent pool.now) r) ⊹ quoted "\"")) }
{
    put_word(sink, b"\"");
    pp_raw(pool, sink, r);
    sink.put_join();
    join_word(sink, b"\"")
}
