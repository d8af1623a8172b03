// Parentheses round a subtree: "put only if the outer level exceeds the inner".
ghost use Rattle.document.specs.Leaves.{Leaves};
ghost use Rattle.pieces.specs.Parens.{open_if, close_if};

use crate::words::{join_word, put_word};
use document::sink::Sink;

// Before the subtree.
#[tactic(auto, unfolding(crate::specs::Parens::open_if, utf8::specs::Quoted::bytes, utf8::specs::Quoted::encode))]
pub fn open_paren(sink: &mut Sink<'_>, b: bool)
    ensures { Leaves sink.old sink.new (open_if b) }
{
    if b {
        put_word(sink, b"(");
    }
}

// After it: it is joined to the opening one, and the closing one to both.
#[tactic(auto, unfolding(crate::specs::Parens::close_if, utf8::specs::Quoted::bytes, utf8::specs::Quoted::encode))]
pub fn close_paren(sink: &mut Sink<'_>, b: bool)
    ensures { Leaves sink.old sink.new (close_if b) }
{
    if b {
        sink.put_join();
        join_word(sink, b")");
    }
}
