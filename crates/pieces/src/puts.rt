// The constant pieces between the parts of a chain.
#![tactic(auto, unfolding(crate::specs::Puts::put_colon, crate::specs::Puts::put_arrow, crate::specs::Puts::start_run, crate::specs::Puts::mark_run, crate::specs::Puts::end_run, crate::specs::Puts::end_group, crate::specs::Puts::open_group, crate::specs::Puts::close_group, crate::specs::Puts::end_proj, crate::specs::Puts::start_let, crate::specs::Puts::put_assign, crate::specs::Puts::end_let, crate::specs::Puts::join_piece, crate::specs::Puts::join_line, utf8::specs::Quoted::bytes, utf8::specs::Quoted::encode))]

ghost use Rattle.std.specs.Prelude.{◌<◌, ◌≤◌};
ghost use Rattle.document.specs.Sink.{put_nest, put_group};
ghost use Rattle.document.specs.Leaves.{Leaves};
ghost use Rattle.pieces.specs.Docs.{closing};
ghost use Rattle.pieces.specs.Parens.{close_if};
ghost use Rattle.pieces.specs.Tiles.{end_tile};
ghost use Rattle.pieces.specs.Puts.{put_colon, put_arrow, start_run, mark_run, end_run, end_group, open_group, close_group};
ghost use Rattle.pieces.specs.Puts.{end_proj, start_let, put_assign, end_let};

use crate::digits::put_number;
use crate::parens::close_paren;
use crate::words::{closing, end_tile, join_line, join_word, opening, put_word};
use document::sink::Sink;

// " "+":"+|
pub fn put_colon(sink: &mut Sink<'_>)
    ensures { Leaves sink.old sink.new put_colon }
{
    join_word(sink, b" ");
    join_word(sink, b":");
    join_line(sink);
}

// After the type of an arrow binder.
pub fn put_arrow(sink: &mut Sink<'_>, indent: u32)
    ensures { Leaves sink.old sink.new (put_arrow indent) }
{
    sink.put_group();
    sink.put_nest(indent);
    join_word(sink, b" ");
    // U+2192
    join_word(sink, b"\xe2\x86\x92");
    join_line(sink);
    sink.put_group();
}

// Before the binders of a run of other pis, or of lambdas.
pub fn start_run(sink: &mut Sink<'_>, pis: bool)
    ensures { Leaves sink.old sink.new (start_run pis) }
{
    if pis {
        put_word(sink, b"forall");
    } else {
        put_word(sink, b"fun");
    }
    join_word(sink, b" ");
}

fn mark_run(sink: &mut Sink<'_>, pis: bool)
    ensures { Leaves sink.old sink.new (mark_run pis) }
{
    if pis {
        join_word(sink, b",");
    } else {
        join_word(sink, b" ");
        join_word(sink, b"=>");
    }
}

// After them, up to the break.
pub fn end_run(sink: &mut Sink<'_>, indent: u32, pis: bool)
    ensures { Leaves sink.old sink.new (end_run indent pis) }
{
    sink.put_join();
    mark_run(sink, pis);
    sink.put_group();
    sink.put_nest(indent);
    join_line(sink);
}

// After the type of a group of binders.
#[tactic(auto, using(crate::proofs::Emitting::text_emits), unfolding(crate::specs::Puts::end_group))]
fn end_group(sink: &mut Sink<'_>, indent: u32, style: usize)
    requires { style < 4 }
    ensures { Leaves sink.old sink.new (end_group indent (closing style)) }
{
    sink.put_group();
    sink.put_join();
    sink.put_join();
    join_word(sink, closing(style));
    sink.put_group();
    sink.put_nest(indent);
}

// Before the names of a group; after a break where it is a further one of a tile.
#[tactic(auto, using(crate::proofs::Emitting::text_emits), unfolding(crate::specs::Puts::open_group))]
pub fn open_group(sink: &mut Sink<'_>, style: usize, first: bool)
    requires { style < 4 }
    ensures { Leaves sink.old sink.new (open_group first style) }
{
    if !first {
        sink.put_break(1);
    }
    put_word(sink, opening(style));
}

// After the type of a group; joined to the tile so far where it is a further one.
pub fn close_group(sink: &mut Sink<'_>, indent: u32, style: usize, first: bool)
    requires { style < 4 }
    ensures { Leaves sink.old sink.new (close_group first indent style) }
{
    end_group(sink, indent, style);
    if !first {
        end_tile(sink);
    }
}

// After an argument of an application: it is grouped, and joined to the tile so far.
pub fn end_argument(sink: &mut Sink<'_>)
    ensures { Leaves sink.old sink.new (λ st. end_tile (put_group st)) }
{
    sink.put_group();
    end_tile(sink);
}

// After the last one.
pub fn end_app(sink: &mut Sink<'_>, indent: u32, wrapped: bool)
    ensures { Leaves sink.old sink.new (λ st. close_if wrapped (put_nest indent (put_group st))) }
{
    sink.put_group();
    sink.put_nest(indent);
    close_paren(sink, wrapped);
}

// After the structure of a projection, whose index is a pool's word; fields are counted from 1.
pub fn end_proj(sink: &mut Sink<'_>, i: usize)
    requires { i < 4294967296 }
    ensures { Leaves sink.old sink.new (end_proj i) }
{
    sink.put_group();
    join_word(sink, b".");
    put_number(sink, (i + 1) as u64);
    sink.put_join();
}

// Before the name of a let.
pub fn start_let(sink: &mut Sink<'_>)
    ensures { Leaves sink.old sink.new start_let }
{
    put_word(sink, b"let");
    join_word(sink, b" ");
}

// Between the type and the value of a let.
pub fn put_assign(sink: &mut Sink<'_>)
    ensures { Leaves sink.old sink.new put_assign }
{
    sink.put_group();
    sink.put_join();
    sink.put_group();
    sink.put_join();
    join_word(sink, b" ");
    join_word(sink, b":=");
    join_line(sink);
}

// After the value of a let, up to the break before its body.
pub fn end_let(sink: &mut Sink<'_>, indent: u32)
    ensures { Leaves sink.old sink.new (end_let indent) }
{
    sink.put_group();
    sink.put_join();
    join_word(sink, b";");
    sink.put_group();
    sink.put_nest(indent);
    join_line(sink);
}
