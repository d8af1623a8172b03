// Groups of binders: where one ends, and its names.
ghost use Rattle.std.specs.Prelude.{◌≡◌, true, ◌<◌, ◌≤◌};
ghost use Rattle.document.specs.Leaves.{Leaves};
ghost use Rattle.document.specs.Sink.{put_break, emit};
ghost use Rattle.pool.specs.Tables.{E, expr_word};
ghost use Rattle.binders.specs.Options.{pool_of};
ghost use Rattle.pool.specs.Unfold.{expr_at};
ghost use Rattle.pieces.specs.Docs.{tile};
ghost use Rattle.pieces.specs.Tiles.{end_tile, put_tile};
ghost use Rattle.binders.specs.Asked.{GroupEnd};
ghost use Rattle.binders.specs.Binders.{binder_name};
ghost use Rattle.binders.specs.Steps.{binder_kind, first_binder, in_group, chain_length, name_docs};

use crate::printer::Printer;
use crate::runs::{Reached, pp_binder_name};
use difference::trees::same_lifted;
use document::sink::Sink;
use pieces::words::end_tile;
use pool::fields::{BINDER_BODY, BINDER_STYLE, BINDER_TYPE};
use pool::kinds::BinderStyle;

// Whether the binder at row `at` belongs to the group of one j places before it, with that style and type row.
#[tactic(auto, using(crate::proofs::BinderLaws::binder_rows), unfolding(crate::specs::Steps::in_group))]
fn in_group(p: &Printer<'_>, at: usize, style: usize, like: usize, j: usize) -> bool
    requires { (at < E (pool_of p.now).words) × (like < E (pool_of p.now).words)
        × (binder_kind (expr_word (pool_of p.now).words at 0) ≡ true) }
    ensures { result ≡ in_group style (expr_at (pool_of p.now) like) j
        (first_binder (expr_at (pool_of p.now) at)) }
{
    style == p.pool.words.expr(at, BINDER_STYLE)
        && p.pool.words.binder_style(at) != Some(BinderStyle::Instance)
        && same_lifted(&p.pool, like, p.pool.words.expr(at, BINDER_TYPE), j)
}

// Where the group that the binder at row r starts ends, among n binders.
#[tactic(auto, using(crate::proofs::GroupingLaws::group_rows))]
pub fn group_end(p: &Printer<'_>, r: usize, n: usize) -> Reached
    requires { (r < E (pool_of p.now).words) × (0 < n)
        × (n ≤ chain_length (expr_at (pool_of p.now) r)) }
    ensures { GroupEnd (pool_of p.now) n r result.row result.count }
{
    let style = p.pool.words.expr(r, BINDER_STYLE);
    let like = p.pool.words.expr(r, BINDER_TYPE);
    let mut at = p.pool.words.expr(r, BINDER_BODY);
    let mut j = 1;
    // No `for`: the count where it stops is the answer.
    while j < n && in_group(p, at, style, like, j) {
        j += 1;
        at = p.pool.words.expr(at, BINDER_BODY);
    }
    Reached { row: at, count: j }
}

// A further name of a tile.
fn put_next_name(p: &Printer<'_>, sink: &mut Sink<'_>, r: usize)
    requires { (r < E (pool_of p.now).words)
        × (binder_kind (expr_word (pool_of p.now).words r 0) ≡ true) }
    ensures { Leaves sink.old sink.new (λ st. end_tile (emit (binder_name (first_binder (expr_at (pool_of p.now) r)))
        (put_break 1 st))) }
{
    sink.put_break(1);
    pp_binder_name(p, sink, r);
    end_tile(sink)
}

// The names of n binders from row r on, each a further one of a tile.
#[tactic(auto, using(crate::proofs::NamingLaws::name_rows))]
fn put_next_names(p: &Printer<'_>, sink: &mut Sink<'_>, r: usize, n: usize)
    requires { (r < E (pool_of p.now).words)
        × (n ≤ chain_length (expr_at (pool_of p.now) r)) }
    ensures { Leaves sink.old sink.new (put_tile (name_docs n (expr_at (pool_of p.now) r))) }
{
    let mut at = r;
    for _ in 0..n {
        put_next_name(p, sink, at);
        at = p.pool.words.expr(at, BINDER_BODY);
    }
}

// The names of n binders from row r on, tiled.
#[tactic(auto, using(crate::proofs::NamingLaws::name_rows))]
pub fn pp_names(p: &Printer<'_>, sink: &mut Sink<'_>, r: usize, n: usize)
    requires { (r < E (pool_of p.now).words) × (0 < n)
        × (n ≤ chain_length (expr_at (pool_of p.now) r)) }
    ensures { Leaves sink.old sink.new (emit (tile (name_docs n (expr_at (pool_of p.now) r)))) }
{
    pp_binder_name(p, sink, r);
    let next = p.pool.words.expr(r, BINDER_BODY);
    put_next_names(p, sink, next, n - 1)
}
