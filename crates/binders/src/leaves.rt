// Expressions without parts: sorts, constants, literals.
ghost use Rattle.std.specs.Prelude.{◌≡◌, ℕ, true, ◌<◌};
ghost use Rattle.pool.specs.Codes.{Stands, expr_code};
ghost use Rattle.pool.specs.Tables.{E, expr_word};
ghost use Rattle.binders.specs.Options.{pool_of};
ghost use Rattle.pool.specs.Unfold.{expr_at};
ghost use Rattle.document.specs.Leaves.{Leaves};
ghost use Rattle.document.specs.Sink.{emit};
ghost use Rattle.binders.specs.Leaves.{leaf_kind, leaf_doc};

use crate::printer::Printer;
use document::sink::Sink;
use levels::levels::pp_sort;
use names::literals::{pp_const, pp_raw, pp_string};
use pool::fields::{CONST_NAME, LITERAL_STRING, SORT_LEVEL};
use pool::kinds::ExprKind;
use pool::words::Words;

// Whether rows of this kind have no parts, and are no variables.
#[tactic(auto, unfolding(crate::specs::Leaves::leaf_kind))]
pub fn is_leaf(kind: Option<ExprKind>) -> bool
    ensures { (k : ℕ) → Stands expr_code 9 k kind → result ≡ leaf_kind k }
{
    matches!(
        kind,
        Some(ExprKind::Sort | ExprKind::Const | ExprKind::Nat | ExprKind::String)
    )
}

// Whether row r is one of these.
pub fn is_leaf_at(words: &Words<'_>, r: usize) -> bool
    ensures { result ≡ leaf_kind (expr_word words.now.words.now r 0) }
{
    is_leaf(words.expr_kind(r))
}

#[tactic(auto, using(crate::proofs::LeafLaws::leaf_rows), unfolding(crate::specs::Leaves::leaf_kind))]
pub fn pp_leaf(p: &Printer<'_>, sink: &mut Sink<'_>, r: usize)
    requires { (r < E (pool_of p.now).words)
        × (leaf_kind (expr_word (pool_of p.now).words r 0) ≡ true) }
    ensures { Leaves sink.old sink.new (emit (leaf_doc (expr_at (pool_of p.now) r))) }
{
    match p.pool.words.expr_kind(r) {
        Some(ExprKind::Sort) => pp_sort(&p.pool, sink, p.pool.words.expr(r, SORT_LEVEL)),
        Some(ExprKind::Const) => pp_const(&p.pool, sink, p.pool.words.expr(r, CONST_NAME)),
        Some(ExprKind::Nat) => pp_raw(&p.pool, sink, p.pool.words.expr(r, LITERAL_STRING)),
        _ => pp_string(&p.pool, sink, p.pool.words.expr(r, LITERAL_STRING)),
    }
}
