// The binders of a chain: which are arrows, where a run ends, and their names.
ghost use Rattle.std.specs.Prelude.{◌≡◌, true, not, ◌&&◌, ◌<◌, ◌≤◌, eqb};
ghost use Rattle.pool.specs.Tables.{E, expr_word};
ghost use Rattle.binders.specs.Options.{pool_of};
ghost use Rattle.pool.specs.Unfold.{expr_at};
ghost use Rattle.document.specs.Leaves.{Leaves};
ghost use Rattle.document.specs.Sink.{emit};
ghost use Rattle.names.specs.Names.{is_anonymous};
ghost use Rattle.binders.specs.Binders.{is_arrow, binder_name};
ghost use Rattle.binders.specs.Asked.{RunEnd, PartEnd};
ghost use Rattle.binders.specs.Steps.{binder_kind, is_binder, first_binder, in_run, level_of};

use crate::printer::Printer;
use document::sink::Sink;
use names::components::is_anonymous;
use names::names::{has_macro_scopes, pp_name_safe};
use occurrence::occurs::has_var;
use pieces::words::put_word;
use pool::fields::{BINDER_BODY, BINDER_NAME};
use pool::kinds::{BinderStyle, ExprKind};
use pool::words::Words;

// Whether the variable of the binder at row r occurs in its body.
#[tactic(auto, using(crate::proofs::BinderLaws::binder_rows))]
pub fn is_used(p: &Printer<'_>, r: usize) -> bool
    requires { (r < E (pool_of p.now).words)
        × (binder_kind (expr_word (pool_of p.now).words r 0) ≡ true) }
    ensures { result ≡ (first_binder (expr_at (pool_of p.now) r)).used }
{
    has_var(&p.pool, p.pool.words.expr(r, BINDER_BODY), 0)
}

// Whether row r is a pi.
pub fn is_pi(words: &Words<'_>, r: usize) -> bool
    ensures { result ≡ eqb (expr_word words.now.words.now r 0) 4 }
{
    words.expr_kind(r) == Some(ExprKind::Pi)
}

// The binder at row r: pi, default style, and body without its variable, or anonymous, or hygienic.
#[tactic(auto, using(crate::proofs::BinderLaws::binder_rows), unfolding(crate::specs::Binders::is_arrow))]
pub fn is_arrow(p: &Printer<'_>, r: usize) -> bool
    requires { (r < E (pool_of p.now).words)
        × (binder_kind (expr_word (pool_of p.now).words r 0) ≡ true) }
    ensures { result ≡ is_arrow (first_binder (expr_at (pool_of p.now) r)) }
{
    let name = p.pool.words.expr(r, BINDER_NAME);
    is_pi(&p.pool.words, r)
        && p.pool.words.binder_style(r) == Some(BinderStyle::Default)
        && (is_anonymous(&p.pool, name) || has_macro_scopes(&p.pool, name) || !is_used(p, r))
}

// Whether row r is a binder of a run: of pis that are no arrows, or of lambdas.
#[tactic(auto, using(crate::proofs::BinderLaws::binder_rows), unfolding(crate::specs::Binders::is_named_pi, crate::specs::Steps::binder_kind, crate::specs::Steps::in_run))]
pub fn in_run(p: &Printer<'_>, r: usize, pis: bool) -> bool
    requires { r < E (pool_of p.now).words }
    ensures { result ≡ (is_binder (expr_at (pool_of p.now) r) && in_run pis
        (first_binder (expr_at (pool_of p.now) r))) }
{
    if pis {
        is_pi(&p.pool.words, r) && !is_arrow(p, r)
    } else {
        p.pool.words.expr_kind(r) == Some(ExprKind::Lambda)
    }
}

// A row of a chain, and how many binders come before it.
#[derive(Clone, Copy)]
pub struct Reached {
    pub row: usize,
    pub count: usize,
}

// Where the run of pis or lambdas that starts at row r ends.
#[tactic(auto, using(crate::proofs::RunningLaws::run_rows))]
pub fn run_end(p: &Printer<'_>, r: usize, pis: bool) -> Reached
    requires { r < E (pool_of p.now).words }
    ensures { RunEnd (pool_of p.now) pis r result.row result.count }
{
    let mut at = r;
    let mut n = 0;
    while in_run(p, at, pis) {
        n += 1;
        at = p.pool.words.expr(at, BINDER_BODY);
    }
    Reached { row: at, count: n }
}

// Where what row r starts ends: an arrow binder, or a run of others.
#[tactic(auto, using(crate::proofs::RunningLaws::run_rows), unfolding(crate::specs::Steps::part_length))]
pub fn part_end(p: &Printer<'_>, r: usize, arrow: bool) -> Reached
    requires pooled { (r < E (pool_of p.now).words)
        × (binder_kind (expr_word (pool_of p.now).words r 0) ≡ true) }
    requires arrow_value { arrow ≡ is_arrow (first_binder (expr_at (pool_of p.now) r)) }
    ensures { PartEnd (pool_of p.now) arrow r result.row result.count }
{
    if arrow {
        Reached {
            row: p.pool.words.expr(r, BINDER_BODY),
            count: 1,
        }
    } else {
        run_end(p, r, is_pi(&p.pool.words, r))
    }
}

// The level of what starts with an arrow binder, or with another.
#[tactic(auto, unfolding(crate::specs::Steps::level_of))]
pub fn level_of(arrow: bool) -> usize
    ensures { (result ≡ level_of arrow) × (result ≤ 1024) }
{
    if arrow { 24 } else { 0 }
}

// Whether a binder is anonymous and its variable does not occur: the occurrence of one that has a name is not searched.
#[tactic(auto, using(crate::proofs::BinderLaws::binder_rows))]
fn is_hidden(p: &Printer<'_>, r: usize) -> bool
    requires { (r < E (pool_of p.now).words)
        × (binder_kind (expr_word (pool_of p.now).words r 0) ≡ true) }
    ensures { result ≡ (is_anonymous (first_binder (expr_at (pool_of p.now) r)).name
        && not (first_binder (expr_at (pool_of p.now) r)).used) }
{
    is_anonymous(&p.pool, p.pool.words.expr(r, BINDER_NAME)) && !is_used(p, r)
}

// A binder's name; "_" if it is anonymous and its variable does not occur. After a refusal nobody asks whether it does.
#[tactic(auto, using(crate::proofs::BinderLaws::name_texts), unfolding(crate::specs::Binders::binder_name))]
pub fn pp_binder_name(p: &Printer<'_>, sink: &mut Sink<'_>, r: usize)
    requires { (r < E (pool_of p.now).words)
        × (binder_kind (expr_word (pool_of p.now).words r 0) ≡ true) }
    ensures { Leaves sink.old sink.new (emit (binder_name (first_binder (expr_at (pool_of p.now) r)))) }
{
    if sink.is_stopped() {
        return;
    }
    if is_hidden(p, r) {
        put_word(sink, b"_")
    } else {
        pp_name_safe(&p.pool, sink, p.pool.words.expr(r, BINDER_NAME))
    }
}
