// Chains: the longest run of pi and lambda from a row on.
ghost use Rattle.std.specs.Prelude.{◌≡◌, ℕ, ◌+◌, ◌<◌, ◌≤◌};
ghost use Rattle.pool.specs.Codes.{Stands, expr_code};
ghost use Rattle.pool.specs.Tables.{E, expr_word};
ghost use Rattle.binders.specs.Options.{pool_of};
ghost use Rattle.pool.specs.Unfold.{expr_at};
ghost use Rattle.binders.specs.Asked.{Asked, ChainPushed};
ghost use Rattle.binders.specs.Steps.{binder_kind, chain_length};

use crate::printer::Printer;
use crate::stack::Stack;
use pool::fields::{BINDER_BODY, BINDER_NAME};
use pool::kinds::ExprKind;
use pool::words::Words;

// Whether rows of this kind are pis or lambdas.
#[tactic(auto, unfolding(crate::specs::Steps::binder_kind))]
pub fn is_binder(kind: Option<ExprKind>) -> bool
    ensures { (k : ℕ) → Stands expr_code 9 k kind → result ≡ binder_kind k }
{
    matches!(kind, Some(ExprKind::Pi | ExprKind::Lambda))
}

// Whether row r is one.
pub fn is_binder_at(words: &Words<'_>, r: usize) -> bool
    ensures { result ≡ binder_kind (expr_word words.now.words.now r 0) }
{
    is_binder(words.expr_kind(r))
}

// How many binders the chain at row r has.
#[tactic(auto, using(crate::proofs::BinderLaws::binder_rows))]
pub fn chain_length(p: &Printer<'_>, r: usize) -> usize
    requires { r < E (pool_of p.now).words }
    ensures { (result ≡ chain_length (expr_at (pool_of p.now) r)) × (result ≤ r) }
{
    let mut at = r;
    let mut n = 0;
    while is_binder_at(&p.pool.words, at) {
        n += 1;
        at = p.pool.words.expr(at, BINDER_BODY);
    }
    n
}

// Puts the names of the chain at row r, which starts in the scope h, on the stack.
#[tactic(auto, using(crate::proofs::BinderLaws::binder_rows))]
pub fn push_chain(p: &Printer<'_>, k: &mut Stack, h: usize, r: usize)
    requires asked { Asked (pool_of p.now) k.old h r }
    requires r_bound { k.old.count + chain_length (expr_at (pool_of p.now) r) ≤ 1024 }
    ensures { ChainPushed (pool_of p.now) k.old h (expr_at (pool_of p.now) r) k.new }
{
    let mut at = r;
    let mut scope = h;
    while is_binder_at(&p.pool.words, at) {
        k.push(p.pool.words.expr(at, BINDER_NAME), scope);
        scope = k.count;
        at = p.pool.words.expr(at, BINDER_BODY);
    }
}
