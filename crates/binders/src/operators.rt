// Operators: which one acts on an application.
ghost use Rattle.std.specs.Prelude.{◌≡◌, ℕ, ◌<◌};
ghost use Rattle.pool.specs.Codes.{Stands, notation_code};
ghost use Rattle.pool.specs.Kinds.{notation_kind};
ghost use Rattle.pool.specs.Notation.{operator_of};
ghost use Rattle.pool.specs.Tables.{N, E, expr_word};
ghost use Rattle.pool.specs.Unfold.{name_at, expr_at};
ghost use Rattle.binders.specs.Acting.{Gives, operands, acting_on, acting, constant_operator};
ghost use Rattle.binders.specs.Options.{options_of, pool_of};

use crate::printer::Printer;
use pool::fields::{APP_FUNCTION, CONST_NAME};
use pool::kinds::{ExprKind, NotationKind};

// The notation row that gives the operator of the name at a row, if it has one.
fn operator_of(p: &Printer<'_>, name: usize) -> Option<usize>
    requires { name < N (pool_of p.now).names }
    ensures { Gives (pool_of p.now) (operator_of (pool_of p.now) (name_at (pool_of p.now) name)) result }
{
    if name >= p.operators.len() {
        return None;
    }
    let entry = p.operators[name] as usize;
    if entry == 0 {
        return None;
    }
    Some(entry - 1)
}

// How many operands an operator of a kind has.
#[tactic(auto, unfolding(crate::specs::Acting::operands, pool::specs::Kinds::notation_kind))]
fn operands(kind: Option<NotationKind>) -> usize
    ensures { (k : ℕ) → Stands notation_code 2 k kind → result ≡ operands (notation_kind k) }
{
    match kind {
        Some(NotationKind::Prefix | NotationKind::Postfix) => 1,
        Some(NotationKind::Infix) => 2,
        None => 0,
    }
}

// The notation row that gives the operator of the name at a row, if that acts on so many arguments.
fn of_name(p: &Printer<'_>, name: usize, count: usize) -> Option<usize>
    requires { name < N (pool_of p.now).names }
    ensures { Gives (pool_of p.now) (acting_on (operator_of (pool_of p.now) (name_at (pool_of p.now) name)) count) result }
{
    let Some(row) = operator_of(p, name) else {
        return None;
    };
    if operands(p.pool.words.notation_kind(row)) == count {
        return Some(row);
    }
    None
}

// The notation row whose operator acts on the head at row r, which has so many arguments.
fn acting_on(p: &Printer<'_>, r: usize, count: usize) -> Option<usize>
    requires { r < E (pool_of p.now).words }
    ensures { Gives (pool_of p.now) (acting_on (constant_operator (options_of p.now) (expr_at (pool_of p.now) r)) count)
        result }
{
    let words = &p.pool.words;
    if words.expr_kind(r) == Some(ExprKind::Const) {
        return of_name(p, words.expr(r, CONST_NAME), count);
    }
    None
}

// The notation row whose operator acts on the application at row r. None acts on more than two arguments, so no head is searched.
pub fn acting(p: &Printer<'_>, r: usize) -> Option<usize>
    requires { (r < E (pool_of p.now).words) × (expr_word (pool_of p.now).words r 0 ≡ 3) }
    ensures { Gives (pool_of p.now) (acting (options_of p.now) (expr_at (pool_of p.now) r)) result }
{
    if p.operators.is_empty() {
        return None;
    }
    let words = &p.pool.words;
    let function = words.expr(r, APP_FUNCTION);
    if words.expr_kind(function) == Some(ExprKind::App) {
        return acting_on(p, words.expr(function, APP_FUNCTION), 2);
    }
    acting_on(p, function, 1)
}
