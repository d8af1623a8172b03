// Expressions: one call cycle. Each call goes to a lower row, or on the same row from what follows a part of a chain to a part or an
// expression, from an expression to an application, an operator, a let or a chain, from an operator to what its kind puts, from a let to its
// head and body, from a chain to its parts, and from a part to its groups. The stack of names goes by value, but to `pp_part`, `pp_inside`
// and the parts of `pp_operator`: these are inlined, and stand in no frame that would hold a copy.
ghost use Rattle.std.specs.Prelude.{◌≡◌, true, ◌<◌, ◌≤◌, None};
ghost use Rattle.document.specs.Walk.{textᵐ};
ghost use Rattle.pool.specs.Notation.{operator_at};
ghost use Rattle.pool.specs.Tables.{T, expr_word, notation_word};
ghost use Rattle.binders.specs.Acting.{acting};
ghost use Rattle.binders.specs.Options.{options_of, pool_of};
ghost use Rattle.pool.specs.Unfold.{name_at, expr_at};
ghost use Rattle.document.specs.Leaves.{Leaves};
ghost use Rattle.document.specs.Sink.{emit};
ghost use Rattle.pieces.specs.Docs.{under};
ghost use Rattle.binders.specs.Asked.{Asked, InChain};
ghost use Rattle.binders.specs.Steps.{binder_kind, chain_length, first_binder};
ghost use Rattle.pretty_printer.specs.Parts.{Operated, row_in, chain_part, run_part, groups_part, let_head, let_body};

use binders::chain::{chain_length, is_binder_at, push_chain};
use binders::group::{group_end, pp_names};
use binders::leaves::{is_leaf_at, pp_leaf};
use binders::operators::acting;
use binders::printer::Printer;
use binders::runs::{is_arrow, is_pi, level_of, part_end};
use binders::spine::spine_of;
use binders::stack::Stack;
use binders::vars::pp_bvar;
use document::sink::Sink;
use names::literals::pp_raw;
use names::names::pp_name_safe;
use pieces::parens::{close_paren, open_paren};
use pieces::puts::{
    close_group, end_app, end_argument, end_let, end_proj, end_run, open_group, put_arrow,
    put_assign, put_colon, start_let, start_run,
};
use pieces::words::join_zero_width_line;
use pool::fields::{
    APP_ARGUMENT, APP_FUNCTION, BINDER_STYLE, BINDER_TYPE, LET_BODY, LET_NAME, LET_TYPE, LET_VALUE,
    NOTATION_PRIORITY, NOTATION_STRING, PROJ_INDEX, PROJ_STRUCTURE, VAR_INDEX,
};
use pool::kinds::{ExprKind, NotationKind};

// The expression at row r, in a scope of the stack, under a level.
#[cycle(exprs)]
pub fn pp_expr(p: &Printer<'_>, sink: &mut Sink<'_>, k: Stack, scope: usize, r: usize, outer: usize)
    requires { (Asked (pool_of p.now) k scope r) × (outer ≤ 1024) }
    ensures { Leaves sink.old sink.new (emit (under outer (row_in (options_of p.now) (pool_of p.now) k scope r))) }
{
    if sink.is_stopped() {
        return;
    }
    match p.pool.words.expr_kind(r) {
        Some(ExprKind::Var) => pp_bvar(p, sink, k, scope, p.pool.words.expr(r, VAR_INDEX)),
        Some(ExprKind::App) => {
            if let Some(row) = acting(p, r) {
                return pp_operator(p, sink, k, scope, r, row, outer);
            }
            pp_app(p, sink, k, scope, r, outer)
        }
        Some(ExprKind::Pi | ExprKind::Lambda) => pp_chain(p, sink, k, scope, r, outer),
        Some(ExprKind::Let) => pp_let(p, sink, k, scope, r, outer),
        Some(ExprKind::Proj) => {
            let structure = p.pool.words.expr(r, PROJ_STRUCTURE);
            pp_expr(p, sink, k, scope, structure, 1024);
            end_proj(sink, p.pool.words.expr(r, PROJ_INDEX))
        }
        _ => pp_leaf(p, sink, r),
    }
}

// An expression in an application, or a group's type: what has no parts needs no stack, and no copy of it. Inlined, so that the stack is not
// copied here.
#[inline(always)]
#[cycle(exprs)]
fn pp_inside(p: &Printer<'_>, sink: &mut Sink<'_>, k: &Stack, scope: usize, r: usize, outer: usize)
    requires { (Asked (pool_of p.now) k.now scope r) × (outer ≤ 1024) }
    ensures { Leaves sink.old sink.new (emit (under outer (row_in (options_of p.now) (pool_of p.now) k.now scope r))) }
{
    if is_leaf_at(&p.pool.words, r) {
        return pp_leaf(p, sink, r);
    }
    pp_expr(p, sink, *k, scope, r, outer)
}

// An application on which no operator acts: its head and its arguments, tiled.
#[cycle(exprs)]
fn pp_app(p: &Printer<'_>, sink: &mut Sink<'_>, k: Stack, scope: usize, r: usize, outer: usize)
    requires { (Asked (pool_of p.now) k scope r) × (outer ≤ 1024)
        × (expr_word (pool_of p.now).words r 0 ≡ 3)
        × (acting (options_of p.now) (expr_at (pool_of p.now) r) ≡ None) }
    ensures { Leaves sink.old sink.new (emit (under outer (row_in (options_of p.now) (pool_of p.now) k scope r))) }
{
    let wrapped = outer > 1023;
    open_paren(sink, wrapped);
    let spine = spine_of(p, r);
    pp_inside(p, sink, &k, scope, spine.head, 1023);
    sink.put_group();
    for i in (0..spine.count).rev() {
        sink.put_break(1);
        pp_inside(p, sink, &k, scope, spine.arguments[i] as usize, 1024);
        end_argument(sink);
    }
    end_app(sink, p.indent, wrapped)
}

// An application on which the operator of a notation row acts.
#[cycle(exprs)]
fn pp_operator(
    p: &Printer<'_>,
    sink: &mut Sink<'_>,
    k: Stack,
    scope: usize,
    r: usize,
    row: usize,
    outer: usize,
)
    requires { (Asked (pool_of p.now) k scope r) × (Operated (options_of p.now) (pool_of p.now) r row) }
    ensures { Leaves sink.old sink.new (emit (under outer (row_in (options_of p.now) (pool_of p.now) k scope r))) }
{
    let priority = p.pool.words.notation(row, NOTATION_PRIORITY);
    let wrapped = outer > priority - 1;
    open_paren(sink, wrapped);
    pp_operands(p, sink, &k, scope, r, row, priority);
    close_paren(sink, wrapped)
}

// What stands inside its parentheses, by the kind of the row.
#[inline(always)]
#[cycle(exprs)]
fn pp_operands(
    p: &Printer<'_>,
    sink: &mut Sink<'_>,
    k: &Stack,
    scope: usize,
    r: usize,
    row: usize,
    priority: usize,
)
    requires { (Asked (pool_of p.now) k.now scope r) × (Operated (options_of p.now) (pool_of p.now) r row)
        × (priority ≡ notation_word (pool_of p.now).words row 2) }
    ensures { Leaves sink.old sink.new (emit (row_in (options_of p.now) (pool_of p.now) k.now scope r).doc) }
{
    match p.pool.words.notation_kind(row) {
        Some(NotationKind::Prefix) => pp_prefix(p, sink, k, scope, r, row, priority),
        Some(NotationKind::Infix) => pp_infix(p, sink, k, scope, r, row, priority),
        Some(NotationKind::Postfix) => pp_postfix(p, sink, k, scope, r, row, priority),
        // Never, since a checked row has a kind.
        None => {}
    }
}

// The string of a notation row.
#[tactic(auto, unfolding(pool::specs::Notation::operator_at))]
fn pp_sign(p: &Printer<'_>, sink: &mut Sink<'_>, row: usize)
    requires { row < T (pool_of p.now).words }
    ensures { Leaves sink.old sink.new (emit (textᵐ (operator_at (pool_of p.now) row).string)) }
{
    let string = p.pool.words.notation(row, NOTATION_STRING);
    pp_raw(&p.pool, sink, string)
}

// The string, an empty break, and the operand.
#[inline(always)]
#[cycle(exprs)]
fn pp_prefix(
    p: &Printer<'_>,
    sink: &mut Sink<'_>,
    k: &Stack,
    scope: usize,
    r: usize,
    row: usize,
    priority: usize,
)
    requires { (Asked (pool_of p.now) k.now scope r) × (Operated (options_of p.now) (pool_of p.now) r row)
        × (priority ≡ notation_word (pool_of p.now).words row 2) × (notation_word (pool_of p.now).words row 1 ≡ 0) }
    ensures { Leaves sink.old sink.new (emit (row_in (options_of p.now) (pool_of p.now) k.now scope r).doc) }
{
    pp_sign(p, sink, row);
    join_zero_width_line(sink);
    sink.put_group();
    let operand = p.pool.words.expr(r, APP_ARGUMENT);
    pp_inside(p, sink, k, scope, operand, priority);
    sink.put_join()
}

// The first operand, the string, an empty break, and the second operand.
#[inline(always)]
#[cycle(exprs)]
fn pp_infix(
    p: &Printer<'_>,
    sink: &mut Sink<'_>,
    k: &Stack,
    scope: usize,
    r: usize,
    row: usize,
    priority: usize,
)
    requires { (Asked (pool_of p.now) k.now scope r) × (Operated (options_of p.now) (pool_of p.now) r row)
        × (priority ≡ notation_word (pool_of p.now).words row 2) × (notation_word (pool_of p.now).words row 1 ≡ 1) }
    ensures { Leaves sink.old sink.new (emit (row_in (options_of p.now) (pool_of p.now) k.now scope r).doc) }
{
    let function = p.pool.words.expr(r, APP_FUNCTION);
    let left = p.pool.words.expr(function, APP_ARGUMENT);
    pp_inside(p, sink, k, scope, left, priority);
    pp_sign(p, sink, row);
    sink.put_join();
    join_zero_width_line(sink);
    let right = p.pool.words.expr(r, APP_ARGUMENT);
    pp_inside(p, sink, k, scope, right, priority);
    sink.put_join();
    sink.put_group();
    sink.put_nest(p.indent)
}

// The operand, an empty break, and the string.
#[inline(always)]
#[cycle(exprs)]
fn pp_postfix(
    p: &Printer<'_>,
    sink: &mut Sink<'_>,
    k: &Stack,
    scope: usize,
    r: usize,
    row: usize,
    priority: usize,
)
    requires { (Asked (pool_of p.now) k.now scope r) × (Operated (options_of p.now) (pool_of p.now) r row)
        × (priority ≡ notation_word (pool_of p.now).words row 2) × (notation_word (pool_of p.now).words row 1 ≡ 2) }
    ensures { Leaves sink.old sink.new (emit (row_in (options_of p.now) (pool_of p.now) k.now scope r).doc) }
{
    let operand = p.pool.words.expr(r, APP_ARGUMENT);
    pp_inside(p, sink, k, scope, operand, priority);
    join_zero_width_line(sink);
    pp_sign(p, sink, row);
    sink.put_join();
    sink.put_group()
}

// A let.
#[cycle(exprs)]
fn pp_let(p: &Printer<'_>, sink: &mut Sink<'_>, k: Stack, scope: usize, r: usize, outer: usize)
    requires { (Asked (pool_of p.now) k scope r) × (outer ≤ 1024)
        × (expr_word (pool_of p.now).words r 0 ≡ 6) }
    ensures { Leaves sink.old sink.new (emit (under outer (row_in (options_of p.now) (pool_of p.now) k scope r))) }
{
    let wrapped = outer > 0;
    open_paren(sink, wrapped);
    pp_let_head(p, sink, k, scope, r);
    pp_let_body(p, sink, k, scope, r);
    sink.put_join();
    sink.put_group();
    close_paren(sink, wrapped)
}

// Its name, type and value, up to the break.
#[cycle(exprs)]
fn pp_let_head(p: &Printer<'_>, sink: &mut Sink<'_>, k: Stack, scope: usize, r: usize)
    requires { (Asked (pool_of p.now) k scope r) × (expr_word (pool_of p.now).words r 0 ≡ 6) }
    ensures { Leaves sink.old sink.new (let_head (options_of p.now) (pool_of p.now) k scope
        (name_at (pool_of p.now) (expr_word (pool_of p.now).words r 1))
        (expr_at (pool_of p.now) (expr_word (pool_of p.now).words r 2))
        (expr_at (pool_of p.now) (expr_word (pool_of p.now).words r 3))) }
{
    start_let(sink);
    let name = p.pool.words.expr(r, LET_NAME);
    pp_name_safe(&p.pool, sink, name);
    put_colon(sink);
    let type_row = p.pool.words.expr(r, LET_TYPE);
    pp_expr(p, sink, k, scope, type_row, 1);
    put_assign(sink);
    let value = p.pool.words.expr(r, LET_VALUE);
    pp_expr(p, sink, k, scope, value, 0);
    end_let(sink, p.indent)
}

// Its body, before which its name comes into force.
#[cycle(exprs)]
fn pp_let_body(p: &Printer<'_>, sink: &mut Sink<'_>, mut k: Stack, scope: usize, r: usize)
    requires { (Asked (pool_of p.now) k scope r) × (expr_word (pool_of p.now).words r 0 ≡ 6) }
    ensures { Leaves sink.old sink.new (let_body (options_of p.now) (pool_of p.now) k scope r
        (name_at (pool_of p.now) (expr_word (pool_of p.now).words r 1))
        (expr_at (pool_of p.now) (expr_word (pool_of p.now).words r 4))) }
{
    let count = k.count + 1;
    sink.put_names(r, count);
    if sink.is_stopped() {
        return;
    }
    k.push(p.pool.words.expr(r, LET_NAME), scope);
    let body = p.pool.words.expr(r, LET_BODY);
    pp_expr(p, sink, k, count, body, 0)
}

// A chain: its names come into force before its binders.
#[cycle(exprs)]
fn pp_chain(
    p: &Printer<'_>,
    sink: &mut Sink<'_>,
    mut k: Stack,
    scope: usize,
    r: usize,
    outer: usize,
)
    requires { (Asked (pool_of p.now) k scope r) × (outer ≤ 1024)
        × (binder_kind (expr_word (pool_of p.now).words r 0) ≡ true) }
    ensures { Leaves sink.old sink.new (emit (under outer (row_in (options_of p.now) (pool_of p.now) k scope r))) }
{
    let arrow = is_arrow(p, r);
    let wrapped = outer > level_of(arrow);
    open_paren(sink, wrapped);
    let m = k.count;
    let length = chain_length(p, r);
    sink.put_names(r, m + length);
    if sink.is_stopped() {
        return;
    }
    push_chain(p, &mut k, scope, r);
    pp_binders(p, sink, k, scope, m, r, 0);
    close_paren(sink, wrapped)
}

// What follows a part of a chain: more binders, or the chain's body.
#[cycle(exprs)]
pub fn pp_tail(
    p: &Printer<'_>,
    sink: &mut Sink<'_>,
    k: Stack,
    scope: usize,
    m: usize,
    r: usize,
    outer: usize,
)
    requires { (InChain (pool_of p.now) k scope m r) × (outer ≤ 1024) }
    ensures { Leaves sink.old sink.new (emit (under outer (chain_part (options_of p.now) (pool_of p.now) k scope m
        (expr_at (pool_of p.now) r)))) }
{
    if is_binder_at(&p.pool.words, r) {
        return pp_binders(p, sink, k, scope, m, r, outer);
    }
    pp_expr(p, sink, k, scope, r, outer)
}

// A part of a chain, an arrow binder or a run of others, and what follows it: its names are on the stack from entry m on, and its first
// type is in a scope.
#[cycle(exprs)]
fn pp_binders(
    p: &Printer<'_>,
    sink: &mut Sink<'_>,
    k: Stack,
    scope: usize,
    m: usize,
    r: usize,
    outer: usize,
)
    requires { (InChain (pool_of p.now) k scope m r) × (outer ≤ 1024)
        × (binder_kind (expr_word (pool_of p.now).words r 0) ≡ true) }
    ensures { Leaves sink.old sink.new (emit (under outer (chain_part (options_of p.now) (pool_of p.now) k scope m
        (expr_at (pool_of p.now) r)))) }
{
    if sink.is_stopped() {
        return;
    }
    let arrow = is_arrow(p, r);
    let inner = level_of(arrow);
    let wrapped = outer > inner;
    let end = part_end(p, r, arrow);
    open_paren(sink, wrapped);
    pp_part(p, sink, &k, scope, m, r, end.count, arrow);
    let m = m + end.count;
    pp_tail(p, sink, k, m, m, end.row, inner);
    sink.put_join();
    close_paren(sink, wrapped)
}

// An arrow binder's type, or the n binders of a run. It is a part of `pp_binders`, so the stack is lent to it.
#[inline(always)]
#[cycle(exprs)]
fn pp_part(
    p: &Printer<'_>,
    sink: &mut Sink<'_>,
    k: &Stack,
    scope: usize,
    m: usize,
    r: usize,
    n: usize,
    arrow: bool,
)
    requires { (InChain (pool_of p.now) k.now scope m r)
        × (binder_kind (expr_word (pool_of p.now).words r 0) ≡ true) × (0 < n)
        × (n ≤ chain_length (expr_at (pool_of p.now) r)) }
    ensures { Leaves sink.old sink.new (run_part (options_of p.now) (pool_of p.now) k.now arrow
        (first_binder (expr_at (pool_of p.now) r)).is_pi scope m n (expr_at (pool_of p.now) r)) }
{
    if arrow {
        let x = p.pool.words.expr(r, BINDER_TYPE);
        pp_expr(p, sink, *k, scope, x, 25);
        return put_arrow(sink, p.indent);
    }
    let pis = is_pi(&p.pool.words, r);
    start_run(sink, pis);
    telescope(p, sink, *k, scope, m, r, n, true);
    end_run(sink, p.indent, pis)
}

// The groups of n binders, tiled; after the first, each is a further one of the tile.
#[cycle(exprs)]
pub fn telescope(
    p: &Printer<'_>,
    sink: &mut Sink<'_>,
    k: Stack,
    scope: usize,
    m: usize,
    r: usize,
    n: usize,
    first: bool,
)
    requires { (InChain (pool_of p.now) k scope m r)
        × (n ≤ chain_length (expr_at (pool_of p.now) r))
        × (first ≡ true → 0 < n) }
    ensures { Leaves sink.old sink.new (groups_part (options_of p.now) (pool_of p.now) k first scope m n
        (expr_at (pool_of p.now) r)) }
{
    if n == 0 {
        return;
    }
    let style = p.pool.words.expr(r, BINDER_STYLE);
    let end = group_end(p, r, n);
    let its_type = p.pool.words.expr(r, BINDER_TYPE);
    open_group(sink, style, first);
    pp_names(p, sink, r, end.count);
    put_colon(sink);
    pp_inside(p, sink, &k, scope, its_type, 1);
    close_group(sink, p.indent, style, first);
    let n = n - end.count;
    if n == 0 {
        return;
    }
    let m = m + end.count;
    let r = end.row;
    telescope(p, sink, k, m, m, r, n, false)
}
