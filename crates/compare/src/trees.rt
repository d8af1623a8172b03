// All fields of two rows but their parts, the first row lifted.
ghost use Rattle.std.specs.Prelude.{◌≡◌, ◌&&◌, cond, ◌+◌, ◌<◌, ◌≤◌, ltb, eqb};
ghost use Rattle.utf8.specs.Letterlike.{same_bytes};
ghost use Rattle.pool.specs.Views.{lent};
ghost use Rattle.pool.specs.Codes.{Stands, expr_code};
ghost use Rattle.pool.specs.Tables.{E, expr_word};
ghost use Rattle.pool.specs.Tree.{level_shapes, same_shapes};
ghost use Rattle.pool.specs.Unfold.{list_at};
ghost use Rattle.compare.specs.Equal.{Quick, trees_same, names_same, levels_same, string_of, fields_same, ByParts, OneKind};

use super::{levels, lists, names};
use pool::checked::CheckedPool;
use pool::fields::{
    BINDER_STYLE, CONST_LIST, CONST_NAME, EXPR_DEPTH, EXPR_LOOSE, LET_NONDEP, LITERAL_STRING,
    PROJ_INDEX, SORT_LEVEL, VAR_INDEX,
};
use pool::kinds::ExprKind;
use pool::words::Words;

// A first look: whether they are equal; nothing where they are of one kind and may be either.
pub fn glance(pool: &CheckedPool<'_>, d: usize, a: usize, b: usize, c: usize) -> Option<bool>
    requires { (a < E (lent pool.now).words) × (b < E (lent pool.now).words) }
    ensures { Quick (trees_same (lent pool.now) d c a b)
        (expr_word (lent pool.now).words a 0 ≡ expr_word (lent pool.now).words b 0) result }
{
    if pool.words.expr(a, EXPR_DEPTH) != pool.words.expr(b, EXPR_DEPTH) {
        return Some(false);
    }
    if pool.words.expr_kind(a) != pool.words.expr_kind(b) {
        return Some(false);
    }
    let loose_a = pool.words.expr(a, EXPR_LOOSE);
    let loose_b = pool.words.expr(b, EXPR_LOOSE);
    if loose_a <= c {
        if loose_a != loose_b {
            return Some(false);
        }
        return if a == b { Some(true) } else { None };
    }
    if loose_b < loose_a {
        return Some(false);
    }
    if loose_b - loose_a != d {
        return Some(false);
    }
    if d == 0 && a == b { Some(true) } else { None }
}

fn same_var(words: &Words<'_>, d: usize, a: usize, b: usize, c: usize) -> bool
    ensures { result ≡ eqb (cond (ltb (expr_word words.now.words.now a 1) c) (expr_word words.now.words.now a 1)
        (expr_word words.now.words.now a 1 + d)) (expr_word words.now.words.now b 1) }
{
    let index_a = words.expr(a, VAR_INDEX);
    let index_b = words.expr(b, VAR_INDEX);
    if index_a < c {
        return index_a == index_b;
    }
    index_a <= index_b && index_b - index_a == d
}

fn same_sort(pool: &CheckedPool<'_>, a: usize, b: usize) -> bool
    requires { OneKind (lent pool.now) a b 1 }
    ensures { let p = lent pool.now in result ≡ levels_same p (expr_word p.words a 1) (expr_word p.words b 1) }
{
    let level_a = pool.words.expr(a, SORT_LEVEL);
    let level_b = pool.words.expr(b, SORT_LEVEL);
    levels::same_level(pool, level_a, level_b)
}

fn same_const(pool: &CheckedPool<'_>, a: usize, b: usize) -> bool
    requires { OneKind (lent pool.now) a b 2 }
    ensures { result ≡ names_same (lent pool.now) (expr_word (lent pool.now).words a 1) (expr_word (lent pool.now).words b 1)
        && same_shapes (level_shapes (list_at (lent pool.now) (expr_word (lent pool.now).words a 2)))
        (level_shapes (list_at (lent pool.now) (expr_word (lent pool.now).words b 2))) }
{
    let name_a = pool.words.expr(a, CONST_NAME);
    let name_b = pool.words.expr(b, CONST_NAME);
    let list_a = pool.words.expr(a, CONST_LIST);
    let list_b = pool.words.expr(b, CONST_LIST);
    names::same_name(pool, name_a, name_b) && lists::same_list(pool, list_a, list_b)
}

// The field of a name in a pi, a lambda, a let and a projection.
const NAME: usize = 1;

// Two rows of these kinds: the name, and the word beside it: a style, a let's nondep or an index.
fn same_named(pool: &CheckedPool<'_>, a: usize, b: usize, beside: usize) -> bool
    requires { let kind = expr_word (lent pool.now).words a 0 in
        (OneKind (lent pool.now) a b kind) × (3 < kind) × (kind < 8) × (beside < 8) }
    ensures { let p = lent pool.now in result ≡ names_same p (expr_word p.words a 1) (expr_word p.words b 1)
        && eqb (expr_word p.words a beside) (expr_word p.words b beside) }
{
    let name_a = pool.words.expr(a, NAME);
    let name_b = pool.words.expr(b, NAME);
    names::same_name(pool, name_a, name_b)
        && pool.words.expr(a, beside) == pool.words.expr(b, beside)
}

fn same_literal(pool: &CheckedPool<'_>, a: usize, b: usize) -> bool
    requires { let kind = expr_word (lent pool.now).words a 0 in (OneKind (lent pool.now) a b kind) × (8 ≤ kind) }
    ensures { let p = lent pool.now in result ≡ same_bytes (string_of p.bytes p.names (expr_word p.words a 1))
        (string_of p.bytes p.names (expr_word p.words b 1)) }
{
    let string_a = pool.words.expr(a, LITERAL_STRING);
    let string_b = pool.words.expr(b, LITERAL_STRING);
    names::same_string(pool.bytes, &pool.names, string_a, string_b)
}

// The fields of two rows of one kind that are no parts, the first row lifted by d from c on.
pub fn same_fields(
    pool: &CheckedPool<'_>,
    d: usize,
    a: usize,
    b: usize,
    c: usize,
    kind: Option<ExprKind>,
) -> bool
    requires same { OneKind (lent pool.now) a b (expr_word (lent pool.now).words a 0) }
    requires kind_is { Stands expr_code 9 (expr_word (lent pool.now).words a 0) kind }
    ensures { result ≡ fields_same (lent pool.now) d c a b (expr_word (lent pool.now).words a 0) }
{
    match kind {
        Some(ExprKind::Var) => same_var(&pool.words, d, a, b, c),
        Some(ExprKind::Sort) => same_sort(pool, a, b),
        Some(ExprKind::Const) => same_const(pool, a, b),
        Some(ExprKind::App) => true,
        Some(ExprKind::Pi) => same_named(pool, a, b, BINDER_STYLE),
        Some(ExprKind::Lambda) => same_named(pool, a, b, BINDER_STYLE),
        Some(ExprKind::Let) => same_named(pool, a, b, LET_NONDEP),
        Some(ExprKind::Proj) => same_named(pool, a, b, PROJ_INDEX),
        Some(ExprKind::Nat) => same_literal(pool, a, b),
        Some(ExprKind::String) => same_literal(pool, a, b),
        // Never, since a checked row has a kind.
        None => false,
    }
}

// Whether two rows are equal but for their parts; nothing where their parts say.
pub fn agree(pool: &CheckedPool<'_>, d: usize, a: usize, b: usize, c: usize) -> Option<bool>
    requires { (a < E (lent pool.now).words) × (b < E (lent pool.now).words) }
    ensures { Quick (trees_same (lent pool.now) d c a b) (ByParts (lent pool.now) d c a b) result }
{
    let quick = glance(pool, d, a, b, c);
    if quick.is_some() {
        return quick;
    }
    let kind = pool.words.expr_kind(a);
    if same_fields(pool, d, a, b, c, kind) {
        None
    } else {
        Some(false)
    }
}
