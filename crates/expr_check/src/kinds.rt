// What each kind of expression row asks of its depth and loose words; nothing where its fields are not right.
#![tactic(auto, unfolding(pool::specs::Rules::expr_fields_ok_with, pool::specs::Rules::depth_by, pool::specs::Rules::loose_by))]

ghost use Rattle.std.specs.Prelude.{◌≡◌, ◌+◌, ◌-◌, ◌&&◌, max, true, eqb, fold, []};
ghost use Rattle.pool.specs.Kinds.{expr_kind, varᵏ, sortᵏ, constᵏ, appᵏ, piᵏ, lamᵏ, letᵏ, projᵏ, natᵏ, strᵏ};
ghost use Rattle.pool.specs.Tables.{expr_word};
ghost use Rattle.pool.specs.Rules.{unused};
ghost use Rattle.pool.specs.Views.{read};
ghost use Rattle.expr_check.specs.Fields.{asked, asked_by, row_of};
ghost use Rattle.byte_check.specs.Runs.{Marked};
ghost use Rattle.expr_check.specs.Marks.{MarkedFor};

use byte_check::table::byte_at;
use pool::fields::{
    APP_ARGUMENT, APP_FUNCTION, BINDER_BODY, BINDER_NAME, BINDER_STYLE, BINDER_TYPE, CONST_LIST,
    CONST_NAME, EXPR_DEPTH, EXPR_KIND, EXPR_LOOSE, LET_BODY, LET_NAME, LET_NONDEP, LET_TYPE,
    LET_VALUE, LITERAL_STRING, PROJ_INDEX, PROJ_NAME, PROJ_STRUCTURE, SORT_LEVEL, VAR_INDEX,
};
use pool::kinds::ExprKind;
use pool::pool::Pool;
use pool::words::Words;

// The greatest index of a projection.
const LAST_PROJECTION: usize = 65535;

// What the depth and loose words of a row have to be, from those of lower rows.
#[derive(Clone, Copy)]
pub struct Asked {
    pub depth: usize,
    pub loose: usize,
}

// Whether all words are 0. It stops nowhere, and is inlined, since how many there are is a number at each call.
#[inline(always)]
fn are_zero(words: &[usize]) -> bool
    ensures { result ≡ fold (λ b w. b && eqb w 0) true words.now }
{
    words.iter().fold(true, |all, word| all & (*word == 0))
}

// "Unused words are 0."
#[inline(always)]
fn unused(words: &[usize]) -> bool
    ensures { result ≡ unused words.now }
{
    are_zero(words)
}

// A row with no row below it.
fn leaf(right: bool, loose: usize) -> Option<Asked>
    ensures { result ≡ asked right 1 loose }
{
    right.then_some(Asked { depth: 1, loose })
}

// One more than the deeper of two rows.
fn over_two(words: &Words<'_>, a: usize, b: usize) -> usize
    ensures { result ≡ 1 + max (expr_word words.now.words.now a 6) (expr_word words.now.words.now b 6) }
{
    1 + words.expr(a, EXPR_DEPTH).max(words.expr(b, EXPR_DEPTH))
}

// The loose word of a binder: its body counts one less.
fn under_binder(words: &Words<'_>, ty: usize, body: usize) -> usize
    ensures { result ≡ max (expr_word words.now.words.now ty 7) (expr_word words.now.words.now body 7 - 1) }
{
    words
        .expr(ty, EXPR_LOOSE)
        .max(words.expr(body, EXPR_LOOSE).saturating_sub(1))
}

// Here and below, `row` has the words of row r, read once before its kind is looked at, and tests are joined by `&`, which takes no choices:
// with a read for each test, and `&&`, the scan took half as long again.
fn ask_var(pool: &Pool<'_>, r: usize, row: &[usize; 8]) -> Option<Asked>
    requires { row.now ≡ row_of (read pool.now).words r }
    ensures { result ≡ asked_by (read pool.now) r varᵏ }
{
    // Read again, as what reads a word says that it is below 2³².
    let index = pool.words.expr(r, VAR_INDEX);
    let right = (index <= 4095) & unused(&row[2..6]);
    leaf(right, 1 + index)
}

fn ask_sort(pool: &Pool<'_>, r: usize, row: &[usize; 8]) -> Option<Asked>
    requires { row.now ≡ row_of (read pool.now).words r }
    ensures { result ≡ asked_by (read pool.now) r sortᵏ }
{
    let right = (row[SORT_LEVEL] < pool.words.tables.levels) & unused(&row[2..6]);
    leaf(right, 0)
}

fn ask_const(pool: &Pool<'_>, r: usize, row: &[usize; 8]) -> Option<Asked>
    requires { row.now ≡ row_of (read pool.now).words r }
    ensures { result ≡ asked_by (read pool.now) r constᵏ }
{
    let rest = (row[CONST_LIST] < pool.words.tables.lists) & unused(&row[3..6]);
    leaf((row[CONST_NAME] < pool.names.tables.names) & rest, 0)
}

fn ask_app(pool: &Pool<'_>, r: usize, row: &[usize; 8]) -> Option<Asked>
    requires { row.now ≡ row_of (read pool.now).words r }
    ensures { result ≡ asked_by (read pool.now) r appᵏ }
{
    let words = &pool.words;
    let function = row[APP_FUNCTION];
    let argument = row[APP_ARGUMENT];
    let right = (function < r) & ((argument < r) & unused(&row[3..6]));
    let depth = over_two(words, function, argument);
    let loose = words
        .expr(function, EXPR_LOOSE)
        .max(words.expr(argument, EXPR_LOOSE));
    right.then_some(Asked { depth, loose })
}

// A pi or a lambda: the same is asked of both. Inlined, as all that is called once is, so that the answer stays out of memory.
#[inline(always)]
fn ask_binder(pool: &Pool<'_>, r: usize, row: &[usize; 8]) -> Option<Asked>
    requires { row.now ≡ row_of (read pool.now).words r }
    ensures pi { result ≡ asked_by (read pool.now) r piᵏ }
    ensures lambda { result ≡ asked_by (read pool.now) r lamᵏ }
{
    let words = &pool.words;
    let ty = row[BINDER_TYPE];
    let body = row[BINDER_BODY];
    let children = (ty < r) & ((body < r) & unused(&row[5..6]));
    // A style is tested as the number that it is here, like the other fields.
    let right = (row[BINDER_NAME] < pool.names.tables.names) & ((row[BINDER_STYLE] < 4) & children);
    let depth = over_two(words, ty, body);
    let loose = under_binder(words, ty, body);
    right.then_some(Asked { depth, loose })
}

fn ask_let(pool: &Pool<'_>, r: usize, row: &[usize; 8]) -> Option<Asked>
    requires { row.now ≡ row_of (read pool.now).words r }
    ensures { result ≡ asked_by (read pool.now) r letᵏ }
{
    let words = &pool.words;
    let ty = row[LET_TYPE];
    let value = row[LET_VALUE];
    let body = row[LET_BODY];
    let children = (ty < r) & ((value < r) & ((body < r) & (row[LET_NONDEP] < 2)));
    let right = (row[LET_NAME] < pool.names.tables.names) & children;
    let deeper = words
        .expr(value, EXPR_DEPTH)
        .max(words.expr(body, EXPR_DEPTH));
    let depth = 1 + words.expr(ty, EXPR_DEPTH).max(deeper);
    let loose = words
        .expr(ty, EXPR_LOOSE)
        .max(under_binder(words, value, body));
    right.then_some(Asked { depth, loose })
}

fn ask_proj(pool: &Pool<'_>, r: usize, row: &[usize; 8]) -> Option<Asked>
    requires { row.now ≡ row_of (read pool.now).words r }
    ensures { result ≡ asked_by (read pool.now) r projᵏ }
{
    let words = &pool.words;
    let structure = row[PROJ_STRUCTURE];
    let rest = (row[PROJ_INDEX] <= LAST_PROJECTION) & ((structure < r) & unused(&row[4..6]));
    let right = (row[PROJ_NAME] < pool.names.tables.names) & rest;
    let depth = 1 + words.expr(structure, EXPR_DEPTH);
    let loose = words.expr(structure, EXPR_LOOSE);
    right.then_some(Asked { depth, loose })
}

fn ask_nat(pool: &Pool<'_>, marks: &[u8], r: usize, row: &[usize; 8]) -> Option<Asked>
    requires { row.now ≡ row_of (read pool.now).words r }
    ensures marked { Marked (read pool.now) marks.now → result ≡ asked_by (read pool.now) r natᵏ }
    ensures unmarked { marks.now ≡ [] → result ≡ None }
{
    let string = row[LITERAL_STRING];
    let rest = (byte_at(marks, string) == 1) & unused(&row[2..6]);
    leaf((string < pool.names.tables.strings) & rest, 0)
}

fn ask_string(pool: &Pool<'_>, r: usize, row: &[usize; 8]) -> Option<Asked>
    requires { row.now ≡ row_of (read pool.now).words r }
    ensures { result ≡ asked_by (read pool.now) r strᵏ }
{
    let right = (row[LITERAL_STRING] < pool.names.tables.strings) & unused(&row[2..6]);
    leaf(right, 0)
}

// What each kind asks: one choice, since a choice that is not foreseen costs as much as all of a row's tests.
#[tactic(auto, unfolding(pool::specs::Kinds::expr_kind, pool::specs::Rules::expr_fields_ok_with))]
#[inline(always)]
pub(crate) fn ask(pool: &Pool<'_>, marks: &[u8], r: usize, row: &[usize; 8]) -> Option<Asked>
    requires { row.now ≡ row_of (read pool.now).words r }
    ensures marked { MarkedFor (read pool.now) marks.now r
        → result ≡ asked_by (read pool.now) r (expr_kind (expr_word (read pool.now).words r 0)) }
    ensures unmarked { marks.now ≡ [] → expr_word (read pool.now).words r 0 ≡ 8 → result ≡ None }
{
    match ExprKind::try_from(row[EXPR_KIND]) {
        Ok(ExprKind::Var) => ask_var(pool, r, row),
        Ok(ExprKind::Sort) => ask_sort(pool, r, row),
        Ok(ExprKind::Const) => ask_const(pool, r, row),
        Ok(ExprKind::App) => ask_app(pool, r, row),
        Ok(ExprKind::Pi) => ask_binder(pool, r, row),
        Ok(ExprKind::Lambda) => ask_binder(pool, r, row),
        Ok(ExprKind::Let) => ask_let(pool, r, row),
        Ok(ExprKind::Proj) => ask_proj(pool, r, row),
        Ok(ExprKind::Nat) => ask_nat(pool, marks, r, row),
        Ok(ExprKind::String) => ask_string(pool, r, row),
        Err(_) => None,
    }
}
