// The expression rows: kind, five fields, depth, loose.
ghost use Rattle.std.specs.Prelude.{◌≡◌, ℕ, ◌<◌, ◌≤◌, ◌⊎◌, true, false, ◌&&◌, eqb, leb, []};
ghost use Rattle.pool.specs.Tables.{S, E, expr_word};
ghost use Rattle.pool.specs.Rules.{expr_ok};
ghost use Rattle.pool.specs.Views.{read};
ghost use Rattle.byte_check.specs.Scan.{found};
ghost use Rattle.byte_check.specs.Runs.{Marked};
ghost use Rattle.expr_check.specs.Fields.{row_of};
ghost use Rattle.expr_check.specs.Marks.{MarkedFor, Right, Scanned};

use crate::kinds::{Asked, ask};
use byte_check::naturals::mark_naturals;
use pool::fields::{EXPR_DEPTH, EXPR_LOOSE};
use pool::kinds::ExprKind;
use pool::pool::Pool;
use pool::words::Words;

// The words of a row, read once.
fn row_at(words: &Words<'_>, r: usize) -> [usize; 8]
    ensures { result ≡ row_of words.now.words.now r }
{
    [
        words.expr(r, 0),
        words.expr(r, 1),
        words.expr(r, 2),
        words.expr(r, 3),
        words.expr(r, 4),
        words.expr(r, 5),
        words.expr(r, 6),
        words.expr(r, 7),
    ]
}

// Whether the depth and loose words of a row are those that its kind asks.
fn as_asked(depth: usize, loose: usize, want: Asked) -> bool
    ensures { result ≡ eqb depth want.depth && (leb depth 256 && eqb loose want.loose) }
{
    (depth == want.depth) & ((depth <= 256) & (loose == want.loose))
}

// Whether a row keeps its rules. No natural is taken where `marks` is empty.
fn expr_ok(pool: &Pool<'_>, marks: &[u8], r: usize) -> bool
    ensures marked { MarkedFor (read pool.now) marks.now r → result ≡ expr_ok (read pool.now) r }
    ensures unmarked { marks.now ≡ [] → expr_word (read pool.now).words r 0 ≡ 8 → result ≡ false }
{
    let row = row_at(&pool.words, r);
    match ask(pool, marks, r, &row) {
        Some(want) => as_asked(row[EXPR_DEPTH], row[EXPR_LOOSE], want),
        None => false,
    }
}

// The first expression row from `from` on that breaks a rule, where the strings that are naturals are marked. Where none is, it stops at
// the first natural too.
fn scan_exprs(pool: &Pool<'_>, marks: &[u8], from: usize) -> Option<usize>
    requires { (marks.now ≡ []) ⊎ Marked (read pool.now) marks.now }
    ensures { Scanned (read pool.now) marks.now from result }
{
    // A copy, so that where the table starts is read before the loop.
    let pool = *pool;
    for r in from..pool.words.tables.exprs {
        if !expr_ok(&pool, marks, r) {
            return Some(r);
        }
    }
    None
}

// The same in the whole table, where the rows before `from` are right: marks the strings first, in a table of N bytes, as nothing is
// allocated. Not inlined: the tables would stand in the frame of every check.
#[inline(never)]
fn scan_marked<const N: usize>(pool: &Pool<'_>, from: usize) -> Option<usize>
    requires room { S (read pool.now).names ≤ N }
    requires small { N ≤ 65536 }
    requires before { Right (read pool.now) 0 from }
    ensures { result ≡ found (expr_ok (read pool.now)) (E (read pool.now).words) }
{
    let mut marks = [0u8; N];
    mark_naturals(pool, &mut marks);
    scan_exprs(pool, &marks, from)
}

// The first expression row that breaks a rule. Strings are marked only once a natural is met, in a table that is no longer than need be,
// since all of it is cleared.
pub fn first_bad_expr(pool: &Pool<'_>) -> Option<usize>
    requires { S (read pool.now).names ≤ 65536 }
    ensures { result ≡ found (expr_ok (read pool.now)) (E (read pool.now).words) }
{
    let first = scan_exprs(pool, &[], 0)?;
    let Some(ExprKind::Nat) = pool.words.expr_kind(first) else {
        return Some(first);
    };
    match pool.names.tables.strings {
        0..=64 => scan_marked::<64>(pool, first),
        65..=4096 => scan_marked::<4096>(pool, first),
        _ => scan_marked::<65536>(pool, first),
    }
}
