// The declarations: kind, name, list, type, value.
ghost use Rattle.std.specs.Prelude.{◌≡◌, cond, ltb, eqb};
ghost use Rattle.pool.specs.Codes.{declar_code};
ghost use Rattle.pool.specs.Tables.{D};
ghost use Rattle.pool.specs.Unfold.{has_value};
ghost use Rattle.pool.specs.Rules.{declar_ok};
ghost use Rattle.pool.specs.Views.{read};
ghost use Rattle.byte_check.specs.Scan.{found};

use pool::fields::{DECLAR_LIST, DECLAR_NAME, DECLAR_TYPE, DECLAR_VALUE};
use pool::kinds::DeclarKind;
use pool::pool::Pool;

// "value is used by 2 to 4 only"
fn value_ok(exprs: usize, kind: DeclarKind, value: usize) -> bool
    ensures { result ≡ cond (has_value (declar_code kind)) (ltb value exprs) (eqb value 0) }
{
    match kind {
        DeclarKind::Theorem | DeclarKind::Definition | DeclarKind::Opaque => value < exprs,
        _ => value == 0,
    }
}

#[tactic(auto, unfolding(pool::specs::Rules::declar_ok))]
fn declar_ok(pool: &Pool<'_>, r: usize) -> bool
    ensures { result ≡ declar_ok (read pool.now) r }
{
    let words = &pool.words;
    let Some(kind) = words.declar_kind(r) else {
        return false;
    };
    let exprs = words.tables.exprs;
    let name = words.declar(r, DECLAR_NAME);
    let list = words.declar(r, DECLAR_LIST);
    let ty = words.declar(r, DECLAR_TYPE);
    let value = words.declar(r, DECLAR_VALUE);
    let tail = ty < exprs && value_ok(exprs, kind, value);
    name < pool.names.tables.names && (list < words.tables.lists && tail)
}

// The first declaration row that breaks a rule.
pub(crate) fn first_bad_declar(pool: &Pool<'_>) -> Option<usize>
    ensures { result ≡ found (declar_ok (read pool.now)) (D (read pool.now).words) }
{
    (0..pool.words.tables.declars).find(|r| !declar_ok(pool, *r))
}
