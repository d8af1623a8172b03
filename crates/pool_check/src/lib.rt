// Check: whether a pool keeps the rules of documents 01 and 02 (numbers 1 to 4, and 31).
#![tactic(auto)]

mod declars;
mod depths;
mod levels;
mod lists;
mod names;

ghost use Rattle.std.specs.Prelude.{◌≡◌, IfOk};
ghost use Rattle.pool.specs.Tables.{pool};
ghost use Rattle.pool.specs.Views.{read, lent};
ghost use Rattle.pool_check.specs.Check.{words_ok, rows_verdict, verdict};
ghost use Rattle.notation.specs.Classes.{NamesRight};
ghost use Rattle.pool_check.specs.Stages.{as_verdict, limits, words_verdict, Small, Limited};

use byte_check::strings::first_bad_string;
use expr_check::exprs::first_bad_expr;
use notation::operators::notation_ok;
use pool::checked::CheckedPool;
use pool::pool::Pool;
use std::error::Error;
use std::fmt;

// Why a pool is refused.
#[derive(Clone, Copy, Debug, PartialEq, Eq)]
pub enum PoolError {
    // 1: the words are short of the head, or their total is wrong.
    Words,
    // 2: a count or the byte area is over its limit.
    Limit,
    // 3: a string pair.
    Strings { row: usize },
    // 4: any other row rule.
    Rows { row: usize },
    // 31: a notation row breaks a rule, or a name tree is given twice.
    Notation,
}

impl fmt::Display for PoolError {
    fn fmt<W: fmt::Write>(&self, f: &mut fmt::Formatter<W>) -> fmt::Result {
        match self {
            PoolError::Words => f.write_str("the words are not those of a pool"),
            PoolError::Limit => f.write_str("a count or the byte area is over its limit"),
            PoolError::Strings { row } => write!(f, "row {row} of the strings breaks a rule"),
            PoolError::Rows { row } => write!(f, "row {row} of another table breaks a rule"),
            PoolError::Notation => f.write_str(
                "a notation row breaks a rule, or a name has two operators",
            ),
        }
    }
}

impl Error for PoolError {}

// "words short of the head, or total wrong"
fn words_ok(pool: &Pool<'_>) -> bool
    ensures { result ≡ words_ok (read pool.now).words }
{
    let size = pool.words.words.len();
    8 <= size && pool.words.tables.total == size
}

// "each at most 65,536", "at most 16,777,216 bytes"
fn limits_ok(pool: &Pool<'_>) -> bool
    ensures { result ≡ limits (read pool.now) }
{
    let names = &pool.names.tables;
    let words = &pool.words.tables;
    let bytes = words.notation <= 65536 && pool.bytes.len() <= 16777216;
    let last = words.declars <= 65536 && bytes;
    let exprs = words.entries <= 65536 && (words.exprs <= 65536 && last);
    let rest = words.levels <= 65536 && (words.lists <= 65536 && exprs);
    names.strings <= 65536 && (names.names <= 65536 && rest)
}

// The tables from the levels on, in order; the notation last, since 31 comes after every 4. A return for each, so that each is a goal of
// its own.
fn check_words(pool: &Pool<'_>) -> Result<(), PoolError>
    requires few { Small (read pool.now) }
    requires right { NamesRight (read pool.now) }
    ensures { result ≡ words_verdict (read pool.now) }
{
    if let Some(row) = levels::first_bad_level(pool) {
        return Err(PoolError::Rows { row });
    }
    if let Some(row) = lists::first_bad_list(pool) {
        return Err(PoolError::Rows { row });
    }
    if let Some(row) = lists::first_bad_entry(pool) {
        return Err(PoolError::Rows { row });
    }
    if let Some(row) = first_bad_expr(pool) {
        return Err(PoolError::Rows { row });
    }
    if let Some(row) = declars::first_bad_declar(pool) {
        return Err(PoolError::Rows { row });
    }
    if !notation_ok(pool) {
        return Err(PoolError::Notation);
    }
    Ok(())
}

// All tables in order, rows rising.
fn check_rows(pool: &Pool<'_>) -> Result<(), PoolError>
    requires { Small (read pool.now) }
    ensures { result ≡ rows_verdict (read pool.now) }
{
    if let Some(row) = first_bad_string(pool) {
        return Err(PoolError::Strings { row });
    }
    if let Some(row) = names::first_bad_name(pool) {
        return Err(PoolError::Rows { row });
    }
    check_words(pool)
}

// The pool, where it is accepted, and else the first of the numbers 1 to 4 and 31 that refuses it, with its place.
pub fn check<'a>(bytes: &'a [u8], words: &'a [u32]) -> Result<CheckedPool<'a>, PoolError>
    ensures verdict { as_verdict result ≡ verdict bytes.now words.now }
    ensures same { IfOk result (λ p. lent p ≡ pool bytes.now words.now) }
    ensures few { IfOk result (λ p. Limited bytes.now words.now) }
{
    let pool = Pool::of(bytes, words);
    if !words_ok(&pool) {
        return Err(PoolError::Words);
    }
    if !limits_ok(&pool) {
        return Err(PoolError::Limit);
    }
    check_rows(&pool)?;
    Ok(CheckedPool {
        bytes: pool.bytes,
        names: pool.names,
        words: pool.words,
    })
}
