// The lists: pairs into the list words, each of which is a level row.
ghost use Rattle.std.specs.Prelude.{◌≡◌};
ghost use Rattle.pool.specs.Tables.{K, Q, list_word};
ghost use Rattle.pool.specs.Rules.{rising, list_ok, list_entry_ok};
ghost use Rattle.pool.specs.Views.{read};
ghost use Rattle.byte_check.specs.Scan.{found};

use pool::fields::{LIST_LENGTH, LIST_OFFSET};
use pool::pool::Pool;
use pool::words::Words;

// Whether the offset is at least the one before it.
fn list_rises(words: &Words<'_>, r: usize) -> bool
    ensures { result ≡ rising (λ i. list_word words.now.words.now i 0) r }
{
    r == 0 || words.list(r - 1, LIST_OFFSET) <= words.list(r, LIST_OFFSET)
}

#[tactic(auto, unfolding(pool::specs::Rules::list_ok))]
fn list_ok(pool: &Pool<'_>, r: usize) -> bool
    ensures { result ≡ list_ok (read pool.now) r }
{
    let words = &pool.words;
    words.list(r, LIST_OFFSET) + words.list(r, LIST_LENGTH) <= words.tables.entries
        && list_rises(words, r)
}

// The first list row that breaks a rule.
pub(crate) fn first_bad_list(pool: &Pool<'_>) -> Option<usize>
    ensures { result ≡ found (list_ok (read pool.now)) (K (read pool.now).words) }
{
    (0..pool.words.tables.lists).find(|r| !list_ok(pool, *r))
}

#[tactic(auto, unfolding(pool::specs::Rules::list_entry_ok))]
fn list_entry_ok(pool: &Pool<'_>, i: usize) -> bool
    ensures { result ≡ list_entry_ok (read pool.now) i }
{
    pool.words.entry(i) < pool.words.tables.levels
}

// The first list word that is no level row.
pub(crate) fn first_bad_entry(pool: &Pool<'_>) -> Option<usize>
    ensures { result ≡ found (list_entry_ok (read pool.now)) (Q (read pool.now).words) }
{
    (0..pool.words.tables.entries).find(|i| !list_entry_ok(pool, *i))
}
