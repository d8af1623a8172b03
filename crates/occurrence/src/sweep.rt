// One sweep over the rows tells of each which of 64 variables occur in its tree; at most four sweeps, from the highest variables down, tell
// of all that a tree of the greatest depth can ask.
ghost use Rattle.std.specs.Prelude.{◌≡◌, ◌+◌, ◌*◌, ◌<◌, ◌≤◌, length};
ghost use Rattle.pool.specs.Tables.{E};
ghost use Rattle.occurrence.specs.Parts.{part_of};
ghost use Rattle.occurrence.specs.Sets.{kept, entry_at, lowered, body_word, last_bit};
ghost use Rattle.occurrence.specs.Sets.{row_word, row_step, sweep_rows, sweeps, Sweep, Answers};

use super::parts::Parts;
use pool::fields::{EXPR_DEPTH, EXPR_LOOSE};
use pool::words::Words;

// The words and the lowest bits stand in two arrays, `sets` and `above`: as one of pairs they would take 16 bytes a row for 9, all to be
// cleared.

// What a table has of a part.
fn entry_at<T: Copy>(table: &[T], part: Option<usize>, none: T) -> T
    ensures { result ≡ entry_at none table.now (part_of part) }
{
    let Some(r) = part else {
        return none;
    };
    if table.len() <= r {
        return none;
    }
    table[r]
}

// Each variable one lower; the carry is the one after the 64.
fn lower(word: u64, carry: u64) -> u64
    ensures { result ≡ lowered word carry }
{
    word / 2 + carry % 2 * 9223372036854775808
}

#[tactic(auto, unfolding(crate::specs::Sets::body_word))]
fn body_word(sets: &[u64], above: &[u8], part: Option<usize>) -> u64
    ensures { result ≡ body_word sets.now above.now (part_of part) }
{
    lower(entry_at(sets, part, 0), u64::from(entry_at(above, part, 0)))
}

// The greatest variable of a tree occurs in it.
#[tactic(auto, using(crate::proofs::StepLaws::no_last, crate::proofs::StepLaws::a_last))]
fn last_bit(loose: usize, base: usize) -> u64
    requires { base < loose }
    ensures { result ≡ last_bit loose base }
{
    if 64 < loose - base {
        return 0;
    }
    1u64 << (loose - base - 1)
}

#[tactic(auto, unfolding(crate::specs::Sets::row_word))]
fn row_word(words: &Words<'_>, sets: &[u64], above: &[u8], base: usize, r: usize) -> u64
    ensures { result ≡ row_word words.now.words.now sets.now above.now base r }
{
    let loose = words.expr(r, EXPR_LOOSE);
    if loose <= base {
        return 0;
    }
    let parts = Parts::of(words, r, words.expr_kind(r));
    let first = entry_at(sets, parts.first, 0);
    let second = entry_at(sets, parts.second, 0);
    let body = body_word(sets, above, parts.body);
    last_bit(loose, base) | (first | (second | body))
}

#[tactic(auto, unfolding(crate::specs::Sets::row_step))]
fn row_step(words: &Words<'_>, sets: &mut [u64], above: &mut [u8], base: usize, r: usize)
    requires { (r < length sets.old) × (r < length above.old) }
    ensures { kept sets.new above.new
        ≡ row_step words.now.words.now base r (kept sets.old above.old) }
{
    above[r] = (sets[r] % 2) as u8;
    sets[r] = row_word(words, sets, above, base, r);
}

// The words of the rows below n, of the variables from base on; before, they are of those from 64 later on.
fn sweep(words: &Words<'_>, sets: &mut [u64], above: &mut [u8], base: usize, n: usize)
    requires { (n ≤ length sets.old) × (n ≤ length above.old) }
    ensures { kept sets.new above.new
        ≡ sweep_rows words.now.words.now base n 0 (kept sets.old above.old) }
{
    for r in 0..n {
        row_step(words, sets, above, base, r);
    }
}

fn sweep_each(
    words: &Words<'_>,
    sets: &mut [u64],
    above: &mut [u8],
    i: usize,
    n: usize,
    times: usize,
)
    requires { (n ≤ length sets.old) × (n ≤ length above.old)
        × (i + times * 64 ≤ 1099511627776) }
    ensures { kept sets.new above.new
        ≡ sweeps words.now.words.now i n times (kept sets.old above.old) }
{
    for s in (0..times).rev() {
        sweep(words, sets, above, i + s * 64, n);
    }
}

// Whether i occurs in the tree of row r: as many sweeps as its depth asks.
fn answered(words: &Words<'_>, sets: &mut [u64], above: &mut [u8], r: usize, i: usize) -> bool
    requires { Sweep words.now.words.now r i sets.old above.old }
    ensures { Answers words.now.words.now r i result }
{
    let times = words.expr(r, EXPR_DEPTH) / 64 + 1;
    sweep_each(words, sets, above, i, r + 1, times);
    sets[r] % 2 == 1
}

// The same with arrays of N rows: their size is fixed, as nothing is allocated. They stay in a function of their own: whoever asks pays for
// them only where it comes to a sweep.
#[inline(never)]
pub fn swept<const N: usize>(words: &Words<'_>, r: usize, i: usize) -> bool
    requires { (r < E words.now.words.now) × (r < N) × (N < 65537) × (i < 4294967296) }
    ensures { Answers words.now.words.now r i result }
{
    let mut sets = [0u64; N];
    let mut above = [0u8; N];
    answered(words, &mut sets, &mut above, r, i)
}
