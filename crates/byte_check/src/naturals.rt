// The naturals among the strings, marked in one pass over their rows. Offsets never fall: a string begins in the run of digits of the one
// before it, or past that run. So digits that strings share are read once, however many rows name them.
ghost use Rattle.std.specs.Prelude.{◌≡◌, false, ◌<◌, ◌≤◌, length, get_or};
ghost use Rattle.pool.specs.Tables.{S};
ghost use Rattle.pool.specs.Rules.{natural, is_digit};
ghost use Rattle.pool.specs.Views.{read};
ghost use Rattle.byte_check.specs.Runs.{span, Digits, RunOf, RunAt, Marked};

use crate::strings::string_end;
use pool::fields::STRING_OFFSET;
use pool::pool::Pool;
use std::ops::Range;

fn is_digit(b: u8) -> bool
    ensures { result ≡ is_digit b }
{
    48 <= b && b < 58
}

// The first byte from `from` on and before `to` that is no digit, or `to`.
fn digits_end(bytes: &[u8], from: usize, to: usize) -> usize
    requires { (from ≤ to) × (to ≤ length bytes.now) }
    ensures { (from ≤ result) × (result ≤ to) × (Digits bytes.now from result)
        × (result < to → is_digit (get_or bytes.now result 0) ≡ false) }
{
    for i in from..to {
        if !is_digit(bytes[i]) {
            return i;
        }
    }
    to
}

// The run of digits that the bytes from `from` on and before `to` begin in, from the run before it.
fn run_at(bytes: &[u8], run: Range<usize>, from: usize, to: usize) -> Range<usize>
    requires { (RunOf bytes.now run) × (from ≤ to) × (to ≤ length bytes.now) }
    ensures { RunAt bytes.now from to result }
{
    let known = run.end;
    if run.start <= from && from <= known {
        return run.start..digits_end(bytes, known, known.max(to));
    }
    from..digits_end(bytes, from, to)
}

// Whether the bytes from `from` on and before `to` are one or more digits, with no leading zero unless the one digit is 0. They begin in
// a run of digits.
fn is_natural(bytes: &[u8], from: usize, to: usize, run: &Range<usize>) -> bool
    requires { (RunAt bytes.now from to run.now) × (to ≤ length bytes.now) }
    ensures { result ≡ natural (span bytes.now from to) }
{
    if to <= from {
        return false;
    }
    let starts = to - from == 1 || bytes[from] != 48;
    starts && to <= run.end
}

// Marks the string rows that are naturals.
pub fn mark_naturals(pool: &Pool<'_>, marks: &mut [u8])
    requires { S (read pool.now).names ≤ length marks.old }
    ensures { Marked (read pool.now) marks.new }
{
    let bytes = pool.bytes;
    let mut run = 0..0;
    for r in 0..pool.names.tables.strings {
        let from = pool.names.string(r, STRING_OFFSET).min(bytes.len());
        let to = string_end(&pool.names, r).min(bytes.len());
        run = run_at(bytes, run, from, to);
        marks[r] = u8::from(is_natural(bytes, from, to, &run));
    }
}
