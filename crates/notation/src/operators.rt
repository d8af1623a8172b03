// The operators of names, in a table by name row.
ghost use Rattle.std.specs.Prelude.{◌≡◌, ℕ, ◌<◌, ◌≤◌, true, false, length, get_or, is_none, replicate};
ghost use Rattle.pool.specs.Tables.{S, N, T};
ghost use Rattle.pool.specs.Notation.{notation_ok, notation_fields_ok};
ghost use Rattle.pool.specs.Views.{read};
ghost use Rattle.byte_check.specs.Scan.{found};
ghost use Rattle.notation.specs.Classes.{NamesRight, Classed, name_tree, string_tree};
ghost use Rattle.notation.specs.Tables.{FieldsRight, Operators, Owned};

use crate::classes::classify;
use crate::hashes::mark;
use crate::names::NameRows;
use crate::strings::StringRows;
use pool::fields::{NOTATION_NAME, NOTATION_PRIORITY, NOTATION_STRING};
use pool::pool::Pool;

// "priority 1 to 1,023"
const LAST_PRIORITY: usize = 1023;

// "name, kind (0 prefix, 1 infix, 2 postfix), priority 1 to 1,023, string"
#[tactic(auto, unfolding(pool::specs::Notation::notation_fields_ok))]
fn fields_ok(pool: &Pool<'_>, r: usize) -> bool
    ensures { result ≡ notation_fields_ok (read pool.now) r }
{
    let words = &pool.words;
    let name = words.notation(r, NOTATION_NAME);
    let kind = words.notation_kind(r).is_some();
    let priority = words.notation(r, NOTATION_PRIORITY);
    let string = words.notation(r, NOTATION_STRING);
    let tail = priority <= LAST_PRIORITY && string < pool.names.tables.strings;
    name < pool.names.tables.names && (kind && (1 <= priority && tail))
}

// Whether the fields of all rows keep their rules.
fn all_fields_ok(pool: &Pool<'_>) -> bool
    ensures right { result ≡ true → FieldsRight (read pool.now) }
    ensures wrong { result ≡ false → is_none (found (notation_ok (read pool.now)) (T (read pool.now).words)) ≡ false }
{
    for r in 0..pool.words.tables.notation {
        if !fields_ok(pool, r) {
            return false;
        }
    }
    true
}

// One more than the notation row of each class of names, 0 for a class without one; whether none is given twice.
fn owners_of(pool: &Pool<'_>, classes: &[u32], owners: &mut [u32]) -> bool
    requires few { T (read pool.now).words ≤ 65536 }
    requires fields { FieldsRight (read pool.now) }
    requires classes { Classed (name_tree (read pool.now)) classes.now (N (read pool.now).names) }
    requires room { N (read pool.now).names ≤ length classes.now }
    requires owners { N (read pool.now).names ≤ length owners.old }
    requires empty { owners.old ≡ replicate (length owners.old) 0 }
    ensures once { result ≡ is_none (found (notation_ok (read pool.now)) (T (read pool.now).words)) }
    ensures owned { result ≡ true → Owned (read pool.now) classes.now owners.new (T (read pool.now).words) }
{
    let pool = *pool;
    for r in 0..pool.words.tables.notation {
        let class = classes[pool.words.notation(r, NOTATION_NAME)] as usize;
        if owners[class] != 0 {
            return false;
        }
        owners[class] = (r + 1) as u32;
    }
    true
}

// Each name row has what its class has.
fn spread(pool: &Pool<'_>, classes: &[u32], owners: &[u32], table: &mut [u32])
    requires classes { Classed (name_tree (read pool.now)) classes.now (N (read pool.now).names) }
    requires room { N (read pool.now).names ≤ length classes.now }
    requires owners { N (read pool.now).names ≤ length owners.now }
    requires table { N (read pool.now).names ≤ length table.old }
    ensures { (r : ℕ) → r < N (read pool.now).names → get_or table.new r 0 ≡ get_or owners.now (get_or classes.now r 0) 0 }
{
    let pool = *pool;
    for r in 0..pool.names.tables.names {
        table[r] = owners[classes[r] as usize];
    }
}

// The classes of the strings of all rows. The marks of the byte area are made for them.
fn string_classes<const SIZE: usize>(pool: &Pool<'_>, strings: &mut [u32])
    requires right { NamesRight (read pool.now) }
    requires rows { S (read pool.now).names ≤ SIZE }
    requires small { SIZE ≤ 65536 }
    requires room { S (read pool.now).names ≤ length strings.old }
    ensures { Classed (string_tree (read pool.now)) strings.new (S (read pool.now).names) }
{
    let mut marks = [0u32; SIZE];
    mark(pool.bytes, &mut marks);
    classify::<StringRows, SIZE>(pool, &marks, strings);
}

// The operators of the names of all rows, where SIZE is at least the count of strings and of names; whether no name is given twice. Not
// inlined: its tables would stay in the frame of a print.
#[inline(never)]
pub fn operators<const SIZE: usize>(pool: &Pool<'_>, table: &mut [u32]) -> bool
    requires right { NamesRight (read pool.now) }
    requires fields { FieldsRight (read pool.now) }
    requires strings { S (read pool.now).names ≤ SIZE }
    requires names { N (read pool.now).names ≤ SIZE }
    requires small { SIZE ≤ 65536 }
    requires room { N (read pool.now).names ≤ length table.old }
    ensures once { result ≡ is_none (found (notation_ok (read pool.now)) (T (read pool.now).words)) }
    ensures table { result ≡ true → Operators (read pool.now) table.new }
{
    let mut strings = [0u32; SIZE];
    string_classes::<SIZE>(pool, &mut strings);
    let mut classes = [0u32; SIZE];
    classify::<NameRows, SIZE>(pool, &strings, &mut classes);
    let mut owners = [0u32; SIZE];
    if !owners_of(pool, &classes, &mut owners) {
        return false;
    }
    spread(pool, &classes, &owners, table);
    true
}

// Whether no name is given twice, with a table of SIZE entries. Not inlined: the tables would stand in the frame of every check.
#[inline(never)]
fn given_once<const SIZE: usize>(pool: &Pool<'_>) -> bool
    requires right { NamesRight (read pool.now) }
    requires fields { FieldsRight (read pool.now) }
    requires strings { S (read pool.now).names ≤ SIZE }
    requires names { N (read pool.now).names ≤ SIZE }
    requires small { SIZE ≤ 65536 }
    ensures { result ≡ is_none (found (notation_ok (read pool.now)) (T (read pool.now).words)) }
{
    operators::<SIZE>(pool, &mut [0u32; SIZE])
}

// Whether all notation rows keep their rules. The tables are no longer than need be, since all of each is cleared.
pub fn notation_ok(pool: &Pool<'_>) -> bool
    requires { NamesRight (read pool.now) }
    ensures { result ≡ is_none (found (notation_ok (read pool.now)) (T (read pool.now).words)) }
{
    if pool.words.tables.notation == 0 {
        return true;
    }
    if !all_fields_ok(pool) {
        return false;
    }
    let names = &pool.names.tables;
    match names.strings.max(names.names) {
        0..=64 => given_once::<64>(pool),
        65..=512 => given_once::<512>(pool),
        513..=4096 => given_once::<4096>(pool),
        _ => given_once::<65536>(pool),
    }
}
