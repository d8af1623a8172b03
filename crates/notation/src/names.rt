// The classes of names: by the kind of the last component, the class of the name before it, and the class of its string or its number.
ghost use Rattle.std.specs.Prelude.{◌≡◌, ◌+◌, ◌*◌, ◌^◌, ◌<◌, get_or, length};
ghost use Rattle.pool.specs.Tables.{name_word};
ghost use Rattle.pool.specs.Views.{read};
ghost use Rattle.notation.specs.Classes.{name_table};

use crate::classes::Classes;
use crate::compared::Compared;
use crate::hashes::mixed;
use pool::fields::{NAME_HIGH, NAME_LOW, NAME_PREFIX};
use pool::kinds::NameKind;
use pool::names::Names;
use pool::pool::Pool;

// The number of a row whose last component is one.
fn number(names: &Names<'_>, r: usize) -> usize
    ensures { result ≡ name_word names.now.words.now r 2 + name_word names.now.words.now r 3 * 2 ^ 32 }
{
    names.name(r, NAME_LOW) + names.name(r, NAME_HIGH) * 4294967296
}

// The class of the name before the last component.
fn prefix(names: &Names<'_>, classes: &[u32], r: usize) -> usize
    requires { name_word names.now.words.now r 1 < length classes.now }
    ensures { (result ≡ get_or classes.now (name_word names.now.words.now r 1) 0) × (result < 4294967296) }
{
    classes[names.name(r, NAME_PREFIX)] as usize
}

// The class of the string of the last component.
fn string(names: &Names<'_>, strings: &[u32], r: usize) -> usize
    requires { name_word names.now.words.now r 2 < length strings.now }
    ensures { (result ≡ get_or strings.now (name_word names.now.words.now r 2) 0) × (result < 4294967296) }
{
    strings[names.name(r, NAME_LOW)] as usize
}

pub(crate) struct NameRows;

impl Classes for NameRows {
    ghost table = { name_table };

    fn rows(pool: &Pool<'_>) -> usize {
        pool.names.tables.names
    }

    fn hash(pool: &Pool<'_>, known: &[u32], classes: &[u32], r: usize) -> usize {
        let names = &pool.names;
        let Some(kind) = names.kind(r) else {
            return 0;
        };
        match kind {
            NameKind::Anonymous => 0,
            NameKind::String => mixed(1, prefix(names, classes, r), string(names, known, r)),
            NameKind::Number => mixed(2, prefix(names, classes, r), number(names, r)),
        }
    }

    fn same(
        pool: &Pool<'_>,
        known: &[u32],
        classes: &[u32],
        _compared: &mut Compared,
        r: usize,
        c: usize,
    ) -> bool {
        let names = &pool.names;
        if names.kind(c) != names.kind(r) {
            return false;
        }
        let Some(kind) = names.kind(c) else {
            return true;
        };
        match kind {
            NameKind::Anonymous => true,
            NameKind::String => {
                string(names, known, c) == string(names, known, r)
                    && prefix(names, classes, c) == prefix(names, classes, r)
            }
            NameKind::Number => {
                number(names, c) == number(names, r)
                    && prefix(names, classes, c) == prefix(names, classes, r)
            }
        }
    }
}
