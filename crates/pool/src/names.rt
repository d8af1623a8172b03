// The words of a pool that hold its strings and its names, with their tables.
ghost use Rattle.std.specs.Prelude.{◌≡◌, ◌<◌};
ghost use Rattle.pool.specs.Tables.{string_word, name_word};
ghost use Rattle.pool.specs.Areas.{NamesOf};
ghost use Rattle.pool.specs.Codes.{Stands, name_code};

use crate::fields::NAME_KIND;
use crate::kinds::NameKind;
use crate::tables::{NameTables, name_tables, row_word};

#[derive(Clone, Copy)]
pub struct Names<'a> {
    pub words: &'a [u32],
    pub tables: NameTables,
    ghost found: { NamesOf words.now tables },
}

#[tactic(auto, unfolding(crate::specs::Tables::string_word, crate::specs::Tables::name_word))]
impl<'a> Names<'a> {
    pub fn of(words: &'a [u32]) -> Names<'a>
        ensures { result.words.now ≡ words.now }
    {
        let tables = name_tables(words);
        Names { words, tables }
    }

    // The word k of a string row; 0 past the end.
    pub fn string(&self, r: usize, k: usize) -> usize
        requires { k < 8 }
        ensures { (result ≡ string_word self.now.words.now r k) × (result < 4294967296) }
    {
        row_word(self.words, 8, 2, r, k)
    }

    // The word k of a name row; 0 past the end.
    pub fn name(&self, r: usize, k: usize) -> usize
        requires { k < 8 }
        ensures { (result ≡ name_word self.now.words.now r k) × (result < 4294967296) }
    {
        row_word(self.words, self.tables.names_at, 4, r, k)
    }

    // The kind of a name row, if its word stands for one.
    pub fn kind(&self, r: usize) -> Option<NameKind>
        ensures { Stands name_code 2 (name_word self.now.words.now r 0) result }
    {
        NameKind::try_from(self.name(r, NAME_KIND)).ok()
    }
}
