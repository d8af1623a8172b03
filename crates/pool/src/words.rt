// The words of a pool that hold its levels, lists, expressions, declarations and notation rows, with their tables.
ghost use Rattle.std.specs.Prelude.{◌≡◌, ◌<◌};
ghost use Rattle.pool.specs.Tables.{level_word, list_word, list_entry, expr_word, declar_word, notation_word};
ghost use Rattle.pool.specs.Areas.{WordsOf};
ghost use Rattle.pool.specs.Codes.{Stands, declar_code, expr_code, level_code, notation_code, style_code};

use crate::fields::{BINDER_STYLE, DECLAR_KIND, EXPR_KIND, LEVEL_KIND, NOTATION_KIND};
use crate::kinds::{BinderStyle, DeclarKind, ExprKind, LevelKind, NotationKind};
use crate::tables::{WordTables, row_word, word_tables};

#[derive(Clone, Copy)]
pub struct Words<'a> {
    pub words: &'a [u32],
    pub tables: WordTables,
    ghost found: { WordsOf words.now tables },
}

// The word k of a row of each table; 0 past the end. That a row is below its table's count stands in each contract that needs it: a type of
// such rows would hold the words too.
#[tactic(auto, unfolding(crate::specs::Tables::level_word, crate::specs::Tables::list_word, crate::specs::Tables::list_entry, crate::specs::Tables::expr_word, crate::specs::Tables::declar_word, crate::specs::Tables::notation_word))]
impl<'a> Words<'a> {
    pub fn of(words: &'a [u32]) -> Words<'a>
        ensures { result.words.now ≡ words.now }
    {
        let tables = word_tables(words);
        Words { words, tables }
    }

    pub fn level(&self, r: usize, k: usize) -> usize
        requires { k < 8 }
        ensures { (result ≡ level_word self.now.words.now r k) × (result < 4294967296) }
    {
        row_word(self.words, self.tables.levels_at, 3, r, k)
    }

    pub fn list(&self, r: usize, k: usize) -> usize
        requires { k < 8 }
        ensures { (result ≡ list_word self.now.words.now r k) × (result < 4294967296) }
    {
        row_word(self.words, self.tables.lists_at, 2, r, k)
    }

    // A list word, which is a level row.
    pub fn entry(&self, i: usize) -> usize
        ensures { (result ≡ list_entry self.now.words.now i) × (result < 4294967296) }
    {
        row_word(self.words, self.tables.entries_at, 1, i, 0)
    }

    pub fn expr(&self, r: usize, k: usize) -> usize
        requires { k < 8 }
        ensures { (result ≡ expr_word self.now.words.now r k) × (result < 4294967296) }
    {
        row_word(self.words, self.tables.exprs_at, 8, r, k)
    }

    pub fn declar(&self, r: usize, k: usize) -> usize
        requires { k < 8 }
        ensures { (result ≡ declar_word self.now.words.now r k) × (result < 4294967296) }
    {
        row_word(self.words, self.tables.declars_at, 5, r, k)
    }

    pub fn notation(&self, r: usize, k: usize) -> usize
        requires { k < 8 }
        ensures { (result ≡ notation_word self.now.words.now r k) × (result < 4294967296) }
    {
        row_word(self.words, self.tables.notation_at, 4, r, k)
    }

    // The kind of a row of each table, and the style of a binder, if its word stands for one.
    pub fn level_kind(&self, r: usize) -> Option<LevelKind>
        ensures { Stands level_code 4 (level_word self.now.words.now r 0) result }
    {
        LevelKind::try_from(self.level(r, LEVEL_KIND)).ok()
    }

    pub fn expr_kind(&self, r: usize) -> Option<ExprKind>
        ensures { Stands expr_code 9 (expr_word self.now.words.now r 0) result }
    {
        ExprKind::try_from(self.expr(r, EXPR_KIND)).ok()
    }

    pub fn binder_style(&self, r: usize) -> Option<BinderStyle>
        ensures { Stands style_code 3 (expr_word self.now.words.now r 2) result }
    {
        BinderStyle::try_from(self.expr(r, BINDER_STYLE)).ok()
    }

    pub fn declar_kind(&self, r: usize) -> Option<DeclarKind>
        ensures { Stands declar_code 7 (declar_word self.now.words.now r 0) result }
    {
        DeclarKind::try_from(self.declar(r, DECLAR_KIND)).ok()
    }

    pub fn notation_kind(&self, r: usize) -> Option<NotationKind>
        ensures { Stands notation_code 2 (notation_word self.now.words.now r 1) result }
    {
        NotationKind::try_from(self.notation(r, NOTATION_KIND)).ok()
    }
}
