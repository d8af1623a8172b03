// Where the tables of a pool stand in its words, and how many rows each has.
ghost use Rattle.std.specs.Prelude.{◌≡◌, ◌+◌, ◌*◌, ◌<◌, ◌≤◌, get_or};
ghost use Rattle.pool.specs.Areas.{NamesOf, WordsOf};

// Of the words that hold the strings and the names. The strings start at word 8.
#[derive(Clone, Copy, Debug, PartialEq, Eq)]
pub struct NameTables {
    pub strings: usize,
    pub names: usize,
    pub names_at: usize,
}

// Of the words that hold the rest, and where the last table ends.
#[derive(Clone, Copy, Debug, PartialEq, Eq)]
pub struct WordTables {
    pub levels: usize,
    pub lists: usize,
    pub entries: usize,
    pub exprs: usize,
    pub declars: usize,
    pub notation: usize,
    pub levels_at: usize,
    pub lists_at: usize,
    pub entries_at: usize,
    pub exprs_at: usize,
    pub declars_at: usize,
    pub notation_at: usize,
    pub total: usize,
}

// The word i, 0 past the end.
fn word_at(words: &[u32], i: usize) -> usize
    ensures { (result ≡ get_or words.now i 0) × (result < 4294967296) }
{
    if i < words.len() {
        return words[i] as usize;
    }
    0
}

// The word k of row r of a table that starts at `at` and has `width` words a row; 0 past the end. Inlined, since `width` is a
// number at each call, by which the machine need not divide.
#[inline(always)]
pub(crate) fn row_word(words: &[u32], at: usize, width: usize, r: usize, k: usize) -> usize
    requires { (8 ≤ at) × (at < 1099511627776) × (0 < width) × (width ≤ 8) × (k < 8) }
    ensures { (result ≡ get_or words.now (at + r * width + k) 0) × (result < 4294967296) }
{
    if words.len() / width <= r {
        return 0;
    }
    word_at(words, at + r * width + k)
}

pub(crate) fn name_tables(words: &[u32]) -> NameTables
    ensures { NamesOf words.now result }
{
    let strings = word_at(words, 0);
    NameTables {
        strings,
        names: word_at(words, 1),
        names_at: 8 + 2 * strings,
    }
}

pub(crate) fn word_tables(words: &[u32]) -> WordTables
    ensures { WordsOf words.now result }
{
    let levels = word_at(words, 2);
    let lists = word_at(words, 3);
    let entries = word_at(words, 4);
    let exprs = word_at(words, 5);
    let declars = word_at(words, 6);
    let notation = word_at(words, 7);
    let levels_at = 8 + 2 * word_at(words, 0) + 4 * word_at(words, 1);
    let lists_at = levels_at + 3 * levels;
    let entries_at = lists_at + 2 * lists;
    let exprs_at = entries_at + entries;
    let declars_at = exprs_at + 8 * exprs;
    let notation_at = declars_at + 5 * declars;
    WordTables {
        levels,
        lists,
        entries,
        exprs,
        declars,
        notation,
        levels_at,
        lists_at,
        entries_at,
        exprs_at,
        declars_at,
        notation_at,
        total: notation_at + 4 * notation,
    }
}
