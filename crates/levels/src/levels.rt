// Levels, sorts and level lists to documents.
ghost use Rattle.std.specs.Prelude.{◌≡◌, map, ◌-◌, ◌<◌, ◌≤◌};
ghost use Rattle.document.specs.Leaves.{Leaves};
ghost use Rattle.document.specs.Sink.{put_text, put_break, put_join, emit};
ghost use Rattle.pool.specs.Tables.{L, K, Q, level_word};
ghost use Rattle.pool.specs.Unfold.{level_at, levels_from, list_at};
ghost use Rattle.pool.specs.Views.{lent};
ghost use Rattle.utf8.specs.Quoted.{bytes};
ghost use Rattle.pieces.specs.Docs.{◌⊹◌, quoted, G, under, tile};
ghost use Rattle.pieces.specs.Tiles.{end_tile, put_tile};
ghost use Rattle.levels.specs.Counted.{Counted, max_text};
ghost use Rattle.levels.specs.Levels.{plus, level_par, sort_doc, levels_doc};

use document::sink::Sink;
use names::names::pp_name_safe;
use pieces::digits::put_number;
use pieces::parens::{close_paren, open_paren};
use pieces::words::{end_tile, join_line, join_word, put_word};
use pool::checked::CheckedPool;
use pool::fields::{LEVEL_FIRST, LEVEL_SECOND, LIST_LENGTH, LIST_OFFSET};
use pool::kinds::LevelKind;

// A level that is no successor, and how many successors of it are meant.
#[derive(Clone, Copy)]
pub struct Succs {
    pub base: usize,
    pub count: u64,
}

// The level at row r as successors of another.
fn level_succs(pool: &CheckedPool<'_>, r: usize) -> Succs
    requires { (r < L (lent pool.now).words) }
    ensures { Counted (lent pool.now) r result }
{
    let mut at = r;
    let mut n: u64 = 0;
    while pool.words.level_kind(at) == Some(LevelKind::Succ) {
        at = pool.words.level(at, LEVEL_FIRST);
        n += 1;
    }
    Succs { base: at, count: n }
}

// A sink that has stopped is handed back at once: rows may repeat, and without this a walk of them could take exponential time.
#[cycle(levels)]
pub fn pp_level(pool: &CheckedPool<'_>, sink: &mut Sink<'_>, r: usize, outer: usize)
    requires { (r < L (lent pool.now).words) × (outer ≤ 1024) }
    ensures { Leaves sink.old sink.new (emit (under outer (level_par (level_at (lent pool.now) r)))) }
{
    if sink.is_stopped() {
        return;
    }
    let l = level_succs(pool, r);
    let base = l.base;
    if l.count == 0 {
        return pp_base(pool, sink, base, outer);
    }
    if pool.words.level_kind(base) == Some(LevelKind::Zero) {
        return put_number(sink, l.count);
    }
    put_plus(pool, sink, base, l.count, outer)
}

// A level that is no successor.
#[cycle(levels)]
fn pp_base(pool: &CheckedPool<'_>, sink: &mut Sink<'_>, r: usize, outer: usize)
    requires { (r < L (lent pool.now).words) × (outer ≤ 1024)
        × (level_word (lent pool.now).words r 0 ≡ 1 → ⊥) }
    ensures { Leaves sink.old sink.new (emit (under outer (level_par (level_at (lent pool.now) r)))) }
{
    match pool.words.level_kind(r) {
        Some(LevelKind::Zero) => put_number(sink, 0),
        Some(LevelKind::Max) => pp_max(pool, sink, b"max", r, outer),
        Some(LevelKind::IMax) => pp_max(pool, sink, b"imax", r, outer),
        Some(LevelKind::Param) => pp_name_safe(pool, sink, pool.words.level(r, LEVEL_FIRST)),
        // Never, since a checked row has a kind, and the caller took the successors off.
        Some(LevelKind::Succ) | None => {}
    }
}

// A max or an imax, and its word.
#[cycle(levels)]
fn pp_max(pool: &CheckedPool<'_>, sink: &mut Sink<'_>, word: &[u8], r: usize, outer: usize)
    requires { (r < L (lent pool.now).words) × (2 ≤ level_word (lent pool.now).words r 0)
        × (level_word (lent pool.now).words r 0 < 4) × (word.now ≡ max_text (level_word (lent pool.now).words r 0)) }
    ensures { Leaves sink.old sink.new (emit (under outer (level_par (level_at (lent pool.now) r)))) }
{
    let left = pool.words.level(r, LEVEL_FIRST);
    let right = pool.words.level(r, LEVEL_SECOND);
    let open = 0 < outer;
    open_paren(sink, open);
    put_word(sink, word);
    join_word(sink, b" ");
    pp_level(pool, sink, left, 1);
    sink.put_join();
    join_line(sink);
    pp_level(pool, sink, right, 1);
    sink.put_join();
    close_paren(sink, open)
}

// Some successors of a level that is none, and not zero.
#[cycle(levels)]
fn put_plus(pool: &CheckedPool<'_>, sink: &mut Sink<'_>, base: usize, count: u64, outer: usize)
    requires { (base < L (lent pool.now).words) × (level_word (lent pool.now).words base 0 ≡ 1 → ⊥)
        × (0 < count) }
    ensures { Leaves sink.old sink.new (emit (under outer (plus (level_par (level_at (lent pool.now) base)) count))) }
{
    open_paren(sink, 0 < outer);
    pp_base(pool, sink, base, 1);
    join_word(sink, b"+");
    put_number(sink, count);
    sink.put_join();
    close_paren(sink, 0 < outer)
}

// A sort's word, and its level.
fn put_sort(pool: &CheckedPool<'_>, sink: &mut Sink<'_>, word: &[u8], r: usize)
    requires { r < L (lent pool.now).words }
    ensures { Leaves sink.old sink.new (λ st. put_join (emit (under 1024 (level_par (level_at (lent pool.now) r)))
        (put_join (put_text (bytes " ") (put_text word.now st))))) }
{
    put_word(sink, word);
    join_word(sink, b" ");
    pp_level(pool, sink, r, 1024);
    sink.put_join();
}

// The sort of the level at row r.
pub fn pp_sort(pool: &CheckedPool<'_>, sink: &mut Sink<'_>, r: usize)
    requires { r < L (lent pool.now).words }
    ensures { Leaves sink.old sink.new (emit (sort_doc (level_at (lent pool.now) r))) }
{
    let kind = pool.words.level_kind(r);
    if kind == Some(LevelKind::Zero) {
        return put_word(sink, b"Prop");
    }
    if kind == Some(LevelKind::Succ) {
        let below = pool.words.level(r, LEVEL_FIRST);
        return put_sort(pool, sink, b"Type", below);
    }
    put_sort(pool, sink, b"Sort", r);
}

// The next level of a tile.
fn put_next_level(pool: &CheckedPool<'_>, sink: &mut Sink<'_>, r: usize)
    requires { (r < L (lent pool.now).words) }
    ensures { Leaves sink.old sink.new (λ st. end_tile (emit (under 0 (level_par (level_at (lent pool.now) r)))
        (put_break 1 st))) }
{
    sink.put_break(1);
    pp_level(pool, sink, r, 0);
    end_tile(sink)
}

// The levels of the list words from `from` to `to`, after the first of a tile.
fn put_next_levels(pool: &CheckedPool<'_>, sink: &mut Sink<'_>, from: usize, to: usize)
    requires { (from ≤ to) × (to ≤ Q (lent pool.now).words) }
    ensures { Leaves sink.old sink.new (put_tile (map (λ x. under 0 (level_par x))
        (levels_from (lent pool.now) from (to - from)))) }
{
    for i in from..to {
        put_next_level(pool, sink, pool.words.entry(i));
    }
}

// The levels of the list words from `from` to `to`, at least one, in braces.
fn pp_levels(pool: &CheckedPool<'_>, sink: &mut Sink<'_>, from: usize, to: usize)
    requires { (from < to) × (to ≤ Q (lent pool.now).words) }
    ensures { Leaves sink.old sink.new (emit (G (quoted "{" ⊹ tile
        (map (λ x. under 0 (level_par x)) (levels_from (lent pool.now) from (to - from))) ⊹ quoted "}"))) }
{
    put_word(sink, b"{");
    let first = pool.words.entry(from);
    pp_level(pool, sink, first, 0);
    put_next_levels(pool, sink, from + 1, to);
    sink.put_join();
    join_word(sink, b"}");
    sink.put_group()
}

// What follows a declaration's name: the levels of list row r.
pub fn pp_uparams(pool: &CheckedPool<'_>, sink: &mut Sink<'_>, r: usize)
    requires { (r < K (lent pool.now).words) }
    ensures { Leaves sink.old sink.new (emit (levels_doc (list_at (lent pool.now) r))) }
{
    let from = pool.words.list(r, LIST_OFFSET);
    let count = pool.words.list(r, LIST_LENGTH);
    if count == 0 {
        return put_word(sink, b"");
    }
    put_word(sink, b".");
    pp_levels(pool, sink, from, from + count);
    sink.put_join()
}
