// The levels: kind, a, b.
ghost use Rattle.std.specs.Prelude.{◌≡◌, ◌≤◌};
ghost use Rattle.pool.specs.Tables.{L};
ghost use Rattle.pool.specs.Rules.{level_ok};
ghost use Rattle.pool.specs.Views.{read};
ghost use Rattle.byte_check.specs.Scan.{found};
ghost use Rattle.pool_check.specs.Depths.{level_table, level_law};

use crate::depths::{Deep, first_bad};
use byte_check::table::byte_at;
use pool::fields::{LEVEL_FIRST, LEVEL_SECOND};
use pool::kinds::LevelKind;
use pool::pool::Pool;

struct LevelRows;

#[tactic(auto, unfolding(pool::specs::Rules::level_fields_ok, pool::specs::Depths::level_depth_by, pool::specs::Kinds::level_kind))]
impl Deep for LevelRows {
    ghost table = { level_table };

    ghost law = { level_law };

    fn rows(pool: &Pool<'_>) -> usize {
        pool.words.tables.levels
    }

    fn ask(pool: &Pool<'_>, r: usize, depths: &[u8]) -> Option<usize> {
        let first = pool.words.level(r, LEVEL_FIRST);
        let second = pool.words.level(r, LEVEL_SECOND);
        let under = byte_at(depths, first);
        let deeper = under.max(byte_at(depths, second));
        match pool.words.level_kind(r)? {
            LevelKind::Zero => (first == 0 && second == 0).then_some(1),
            LevelKind::Succ => (first < r && second == 0).then_some(1 + under),
            LevelKind::Max | LevelKind::IMax => (first < r && second < r).then_some(1 + deeper),
            LevelKind::Param => (first < pool.names.tables.names && second == 0).then_some(1),
        }
    }
}

// The first level row that breaks a rule.
#[tactic(auto, unfolding(pool::specs::Rules::level_ok))]
pub(crate) fn first_bad_level(pool: &Pool<'_>) -> Option<usize>
    requires { L (read pool.now).words ≤ 65536 }
    ensures { result ≡ found (level_ok (read pool.now)) (L (read pool.now).words) }
{
    first_bad::<LevelRows>(pool)
}
