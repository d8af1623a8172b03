// The names: kind, prefix, low, high.
ghost use Rattle.std.specs.Prelude.{◌≡◌, ◌≤◌};
ghost use Rattle.pool.specs.Tables.{N};
ghost use Rattle.pool.specs.Rules.{name_ok};
ghost use Rattle.pool.specs.Views.{read};
ghost use Rattle.byte_check.specs.Scan.{found};
ghost use Rattle.pool_check.specs.Depths.{name_table, name_law};

use crate::depths::{Deep, first_bad};
use byte_check::table::byte_at;
use pool::fields::{NAME_HIGH, NAME_LOW, NAME_PREFIX};
use pool::kinds::NameKind;
use pool::pool::Pool;

struct NameRows;

#[tactic(auto, unfolding(pool::specs::Rules::name_fields_ok, pool::specs::Depths::name_depth_by, pool::specs::Kinds::name_kind))]
impl Deep for NameRows {
    ghost table = { name_table };

    ghost law = { name_law };

    fn rows(pool: &Pool<'_>) -> usize {
        pool.names.tables.names
    }

    fn ask(pool: &Pool<'_>, r: usize, depths: &[u8]) -> Option<usize> {
        let names = &pool.names;
        let prefix = names.name(r, NAME_PREFIX);
        let low = names.name(r, NAME_LOW);
        let high = names.name(r, NAME_HIGH);
        let depth = 1 + byte_at(depths, prefix);
        match names.kind(r)? {
            NameKind::Anonymous => (prefix == 0 && (low == 0 && high == 0)).then_some(1),
            NameKind::String => (prefix < r && (low < names.tables.strings && high == 0)).then_some(
                depth,
            ),
            NameKind::Number => (prefix < r).then_some(depth),
        }
    }
}

// The first name row that breaks a rule.
#[tactic(auto, unfolding(pool::specs::Rules::name_ok))]
pub(crate) fn first_bad_name(pool: &Pool<'_>) -> Option<usize>
    requires { N (read pool.now).names ≤ 65536 }
    ensures { result ≡ found (name_ok (read pool.now)) (N (read pool.now).names) }
{
    first_bad::<NameRows>(pool)
}
