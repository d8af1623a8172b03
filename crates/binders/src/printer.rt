// What goes to every printer of expressions.
ghost use Rattle.std.specs.Prelude.{◌≡◌, ◌≤◌, [], length};
ghost use Rattle.pool.specs.Tables.{N, T};
ghost use Rattle.pool.specs.Areas.{over};
ghost use Rattle.notation.specs.Tables.{Operators};

use pool::checked::CheckedPool;

// A pool that was checked, each of whose name rows fits 16 bits, the operators of its names, in a table by name row that is empty where
// there is no notation, and the indent of a nest. The sink, which is lent to be changed, the stack, which is copied, and the scope, another
// one at each call, stay parameters.
#[derive(Clone, Copy)]
pub struct Printer<'a> {
    pub pool: CheckedPool<'a>,
    pub operators: &'a [u32],
    pub indent: u32,
    ghost few: { N pool.names.words.now ≤ 65536 },
    ghost told: { Operators (over pool.bytes.now pool.names.words.now pool.words.words.now) operators.now },
    ghost none: { length operators.now ≡ 0 → T pool.words.words.now ≡ 0 },
}
