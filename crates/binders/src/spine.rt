// Applications: the arguments and the head.
ghost use Rattle.std.specs.Prelude.{◌≡◌, ◌<◌};
ghost use Rattle.pool.specs.Tables.{E};
ghost use Rattle.binders.specs.Options.{pool_of};
ghost use Rattle.binders.specs.Spines.{SpineOf};

use crate::printer::Printer;
use pool::fields::{APP_ARGUMENT, APP_FUNCTION};
use pool::kinds::ExprKind;

// The rows of an application's arguments, the last one first, and of its head. The arguments are the first `count` of an array, whose size is
// fixed, as nothing here is allocated.
#[derive(Clone, Copy)]
pub struct Spine {
    pub arguments: [u32; 256],
    pub count: usize,
    pub head: usize,
}

// The spine of row r: a tree is at most 256 deep, so its arguments have room.
#[tactic(auto, using(crate::proofs::SpineLaws::app_rows))]
pub fn spine_of(p: &Printer<'_>, r: usize) -> Spine
    requires { r < E (pool_of p.now).words }
    ensures { SpineOf (pool_of p.now) r result.arguments result.count result.head }
{
    let mut arguments = [0u32; 256];
    let mut at = r;
    let mut n = 0;
    while p.pool.words.expr_kind(at) == Some(ExprKind::App) {
        arguments[n] = p.pool.words.expr(at, APP_ARGUMENT) as u32;
        n += 1;
        at = p.pool.words.expr(at, APP_FUNCTION);
    }
    Spine {
        arguments,
        count: n,
        head: at,
    }
}
