// Variables.
ghost use Rattle.std.specs.Prelude.{◌≡◌, ◌≤◌};
ghost use Rattle.binders.specs.Options.{pool_of};
ghost use Rattle.document.specs.Leaves.{Leaves};
ghost use Rattle.document.specs.Sink.{emit};
ghost use Rattle.binders.specs.Variables.{var_doc};
ghost use Rattle.binders.specs.Scopes.{Held, names_of, place_in};

use crate::printer::Printer;
use crate::stack::Stack;
use document::sink::Sink;
use names::names::pp_name_safe;
use pieces::digits::put_number;

// The variable i of a scope: the name at its place, else its index among the names in force, in digits.
#[tactic(auto, using(crate::proofs::ScopeLaws::places))]
pub fn pp_bvar(p: &Printer<'_>, sink: &mut Sink<'_>, k: Stack, scope: usize, i: usize)
    requires { (Held (pool_of p.now) k) × (scope ≤ k.count)
        × (i ≤ 4095) }
    ensures { Leaves sink.old sink.new (emit (var_doc (names_of (pool_of p.now) k) (place_in k scope i)
        (place_in k scope i))) }
{
    let mut at = scope;
    let mut left = i;
    // No `for`: how many are left where the scope ends is the answer.
    while at > 0 && left > 0 {
        at = k.entries[at - 1].link as usize;
        left -= 1;
    }
    if at > 0 {
        pp_name_safe(&p.pool, sink, k.entries[at - 1].name as usize)
    } else {
        put_number(sink, (k.count + left) as u64)
    }
}
