// The listings: a whole expression, and a whole declaration.
ghost use Rattle.std.specs.Prelude.{◌≡◌, ◌<◌};
ghost use Rattle.pool.specs.Tables.{E, D, declar_word};
ghost use Rattle.binders.specs.Options.{options_of, pool_of};
ghost use Rattle.pool.specs.Unfold.{expr_at, declar_at, has_value};
ghost use Rattle.document.specs.Leaves.{Leaves};
ghost use Rattle.document.specs.Sink.{emit};
ghost use Rattle.pretty_printer.specs.Exprs.{expr_doc};
ghost use Rattle.declarations.specs.Declars.{declar_doc};
ghost use Rattle.declarations.specs.Roots.{row_of, roots_in, root_doc};

use crate::declars::{main_axiom, main_def};
use binders::printer::Printer;
use binders::stack::Stack;
use document::sink::Sink;
use pool::kinds::DeclarKind;
use pretty_printer::exprs::pp_expr;

// What is printed: an expression or a declaration of the pool.
#[derive(Clone, Copy, Debug, PartialEq, Eq)]
pub enum Root {
    Expr { row: usize },
    Declar { row: usize },
}

// The listing of the expression at row r.
pub fn print_expr(p: &Printer<'_>, sink: &mut Sink<'_>, r: usize)
    requires { (r < E (pool_of p.now).words) }
    ensures { Leaves sink.old sink.new (emit (expr_doc (options_of p.now) (expr_at (pool_of p.now) r))) }
{
    pp_expr(p, sink, Stack::empty(), 0, r, 0);
    sink.put_group()
}

// Theorems, definitions and opaque constants have a value.
fn has_value(p: &Printer<'_>, r: usize) -> bool
    ensures { result ≡ has_value (declar_word (pool_of p.now).words r 0) }
{
    matches!(
        p.pool.words.declar_kind(r),
        Some(DeclarKind::Theorem | DeclarKind::Definition | DeclarKind::Opaque)
    )
}

// The listing of the declaration at row r.
pub fn print_declar(p: &Printer<'_>, sink: &mut Sink<'_>, r: usize)
    requires { (r < D (pool_of p.now).words) }
    ensures { Leaves sink.old sink.new (emit (declar_doc (options_of p.now) (declar_at (pool_of p.now) r))) }
{
    if has_value(p, r) {
        main_def(p, sink, r);
        return sink.put_group();
    }
    main_axiom(p, sink, r);
    sink.put_group()
}

// The listing of a root that the pool has.
pub fn print(p: &Printer<'_>, sink: &mut Sink<'_>, root: Root)
    requires { row_of root < roots_in root (pool_of p.now) }
    ensures { Leaves sink.old sink.new (emit (root_doc root (options_of p.now) (pool_of p.now))) }
{
    match root {
        Root::Expr { row } => print_expr(p, sink, row),
        Root::Declar { row } => print_declar(p, sink, row),
    }
}
