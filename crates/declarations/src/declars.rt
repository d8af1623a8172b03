// Declarations: word, info, the rest, and a value.
ghost use Rattle.std.specs.Prelude.{◌≡◌, true, ◌&&◌, ◌+◌, ◌<◌, ◌≤◌};
ghost use Rattle.pool.specs.Tables.{E, declar_word};
ghost use Rattle.binders.specs.Options.{options_of, pool_of};
ghost use Rattle.pool.specs.Unfold.{name_at, list_at, expr_at, has_value};
ghost use Rattle.document.specs.Leaves.{Leaves};
ghost use Rattle.document.specs.Sink.{emit};
ghost use Rattle.document.specs.Walk.{textᵐ};
ghost use Rattle.binders.specs.Asked.{Asked, InChain};
ghost use Rattle.declarations.specs.Declars.{keyword, info, can_leave, main_def, main_axiom};
ghost use Rattle.binders.specs.Steps.{first_binder, is_binder, chain_length, drop_chain};
ghost use Rattle.declarations.specs.Heads.{Declared, can_take, TakenEnd, head_part, type_part, value_part};
ghost use Rattle.declarations.specs.Heads.{def_part, def_start, def_parts, axiom_part, axiom_start};

use binders::chain::{chain_length, push_chain};
use binders::printer::Printer;
use binders::runs::{in_run, is_pi, run_end};
use binders::stack::Stack;
use document::sink::Sink;
use levels::levels::pp_uparams;
use names::components::is_anonymous;
use names::names::pp_name_safe;
use pieces::words::{join_line, join_word, put_word};
use pool::fields::{
    BINDER_BODY, BINDER_NAME, DECLAR_KIND, DECLAR_LIST, DECLAR_NAME, DECLAR_TYPE, DECLAR_VALUE,
};
use pool::kinds::BinderStyle;
use pretty_printer::exprs::{pp_expr, pp_tail, telescope};

// Whether the binder at row r can leave a type: a pi of default style that is not anonymous.
#[tactic(auto, using(binders::proofs::BinderLaws::binder_rows), unfolding(crate::specs::Declars::can_leave, binders::specs::Steps::binder_kind))]
fn can_leave(p: &Printer<'_>, r: usize) -> bool
    requires { (r < E (pool_of p.now).words) }
    ensures { result ≡ (is_binder (expr_at (pool_of p.now) r) && can_leave
        (first_binder (expr_at (pool_of p.now) r))) }
{
    is_pi(&p.pool.words, r)
        && p.pool.words.binder_style(r) == Some(BinderStyle::Default)
        && !is_anonymous(&p.pool, p.pool.words.expr(r, BINDER_NAME))
}

// Whether the binder at row r leaves the type: it can, and the value is a lambda.
#[tactic(auto, unfolding(crate::specs::Heads::can_take))]
fn can_take(p: &Printer<'_>, r: usize, value: usize) -> bool
    requires { (r < E (pool_of p.now).words) × (value < E (pool_of p.now).words) }
    ensures { result ≡ can_take (expr_at (pool_of p.now) r) (expr_at (pool_of p.now) value) }
{
    can_leave(p, r) && in_run(p, value, false)
}

// What is left of a type and of a value, and how many binders left the type.
#[derive(Clone, Copy)]
pub struct Opened {
    pub row: usize,
    pub value: usize,
    pub count: usize,
}

// The leading binders of the type at row r leave it while they can and the value opens.
fn taken(p: &Printer<'_>, r: usize, value: usize) -> Opened
    requires { (r < E (pool_of p.now).words) × (value < E (pool_of p.now).words) }
    ensures { TakenEnd (pool_of p.now) r value result.row result.value result.count }
{
    let mut at = r;
    let mut opened = value;
    let mut n: usize = 0;
    while can_take(p, at, opened) {
        n += 1;
        at = p.pool.words.expr(at, BINDER_BODY);
        opened = p.pool.words.expr(opened, BINDER_BODY);
    }
    Opened {
        row: at,
        value: opened,
        count: n,
    }
}

// The words of the kinds of declarations: a constant table indexed by the kind's word, a form that document 01 names.
const KEYWORDS: [&[u8]; 8] = [
    b"axiom",
    b"Quotient primitive",
    b"theorem",
    b"def",
    b"opaque",
    b"inductive",
    b"constructor",
    b"recursor",
];

// The word of a kind of declaration.
#[tactic(auto, unfolding(crate::specs::Declars::keyword, pieces::specs::Docs::quoted, utf8::specs::Quoted::bytes, utf8::specs::Quoted::encode))]
fn keyword(kind: usize) -> &'static [u8]
    requires { kind < 8 }
    ensures { textᵐ result.now ≡ keyword kind }
{
    KEYWORDS[kind]
}

// The name and the levels of a declaration.
fn pp_declar_info(p: &Printer<'_>, sink: &mut Sink<'_>, r: usize)
    requires { Declared (pool_of p.now) r }
    ensures { Leaves sink.old sink.new (emit (info (name_at (pool_of p.now) (declar_word (pool_of p.now).words r 1))
        (list_at (pool_of p.now) (declar_word (pool_of p.now).words r 2)))) }
{
    let name = p.pool.words.declar(r, DECLAR_NAME);
    pp_name_safe(&p.pool, sink, name);
    let list = p.pool.words.declar(r, DECLAR_LIST);
    pp_uparams(&p.pool, sink, list);
    sink.put_join()
}

// Word and info, up to the rest.
fn pp_declar_head(p: &Printer<'_>, sink: &mut Sink<'_>, r: usize)
    requires { Declared (pool_of p.now) r }
    ensures { Leaves sink.old sink.new (emit (head_part (declar_word (pool_of p.now).words r 0)
        (name_at (pool_of p.now) (declar_word (pool_of p.now).words r 1))
        (list_at (pool_of p.now) (declar_word (pool_of p.now).words r 2)))) }
{
    put_word(sink, keyword(p.pool.words.declar(r, DECLAR_KIND)));
    join_word(sink, b" ");
    pp_declar_info(p, sink, r);
    sink.put_join();
    join_word(sink, b" ")
}

// What is left of a type after its first m binders, after a break.
fn pp_type(p: &Printer<'_>, sink: &mut Sink<'_>, k: Stack, m: usize, r: usize)
    requires { InChain (pool_of p.now) k m m r }
    ensures { Leaves sink.old sink.new (emit (type_part (options_of p.now) (pool_of p.now) k m
        (expr_at (pool_of p.now) r))) }
{
    sink.put_break(1);
    pp_tail(p, sink, k, m, m, r, 0);
    sink.put_group();
    sink.put_join();
    sink.put_nest(p.indent)
}

// A value in the scope of the m binders that it was opened by, after a break.
fn def_value(p: &Printer<'_>, sink: &mut Sink<'_>, k: Stack, m: usize, r: usize)
    requires { Asked (pool_of p.now) k m r }
    ensures { Leaves sink.old sink.new (emit (value_part (options_of p.now) (pool_of p.now) k m
        (expr_at (pool_of p.now) r))) }
{
    sink.put_break(1);
    pp_expr(p, sink, k, m, r, 0);
    sink.put_group();
    sink.put_join();
    sink.put_nest(p.indent)
}

// The binders that left a type, and the colon.
fn def_start(p: &Printer<'_>, sink: &mut Sink<'_>, k: Stack, r: usize, count: usize)
    requires { (InChain (pool_of p.now) k 0 0 r)
        × (count ≤ chain_length (expr_at (pool_of p.now) r)) }
    ensures { Leaves sink.old sink.new (def_start (options_of p.now) (pool_of p.now) k count
        (expr_at (pool_of p.now) r)) }
{
    if count == 0 {
        return put_word(sink, b":");
    }
    telescope(p, sink, k, 0, 0, r, count, true);
    sink.put_group();
    sink.put_nest(p.indent);
    join_word(sink, b" ");
    join_word(sink, b":")
}

// The rest of a definition, up to its value: the type at row r without its first binders is at another row.
fn def_rest(p: &Printer<'_>, sink: &mut Sink<'_>, k: Stack, r: usize, row: usize, count: usize)
    requires r_in_chain { (InChain (pool_of p.now) k 0 0 r)
        × (count ≤ chain_length (expr_at (pool_of p.now) r)) }
    requires row_in_chain { (InChain (pool_of p.now) k count count row)
        × (expr_at (pool_of p.now) row ≡ drop_chain count (expr_at (pool_of p.now) r)) }
    ensures { Leaves sink.old sink.new (emit (def_part (options_of p.now) (pool_of p.now) k count
        (expr_at (pool_of p.now) r))) }
{
    def_start(p, sink, k, r, count);
    pp_type(p, sink, k, count, row);
    sink.put_join();
    join_word(sink, b" ");
    join_word(sink, b":=");
    if count == 0 {
        return;
    }
    sink.put_group()
}

// The rest and the value of a definition.
fn def_parts(p: &Printer<'_>, sink: &mut Sink<'_>, k: Stack, r: usize, value: usize)
    requires { (InChain (pool_of p.now) k 0 0 r) × (value < E (pool_of p.now).words) }
    ensures { Leaves sink.old sink.new (def_parts (options_of p.now) (pool_of p.now) k (expr_at (pool_of p.now) r)
        (expr_at (pool_of p.now) value)) }
{
    let end = taken(p, r, value);
    let row = end.row;
    let count = end.count;
    def_rest(p, sink, k, r, row, count);
    sink.put_join();
    let opened = end.value;
    def_value(p, sink, k, count, opened);
    sink.put_join()
}

// The first binders of a type, and the colon.
fn axiom_start(p: &Printer<'_>, sink: &mut Sink<'_>, k: Stack, r: usize, count: usize)
    requires { (InChain (pool_of p.now) k 0 0 r)
        × (count ≤ chain_length (expr_at (pool_of p.now) r)) }
    ensures { Leaves sink.old sink.new (axiom_start (options_of p.now) (pool_of p.now) k count
        (expr_at (pool_of p.now) r)) }
{
    if count == 0 {
        return put_word(sink, b":");
    }
    telescope(p, sink, k, 0, 0, r, count, true);
    join_word(sink, b" ");
    join_word(sink, b":")
}

// The rest of another declaration: the type at row r without its first binders is at another row.
fn axiom_rest(p: &Printer<'_>, sink: &mut Sink<'_>, k: Stack, r: usize, row: usize, count: usize)
    requires r_in_chain { (InChain (pool_of p.now) k 0 0 r)
        × (count ≤ chain_length (expr_at (pool_of p.now) r)) }
    requires row_in_chain { (InChain (pool_of p.now) k count count row)
        × (expr_at (pool_of p.now) row ≡ drop_chain count (expr_at (pool_of p.now) r)) }
    ensures { Leaves sink.old sink.new (emit (axiom_part (options_of p.now) (pool_of p.now) k count
        (expr_at (pool_of p.now) r))) }
{
    axiom_start(p, sink, k, r, count);
    join_line(sink);
    pp_tail(p, sink, k, count, count, row, 0);
    sink.put_group();
    sink.put_join();
    sink.put_group();
    sink.put_nest(p.indent)
}

// The stack with the names of the chain at row r alone.
fn chain_stack(p: &Printer<'_>, r: usize) -> Stack
    requires { (r < E (pool_of p.now).words)
        × (chain_length (expr_at (pool_of p.now) r) ≤ 1024) }
    ensures { InChain (pool_of p.now) result 0 0 r }
{
    let mut k = Stack::empty();
    push_chain(p, &mut k, 0, r);
    k
}

// A theorem, definition or opaque constant.
pub fn main_def(p: &Printer<'_>, sink: &mut Sink<'_>, r: usize)
    requires { (Declared (pool_of p.now) r) × (has_value (declar_word (pool_of p.now).words r 0) ≡ true) }
    ensures { Leaves sink.old sink.new (emit (main_def (options_of p.now) (declar_word (pool_of p.now).words r 0)
        (name_at (pool_of p.now) (declar_word (pool_of p.now).words r 1))
        (list_at (pool_of p.now) (declar_word (pool_of p.now).words r 2))
        (expr_at (pool_of p.now) (declar_word (pool_of p.now).words r 3))
        (expr_at (pool_of p.now) (declar_word (pool_of p.now).words r 4)))) }
{
    pp_declar_head(p, sink, r);
    let type_row = p.pool.words.declar(r, DECLAR_TYPE);
    let length = chain_length(p, type_row);
    sink.put_names(type_row, length);
    if sink.is_stopped() {
        return;
    }
    let k = chain_stack(p, type_row);
    let value = p.pool.words.declar(r, DECLAR_VALUE);
    def_parts(p, sink, k, type_row, value)
}

// Another declaration. It begins as `main_def` does: one function for that would answer an `Option<Stack>`, one more copy of 4 KB.
pub fn main_axiom(p: &Printer<'_>, sink: &mut Sink<'_>, r: usize)
    requires { Declared (pool_of p.now) r }
    ensures { Leaves sink.old sink.new (emit (main_axiom (options_of p.now) (declar_word (pool_of p.now).words r 0)
        (name_at (pool_of p.now) (declar_word (pool_of p.now).words r 1))
        (list_at (pool_of p.now) (declar_word (pool_of p.now).words r 2))
        (expr_at (pool_of p.now) (declar_word (pool_of p.now).words r 3)))) }
{
    pp_declar_head(p, sink, r);
    let type_row = p.pool.words.declar(r, DECLAR_TYPE);
    let length = chain_length(p, type_row);
    sink.put_names(type_row, length);
    if sink.is_stopped() {
        return;
    }
    let k = chain_stack(p, type_row);
    let end = run_end(p, type_row, true);
    let row = end.row;
    let count = end.count;
    axiom_rest(p, sink, k, type_row, row, count);
    sink.put_join()
}
