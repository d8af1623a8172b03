// The parts of an expression row: at most two under the same variables, and at most one under one more.
ghost use Rattle.std.specs.Prelude.{◌≡◌, ℕ};
ghost use Rattle.pool.specs.Codes.{Stands, expr_code};
ghost use Rattle.occurrence.specs.Parts.{first_part, second_part, body_part, part_of};

use pool::fields::{
    APP_ARGUMENT, APP_FUNCTION, BINDER_BODY, BINDER_TYPE, LET_BODY, LET_TYPE, LET_VALUE,
    PROJ_STRUCTURE,
};
use pool::kinds::ExprKind;
use pool::words::Words;

// Rows, each where there is one.
#[derive(Clone, Copy, Debug, PartialEq, Eq)]
pub struct Parts {
    pub first: Option<usize>,
    pub second: Option<usize>,
    pub body: Option<usize>,
}

impl Parts {
    // Those of row r as a row of this kind has them. Inlined, since the search asks at each row.
    #[tactic(auto, unfolding(crate::specs::Parts::first_part, crate::specs::Parts::second_part, crate::specs::Parts::body_part))]
    #[inline(always)]
    pub fn of(words: &Words<'_>, r: usize, kind: Option<ExprKind>) -> Parts
        ensures first { (k : ℕ) → Stands expr_code 9 k kind → part_of result.first ≡ first_part words.now.words.now r k }
        ensures second { (k : ℕ) → Stands expr_code 9 k kind → part_of result.second ≡ second_part words.now.words.now r k }
        ensures body { (k : ℕ) → Stands expr_code 9 k kind → part_of result.body ≡ body_part words.now.words.now r k }
    {
        let none = Parts {
            first: None,
            second: None,
            body: None,
        };
        match kind {
            Some(ExprKind::App) => Parts {
                first: Some(words.expr(r, APP_FUNCTION)),
                second: Some(words.expr(r, APP_ARGUMENT)),
                ..none
            },
            Some(ExprKind::Pi | ExprKind::Lambda) => Parts {
                first: Some(words.expr(r, BINDER_TYPE)),
                body: Some(words.expr(r, BINDER_BODY)),
                ..none
            },
            Some(ExprKind::Let) => Parts {
                first: Some(words.expr(r, LET_TYPE)),
                second: Some(words.expr(r, LET_VALUE)),
                body: Some(words.expr(r, LET_BODY)),
            },
            Some(ExprKind::Proj) => Parts {
                first: Some(words.expr(r, PROJ_STRUCTURE)),
                ..none
            },
            _ => none,
        }
    }
}
