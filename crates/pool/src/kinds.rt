// The kinds of the rows of each table, as documents 01 and 02 number them, and the styles of binders.
ghost use Rattle.pool.specs.Codes.{DeclarsKind, ExprsKind, LevelsKind, NamesKind, NotationsKind, StylesKind};

use std::error::Error;
use std::fmt;

#[derive(Clone, Copy, Debug, PartialEq, Eq)]
pub enum NameKind {
    Anonymous,
    String,
    Number,
}

#[derive(Clone, Copy, Debug, PartialEq, Eq)]
pub enum LevelKind {
    Zero,
    Succ,
    Max,
    IMax,
    Param,
}

#[derive(Clone, Copy, Debug, PartialEq, Eq)]
pub enum ExprKind {
    Var,
    Sort,
    Const,
    App,
    Pi,
    Lambda,
    Let,
    Proj,
    Nat,
    String,
}

#[derive(Clone, Copy, Debug, PartialEq, Eq)]
pub enum BinderStyle {
    Default,
    Implicit,
    Strict,
    Instance,
}

#[derive(Clone, Copy, Debug, PartialEq, Eq)]
pub enum DeclarKind {
    Axiom,
    Quotient,
    Theorem,
    Definition,
    Opaque,
    Inductive,
    Constructor,
    Recursor,
}

#[derive(Clone, Copy, Debug, PartialEq, Eq)]
pub enum NotationKind {
    Prefix,
    Infix,
    Postfix,
}

// A word that stands for no kind of its table.
#[derive(Clone, Copy, Debug, PartialEq, Eq)]
pub struct UnknownKind(pub usize);

impl fmt::Display for UnknownKind {
    fn fmt<W: fmt::Write>(&self, f: &mut fmt::Formatter<W>) -> fmt::Result {
        write!(f, "{} stands for no kind", self.0)
    }
}

impl Error for UnknownKind {}

impl TryFrom<usize> for NameKind {
    type Error = UnknownKind;

    ghost try_from_gives = { NamesKind };

    fn try_from(word: usize) -> Result<NameKind, UnknownKind> {
        match word {
            0 => Ok(NameKind::Anonymous),
            1 => Ok(NameKind::String),
            2 => Ok(NameKind::Number),
            _ => Err(UnknownKind(word)),
        }
    }
}

impl TryFrom<usize> for LevelKind {
    type Error = UnknownKind;

    ghost try_from_gives = { LevelsKind };

    fn try_from(word: usize) -> Result<LevelKind, UnknownKind> {
        match word {
            0 => Ok(LevelKind::Zero),
            1 => Ok(LevelKind::Succ),
            2 => Ok(LevelKind::Max),
            3 => Ok(LevelKind::IMax),
            4 => Ok(LevelKind::Param),
            _ => Err(UnknownKind(word)),
        }
    }
}

impl TryFrom<usize> for ExprKind {
    type Error = UnknownKind;

    ghost try_from_gives = { ExprsKind };

    fn try_from(word: usize) -> Result<ExprKind, UnknownKind> {
        match word {
            0 => Ok(ExprKind::Var),
            1 => Ok(ExprKind::Sort),
            2 => Ok(ExprKind::Const),
            3 => Ok(ExprKind::App),
            4 => Ok(ExprKind::Pi),
            5 => Ok(ExprKind::Lambda),
            6 => Ok(ExprKind::Let),
            7 => Ok(ExprKind::Proj),
            8 => Ok(ExprKind::Nat),
            9 => Ok(ExprKind::String),
            _ => Err(UnknownKind(word)),
        }
    }
}

impl TryFrom<usize> for BinderStyle {
    type Error = UnknownKind;

    ghost try_from_gives = { StylesKind };

    fn try_from(word: usize) -> Result<BinderStyle, UnknownKind> {
        match word {
            0 => Ok(BinderStyle::Default),
            1 => Ok(BinderStyle::Implicit),
            2 => Ok(BinderStyle::Strict),
            3 => Ok(BinderStyle::Instance),
            _ => Err(UnknownKind(word)),
        }
    }
}

impl TryFrom<usize> for DeclarKind {
    type Error = UnknownKind;

    ghost try_from_gives = { DeclarsKind };

    fn try_from(word: usize) -> Result<DeclarKind, UnknownKind> {
        match word {
            0 => Ok(DeclarKind::Axiom),
            1 => Ok(DeclarKind::Quotient),
            2 => Ok(DeclarKind::Theorem),
            3 => Ok(DeclarKind::Definition),
            4 => Ok(DeclarKind::Opaque),
            5 => Ok(DeclarKind::Inductive),
            6 => Ok(DeclarKind::Constructor),
            7 => Ok(DeclarKind::Recursor),
            _ => Err(UnknownKind(word)),
        }
    }
}

impl TryFrom<usize> for NotationKind {
    type Error = UnknownKind;

    ghost try_from_gives = { NotationsKind };

    fn try_from(word: usize) -> Result<NotationKind, UnknownKind> {
        match word {
            0 => Ok(NotationKind::Prefix),
            1 => Ok(NotationKind::Infix),
            2 => Ok(NotationKind::Postfix),
            _ => Err(UnknownKind(word)),
        }
    }
}
