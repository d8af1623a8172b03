// The kinds of a document's rows, and the words that stand for them.
ghost use Rattle.std.specs.Prelude.{◌≡◌};
ghost use Rattle.document.specs.Codes.{Reads, row_code};

use std::error::Error;
use std::fmt;

#[derive(Clone, Copy, Debug, PartialEq, Eq)]
pub enum RowKind {
    Text,
    Join,
    Break,
    Nest,
    Group,
}

// A word that stands for no kind.
#[derive(Clone, Copy, Debug, PartialEq, Eq)]
pub struct UnknownRowKind(pub usize);

impl fmt::Display for UnknownRowKind {
    fn fmt<W: fmt::Write>(&self, f: &mut fmt::Formatter<W>) -> fmt::Result {
        write!(f, "{} stands for no kind", self.0)
    }
}

impl Error for UnknownRowKind {}

impl RowKind {
    // The word that stands for it.
    pub fn code(self) -> u32
        ensures { result ≡ row_code self }
    {
        self as u32
    }
}

impl TryFrom<usize> for RowKind {
    type Error = UnknownRowKind;

    ghost try_from_gives = { Reads };

    fn try_from(word: usize) -> Result<RowKind, UnknownRowKind> {
        match word {
            0 => Ok(RowKind::Text),
            1 => Ok(RowKind::Join),
            2 => Ok(RowKind::Break),
            3 => Ok(RowKind::Nest),
            4 => Ok(RowKind::Group),
            _ => Err(UnknownRowKind(word)),
        }
    }
}
