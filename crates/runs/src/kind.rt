// The two prints. A `Root` has a row, which two runs of one kind do not share.
ghost use Rattle.std.specs.Prelude.{◌≡◌};
ghost use Rattle.runs.specs.Calls.{root_of};

use lister::Root;

#[derive(Clone, Copy, Debug, PartialEq, Eq)]
pub enum Kind {
    Expression,
    Declaration,
}

impl Kind {
    // The root of this kind at a row.
    pub fn root(self, row: usize) -> Root
        ensures { result ≡ root_of self row }
    {
        match self {
            Kind::Expression => Root::Expr { row },
            Kind::Declaration => Root::Declar { row },
        }
    }
}
