// The row cursor. It goes by value: its methods emit a piece into the area, at the cursor, and hand back the cursor after it.
// The cursor may run past the area, where nothing is written: the refusal (22) is one test at the end.
ghost use Rattle.std.specs.Prelude.{◌≡◌, ◌+◌, ◌<◌, ◌≤◌, length};
ghost use Rattle.layout.specs.Layout;
ghost use Rattle.layout.specs.Layout.{textᵖ, blankᵖ, newlineᵖ};
ghost use Rattle.layout.specs.Contract.{Steady, Emitted};
ghost use Rattle.basics.specs.Lent.{was, left};

use crate::area::{copy_at, fill_at};

// The bytes emitted so far, where the row ends, the lines so far (that of the cursor among them), the longest row so far, and the fit tests
// so far.
#[derive(Clone, Copy)]
pub struct Cursor {
    pub position: usize,
    pub end: usize,
    pub lines: usize,
    pub longest: usize,
    pub tests: usize,
}

// Before the first piece.
pub fn start(width: usize) -> Cursor
    ensures { result ≡ Rattle.layout.specs.Layout.start width }
{
    Cursor {
        position: 0,
        end: width,
        lines: 1,
        longest: 0,
        tests: 0,
    }
}

impl Cursor {
    // The cursor further on in the same row, which starts at end - width.
    fn moved(self, width: usize, position: usize) -> Cursor
        requires { (self.end ≤ position + width) × (position + width < 18446744073709551616) }
        ensures { result ≡ Rattle.layout.specs.Layout.moved width self position }
    {
        Cursor {
            position,
            longest: self.longest.max(position + width - self.end),
            ..self
        }
    }

    pub fn text(self, width: usize, area: &mut [u8], bytes: &[u8]) -> Cursor
        requires { Steady width self × (self.position + length bytes.now + width < 18446744073709551616) }
        ensures { Emitted width (textᵖ bytes.now) self result (was area) (left area) }
    {
        copy_at(area, self.position, bytes);
        self.moved(width, self.position + bytes.len())
    }

    pub fn blank(self, width: usize, area: &mut [u8], size: usize) -> Cursor
        requires { Steady width self × (self.position + size + width < 18446744073709551616) }
        ensures { Emitted width (blankᵖ size) self result (was area) (left area) }
    {
        fill_at(area, self.position, size, b' ');
        self.moved(width, self.position + size)
    }

    // A broken place, which begins a line: a newline, then the row's end is set to position + width, then the nest in spaces.
    #[tactic(auto, using(crate::proofs::Painting::painted))]
    pub fn newline(self, width: usize, area: &mut [u8], nest: usize) -> Cursor
        requires { (self.position + 1 + nest + width < 18446744073709551616) × (self.lines + 1 < 18446744073709551616) }
        ensures { Emitted width (newlineᵖ 0 nest) self result (was area) (left area) }
    {
        fill_at(area, self.position, 1, b'\n');
        let position = self.position + 1;
        let row = Cursor {
            position,
            end: position + width,
            lines: self.lines + 1,
            ..self
        };
        row.blank(width, area, nest)
    }

    // One fit test more.
    pub fn tested(self) -> Cursor
        requires { self.tests + 1 < 18446744073709551616 }
        ensures { result ≡ Rattle.layout.specs.Layout.tested self }
    {
        Cursor {
            tests: self.tests + 1,
            ..self
        }
    }
}
