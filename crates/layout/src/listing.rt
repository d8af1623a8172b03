// The listing: its area, the width, and the cursor. Its methods have the cursor emit a piece, and keep the cursor that is handed back.
ghost use Rattle.std.specs.Prelude.{◌≡◌, ◌+◌, ◌<◌, ◌≤◌, length};

use crate::cursor::{Cursor, start};

#[derive(Drop)]
pub struct Listing<'a> {
    pub area: &'a mut [u8],
    pub width: usize,
    pub cursor: Cursor,
    // the row that holds the cursor starts at end - width, which is not after the cursor
    ghost steady: { cursor.end ≤ cursor.position + width },
}

impl<'a> Listing<'a> {
    ghost use Rattle.layout.specs.Layout.{textᵖ, blankᵖ, newlineᵖ, testᵖ, fits_bytes};
    ghost use Rattle.layout.specs.Frames.{Begins, Emits};

    // Nothing emitted.
    pub fn new(area: &'a mut [u8], width: usize) -> Listing<'a>
        ensures { Begins area.entry width result }
    {
        Listing {
            area,
            width,
            cursor: start(width),
        }
    }

    pub fn text(&mut self, bytes: &[u8])
        requires { self.old.cursor.position + length bytes.now + self.old.width < 18446744073709551616 }
        ensures { Emits self.old self.new (textᵖ bytes.now) }
    {
        self.cursor = self.cursor.text(self.width, self.area, bytes);
    }

    pub fn blank(&mut self, size: usize)
        requires { self.old.cursor.position + size + self.old.width < 18446744073709551616 }
        ensures { Emits self.old self.new (blankᵖ size) }
    {
        self.cursor = self.cursor.blank(self.width, self.area, size);
    }

    pub fn newline(&mut self, nest: usize)
        requires { (self.old.cursor.position + 1 + nest + self.old.width < 18446744073709551616)
            × (self.old.cursor.lines + 1 < 18446744073709551616) }
        ensures { Emits self.old self.new (newlineᵖ 0 nest) }
    {
        self.cursor = self.cursor.newline(self.width, self.area, nest);
    }

    // The fit test, which is counted: whether a group of so many bytes, and what follows it up to the next break, ends in the row.
    #[tactic(auto, using(crate::proofs::Painting::painted))]
    pub fn fits(&mut self, size: usize, next: usize) -> bool
        requires { (self.old.cursor.position + size + next < 18446744073709551616) × (self.old.cursor.tests + 1 < 18446744073709551616) }
        ensures { (result ≡ fits_bytes self.old.cursor size next) × Emits self.old self.new (testᵖ result) }
    {
        self.cursor = self.cursor.tested();
        self.cursor.position + size + next <= self.cursor.end
    }
}
