// The sink that printers emit a document into: the two areas that it is lent, and how far it has come in them. It is sticky: once it has
// stopped, no function writes or changes anything, so that printers need no branch after each call.
ghost use Rattle.std.specs.Prelude.{◌≡◌, [], ◌∷◌, length, replicate, is_some};
ghost use Rattle.document.specs.Sink.{refuse, put_row, put_byte, put_bytes, room_of, end_text, put_text};
ghost use Rattle.document.specs.Sink.{put_break, put_join, put_nest, put_group, put_wrapped, put_names, stop_with};
ghost use Rattle.document.specs.Codes.{row_code};
ghost use Rattle.document.specs.Leaves.{Leaves, Begins};
ghost use Rattle.document.specs.Rows.{Small};

use crate::bytes::copy;
use crate::kinds::RowKind;
use crate::measures::{Measures, joined, measures_at, wrapped};
use crate::written::{Stop, Written};
use basics::numbers::low;

#[derive(Drop)]
pub struct Sink<'a> {
    pub rows: &'a mut [u32],
    pub text: &'a mut [u8],
    pub written: Written,
}

impl<'a> Sink<'a> {
    // Both areas are cleared first.
    pub fn new(rows: &'a mut [u32], text: &'a mut [u8]) -> Sink<'a>
        ensures { Begins rows.entry text.entry result }
    {
        clear(rows, text);
        Sink {
            rows,
            text,
            written: Written::default(),
        }
    }

    pub fn is_stopped(&self) -> bool
        ensures { result ≡ is_some self.now.written.stop }
    {
        self.written.stop.is_some()
    }

    fn stop(&mut self, stop: Stop)
        ensures { Leaves self.old self.new (stop_with stop) }
    {
        self.written.stop = Some(stop);
    }

    // Number 7, at the place of a chain or a let.
    #[tactic(auto, unfolding(crate::specs::Sink::refuse))]
    pub fn refuse(&mut self, place: usize)
        ensures { Leaves self.old self.new (refuse place) }
    {
        if !self.is_stopped() {
            self.stop(Stop::Names { row: place });
        }
    }

    // The names of a chain or a let come into force, `count` of them in all.
    #[tactic(auto, unfolding(crate::specs::Sink::put_names))]
    pub fn put_names(&mut self, place: usize, count: usize)
        ensures { Leaves self.old self.new (put_names place count) }
    {
        if 1024 < count {
            self.refuse(place);
        }
    }

    // One row. Number 8 is tested before 20.
    #[tactic(auto, using(crate::proofs::Areas::row_over), unfolding(crate::specs::Sink::put_row))]
    fn put_row(&mut self, kind: RowKind, a: u32, b: u32, m: Measures)
        ensures { Leaves self.old self.new (put_row (row_code kind) a b m) }
    {
        if self.is_stopped() {
            return;
        }
        let rows = self.written.rows;
        if rows >= 16384 {
            return self.stop(Stop::Document { rows });
        }
        let at = rows * 7;
        if self.rows.len() < at + 7 {
            return self.stop(Stop::RowArea { rows });
        }
        // Word by word: an array that is copied over is made on the stack first.
        let row = &mut self.rows[at..at + 7];
        row[0] = kind.code();
        row[1] = a;
        row[2] = b;
        row[3] = low(m.count);
        row[4] = low(m.flat);
        row[5] = low(m.first);
        row[6] = low(m.has);
        self.written.rows = rows + 1;
    }

    // One text byte. Number 8 is tested before 21.
    #[tactic(auto, unfolding(crate::specs::Sink::put_byte))]
    pub fn put_byte(&mut self, b: u8)
        ensures { Leaves self.old self.new (put_byte b) }
    {
        if self.is_stopped() {
            return;
        }
        let at = self.written.text;
        let rows = self.written.rows;
        if at >= 65536 {
            return self.stop(Stop::Document { rows });
        }
        if at >= self.text.len() {
            return self.stop(Stop::TextArea { rows });
        }
        self.text[at] = b;
        self.written.text = at + 1;
    }

    // One byte after the other, up to the one that is refused.
    #[tactic(auto, using(crate::proofs::Areas::bytes_more), unfolding(crate::specs::Sink::put_bytes))]
    fn put_each(&mut self, bytes: &[u8])
        ensures { Leaves self.old self.new (put_bytes bytes.now) }
    {
        for b in bytes {
            self.put_byte(*b);
        }
    }

    // How many bytes more the text area takes before one is refused.
    fn room(&self) -> usize
        ensures { result ≡ room_of self.now.written (length self.now.text.now) }
    {
        if self.is_stopped() {
            return 0;
        }
        self.text.len().min(65536).saturating_sub(self.written.text)
    }

    // Text bytes without their row: a text may be written in pieces, and `end_text` writes its row.
    // One byte alone, the commonest text, needs no copy; and where all bytes have room, no byte is tested by itself.
    #[tactic(auto, using(crate::proofs::Areas::bytes_one, crate::proofs::Areas::bytes_fit, crate::proofs::Areas::put_part))]
    pub fn put_bytes(&mut self, bytes: &[u8])
        ensures { Leaves self.old self.new (put_bytes bytes.now) }
    {
        if let [b] = bytes {
            return self.put_byte(*b);
        }
        if bytes.is_empty() || self.room() < bytes.len() {
            return self.put_each(bytes);
        }
        let at = self.written.text;
        let end = at + bytes.len();
        copy(&mut self.text[at..end], bytes);
        self.written.text = end;
    }

    // The row of the text whose bytes were written from `from` on.
    #[tactic(auto, unfolding(crate::specs::Sink::end_text))]
    pub fn end_text(&mut self, from: usize)
        ensures { Leaves self.old self.new (end_text from) }
    {
        let size = self.written.text.saturating_sub(from);
        let m = Measures {
            count: 1,
            flat: size,
            first: size,
            has: 0,
        };
        self.put_row(RowKind::Text, low(from), low(size), m);
    }

    #[tactic(auto, unfolding(crate::specs::Sink::put_text))]
    pub fn put_text(&mut self, bytes: &[u8])
        ensures { Leaves self.old self.new (put_text bytes.now) }
    {
        let from = self.written.text;
        self.put_bytes(bytes);
        self.end_text(from);
    }

    // A text of a few bytes: here the loop of single bytes is shorter than the choice of a way.
    #[tactic(auto, unfolding(crate::specs::Sink::put_text))]
    pub fn put_short(&mut self, bytes: &[u8])
        ensures { Leaves self.old self.new (put_text bytes.now) }
    {
        let from = self.written.text;
        self.put_each(bytes);
        self.end_text(from);
    }

    // A text of one byte.
    #[tactic(auto, unfolding(crate::specs::Sink::put_text, crate::specs::Sink::put_bytes))]
    pub fn put_sign(&mut self, b: u8)
        ensures { Leaves self.old self.new (put_text (b ∷ [])) }
    {
        let from = self.written.text;
        self.put_byte(b);
        self.end_text(from);
    }

    #[tactic(auto, unfolding(crate::specs::Sink::put_break))]
    pub fn put_break(&mut self, blank: u32)
        ensures { Leaves self.old self.new (put_break blank) }
    {
        let m = Measures {
            count: 1,
            flat: blank as usize,
            first: 0,
            has: 1,
        };
        self.put_row(RowKind::Break, blank, 0, m);
    }

    // The measures of the subtree that ends at a row.
    fn measured(&self, row: usize) -> Measures
        ensures { (result ≡ Rattle.document.specs.Rows.measures_at self.now.rows.now row) × Small result }
    {
        measures_at(self.rows, row)
    }

    // Joins the two subtrees written last.
    #[tactic(auto, unfolding(crate::specs::Sink::put_join))]
    pub fn put_join(&mut self)
        ensures { Leaves self.old self.new put_join }
    {
        let last = self.written.rows.saturating_sub(1);
        let right = self.measured(last);
        let left = self.measured(last.saturating_sub(right.count));
        self.put_row(RowKind::Join, 0, 0, joined(left, right));
    }

    // Puts a row of a kind over the subtree written last.
    #[tactic(auto, unfolding(crate::specs::Sink::put_wrapped))]
    fn put_wrapped(&mut self, kind: RowKind, a: u32)
        ensures { Leaves self.old self.new (put_wrapped (row_code kind) a) }
    {
        let last = self.written.rows.saturating_sub(1);
        self.put_row(kind, a, 0, wrapped(self.measured(last)));
    }

    pub fn put_nest(&mut self, amount: u32)
        ensures { Leaves self.old self.new (put_nest amount) }
    {
        self.put_wrapped(RowKind::Nest, amount);
    }

    pub fn put_group(&mut self)
        ensures { Leaves self.old self.new put_group }
    {
        self.put_wrapped(RowKind::Group, 0);
    }
}

// Both areas to zero: before a print, and after a refusal of one.
pub fn clear(rows: &mut [u32], text: &mut [u8])
    ensures { (rows.new ≡ replicate (length rows.old) 0)
        × (text.new ≡ replicate (length text.old) 0) }
{
    rows.fill(0);
    text.fill(0);
}
