// The areas that are lent to a call, and what they must hold after it: they are filled with a guard before it. A print and a refusal 22
// leave the document, then zeros, and the listing, or as much of it as fits, and then the guard; 20 and 21 leave rows and text zero; 5
// and 6 change nothing.
use crate::record::{AMPLE, Call, Document, Head};
use records::{holds, holds_words};

const GUARD: u8 = 0xa5;

const GUARD_WORD: u32 = 0xa5a5a5a5;

// As much as any call needs.
#[derive(Drop)]
pub struct Areas {
    pub rows: [u32; AMPLE.rows],
    pub text: [u8; AMPLE.text],
    pub listing: [u8; AMPLE.listing],
}

impl Areas {
    pub fn new() -> Areas {
        Areas {
            rows: [0; AMPLE.rows],
            text: [0; AMPLE.text],
            listing: [0; AMPLE.listing],
        }
    }
}

// What a call is lent.
#[derive(Drop)]
pub struct Lent<'a> {
    pub rows: &'a mut [u32],
    pub text: &'a mut [u8],
    pub listing: &'a mut [u8],
}

impl Lent<'_> {
    pub fn guard(&mut self) {
        self.rows.fill(GUARD_WORD);
        self.text.fill(GUARD);
        self.listing.fill(GUARD);
    }

    // A document, and zeros after it.
    fn hold(&self, document: Document<'_>) -> bool {
        holds_words(self.rows, document.rows, 0) && holds(self.text, document.text, 0)
    }

    // Zeros from word n of the rows and byte m of the text on.
    fn are_zero_from(&self, n: usize, m: usize) -> bool {
        self.rows.iter().skip(n).all(|word| *word == 0)
            && self.text.iter().skip(m).all(|byte| *byte == 0)
    }

    fn are_untouched(&self) -> bool {
        self.rows.iter().all(|word| *word == GUARD_WORD)
            && self.text.iter().all(|byte| *byte == GUARD)
    }

    // Where the record does not have the document, anything may stand in its place.
    fn rows_and_text_are_right(&self, data: &[u8], head: &Head, call: Call) -> bool {
        match call {
            Call::Ample | Call::Exact | Call::ListingShort => match head.document(data) {
                Some(document) => self.hold(document),
                None => self.are_zero_from(head.row_words(), head.text as usize),
            },
            Call::TextShort | Call::RowsShort => self.are_zero_from(0, 0),
            _ => self.are_untouched(),
        }
    }

    fn listing_is_right(&self, data: &[u8], head: &Head, call: Call) -> bool {
        let listed = match call {
            Call::Ample | Call::Exact | Call::ListingShort => head.listing(data),
            _ => b"",
        };
        holds(self.listing, listed, GUARD)
    }

    pub fn are_right(&self, data: &[u8], head: &Head, call: Call) -> bool {
        self.rows_and_text_are_right(data, head, call) && self.listing_is_right(data, head, call)
    }
}
