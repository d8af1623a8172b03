// What the record of a print says of each call that is made of it; differential/README.md has the format.
use layout::Counts;
use lister::Root;
use records::{bytes, field, word};

// The words of a record's head.
pub const HEAD_WORDS: usize = 16;

// The words of a document row, and its bytes.
const ROW_WORDS: usize = 7;

const ROW_BYTES: usize = 28;

#[derive(Clone, Copy)]
pub enum Call {
    // In ample areas, and in areas of the exact length.
    Ample,
    Exact,
    // With the text, the rows or the listing one short.
    TextShort,
    RowsShort,
    ListingShort,
    // For a root that is not there.
    NoExpression,
    NoDeclaration,
    // With an indent of 65, and with a width of 65,536.
    IndentOver,
    WidthOver,
}

// The calls of each print.
pub const PRINTED: [Call; 5] = [
    Call::Ample,
    Call::Exact,
    Call::TextShort,
    Call::RowsShort,
    Call::ListingShort,
];

// With a pool's first print also those that are refused before anything is printed.
pub const REFUSED: [Call; 4] = [
    Call::NoExpression,
    Call::NoDeclaration,
    Call::IndentOver,
    Call::WidthOver,
];

// What is asked of a print.
#[derive(Clone, Copy)]
pub struct Ask {
    pub root: Root,
    pub indent: usize,
    pub width: usize,
}

// The lengths of the lent areas: rows in words.
#[derive(Clone, Copy)]
pub struct Lengths {
    pub rows: usize,
    pub text: usize,
    pub listing: usize,
}

pub const AMPLE: Lengths = Lengths {
    rows: 114688,
    text: 65536,
    listing: 65536,
};

// 01's number of a refusal, and its place.
#[derive(Clone, Copy, PartialEq, Eq)]
pub struct Refusal {
    pub number: usize,
    pub place: usize,
}

// What a print answers.
pub type Reply = Result<Counts, Refusal>;

pub fn refused(number: usize, place: usize) -> Reply {
    Err(Refusal { number, place })
}

// The words of a record's head and of n bytes after it: where the words of a pool start, and the document rows of a print.
pub fn past_bytes(n: u32) -> usize {
    HEAD_WORDS + n.div_ceil(4) as usize
}

// The document of a print, as the record has it: the words of its rows, and its text.
#[derive(Clone, Copy)]
pub struct Document<'a> {
    pub rows: &'a [u8],
    pub text: &'a [u8],
}

// The head of a print's record.
#[derive(Clone, Copy)]
pub struct Head {
    pub ask: Ask,
    pub rows: u32,
    pub text: u32,
    length: u32,
    lines: u32,
    longest: u32,
    tests: u32,
    // Whether the record has the document.
    pub has_document: bool,
    // The last row that has text bytes, where a text area one byte short is full.
    last_text: u32,
}

impl Head {
    pub fn of(data: &[u8]) -> Head {
        let row = field(data, 0, 3);
        let root = if word(data, 0, 2) == 0 {
            Root::Expr { row }
        } else {
            Root::Declar { row }
        };
        Head {
            ask: Ask {
                root,
                indent: field(data, 0, 4),
                width: field(data, 0, 5),
            },
            rows: word(data, 0, 6),
            text: word(data, 0, 7),
            length: word(data, 0, 8),
            lines: word(data, 0, 9),
            longest: word(data, 0, 10),
            tests: word(data, 0, 11),
            has_document: word(data, 0, 12) == 1,
            last_text: word(data, 0, 13),
        }
    }

    pub fn row_words(&self) -> usize {
        self.rows as usize * ROW_WORDS
    }

    pub fn listing<'a>(&self, data: &'a [u8]) -> &'a [u8] {
        bytes(data, 0, HEAD_WORDS, self.length as usize)
    }

    pub fn document<'a>(&self, data: &'a [u8]) -> Option<Document<'a>> {
        if !self.has_document {
            return None;
        }
        let start = past_bytes(self.length);
        Some(Document {
            rows: bytes(data, start, 0, self.rows as usize * ROW_BYTES),
            text: bytes(data, start, self.row_words(), self.text as usize),
        })
    }

    // No root is the number of expressions or declarations, which the pool's sixth and seventh word are.
    pub fn asked(&self, pool: &[u8], call: Call) -> Ask {
        let words = past_bytes(word(pool, 0, 2));
        let ask = self.ask;
        match call {
            Call::NoExpression => Ask {
                root: Root::Expr {
                    row: field(pool, words, 5),
                },
                ..ask
            },
            Call::NoDeclaration => Ask {
                root: Root::Declar {
                    row: field(pool, words, 6),
                },
                ..ask
            },
            Call::IndentOver => Ask { indent: 65, ..ask },
            Call::WidthOver => Ask {
                width: 65536,
                ..ask
            },
            _ => ask,
        }
    }

    // A few rows and bytes for what is refused before anything is printed.
    pub fn lengths(&self, call: Call) -> Lengths {
        let exact = Lengths {
            rows: self.row_words(),
            text: self.text as usize,
            listing: self.length as usize,
        };
        match call {
            Call::Ample => AMPLE,
            Call::Exact => exact,
            Call::TextShort => Lengths {
                text: exact.text.saturating_sub(1),
                ..exact
            },
            Call::RowsShort => Lengths {
                rows: exact.rows.saturating_sub(ROW_WORDS),
                ..exact
            },
            Call::ListingShort => Lengths {
                listing: exact.listing.saturating_sub(1),
                ..exact
            },
            _ => Lengths {
                rows: 70,
                text: 64,
                listing: 64,
            },
        }
    }

    pub fn wanted(&self, call: Call) -> Reply {
        match call {
            Call::Ample | Call::Exact => Ok(Counts {
                rows: self.rows as usize,
                text: self.text as usize,
                length: self.length as usize,
                lines: self.lines as usize,
                longest: self.longest as usize,
                tests: self.tests as usize,
            }),
            Call::TextShort => refused(21, self.last_text as usize),
            Call::RowsShort => refused(20, self.rows.saturating_sub(1) as usize),
            Call::ListingShort => refused(22, 0),
            Call::NoExpression | Call::NoDeclaration => refused(5, 0),
            Call::IndentOver | Call::WidthOver => refused(6, 0),
        }
    }
}
