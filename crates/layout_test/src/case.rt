// One case: a record of the input; differential/layout_cases.py has the form, and makes the files stdin and stdout.
use crate::answers::{Numbers, numbers, numbers_pending, show};
use crate::areas::{Areas, MARK, MARKS, show_area, show_pending};
use crate::build::build;
use document::check::Document;
use document::written::{Stop, Written};
use layout::layout;
use layout_pending::layout_pending;
use records::{bytes, field, word};
use std::io;

#[derive(Clone, Copy)]
pub struct Case<'a> {
    pub data: &'a [u8],
    pub at: usize,
}

// Rows and text bytes of a document that was made, and with which refusal.
fn show_made(rt: &impl Print, made: Written) -> io::Result<()> {
    let (number, place) = match made.stop {
        None => (0, 0),
        Some(Stop::Names { row }) => (7, row),
        Some(Stop::Document { rows }) => (8, rows),
        Some(Stop::RowArea { rows }) => (20, rows),
        Some(Stop::TextArea { rows }) => (21, rows),
    };
    show(rt, &[made.rows, made.text, number, place])
}

impl Case<'_> {
    fn field(&self, k: usize) -> usize {
        field(self.data, self.at, k)
    }

    // The document in the areas, with the counts that the case says it has.
    fn document<'r>(&self, rows: &'r [u32], text: &'r [u8]) -> Document<'r> {
        Document {
            rows,
            count: self.field(3),
            text,
            total: self.field(4),
        }
    }

    // Makes the document, and changes the word that the case names.
    fn make(&self, rows: &mut [u32], text: &mut [u8]) -> Written {
        let codes = bytes(self.data, self.field(0), 0, self.field(1));
        let made = build(self.data, codes, rows, text);
        if let Some(changed) = rows.get_mut(self.field(6)) {
            let more = word(self.data, self.at, 7);
            *changed = std::num::wrapping_add_u32(*changed, more);
        }
        made
    }

    // The first layout, which gives the numbers.
    fn by_first(
        &self,
        rt: &impl Print,
        document: &Document<'_>,
        area: &mut [u8],
    ) -> io::Result<Numbers> {
        area.fill(MARK);
        let first = numbers(layout(document, self.field(5), area));
        show(rt, &first)?;
        show_area(rt, area)?;
        Ok(first)
    }

    // The second layout of the same document, held to the numbers and the area of the first: a word stands for its answer and listing where
    // they are the same, to the last byte of the area.
    fn by_second(
        &self,
        rt: &impl Print,
        document: &Document<'_>,
        first: Numbers,
        first_area: &[u8],
        pending: &mut [u32],
        area: &mut [u8],
    ) -> io::Result<()> {
        area.fill(MARK);
        pending.fill(MARKS);
        let second = numbers_pending(layout_pending(document, self.field(5), pending, area));
        if first == second && *first_area == *area {
            rt.write_all(b" same")?;
        } else {
            show(rt, &second)?;
            show_area(rt, area)?;
        }
        show_pending(rt, pending)
    }

    // In areas of the lengths that the case asks for; nothing is written where there is not so much.
    pub fn run(&self, rt: &impl Print, areas: &mut Areas<'_>) -> io::Result<()> {
        let n = self.field(8);
        let p = self.field(9);
        let pending = &mut *areas.pending;
        let first = &mut *areas.first;
        let second = &mut *areas.second;
        if pending.len() < p || first.len() < n || second.len() < n {
            return Ok(());
        }
        rt.write_all(bytes(self.data, self.at, 10, self.field(2)))?;
        let rows = &mut *areas.rows;
        let text = &mut *areas.text;
        show_made(rt, self.make(rows, text))?;
        let document = self.document(rows, text);
        let numbers = self.by_first(rt, &document, &mut first[..n])?;
        self.by_second(
            rt,
            &document,
            numbers,
            &first[..n],
            &mut pending[..p],
            &mut second[..n],
        )
    }
}
