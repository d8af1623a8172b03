// The records of the corpus, as they are read.
use crate::record::{HEAD_WORDS, past_bytes};
use records::{bytes, field, load, read_full, word};
use std::io;
use std::ops::Range;

// The numbers that records begin with.
const POOL: usize = 1;

const PRINT: usize = 2;

// Reads a part of an area; false where it or the input has less.
fn read_part(rt: &impl Input, area: &mut [u8], part: Range<usize>) -> io::Result<bool> {
    match area.get_mut(part) {
        Some(part) => {
            let n = read_full(&mut rt.reader(), part)?;
            Ok(n == part.len())
        }
        None => Ok(false),
    }
}

// Reads a header to the front of an area.
pub fn read_head(rt: &impl Input, data: &mut [u8]) -> io::Result<bool> {
    read_part(rt, data, 0..HEAD_WORDS * 4)
}

// Reads a record to the front of an area: whether there is one that begins with this number.
fn read_record(rt: &impl Input, data: &mut [u8], number: usize) -> io::Result<bool> {
    let head = read_head(rt, data)?;
    let end = word(data, 0, 1) as usize * 4;
    let body = read_part(rt, data, HEAD_WORDS * 4..end)?;
    Ok(head && body && field(data, 0, 0) == number)
}

pub fn read_print(rt: &impl Input, data: &mut [u8]) -> io::Result<bool> {
    read_record(rt, data, PRINT)
}

// A pool's record, and its words.
#[derive(Drop)]
pub struct Pool {
    record: [u8; 16384],
    words: [u32; 4096],
}

impl Pool {
    pub fn new() -> Pool {
        Pool {
            record: [0; 16384],
            words: [0; 4096],
        }
    }

    // Reads a pool: whether there is one.
    pub fn read(&mut self, rt: &impl Input) -> io::Result<bool> {
        let found = read_record(rt, &mut self.record, POOL)?;
        let start = past_bytes(word(&self.record, 0, 2));
        load(
            &self.record,
            start,
            field(&self.record, 0, 3),
            &mut self.words,
        );
        Ok(found)
    }

    pub fn record(&self) -> &[u8] {
        &self.record
    }

    pub fn bytes(&self) -> &[u8] {
        bytes(&self.record, 0, HEAD_WORDS, field(&self.record, 0, 2))
    }

    // Its words, where there is room for them.
    pub fn words(&self) -> Option<&[u32]> {
        self.words.get(..field(&self.record, 0, 3))
    }

    // How many prints of it follow.
    pub fn prints(&self) -> usize {
        field(&self.record, 0, 4)
    }
}
