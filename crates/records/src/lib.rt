// A test's input: words of four bytes, the low byte first, and runs of bytes that start at a word. A record starts at a word, and its
// own words are counted from there. What is not there is 0 or empty, so that callers need no facts.
#![tactic(auto)]

ghost use Rattle.std.specs.Prelude.{◌≤◌, IfOk, length};

use std::io;
use std::io::Read;

#[cfg(test)]
mod tests;

// Reads until the area is full or the input ends, and returns how many bytes there were. Std's `read_to_end` would allocate.
pub fn read_full(input: &mut impl Read, area: &mut [u8]) -> io::Result<usize>
    ensures { IfOk result (λ n. n ≤ length area.new) }
{
    let mut done = 0;
    while done < area.len() {
        let n = input.read(&mut area[done..])?;
        if n == 0 {
            break;
        }
        done += n;
    }
    Ok(done)
}

// The bytes from word k of the record at a word on.
fn from_word(data: &[u8], at: usize, k: usize) -> &[u8] {
    let start = at.saturating_add(k).saturating_mul(4);
    data.get(start..).unwrap_or_default()
}

// Word k of the record at a word.
pub fn word(data: &[u8], at: usize, k: usize) -> u32 {
    match from_word(data, at, k).first_chunk() {
        Some(bytes) => u32::from_le_bytes(*bytes),
        None => 0,
    }
}

// The same as a size.
pub fn field(data: &[u8], at: usize, k: usize) -> usize {
    word(data, at, k) as usize
}

// n bytes from word k of the record on.
pub fn bytes(data: &[u8], at: usize, k: usize, n: usize) -> &[u8] {
    from_word(data, at, k).get(..n).unwrap_or_default()
}

// The first n bytes, or all where there are fewer.
pub fn front(data: &[u8], n: usize) -> &[u8] {
    data.get(..n).unwrap_or(data)
}

// The n words from word `at` on to the front of the area, and zeros after them.
pub fn load(data: &[u8], at: usize, n: usize, area: &mut [u32]) {
    for (k, item) in area.iter_mut().enumerate() {
        *item = if k < n { word(data, at, k) } else { 0 };
    }
}

// Whether an area holds the wanted items, or as many as it has room for, and `rest` after them.
pub fn holds<T: PartialEq + Copy>(area: &[T], wanted: &[T], rest: T) -> bool {
    area.iter().zip(wanted).all(|(found, item)| *found == *item)
        && area.iter().skip(wanted.len()).all(|found| *found == rest)
}

// The same of words, wanted as bytes.
pub fn holds_words(area: &[u32], wanted: &[u8], rest: u32) -> bool {
    let words = wanted.as_chunks::<4>().0;
    area.iter()
        .zip(words)
        .all(|(found, word)| *found == u32::from_le_bytes(*word))
        && area.iter().skip(words.len()).all(|found| *found == rest)
}
