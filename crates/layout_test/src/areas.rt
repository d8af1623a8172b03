// The areas that a layout is lent: filled with question marks before a call, and what is written of them after it.
use std::io;

#[derive(Drop)]
pub struct Areas<'a> {
    pub rows: &'a mut [u32],
    pub text: &'a mut [u8],
    pub pending: &'a mut [u32],
    pub first: &'a mut [u8],
    pub second: &'a mut [u8],
}

pub const MARK: u8 = b'?';

// Four question marks.
pub const MARKS: u32 = 1061109567;

// The first 64 bytes of an area.
pub fn show_area(rt: &impl Print, area: &[u8]) -> io::Result<()> {
    rt.write_all(b"\n")?;
    rt.write_all(&area[..area.len().min(64)])?;
    rt.write_all(b"|\n")
}

// What the whole of a pending area holds: its marks, zeros, or anything else. One of no words has kept them.
pub fn show_pending(rt: &impl Print, area: &[u32]) -> io::Result<()> {
    if area.iter().all(|word| *word == MARKS) {
        rt.write_all(b" kept\n")
    } else if area.iter().all(|word| *word == 0) {
        rt.write_all(b" zero\n")
    } else {
        rt.write_all(b" other\n")
    }
}
