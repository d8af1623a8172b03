// Lays out the documents of its standard input by both layouts, each made row by row and then perhaps with one word changed, in areas
// filled with question marks. Writes of each case its title, what was made, number, place and counts of the first layout's answer, and what
// the listing area begins with; then whether the second layout answers and lists the same, and what the pending area holds. The file stdout
// has what 01 and 02 say.
#![tactic(auto)]

mod answers;
mod areas;
mod build;
mod case;

use areas::Areas;
use case::Case;
use records::{field, read_full};
use std::io;

fn cases(rt: &impl Print, data: &[u8], areas: &mut Areas<'_>) -> io::Result<()> {
    let mut at: usize = field(data, 0, 1);
    for _ in 0..field(data, 0, 0) {
        Case { data, at }.run(rt, areas)?;
        at = std::num::wrapping_add_usize(at, 26);
    }
    Ok(())
}

fn main(rt: HostRuntime) -> io::Result<()> {
    let mut data = [0u8; 122880];
    let mut rows = [0u32; 114688];
    let mut text = [0u8; 65536];
    let mut pending = [0u32; 65536];
    let mut first = [0u8; 32768];
    let mut second = [0u8; 32768];
    read_full(&mut rt.reader(), &mut data)?;
    let mut areas = Areas {
        rows: &mut rows,
        text: &mut text,
        pending: &mut pending,
        first: &mut first,
        second: &mut second,
    };
    cases(&rt, &data, &mut areas)
}
