// Every code point through both letterlike classes.
use std::io;
use utf8::letterlike::{is_letterlike_rest, is_letterlike_start};

// 2 for a start and 1 for a rest.
fn class(c: u32) -> u8 {
    2 * u8::from(is_letterlike_start(c)) + u8::from(is_letterlike_rest(c))
}

// Shows each code point whose class is not that of the one before.
pub(crate) fn changes(rt: &impl Print) -> io::Result<()> {
    let mut before = 0;
    for c in 0..0x110000u32 {
        let class = class(c);
        if class != before {
            println!(rt; "letterlike class from: {c} {class}")?;
        }
        before = class;
    }
    Ok(())
}
