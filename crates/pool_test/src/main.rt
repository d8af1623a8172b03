// Runs check on the pools of its standard input, and writes each case's title with the number and the place that it answers; then every
// code point at which the letterlike classes change, with its class. The file stdout has what 01 says.
#![tactic(auto)]

mod letters;

use pool_check::PoolError;
use records::{bytes, field, load, read_full};
use std::io;

// 01's number and place of an answer.
struct Reply {
    number: u64,
    place: u64,
}

fn refused(error: PoolError) -> Reply {
    let (number, place) = match error {
        PoolError::Words => (1, 0),
        PoolError::Limit => (2, 0),
        PoolError::Strings { row } => (3, row as u64),
        PoolError::Rows { row } => (4, row as u64),
        PoolError::Notation => (31, 0),
    };
    Reply { number, place }
}

fn checked(bytes: &[u8], words: &[u32]) -> Reply {
    match pool_check::check(bytes, words) {
        Ok(_) => Reply {
            number: 0,
            place: 0,
        },
        Err(error) => refused(error),
    }
}

// What check answers to a pool of the first n words. No number of 01's where there are not so many.
fn answer(bytes: &[u8], words: &[u32], n: usize) -> Reply {
    match words.get(..n) {
        Some(words) => checked(bytes, words),
        None => Reply {
            number: 99,
            place: 0,
        },
    }
}

// One case; differential/pool_cases.py has the form, and makes the files stdin and stdout.
fn case(rt: &impl Print, data: &[u8], at: usize, words: &mut [u32]) -> io::Result<()> {
    let title = bytes(data, at, 7, field(data, at, 1));
    let pool = bytes(data, at, 5, field(data, at, 2));
    let count = field(data, at, 3);
    let given = field(data, at, 4);
    load(data, at.saturating_add(23), given, words);
    let Reply { number, place } = answer(pool, words, count);
    rt.write_all(title)?;
    println!(rt; ": {number} {place}")
}

fn cases(rt: &impl Print, data: &[u8], words: &mut [u32]) -> io::Result<()> {
    let mut at: usize = 1;
    for _ in 0..field(data, 0, 0) {
        case(rt, data, at, words)?;
        at = at.saturating_add(field(data, at, 0));
    }
    Ok(())
}

fn main(rt: HostRuntime) -> io::Result<()> {
    let mut data = [0u8; 131072];
    let mut words = vec![in rt.alloc(); 0u32; 524304]?;
    read_full(&mut rt.reader(), &mut data)?;
    cases(&rt, &data, &mut words)?;
    letters::changes(&rt)
}
