// Prints again what the published Rust, edited as document 02 asks, printed: its standard input is the corpus of recorded prints. Each
// print is called in ample areas, in areas of the exact length and in areas one short, and the first of a pool also with what is refused
// before anything is printed. Writes how many calls were as recorded, and which were not.
#![tactic(auto)]

mod areas;
mod calls;
mod input;
mod record;
mod tally;

use areas::Areas;
use calls::is_as_wanted;
use input::{Pool, read_head, read_print};
use record::{Call, Head, PRINTED, REFUSED};
use records::field;
use std::io;
use tally::Tally;

// What a run works with: the record of a print, the areas that are lent, and the counts.
#[derive(Drop)]
struct Run {
    data: [u8; 16384],
    areas: Areas,
    tally: Tally,
}

impl Run {
    fn make_calls(
        &mut self,
        rt: &impl Print,
        pool: &Pool,
        words: &[u32],
        calls: &[Call],
    ) -> io::Result<()> {
        let has_document = Head::of(&self.data).has_document;
        for call in calls {
            let right = is_as_wanted(pool, words, &self.data, *call, &mut self.areas);
            self.tally.add_call(rt, *call, right, has_document)?;
        }
        Ok(())
    }

    // Print i of a pool.
    fn replay_print(
        &mut self,
        rt: &(impl Input + Print),
        pool: &Pool,
        words: &[u32],
        i: usize,
    ) -> io::Result<()> {
        if read_print(rt, &mut self.data)? {
            self.make_calls(rt, pool, words, &PRINTED)?;
            if i == 0 {
                self.make_calls(rt, pool, words, &REFUSED)?;
            }
        }
        Ok(())
    }

    // A pool and its prints.
    fn replay_pool(&mut self, rt: &(impl Input + Print), pool: &mut Pool) -> io::Result<()> {
        self.tally.add_pool(pool.read(rt)?);
        if let Some(words) = pool.words() {
            for i in 0..pool.prints() {
                self.replay_print(rt, pool, words, i)?;
            }
        }
        Ok(())
    }
}

fn main(rt: HostRuntime) -> io::Result<()> {
    let mut run = Run {
        data: [0; 16384],
        areas: Areas::new(),
        tally: Tally::default(),
    };
    let mut pool = Pool::new();
    read_head(&rt, &mut run.data)?;
    let pools = field(&run.data, 0, 2);
    for _ in 0..pools {
        run.replay_pool(&rt, &mut pool)?;
    }
    run.tally.show(&rt)
}
