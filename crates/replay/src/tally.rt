// How many calls there were of each kind, and how many were as wanted.
use crate::record::Call;
use std::io;

// The lines of the calls, in the order of the enum: ample and exact areas, else number and cause of a refusal.
const NAMES: [&str; 9] = [
    "ample", "exact", "21 text", "20 rows", "22 list", "5 expr", "5 declar", "6 indent", "6 width",
];

// No count goes further.
const MOST: u32 = 1000000;

#[derive(Clone, Copy, Default)]
struct Count {
    all: u32,
    right: u32,
}

impl Count {
    fn add(&mut self, right: bool) {
        self.all = self.all.saturating_add(1).min(MOST);
        self.right = self.right.saturating_add(u32::from(right)).min(MOST);
    }

    fn show(&self, rt: &impl Print, name: &str) -> io::Result<()> {
        let right = self.right;
        let all = self.all;
        println!(rt; "{name:8} {right} of {all}")
    }
}

#[derive(Default, Drop)]
pub struct Tally {
    calls: [Count; 9],
    documents: Count,
    pools: Count,
}

impl Tally {
    pub fn add_pool(&mut self, right: bool) {
        self.pools.add(right);
    }

    // Counts a call; one in areas of the exact length also as a document, where the record has it.
    pub fn add_call(
        &mut self,
        rt: &impl Print,
        call: Call,
        right: bool,
        has_document: bool,
    ) -> io::Result<()> {
        let kind = call as usize;
        self.calls[kind].add(right);
        if has_document && matches!(call, Call::Exact) {
            self.documents.add(right);
        }
        if !right {
            let print = self.calls[0].all;
            println!(rt; "not as recorded: print {print}, kind of call {kind}")?;
        }
        Ok(())
    }

    pub fn show(&self, rt: &impl Print) -> io::Result<()> {
        for (count, name) in self.calls.iter().zip(NAMES.iter()) {
            count.show(rt, *name)?;
        }
        self.documents.show(rt, "document")?;
        self.pools.show(rt, "pools")
    }
}
