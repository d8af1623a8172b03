// Rows that have to be equal, put aside in an array: the row x has m + 1 where it has to be what the row m is, and 0 where nothing is
// owed. Of two rows the higher one owes, so that a pass from the top row down meets each row once.
#![tactic(auto)]

ghost use Rattle.std.specs.Prelude.{◌≡◌, true, ◌+◌, ◌<◌, ◌≤◌, get_or, set, length, IfSome};
ghost use Rattle.links.specs.Links.{entry_of, Linked, Put, Clear};

// The row that x has to be; past the end nothing is owed.
pub fn row_at(owed: &[u32], x: usize) -> Option<usize>
    ensures { entry_of result ≡ get_or owed.now x 0 }
{
    let entry = *owed.get(x)? as usize;
    entry.checked_sub(1)
}

// Henceforth x has to be m, whatever it had to be.
pub fn owe(owed: &mut [u32], x: usize, m: usize)
    requires { (x < length owed.old) × (m < 65536) }
    ensures { owed.new ≡ set owed.old x (m + 1) }
{
    owed[x] = (m + 1) as u32;
}

// The row that x has to be, which is then owed no more.
pub fn take(owed: &mut [u32], x: usize) -> Option<usize>
    ensures { (entry_of result ≡ get_or owed.old x 0) × (owed.new ≡ set owed.old x 0) }
{
    let m = row_at(owed, x);
    if x < owed.len() {
        owed[x] = 0;
    }
    m
}

// Henceforth x and y have to be equal; false where there is no room for them. Where the higher row owes already, the two lower ones have
// to be equal too, and it is left with the lowest.
pub fn link(owed: &mut [u32], x: usize, y: usize) -> bool
    ensures { result ≡ true → Linked owed.old owed.new x y }
{
    if x == y {
        return true;
    }
    let high = x.max(y);
    let low = x.min(y);
    if owed.len() <= high || 65536 <= high {
        return false;
    }
    match row_at(owed, high) {
        None => {
            owe(owed, high, low);
            true
        }
        Some(m) => {
            if high <= m {
                return false;
            }
            owe(owed, high, low.min(m));
            link(owed, low, m)
        }
    }
}

// The same of a row x that stands for something else than its own tree, in an array of its own: two rows that it has to be are linked.
pub fn put(array: &mut [u32], owed: &mut [u32], x: usize, y: usize) -> bool
    ensures { result ≡ true → Put array.old owed.old array.new owed.new x y }
{
    if array.len() <= x || 65536 <= y {
        return false;
    }
    match row_at(array, x) {
        None => {
            owe(array, x, y);
            true
        }
        Some(m) => link(owed, m, y),
    }
}

// Whether nothing is owed. The loop stops nowhere, so that the machine takes many rows at a time: a sweep asks this for each level.
pub fn is_clear(owed: &[u32]) -> bool
    ensures { result ≡ true → Clear owed.now }
{
    let mut most = 0;
    for entry in owed {
        most = (*entry).max(most);
    }
    most == 0
}

// Whether none of these rows owes anything. The loop stops nowhere, so that the machine takes them all at a time.
fn is_free(block: &[u32; 16]) -> bool {
    let mut all = 0;
    for entry in block {
        all |= *entry;
    }
    all == 0
}

// The highest row below n that owes something, which is looked for past blocks of 16 that owe nothing. No proof depends on more than that
// it is below n: whether anything was passed over is asked of `is_clear`.
pub fn highest(owed: &[u32], n: usize) -> Option<usize>
    ensures { IfSome result (λ r. r < n) }
{
    let rows = &owed[..n.min(owed.len())];
    let (_, blocks) = rows.as_rchunks::<16>();
    let free = blocks
        .iter()
        .rev()
        .take_while(|block| is_free(block))
        .count();
    rows[..rows.len() - free * 16]
        .iter()
        .rposition(|entry| *entry != 0)
}
