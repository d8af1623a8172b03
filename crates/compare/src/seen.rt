// What a search has already answered: an array of keys, each in a slot of its own choosing, where a later one may overwrite it.
ghost use Rattle.std.specs.Prelude.{◌≡◌};
ghost use Rattle.compare.specs.Seen.{packed, is_held, with_key};

// The key of three numbers, none where they are too large for one.
#[tactic(auto, unfolding(crate::specs::Seen::packed))]
pub fn key(a: usize, b: usize, c: usize) -> Option<usize>
    ensures { result ≡ packed a b c }
{
    if 16777216 <= a || 16777216 <= b || 16384 <= c {
        return None;
    }
    Some((a * 16777216 + b) * 16384 + c + 1)
}

// Where a key goes: no proof depends on it.
pub fn slot(key: Option<usize>, len: usize) -> usize {
    match key {
        Some(k) if len != 0 => k % 4294967291 * 2654435761 / 65536 % len,
        _ => 0,
    }
}

pub fn held(seen: &[usize], slot: usize, key: Option<usize>) -> bool
    ensures { result ≡ is_held seen.now slot key }
{
    match key {
        Some(k) => slot < seen.len() && seen[slot] == k,
        None => false,
    }
}

pub fn keep(seen: &mut [usize], slot: usize, key: Option<usize>)
    ensures { seen.new ≡ with_key seen.old slot key }
{
    if let Some(k) = key {
        if slot < seen.len() {
            seen[slot] = k;
        }
    }
}
