// Bytes put into an area: as many as fit, and none past what is written.
ghost use Rattle.std.specs.Prelude.{◌≡◌, replicate};
ghost use Rattle.layout.specs.Paint.{paint};
ghost use Rattle.basics.specs.Lent.{was, left};

use document::bytes::copy;

// Copies as many bytes as fit into the part of the area that starts at a position; there may be no such part.
#[tactic(auto, using(crate::proofs::Painting::put_in, crate::proofs::Painting::paint_past))]
pub fn copy_at(area: &mut [u8], position: usize, bytes: &[u8])
    ensures { left area ≡ paint (was area) position bytes.now }
{
    if position < area.len() {
        let n = bytes.len().min(area.len() - position);
        copy(&mut area[position..position + n], &bytes[..n]);
    }
}

// Writes the byte b n times, or as often as it fits, from a position on.
#[tactic(auto, using(crate::proofs::Painting::fill_in, crate::proofs::Painting::paint_past))]
pub fn fill_at(area: &mut [u8], position: usize, n: usize, b: u8)
    ensures { left area ≡ paint (was area) position (replicate n b) }
{
    if position < area.len() {
        let n = n.min(area.len() - position);
        area[position..position + n].fill(b);
    }
}
