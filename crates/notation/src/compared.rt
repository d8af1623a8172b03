// What was compared of the byte area, so that it is not compared again. Where a part is known to repeat after some bytes,
// two parts further apart are compared by two that are nearer to each other.
ghost use Rattle.std.specs.Prelude.{◌≡◌, List, ℕ, ◌+◌, ◌≤◌, length, take, drop};
ghost use Rattle.utf8.specs.Letterlike.{same_bytes};
ghost use Rattle.notation.specs.Repeats.{Repeats};

use crate::runs::Run;

#[derive(Clone, Copy)]
pub(crate) struct Compared {
    coarse: Run,
    middle: Run,
    fine: Run,
}

impl Compared {
    pub(crate) fn nothing() -> Compared
        ensures { (bytes : List ℕ) → Repeats bytes result }
    {
        Compared {
            coarse: Run::nothing(),
            middle: Run::nothing(),
            fine: Run::nothing(),
        }
    }

    // Whether the n bytes at `at` are the n bytes `shift` after them.
    pub(crate) fn same(&mut self, bytes: &[u8], at: usize, shift: usize, n: usize) -> bool
        requires known { Repeats bytes.now self.old }
        requires inside { at + shift + n ≤ length bytes.now }
        ensures known { Repeats bytes.now self.new }
        ensures same { result ≡ same_bytes (take n (drop at bytes.now)) (take n (drop (at + shift) bytes.now)) }
    {
        let Some(next) = self.coarse.nearer(bytes, at, shift, n) else {
            return self.coarse.same(bytes, at, shift, n);
        };
        let Some(last) = self.middle.nearer(bytes, next.at, next.shift, n) else {
            return self.middle.same(bytes, next.at, next.shift, n);
        };
        self.fine.same(bytes, last.at, last.shift, n)
    }
}
