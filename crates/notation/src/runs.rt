// A part of the byte area that stands in it once more, as far as that was compared.
ghost use Rattle.std.specs.Prelude.{◌≡◌, List, ℕ, ◌+◌, ◌<◌, ◌≤◌, true, length, take, drop};
ghost use Rattle.utf8.specs.Letterlike.{same_bytes};
ghost use Rattle.notation.specs.Repeats.{RunRepeats, StandsFor};

// Each byte from `from` on and before `to` is the byte `shift` after it.
#[derive(Clone, Copy)]
pub(crate) struct Run {
    shift: usize,
    from: usize,
    to: usize,
}

// A part at `at`, and one `shift` bytes after it.
#[derive(Clone, Copy)]
pub(crate) struct Parts {
    pub(crate) at: usize,
    pub(crate) shift: usize,
}

impl Run {
    pub(crate) fn nothing() -> Run
        ensures { (bytes : List ℕ) → RunRepeats bytes result }
    {
        Run {
            shift: 0,
            from: 0,
            to: 0,
        }
    }

    // Whether the part of n bytes at `at` meets the bytes that are known.
    fn meets(&self, at: usize, n: usize) -> bool
        requires { at + n < 18446744073709551616 }
        ensures { result ≡ true → (at ≤ self.now.to) × (self.now.from ≤ at + n) }
    {
        at <= self.to && self.from <= at + n
    }

    // What is known of the part of n bytes at `at`.
    fn known_of(&self, at: usize, shift: usize, n: usize) -> Run
        requires { at + n < 18446744073709551616 }
        ensures known { (bytes : List ℕ) → RunRepeats bytes self.now → RunRepeats bytes result }
        ensures shift { result.shift ≡ shift }
        ensures from { result.from ≤ at + n }
        ensures to { at ≤ result.to }
    {
        if self.shift == shift && self.meets(at, n) {
            return *self;
        }
        Run {
            shift,
            from: at,
            to: at,
        }
    }

    // Whether the n bytes at `at` are the n bytes `shift` after them: those before and after the bytes that are known are compared.
    pub(crate) fn same(&mut self, bytes: &[u8], at: usize, shift: usize, n: usize) -> bool
        requires known { RunRepeats bytes.now self.old }
        requires inside { at + shift + n ≤ length bytes.now }
        ensures known { RunRepeats bytes.now self.new }
        ensures same { result ≡ same_bytes (take n (drop at bytes.now)) (take n (drop (at + shift) bytes.now)) }
    {
        if shift == 0 {
            return true;
        }
        let known = self.known_of(at, shift, n);
        let end = at + n;
        let low = known.from.max(at);
        if bytes[at..low] != bytes[at + shift..low + shift] {
            return false;
        }
        let high = known.to.min(end);
        if bytes[high..end] != bytes[high + shift..end + shift] {
            return false;
        }
        self.shift = shift;
        self.from = known.from.min(at);
        self.to = known.to.max(end);
        true
    }

    // Two parts that are equal just where the n bytes at `at` and those `shift` after them are, and stand nearer to each other, or none
    // where nothing is known of the first: what repeats after some bytes does so after any times as many.
    pub(crate) fn nearer(
        &mut self,
        bytes: &[u8],
        at: usize,
        shift: usize,
        n: usize,
    ) -> Option<Parts>
        requires known { RunRepeats bytes.now self.old }
        requires inside { at + shift + n ≤ length bytes.now }
        ensures known { RunRepeats bytes.now self.new }
        ensures parts { StandsFor bytes.now at shift n result }
    {
        let step = self.shift;
        if step == 0 || !self.meets(at, n) {
            return None;
        }
        let low = shift / step * step;
        let over = shift - low;
        let past = step - over;
        if past < over && past + n <= bytes.len() - at - shift {
            if !self.same(bytes, at, step, low + n) {
                return None;
            }
            return Some(Parts {
                at: at + shift,
                shift: past,
            });
        }
        if low == 0 {
            return Some(Parts { at, shift });
        }
        if !self.same(bytes, at, step, low - step + n) {
            return None;
        }
        Some(Parts {
            at: at + low,
            shift: over,
        })
    }
}
