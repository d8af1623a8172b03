// The code points of bytes, a byte at a time. The bytes need not be UTF-8.
ghost use Rattle.std.specs.Prelude.{◌≡◌, ◌<◌};
ghost use Rattle.utf8.specs.Utf8.{followers, lead_bits};
ghost use Rattle.utf8.specs.Steps.{Step, cap};

// What is known between two bytes.
#[derive(Clone, Copy)]
pub(crate) struct Scan {
    // How many bytes still belong to a code point, and its bits so far.
    pub(crate) need: u32,
    pub(crate) bits: u32,
    ghost room: { bits < cap need },
}

impl Scan {
    pub(crate) fn start() -> Scan
        ensures need { result.need ≡ 0 }
        ensures bits { result.bits ≡ 0 }
    {
        Scan { need: 0, bits: 0 }
    }

    // After a byte that starts a code point.
    fn begun(b: u8) -> Scan
        ensures need { result.need ≡ followers b }
        ensures bits { result.bits ≡ lead_bits b }
    {
        match b {
            0..=0xbf => Scan {
                need: 0,
                bits: u32::from(b),
            },
            0xc0..=0xdf => Scan {
                need: 1,
                bits: u32::from(b - 0xc0),
            },
            0xe0..=0xef => Scan {
                need: 2,
                bits: u32::from(b - 0xe0),
            },
            0xf0..=0xff => Scan {
                need: 3,
                bits: u32::from(b - 0xf0),
            },
        }
    }

    // Takes a byte, and answers the code point that it ends.
    pub(crate) fn take(&mut self, b: u8) -> Option<u32>
        ensures { Step self.old.need self.old.bits b self.new.need self.new.bits result }
    {
        if self.need == 0 {
            *self = Scan::begun(b);
            return if b < 0x80 { Some(u32::from(b)) } else { None };
        }
        let need = self.need - 1;
        let bits = self.bits * 64 + u32::from(b.saturating_sub(0x80));
        *self = Scan { need, bits };
        if need == 0 { Some(bits) } else { None }
    }
}
