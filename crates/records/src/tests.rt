// A reader that gives a few bytes at a time.
use crate::read_full;
use std::io;
use std::io::Read;
use std::test::Fail;

#[derive(Drop)]
struct Slow<'a> {
    rest: &'a [u8],
}

impl Read for Slow<'_> {
    fn read(&mut self, area: &mut [u8]) -> io::Result<usize> {
        let n = area.len().min(3);
        self.rest.read(&mut area[..n])
    }
}

#[test]
fn reads_until_full_or_at_the_end(rt: HostRuntime) -> Result<(), Fail> {
    let mut input = Slow {
        rest: b"0123456789".as_slice(),
    };
    let mut area = [0u8; 7];
    assert_eq!(rt; read_full(&mut input, &mut area)?, 7);
    assert_eq!(rt; &area, b"0123456");
    assert_eq!(rt; read_full(&mut input, &mut area)?, 3);
    assert_eq!(rt; &area, b"7893456");
    assert_eq!(rt; read_full(&mut input, &mut area)?, 0);
    Ok(())
}
