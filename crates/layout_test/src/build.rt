// Documents from a byte a row, in the order of the rows: j a join, g a group, n a nest of 2, a digit a break of so many blanks; any other
// byte a text, which the input has at word four times the byte.
use document::sink::Sink;
use document::written::Written;
use records::{bytes, field};

fn text_of(data: &[u8], code: u8) -> &[u8] {
    let at = code as usize * 4;
    bytes(data, at, 1, field(data, at, 0))
}

fn put(data: &[u8], code: u8, sink: &mut Sink<'_>) {
    match code {
        b'j' => sink.put_join(),
        b'g' => sink.put_group(),
        b'n' => sink.put_nest(2),
        b'0' => sink.put_break(0),
        b'1' => sink.put_break(1),
        _ => sink.put_text(text_of(data, code)),
    }
}

pub fn build(data: &[u8], codes: &[u8], rows: &mut [u32], text: &mut [u8]) -> Written {
    let mut sink = Sink::new(rows, text);
    for code in codes {
        put(data, *code, &mut sink);
    }
    sink.written
}
