// Numbers in digits, one byte after the other: std's printing would have to go through a buffer of its own, as a text is one row.
ghost use Rattle.std.specs.Prelude.{◌≡◌, ◌+◌, ◌%◌};
ghost use Rattle.document.specs.Sink.{put_bytes, emit};
ghost use Rattle.document.specs.Leaves.{Leaves};
ghost use Rattle.pieces.specs.Docs.{digits, number_doc};

use document::sink::Sink;

fn digit(n: u64) -> u8
    ensures { result ≡ 48 + n % 10 }
{
    (48 + n % 10) as u8
}

// The bytes of a number's digits, without their row.
#[tactic(auto, using(crate::proofs::Emitting::digits_one, crate::proofs::Emitting::digits_on))]
pub fn put_digits(sink: &mut Sink<'_>, n: u64)
    ensures { Leaves sink.old sink.new (put_bytes (digits n)) }
{
    if 10 <= n {
        put_digits(sink, n / 10);
    }
    sink.put_byte(digit(n));
}

// A number's text.
#[tactic(auto, unfolding(document::specs::Sink::emit, document::specs::Sink::put_text, crate::specs::Docs::number_doc))]
pub fn put_number(sink: &mut Sink<'_>, n: u64)
    ensures { Leaves sink.old sink.new (emit (number_doc n)) }
{
    let from = sink.written.text;
    put_digits(sink, n);
    sink.end_text(from);
}
