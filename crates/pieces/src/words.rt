// Fixed words, breaks and brackets. A word is one text.
ghost use Rattle.std.specs.Prelude.{◌≡◌, ◌<◌};
ghost use Rattle.document.specs.Walk.{textᵐ};
ghost use Rattle.document.specs.Sink.{put_text, put_break, put_join};
ghost use Rattle.document.specs.Leaves.{Leaves};
ghost use Rattle.pieces.specs.Docs.{opening, closing};
ghost use Rattle.pieces.specs.Tiles.{end_tile};

use document::sink::Sink;

// Over three quarters of the words in recorded prints have one byte.
#[tactic(auto, using(crate::proofs::Emitting::one_byte))]
pub fn put_word(sink: &mut Sink<'_>, word: &[u8])
    ensures { Leaves sink.old sink.new (put_text word.now) }
{
    if let [sign] = word {
        sink.put_sign(*sign);
    } else {
        sink.put_short(word);
    }
}

// A word, joined to the subtree before it.
pub fn join_word(sink: &mut Sink<'_>, word: &[u8])
    ensures { Leaves sink.old sink.new (λ st. put_join (put_text word.now st)) }
{
    put_word(sink, word);
    sink.put_join();
}

// A break with a blank, joined to the subtree before it.
pub fn join_line(sink: &mut Sink<'_>)
    ensures { Leaves sink.old sink.new (λ st. put_join (put_break 1 st)) }
{
    sink.put_break(1);
    sink.put_join();
}

// A break with none.
pub fn join_zero_width_line(sink: &mut Sink<'_>)
    ensures { Leaves sink.old sink.new (λ st. put_join (put_break 0 st)) }
{
    sink.put_break(0);
    sink.put_join();
}

// The next subtree of a tile is written after its break: they are joined, grouped, and joined to the tile so far.
#[tactic(auto, unfolding(crate::specs::Tiles::end_tile))]
pub fn end_tile(sink: &mut Sink<'_>)
    ensures { Leaves sink.old sink.new end_tile }
{
    sink.put_join();
    sink.put_group();
    sink.put_join();
}

// The brackets of a binder by its style: constant tables indexed by it, a form that document 01 names.
const OPENING: [&[u8]; 4] = [b"(", b"{", b"{{", b"["];

const CLOSING: [&[u8]; 4] = [b")", b"}", b"}}", b"]"];

// The opening bracket of a binder's style.
#[tactic(auto, unfolding(crate::specs::Docs::opening, crate::specs::Docs::quoted, utf8::specs::Quoted::bytes, utf8::specs::Quoted::encode))]
pub fn opening(style: usize) -> &'static [u8]
    requires { style < 4 }
    ensures { textᵐ result.now ≡ opening style }
{
    OPENING[style]
}

// The closing one.
#[tactic(auto, unfolding(crate::specs::Docs::closing, crate::specs::Docs::quoted, utf8::specs::Quoted::bytes, utf8::specs::Quoted::encode))]
pub fn closing(style: usize) -> &'static [u8]
    requires { style < 4 }
    ensures { textᵐ result.now ≡ closing style }
{
    CLOSING[style]
}
