// One call, and whether its answer and its areas are as wanted.
use crate::areas::{Areas, Lent};
use crate::input::Pool;
use crate::record;
use crate::record::{Ask, Call, Head, Reply};
use layout::Counts;
use lister::{PrintError, Source};
use pool_check::PoolError;

// What check says.
fn of_pool(error: PoolError) -> Reply {
    match error {
        PoolError::Words => record::refused(1, 0),
        PoolError::Limit => record::refused(2, 0),
        PoolError::Strings { row } => record::refused(3, row),
        PoolError::Rows { row } => record::refused(4, row),
        PoolError::Notation => record::refused(31, 0),
    }
}

// Why a print is refused.
fn refused(error: PrintError) -> Reply {
    match error {
        PrintError::Pool { error } => of_pool(error),
        PrintError::Root => record::refused(5, 0),
        PrintError::Size => record::refused(6, 0),
        PrintError::Names { row } => record::refused(7, row),
        PrintError::Document { rows } => record::refused(8, rows),
        PrintError::RowArea { rows } => record::refused(20, rows),
        PrintError::TextArea { rows } => record::refused(21, rows),
        PrintError::Listing => record::refused(22, 0),
    }
}

// What a print says.
fn reply_of(answer: Result<Counts, PrintError>) -> Reply {
    answer.or_else(|error| refused(error))
}

fn print(bytes: &[u8], words: &[u32], ask: Ask, lent: &mut Lent<'_>) -> Result<Counts, PrintError> {
    lister::print(
        Source { bytes, words },
        ask.root,
        ask.indent,
        ask.width,
        lent.rows,
        lent.text,
        lent.listing,
    )
}

// Whether the call that the record of a print asks for answers what it should, and leaves what it should in areas that it is lent.
fn is_as_wanted_in(
    lent: &mut Lent<'_>,
    pool: &Pool,
    words: &[u32],
    data: &[u8],
    call: Call,
) -> bool {
    let head = Head::of(data);
    lent.guard();
    let ask = head.asked(pool.record(), call);
    let answer = print(pool.bytes(), words, ask, lent);
    reply_of(answer) == head.wanted(call) && lent.are_right(data, &head, call)
}

// The same in the fronts of the areas, of the lengths that the call wants; false where there is not so much.
pub fn is_as_wanted(
    pool: &Pool,
    words: &[u32],
    data: &[u8],
    call: Call,
    areas: &mut Areas,
) -> bool {
    let lengths = Head::of(data).lengths(call);
    let rows = &mut areas.rows[..];
    let text = &mut areas.text[..];
    let listing = &mut areas.listing[..];
    if rows.len() < lengths.rows || text.len() < lengths.text || listing.len() < lengths.listing {
        return false;
    }
    let mut lent = Lent {
        rows: &mut rows[..lengths.rows],
        text: &mut text[..lengths.text],
        listing: &mut listing[..lengths.listing],
    };
    is_as_wanted_in(&mut lent, pool, words, data, call)
}
