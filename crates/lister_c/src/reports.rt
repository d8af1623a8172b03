// What a call reports, in eight words.
ghost use Rattle.std.specs.Prelude.{[], ◌∷◌, ◌≡◌};
ghost use Rattle.basics.specs.Lent.{was, left};
ghost use Rattle.lister_c.specs.Reports.{put, put_words, refusal, success, reported, none};

use crate::refusals::Refusal;
use layout::Counts;

// The number of the refusal, 0 for none, its place, and the counts; what does not apply is 0.
#[derive(Clone, Copy, Debug, PartialEq, Eq)]
pub struct Report {
    pub number: u32,
    pub place: usize,
    pub counts: Counts,
}

pub(crate) fn no_counts() -> Counts
    ensures { result ≡ none }
{
    Counts {
        rows: 0,
        text: 0,
        length: 0,
        lines: 0,
        longest: 0,
        tests: 0,
    }
}

// The report of a call that is refused.
pub(crate) fn refused<E: Refusal>(error: &E) -> Report
    ensures { result ≡ refusal (E.number_of error.now) (E.place_of error.now) }
{
    Report {
        number: error.number(),
        place: error.place(),
        counts: no_counts(),
    }
}

// The report of a call that no number refuses.
pub(crate) fn done(counts: Counts) -> Report
    ensures { result ≡ success counts }
{
    Report {
        number: 0,
        place: 0,
        counts,
    }
}

fn reported<E: Refusal>(answer: &Result<Counts, E>) -> Report
    ensures { result ≡ reported E.number_of E.place_of answer.now }
{
    match answer {
        Ok(counts) => done(*counts),
        Err(error) => refused(error),
    }
}

// Puts eight words over the first eight; an area that is shorter stays as it is.
pub(crate) fn put_words(out: &mut [u64], words: &[u64; 8])
    ensures { left out ≡ put_words (was out) words.now }
{
    if out.len() >= 8 {
        out[..8].copy_from_slice(words);
    }
}

// Puts a report over the first eight words.
pub(crate) fn fill(out: &mut [u64], r: Report)
    ensures { left out ≡ put (was out) r }
{
    let c = r.counts;
    let words = [
        r.number as u64,
        r.place as u64,
        c.rows as u64,
        c.text as u64,
        c.length as u64,
        c.lines as u64,
        c.longest as u64,
        c.tests as u64,
    ];
    put_words(out, &words);
}

// Puts what a call answers over the first eight words, and tells its number.
pub(crate) fn put_report<E: Refusal>(out: &mut [u64], answer: &Result<Counts, E>) -> u32
    ensures number { result ≡ (reported E.number_of E.place_of answer.now).number }
    ensures words { left out ≡ put (was out) (reported E.number_of E.place_of answer.now) }
{
    let report = reported(answer);
    fill(out, report);
    report.number
}
