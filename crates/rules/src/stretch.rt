// How much of the store a row's stretch owns (document 01, "Spans, store and record").

ghost use Rattle.std.specs.Prelude.{◌≡◌};
ghost use Rattle.meaning.specs.Interval.{end_of};
ghost use Rattle.meaning.specs.Figure.{figure};
ghost use Rattle.rules.specs.Stretches.{spans_of, width};

use crate::numbers::Numbers;
use crate::says::says;
use kinds::rule::Rule;
use spans::ring::SPAN_WORDS;
use times::interval::Interval;

// The spans that a row may need; a row that owns no stretch needs none.
pub fn spans(row: Numbers) -> u64
    ensures { result ≡ spans_of row }
{
    match says(row) {
        Rule::Plain(_) => 0,
        Rule::Stretch(_) => spans_for(row.limits()),
    }
}

// The words of a row's stretch.
#[tactic(auto, using(crate::proofs::StretchesLaws::spans_below))]
pub fn words(row: Numbers) -> u64
    ensures { result ≡ width row }
{
    SPAN_WORDS as u64 * spans(row)
}

// The figure: floor(b/(b-a+2))+1 spans, or 1 when b has no end.
#[tactic(auto, using(crate::proofs::FigureLaws::length_most), unfolding(meaning::specs::Interval::end_of, meaning::specs::Figure::figure))]
fn spans_for(limits: Interval) -> u64
    ensures { result ≡ figure limits.a (end_of limits.b) }
{
    if limits.has_no_end() {
        return 1;
    }
    u64::from(limits.b) / (limits.length() + 2) + 1
}
