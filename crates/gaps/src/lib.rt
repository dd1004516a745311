// Gap records by value: making them, judging them, counting the missing bytes, and marking bytes that have arrived.
// What each function answers is said in specs/GapRecords.antt and specs/Marking.antt; private steps cite specs/MarkingSteps.antt.

#![tactic(auto)]

ghost use Rattle.std.specs.Prelude.{◌≡◌, ◌≤◌, Err};
ghost use Rattle.format.specs.Gaps.{Ordered, total, follows, size_limit};
ghost use Rattle.gaps.specs.GapRecords.{gap_of, gaps_of, spec_none_missing, spec_all_missing, lawful_record, missing_count};
ghost use Rattle.gaps.specs.Marking.{markable, mark_meaning, answer_meaning, marked, answer_of, refusal};
ghost use Rattle.output.specs.WriteAnswers.{refusal_number};
ghost use Rattle.gaps.specs.MarkingSteps.{pushed, pushed_remaining, subtracted};

use output::Refusal;

// The largest size of a file: `size_limit` in the format's specs/Gaps.antt.
pub const SIZE_LIMIT: u64 = 4294967295;

// How many gaps a record holds at most: `gap_limit` in the same.
pub const GAP_LIMIT: usize = 64;

// The missing bytes from `start` up to `end`, `end` not included.
#[derive(Clone, Copy, PartialEq, Eq, Debug)]
pub struct Gap {
    pub start: u64,
    pub end: u64,
}

// The first `count` places hold the gaps. In every record made here the others hold 0; in a record given they are not checked.
#[derive(Clone, Copy, PartialEq, Eq, Debug)]
pub struct GapRecord {
    pub size: u64,
    pub count: usize,
    pub gaps: [Gap; GAP_LIMIT],
}

// What an accepted marking leaves: how many bytes are still missing, and the record afterwards.
#[derive(Clone, Copy, PartialEq, Eq, Debug)]
pub struct Marked {
    pub missing: u64,
    pub after: GapRecord,
}

// Why a marking is refused, and the record that it was given, which it hands back.
#[derive(Clone, Copy, PartialEq, Eq, Debug)]
pub struct Unmarked {
    pub refusal: Refusal,
    pub given: GapRecord,
}

pub fn none_missing(size: u64) -> GapRecord
    ensures { result ≡ spec_none_missing size }
{
    GapRecord {
        size,
        count: 0,
        gaps: [Gap { start: 0, end: 0 }; GAP_LIMIT],
    }
}

// A file of size 0 has no gap.
#[tactic(auto, using(crate::proofs::MarkingSteps::push_first))]
pub fn all_missing(size: u64) -> GapRecord
    ensures { result ≡ spec_all_missing size }
{
    push(none_missing(size), 0, size).unwrap()
}

// Whether a gap may stand after gaps that end before `low`.
#[tactic(auto, using(std::proofs::lemmas::Bool::Decides::nat_tests), unfolding(format::specs::Gaps::follows))]
fn may_follow(x: Gap, low: u64, size: u64) -> bool
    ensures { result ≡ follows size low (gap_of x) }
{
    if x.start < low {
        return false;
    }
    if x.end <= x.start {
        return false;
    }
    x.end <= size
}

#[tactic(auto, using(std::proofs::lemmas::Bool::Decides::nat_tests), unfolding(crate::specs::GapRecords::lawful_record, format::specs::Gaps::lawful))]
pub fn is_lawful(given: GapRecord) -> bool
    ensures { result ≡ lawful_record size_limit given }
{
    if GAP_LIMIT < given.count {
        return false;
    }
    if SIZE_LIMIT < given.size {
        return false;
    }
    let mut low = 0;
    for gap in &given.gaps[..given.count] {
        if !may_follow(*gap, low, given.size) {
            return false;
        }
        low = gap.end + 1;
    }
    true
}

// The sum of the lengths of the gaps.
fn sum_lengths(given: GapRecord) -> u64
    requires { (given.count ≤ 64) × Ordered given.size 0 (gaps_of given) }
    ensures { result ≡ total (gaps_of given) }
{
    let mut sum = 0;
    for gap in &given.gaps[..given.count] {
        sum += gap.end - gap.start;
    }
    sum
}

// How many bytes are missing; 0 for a record that is not lawful.
#[tactic(auto, unfolding(crate::specs::GapRecords::missing_count))]
pub fn count_missing(given: GapRecord) -> u64
    ensures { result ≡ missing_count size_limit given }
{
    if !is_lawful(given) {
        return 0;
    }
    sum_lengths(given)
}

// Adds the gap from `from` up to `to`, if that holds a byte. None where all 64 places are taken.
#[tactic(auto, using(std::proofs::lemmas::Bool::Decides::nat_tests), unfolding(crate::specs::MarkingSteps::pushed))]
fn push(given: GapRecord, from: u64, to: u64) -> Option<GapRecord>
    ensures { result ≡ pushed given from to }
{
    if to <= from {
        return Some(given);
    }
    let count = given.count;
    if GAP_LIMIT <= count {
        return None;
    }
    let mut next = given;
    next.gaps[count] = Gap {
        start: from,
        end: to,
    };
    next.count = count + 1;
    Some(next)
}

// Adds what is left of the gap x on either side of the range.
#[tactic(auto, unfolding(crate::specs::MarkingSteps::pushed_remaining))]
fn push_remaining(given: GapRecord, x: Gap, start: u64, end: u64) -> Option<GapRecord>
    ensures { result ≡ pushed_remaining given (gap_of x) start end }
{
    let before = push(given, x.start, x.end.min(start))?;
    push(before, x.start.max(end), x.end)
}

// The record with the range taken out of its gaps, if 64 places hold what is left.
fn subtract(given: GapRecord, start: u64, end: u64) -> Option<GapRecord>
    requires { given.count ≤ 64 }
    ensures { result ≡ subtracted given start end }
{
    let mut made = none_missing(given.size);
    for gap in &given.gaps[..given.count] {
        made = push_remaining(made, *gap, start, end)?;
    }
    Some(made)
}

// Whether the range may be marked: the record is lawful, and start < end ≤ size.
#[tactic(auto, using(std::proofs::lemmas::Bool::Decides::nat_tests), unfolding(crate::specs::Marking::markable))]
fn is_markable(given: GapRecord, start: u64, end: u64) -> bool
    ensures { result ≡ markable size_limit given start end }
{
    if !is_lawful(given) {
        return false;
    }
    if end <= start {
        return false;
    }
    end <= given.size
}

fn refused(why: Refusal, given: GapRecord) -> Unmarked
    ensures { mark_meaning (Err result) ≡ refusal (refusal_number why) given }
{
    Unmarked {
        refusal: why,
        given,
    }
}

// The bytes from `start` up to `end` have arrived.
#[tactic(auto, unfolding(crate::specs::Marking::marked, format::specs::Gaps::marking))]
pub fn mark(given: GapRecord, start: u64, end: u64) -> Result<Marked, Unmarked>
    ensures { mark_meaning result ≡ marked size_limit given start end }
{
    if !is_markable(given, start, end) {
        return Err(refused(Refusal::Data, given));
    }
    let Some(after) = subtract(given, start, end) else {
        return Err(refused(Refusal::Limit, given));
    };
    let missing = sum_lengths(after);
    Ok(Marked { missing, after })
}

// The same over a record that is lent: it holds the new gaps afterwards, and a refusal leaves it equal. The answer is how many bytes
// are still missing.
pub fn mark_in_place(given: &mut GapRecord, start: u64, end: u64) -> Result<u64, Refusal>
    ensures { (answer_meaning result ≡ answer_of (marked size_limit given.old start end))
        × (given.new ≡ (marked size_limit given.old start end).after) }
{
    match mark(*given, start, end) {
        Ok(marked) => {
            *given = marked.after;
            Ok(marked.missing)
        }
        Err(unmarked) => Err(unmarked.refusal),
    }
}
