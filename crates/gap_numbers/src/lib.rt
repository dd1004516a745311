// A gap record that is lent as numbers: the size, how many gaps, 64 pairs of start and end. It is judged and marked without making the
// record: the answers are those of the crate gaps for it. A record made there is put into numbers, and so are the gaps that part_tags
// finds in a part.met.

#![tactic(auto)]

ghost use Rattle.std.specs.Prelude.{◌≡◌, [], ◌∷◌, ◌+◌, ◌-◌, ◌*◌, ◌≤◌, ◌<◌, length, get_or};
ghost use Rattle.format.specs.Gaps.{gap, follows, between, total, subtract, size_limit, gap_limit};
ghost use Rattle.format.specs.Writing.{overwritten};
ghost use Rattle.gaps.specs.GapRecords.{spec_record_of};
ghost use Rattle.gaps.specs.Marking.{Markable, answer_meaning, marked};
ghost use Rattle.part_tags.specs.Pairs.{first_gaps, PairsInside};
ghost use Rattle.gap_numbers.specs.Numbers.{pair_numbers, numbers_of, held, record_in, Judges, MarksNumbers};
ghost use Rattle.gap_numbers.specs.NumberSteps.{gaps_in, gap_number_list, Holds, EndBy, pieces, Touches, Replaceable, cleared, holding};

use gaps::{GAP_LIMIT, GapRecord, SIZE_LIMIT};
use output::Refusal;
use part_tags::gap_at;

// The length of a gap record as numbers.
pub const GAP_NUMBERS: usize = 130;

// The gaps that a range touches: those from `first` up to `next`. They begin at `low` and end at `high` (or the range does, where there
// are none), and without its bytes `missing` bytes are missing in all.
#[derive(Clone, Copy)]
struct Touched {
    first: usize,
    next: usize,
    low: u64,
    high: u64,
    missing: u64,
}

// Whether a gap may stand after gaps that end before `low`.
#[tactic(auto, using(std::proofs::lemmas::Bool::Decides::nat_tests), unfolding(format::specs::Gaps::follows))]
fn may_follow(start: u64, end: u64, low: u64, size: u64) -> bool
    ensures { result ≡ follows size low (gap start end) }
{
    if start < low {
        return false;
    }
    if end <= start {
        return false;
    }
    end <= size
}

// How many bytes the record misses, if it is lawful.
#[tactic(auto, using(std::proofs::lemmas::Bool::Decides::nat_tests), unfolding(gaps::specs::GapRecords::lawful_record, gaps::specs::GapRecords::missing_count, format::specs::Gaps::lawful))]
fn judge(numbers: &[u64]) -> Option<u64>
    requires { 130 ≤ length numbers.now }
    ensures { Judges (held numbers.now) result }
{
    let size = numbers[0];
    let gaps = numbers[1] as usize;
    if GAP_LIMIT < gaps {
        return None;
    }
    if SIZE_LIMIT < size {
        return None;
    }
    let mut low = 0;
    let mut missing = 0;
    for i in 0..gaps {
        let start = numbers[2 * i + 2];
        let end = numbers[2 * i + 3];
        if !may_follow(start, end, low, size) {
            return None;
        }
        low = end + 1;
        missing += end - start;
    }
    Some(missing)
}

// The same: of the numbers the first 130 are the record, and fewer are none that is lawful.
#[tactic(auto, using(std::proofs::lemmas::Bool::Decides::nat_tests), unfolding(crate::specs::Numbers::record_in, gaps::specs::GapRecords::lawful_record, gaps::specs::GapRecords::missing_count))]
pub fn judge_numbers(numbers: &[u64]) -> Option<u64>
    ensures { Judges (record_in numbers.now) result }
{
    if numbers.len() < GAP_NUMBERS {
        return None;
    }
    judge(numbers)
}

// How many of the first gaps end by `start`.
fn count_before(numbers: &[u64], gaps: usize, start: u64) -> usize
    requires { Holds numbers.now gaps }
    ensures { EndBy numbers.now start result × (result < gaps → start < get_or numbers.now (2 * result + 3) 0) }
{
    for i in 0..gaps {
        if start < numbers[2 * i + 3] {
            return i;
        }
    }
    gaps
}

// The gaps from the first that ends after `start` up to the first that begins at `end` or after it.
fn touch(numbers: &[u64], gaps: usize, missing: u64, start: u64, end: u64) -> Touched
    requires { Holds numbers.now gaps × (start < end) × (missing ≡ total (gaps_in numbers.now)) }
    ensures { Touches numbers.now start end result }
{
    let first = count_before(numbers, gaps, start);
    let mut low = start;
    let mut high = end;
    let mut left = missing;
    for next in first..gaps {
        let begins = numbers[2 * next + 2];
        let ends = numbers[2 * next + 3];
        if end <= begins {
            return Touched {
                first,
                next,
                low,
                high,
                missing: left,
            };
        }
        low = begins.min(low);
        high = ends;
        left -= ends.min(end) - begins.max(start);
    }
    Touched {
        first,
        next: gaps,
        low,
        high,
        missing: left,
    }
}

// How many gaps there are from `from` up to `to`: one, if that has a byte.
#[tactic(auto, using(std::proofs::lemmas::Bool::Decides::nat_tests), unfolding(format::specs::Gaps::between))]
fn count_between(from: u64, to: u64) -> usize
    ensures { result ≡ length (between from to) }
{
    if from < to { 1 } else { 0 }
}

// How many gaps are left.
#[tactic(auto, using(crate::proofs::Lists::one_between))]
fn count_left(gaps: usize, touched: Touched, start: u64, end: u64) -> usize
    requires { (touched.first ≤ gaps) × (touched.next ≤ gaps) × (gaps ≤ 64) }
    ensures { result ≡ touched.first + length (pieces start end touched.low touched.high) + (gaps - touched.next) }
{
    let before = count_between(touched.low, start);
    let after = count_between(end, touched.high);
    touched.first + (before + after) + (gaps - touched.next)
}

fn put_pair(out: &mut [u64], first: u64, second: u64)
    requires { 2 ≤ length out.old }
    ensures { out.new ≡ overwritten (first ∷ second ∷ []) out.old }
{
    out[0] = first;
    out[1] = second;
}

// Puts the gap from `from` up to `to`, if that has a byte. The answer is how many numbers were put.
#[tactic(auto, using(std::proofs::lemmas::Bool::Decides::nat_tests), unfolding(format::specs::Gaps::between, crate::specs::Numbers::pair_numbers))]
fn put_piece(out: &mut [u64], from: u64, to: u64) -> usize
    requires { 2 * length (between from to) ≤ length out.old }
    ensures { (result ≡ 2 * length (between from to))
        × (out.new ≡ overwritten (gap_number_list (between from to)) out.old) }
{
    if to <= from {
        return 0;
    }
    put_pair(out, from, to);
    2
}

// What the range leaves of the gaps that it touches.
fn put_pieces(out: &mut [u64], low: u64, start: u64, end: u64, high: u64)
    requires { 2 * length (pieces start end low high) ≤ length out.old }
    ensures { out.new ≡ overwritten (gap_number_list (pieces start end low high)) out.old }
{
    let wrote = put_piece(out, low, start);
    put_piece(&mut out[wrote..], end, high);
}

// The numbers of the record from `from` on become 0.
fn clear(numbers: &mut [u64], from: usize)
    requires { (from ≤ 130) × (130 ≤ length numbers.old) }
    ensures { numbers.new ≡ cleared numbers.old from }
{
    numbers[from..GAP_NUMBERS].fill(0);
}

// Puts what is left of the gaps in their place: the gaps after the range move, and the slots after the last gap hold 0. A gap's two
// numbers stand after the size, the count and the gaps before it: `later` are the numbers of the gaps after the range, and all after
// `last` are free.
fn replace(numbers: &mut [u64], gaps: usize, touched: Touched, start: u64, end: u64, count: usize)
    requires { Replaceable numbers.old gaps start end touched count }
    ensures { numbers.new ≡ holding (subtract (gaps_in numbers.old) start end) numbers.old }
{
    let first = touched.first;
    let next = touched.next;
    let later = 2 * (gaps - next);
    let last = 2 * count + 2;
    numbers.copy_within(2 * next + 2..2 * gaps + 2, last - later);
    let at = 2 * first + 2;
    put_pieces(&mut numbers[at..], touched.low, start, end, touched.high);
    clear(numbers, last);
    numbers[1] = count as u64;
}

// The bytes from `start` up to `end` of a lawful record, which misses `missing` bytes, have arrived.
fn take_out(numbers: &mut [u64], missing: u64, start: u64, end: u64) -> Result<u64, Refusal>
    requires { (130 ≤ length numbers.old) × Markable size_limit (held numbers.old) start end
        × (missing ≡ total (gaps_in numbers.old)) }
    ensures { MarksNumbers (marked size_limit (held numbers.old) start end) (answer_meaning result)
        numbers.old numbers.new }
{
    let gaps = numbers[1] as usize;
    let touched = touch(numbers, gaps, missing, start, end);
    let count = count_left(gaps, touched, start, end);
    if GAP_LIMIT < count {
        return Err(Refusal::Limit);
    }
    replace(numbers, gaps, touched, start, end, count);
    Ok(touched.missing)
}

// The bytes from `start` up to `end` have arrived. The answer is how many bytes are still missing; a refusal leaves the numbers as they
// were. Of the numbers the first 130 are the record; fewer are refused with 8.
pub fn mark_numbers(numbers: &mut [u64], start: u64, end: u64) -> Result<u64, Refusal>
    ensures { MarksNumbers (marked size_limit (record_in numbers.old) start end) (answer_meaning result)
        numbers.old numbers.new }
{
    let Some(missing) = judge_numbers(numbers) else {
        return Err(Refusal::Data);
    };
    if end <= start {
        return Err(Refusal::Data);
    }
    if numbers[0] < end {
        return Err(Refusal::Data);
    }
    take_out(numbers, missing, start, end)
}

// A record into numbers.

// The numbers of the gaps, all 64.
fn put_pairs(out: &mut [u64], given: GapRecord)
    requires { 128 ≤ length out.old }
    ensures { out.new ≡ overwritten (pair_numbers given.gaps) out.old }
{
    for i in 0..GAP_LIMIT {
        let gap = given.gaps[i];
        put_pair(&mut out[2 * i..], gap.start, gap.end);
    }
}

// The numbers of the record, at the front of `out`.
pub fn put_record(out: &mut [u64], given: GapRecord)
    requires { 130 ≤ length out.old }
    ensures { out.new ≡ overwritten (numbers_of given) out.old }
{
    put_pair(out, given.size, given.count as u64);
    put_pairs(&mut out[2..], given);
}

// The gaps that part_tags finds in a part.met, into numbers.

// The numbers of the gaps whose start tags lie at the first `count` offsets.
fn put_found_pairs(out: &mut [u64], s: &[u8], starts: &[usize; 64], count: usize)
    requires { (count ≤ gap_limit) × PairsInside s.now count starts.now × (2 * count ≤ length out.old) }
    ensures { out.new ≡ overwritten (gap_number_list (first_gaps s.now count starts.now)) out.old }
{
    for filled in 0..count {
        let gap = gap_at(s, starts[filled]);
        put_pair(&mut out[2 * filled..], gap.start, gap.end);
    }
}

// The numbers of the record of these gaps, at the front of `out`. It is not made.
pub fn put_found(out: &mut [u64], s: &[u8], starts: &[usize; 64], count: usize, size: u32)
    requires { (130 ≤ length out.old) × (count ≤ gap_limit) × PairsInside s.now count starts.now }
    ensures { out.new ≡ overwritten (numbers_of (spec_record_of size (first_gaps s.now count starts.now))) out.old }
{
    put_pair(out, size as u64, count as u64);
    put_found_pairs(&mut out[2..], s, starts, count);
    clear(out, 2 * count + 2);
}
