// The check of a part.met's tag list: exactly one size tag; then the gap tags, from left to right; and the gap record
// that they stand for.
//
// A pass over the tags from the first gap tag on skips each tag, counts the size tags, finds the byte range up to the last gap tag, and
// keeps the offsets of at most 64 pairs in an array that is lent. It needs the size. Where that is not known before, or something is
// wrong, a survey of all tags comes first, and decides between what the list breaks.
// A pair's digits are compared with those of the earlier ones only where their key is not above all earlier keys.
//
// specs/PartTagAnswers.antt says what the answers stand for, specs/Survey.antt and specs/Pairs.antt what the private steps answer.

#![tactic(auto)]

ghost use Rattle.std.specs.Prelude.{◌≡◌, ◌+◌, ◌≤◌, length};
ghost use Rattle.format.specs.Gaps.{gap_limit};
ghost use Rattle.format.specs.Order.{decode_tag};
ghost use Rattle.format.specs.PartTagOrder.{spec_check_part_tags};
ghost use Rattle.wire.specs.WireAnswers.{items_in, ItemsPlaced};
ghost use Rattle.gaps.specs.GapRecords.{place_of, spec_record_of};
ghost use Rattle.part_tags.specs.PartTagAnswers.{verdict_meaning, gaps_meaning, CheckedFound};
ghost use Rattle.part_tags.specs.TagBytes.{spec_dword_at, spec_name_length};
ghost use Rattle.wire.specs.declared.Items.{Items};
ghost use Rattle.part_tags.specs.Survey.{joined, only_size};
ghost use Rattle.part_tags.specs.Pairs.{gap_in, first_gaps, PairInside, PairsInside};

use gaps::{Gap, GapRecord, none_missing};
use wire::{Cursor, Fault, Items, Rule};

mod pairs;
mod survey;

// The most pairs of gap tags: `gap_limit` in the format's specs/Gaps.antt.
const GAP_CEILING: usize = 64;

// The type of a DWORD tag.
const DWORD_TYPE: u8 = 3;

// The name of the size tag, and the first byte of the names of start tags and of end tags.
const SIZE_NAME: u8 = 2;

const START_NAME: u8 = 9;

const END_NAME: u8 = 10;

// The verdict is the size of a tag list that passes, or the rule that it breaks: SizeTag, Order or GapCeiling. The gaps are those of a list
// that passes; where a rule is broken, none of an empty file.
#[derive(Clone, Copy)]
pub struct PartTags {
    pub verdict: Result<u32, Rule>,
    pub gaps: GapRecord,
}

// A tag list that lies there whole: the offset after it, the verdict, the byte range of its gap tags, and how many gaps it has.
#[derive(Clone, Copy)]
pub struct CheckedTags {
    pub end: usize,
    pub verdict: Result<u32, Rule>,
    pub range: Items,
    pub gaps: usize,
}

// The size tags seen so far.
#[derive(Clone, Copy)]
enum Sizes {
    None,
    One(u32),
    Many,
}

impl Sizes {
    fn join(self, number: Option<u32>) -> Sizes
        ensures { result ≡ joined self number }
    {
        match number {
            None => self,
            Some(n) => match self {
                Sizes::None => Sizes::One(n),
                Sizes::One(_) => Sizes::Many,
                Sizes::Many => Sizes::Many,
            },
        }
    }

    // The size, if there is one size tag.
    fn only(self) -> Option<u32>
        ensures { result ≡ only_size self }
    {
        match self {
            Sizes::None => None,
            Sizes::One(size) => Some(size),
            Sizes::Many => None,
        }
    }
}

// The tags before the first gap tag: how many, the offset after them, and the size tags among them.
#[derive(Clone, Copy)]
struct Leading {
    count: u32,
    end: usize,
    sizes: Sizes,
}

// The byte range of the gap tags, the offset after all tags, and all size tags.
#[derive(Clone, Copy)]
struct Surveyed {
    range: Items,
    end: usize,
    sizes: Sizes,
}

// How many pairs there are, the least start that the next one may have, and the highest key of their digits.
#[derive(Clone, Copy)]
struct Progress {
    count: usize,
    low: u64,
    highest: u64,
}

// The DWORD that lies there; 0 where none does.
fn dword_at(s: &[u8], at: usize) -> u32
    ensures { result ≡ spec_dword_at s.now at }
{
    let c = Cursor { at };
    let Ok((number, _)) = c.dword(s) else {
        return 0;
    };
    number
}

// The length of the name of the tag that lies there, which is below 256.
fn name_length(s: &[u8], at: usize) -> usize
    requires { at + 2 ≤ length s.now }
    ensures { result ≡ spec_name_length s.now at }
{
    s[at + 1] as usize
}

// The check by a survey of all tags and a pass over the range of the gap tags.
fn check_in_two_passes(
    s: &[u8],
    at: usize,
    count: u32,
    starts: &mut [usize; 64],
) -> Result<CheckedTags, Fault>
    requires { length starts.old ≡ 64 }
    ensures { CheckedFound s.now at count starts.new result }
{
    let Surveyed { range, end, sizes } = survey::survey(s, at, count)?;
    let Some(size) = sizes.only() else {
        return Ok(CheckedTags {
            end,
            verdict: Err(Rule::SizeTag),
            range,
            gaps: 0,
        });
    };
    match pairs::pass_gaps(s, range.at, range.count, sizes, size, starts) {
        Ok((_, gaps)) => Ok(CheckedTags {
            end,
            verdict: Ok(size),
            range,
            gaps,
        }),
        Err(rule) => Ok(CheckedTags {
            end,
            verdict: Err(rule),
            range,
            gaps: 0,
        }),
    }
}

// `count` tags that lie from `at` on, and their check. The offsets of the start tags are left in the array. Where the size stands before
// the gaps, as clients write it, and no rule is broken, one pass finds all.
pub fn part_tags_from(
    s: &[u8],
    at: usize,
    count: u32,
    starts: &mut [usize; 64],
) -> Result<CheckedTags, Fault>
    requires { length starts.old ≡ 64 }
    ensures { CheckedFound s.now at count starts.new result }
{
    let leading = survey::leading_tags(s, at, count)?;
    let Sizes::One(size) = leading.sizes else {
        return check_in_two_passes(s, at, count, starts);
    };
    let Ok((surveyed, gaps)) = pairs::pass_gaps(
        s,
        leading.end,
        count - leading.count,
        leading.sizes,
        size,
        starts,
    ) else {
        return check_in_two_passes(s, at, count, starts);
    };
    let Sizes::One(_) = surveyed.sizes else {
        return check_in_two_passes(s, at, count, starts);
    };
    Ok(CheckedTags {
        end: surveyed.end,
        verdict: Ok(size),
        range: surveyed.range,
        gaps,
    })
}

// The gap of the pair whose start tag lies there.
pub fn gap_at(s: &[u8], at: usize) -> Gap
    requires { PairInside s.now at }
    ensures { result ≡ place_of (gap_in s.now at) }
{
    let length = name_length(s, at);
    let second = at + 7 + length;
    let end_length = name_length(s, second);
    let start = dword_at(s, at + 3 + length);
    let end = dword_at(s, second + 3 + end_length);
    Gap {
        start: start as u64,
        end: end as u64,
    }
}

// The gap record of the pairs. Its other slots hold 0.
pub fn record_of(s: &[u8], starts: &[usize; 64], count: usize, size: u32) -> GapRecord
    requires { (count ≤ gap_limit) × PairsInside s.now count starts.now }
    ensures { result ≡ spec_record_of size (first_gaps s.now count starts.now) }
{
    let mut made = none_missing(size as u64);
    made.count = count;
    for filled in 0..count {
        let at = starts[filled];
        made.gaps[filled] = gap_at(s, at);
    }
    made
}

// The whole check of a list that was read before, with its gaps.
pub fn check_part_tags(s: &[u8], tags: Items) -> PartTags
    requires { ItemsPlaced decode_tag s.now tags }
    ensures meaning { verdict_meaning (items_in decode_tag s.now tags) result.verdict
        ≡ spec_check_part_tags (items_in decode_tag s.now tags) }
    ensures gaps { result.gaps ≡ gaps_meaning (items_in decode_tag s.now tags) result.verdict }
{
    let mut starts: [usize; 64] = [0; 64];
    let Ok(checked) = part_tags_from(s, tags.at, tags.count, &mut starts) else {
        // Never taken: the list was read before.
        return PartTags {
            verdict: Err(Rule::SizeTag),
            gaps: none_missing(0),
        };
    };
    match checked.verdict {
        Ok(size) => PartTags {
            verdict: Ok(size),
            gaps: record_of(s, &starts, checked.gaps, size),
        },
        Err(rule) => PartTags {
            verdict: Err(rule),
            gaps: none_missing(0),
        },
    }
}
