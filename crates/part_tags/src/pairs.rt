// The pass over the gap tags, once the size is known. A pair is kept as the offset of its start tag;
// its end tag comes right after it, so that both are read in one turn.
ghost use Rattle.std.specs.Prelude.{◌≡◌, ◌+◌, ◌≤◌, ◌<◌, length, false};
ghost use Rattle.format.specs.Gaps.{gap_limit};
ghost use Rattle.format.specs.Order.{decode_tag};
ghost use Rattle.format.specs.PartTagOrder.{used};
ghost use Rattle.format.specs.PutGaps.{is_plain};
ghost use Rattle.part_tags.specs.TagBytes.{TagThere, spec_digits_at, role_at};
ghost use Rattle.part_tags.specs.Pairs.{spec_key_found, key_of, first_pairs, PairsInside, Keeps, StartFound, EndFound, PairFound, PassFound};

use crate::survey::{is_plain, size_at};
use crate::{
    DWORD_TYPE, END_NAME, GAP_CEILING, Progress, START_NAME, Sizes, Surveyed, dword_at, name_length,
};
use output::same;
use tags::tag_after;
use wire::{Items, Rule, bytes_at};

// The most digits of a pair's number.
const MOST_DIGITS: usize = 10;

// A key of so many digits is below this; the remainder by it keeps the next key within 64 bits.
const KEY_ROOM: u64 = 1099511627776;

// The key of 1 to 10 decimal digits, which is higher for the digits of a higher number.
fn digits_key(digits: &[u8]) -> Option<u64>
    ensures { result ≡ spec_key_found digits.now }
{
    let n = digits.len();
    if n < 1 {
        return None;
    }
    if MOST_DIGITS < n {
        return None;
    }
    let mut key = 0;
    for i in 0..n {
        let b = digits[i];
        if b < b'0' {
            return None;
        }
        if b'9' < b {
            return None;
        }
        key = key % KEY_ROOM * 16 + u64::from(b);
    }
    Some(key)
}

// The digits of the gap tag that lies there.
fn digits_at(s: &[u8], at: usize) -> &[u8]
    requires { at + 4 ≤ length s.now }
    ensures { result.now ≡ spec_digits_at s.now at }
{
    let length = name_length(s, at);
    if length == 0 {
        return bytes_at(s, at + 4, 0);
    }
    bytes_at(s, at + 4, length - 1)
}

// Whether one of the pairs has these digits.
fn is_used(s: &[u8], digits: &[u8], starts: &[usize; 64], count: usize) -> bool
    requires { (count ≤ gap_limit) × PairsInside s.now count starts.now }
    ensures { result ≡ used digits.now (first_pairs s.now count starts.now) }
{
    for i in (0..count).rev() {
        let at = starts[i];
        if same(digits, digits_at(s, at)) {
            return true;
        }
    }
    false
}

// The same for digits of this key: above the highest key they are new.
fn is_taken(s: &[u8], digits: &[u8], key: u64, starts: &[usize; 64], progress: Progress) -> bool
    requires { Keeps s.now starts.now progress × (key ≡ key_of digits.now) }
    ensures { result ≡ used digits.now (first_pairs s.now progress.count starts.now) }
{
    if progress.highest < key {
        return false;
    }
    is_used(s, digits, starts, progress.count)
}

// A gap tag between two pairs must be the start tag of the next one: its key, its number, and the offset after it.
fn start_tag(
    s: &[u8],
    at: usize,
    starts: &[usize; 64],
    progress: Progress,
) -> Result<(u64, u32, usize), Rule>
    requires { TagThere s.now at × (is_plain (role_at (decode_tag s.now at)) ≡ false) × Keeps s.now starts.now progress }
    ensures { StartFound s.now (first_pairs s.now progress.count starts.now) at result }
{
    if GAP_CEILING <= progress.count {
        return Err(Rule::GapCeiling);
    }
    let first = s[at + 3];
    if first != START_NAME {
        return Err(Rule::Order);
    }
    let code = s[at];
    if code != DWORD_TYPE {
        return Err(Rule::Order);
    }
    let digits = digits_at(s, at);
    let key = digits_key(digits).ok_or(Rule::Order)?;
    if is_taken(s, digits, key, starts, progress) {
        return Err(Rule::Order);
    }
    let length = name_length(s, at);
    let start = dword_at(s, at + 3 + length);
    if (start as u64) < progress.low {
        return Err(Rule::Order);
    }
    Ok((key, start, at + 7 + length))
}

// The tag after the start tag of a pair must be its end tag, with the same digits: its number, and the offset after it.
fn end_tag(s: &[u8], size: u32, digits: &[u8], start: u32, at: usize) -> Result<(u32, usize), Rule>
    requires { TagThere s.now at }
    ensures { EndFound s.now size digits.now start at result }
{
    let first = s[at + 3];
    if first != END_NAME {
        return Err(Rule::Order);
    }
    let code = s[at];
    if code != DWORD_TYPE {
        return Err(Rule::Order);
    }
    if !same(digits, digits_at(s, at)) {
        return Err(Rule::Order);
    }
    let length = name_length(s, at);
    let end = dword_at(s, at + 3 + length);
    if end <= start {
        return Err(Rule::Order);
    }
    if size < end {
        return Err(Rule::Order);
    }
    Ok((end, at + 7 + length))
}

// A gap tag between two pairs, the first of `left` tags, and the tag after it: the pair's key, its end, and the offset after it.
fn take_pair(
    s: &[u8],
    at: usize,
    left: u32,
    size: u32,
    starts: &[usize; 64],
    progress: Progress,
) -> Result<(u64, u32, usize), Rule>
    requires { TagThere s.now at × (is_plain (role_at (decode_tag s.now at)) ≡ false) × (0 < left) × Keeps s.now starts.now progress }
    ensures { PairFound s.now size (first_pairs s.now progress.count starts.now) at left result }
{
    let (key, start, second) = start_tag(s, at, starts, progress)?;
    if left < 2 {
        return Err(Rule::Order);
    }
    let second_end = tag_after(s, second);
    if second_end == 0 {
        return Err(Rule::Order);
    }
    let (end, after) = end_tag(s, size, digits_at(s, at), start, second)?;
    Ok((key, end, after))
}

// The tags from the first gap tag on, after the sizes seen: their survey and the number of pairs, or the rule that they break if all are
// there. The offsets of the start tags are left in the array. A tag that is refused stops the pass, whatever the answer: a survey tells its
// fault.
pub fn pass_gaps(
    s: &[u8],
    at: usize,
    count: u32,
    before: Sizes,
    size: u32,
    starts: &mut [usize; 64],
) -> Result<(Surveyed, usize), Rule>
    requires { length starts.old ≡ 64 }
    ensures found { PassFound s.now at count before size starts.new result }
    ensures places { length starts.new ≡ 64 }
{
    let mut progress = Progress {
        count: 0,
        low: 0,
        highest: 0,
    };
    let mut sizes = before;
    let mut gap_end = at;
    let mut gap_count: u32 = 0;
    let mut next = at;
    let mut i: u32 = 0;
    // By `while`, since a pair is two tags.
    while i < count {
        let here = next;
        let after = tag_after(s, here);
        if after == 0 {
            return Err(Rule::Order);
        }
        if is_plain(s, here) {
            let number = size_at(s, here);
            sizes = sizes.join(number);
            next = after;
            i += 1;
        } else {
            let (key, end, pair_end) = take_pair(s, here, count - i, size, starts, progress)?;
            let pairs = progress.count;
            starts[pairs] = here;
            progress = Progress {
                count: pairs + 1,
                low: end as u64 + 1,
                highest: progress.highest.max(key),
            };
            next = pair_end;
            i += 2;
            gap_end = pair_end;
            gap_count = i;
        }
    }
    Ok((
        Surveyed {
            range: Items {
                at,
                end: gap_end,
                count: gap_count,
            },
            end: next,
            sizes,
        },
        progress.count,
    ))
}
