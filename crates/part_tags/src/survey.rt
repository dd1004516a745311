// The survey of the tags: each is skipped, the size tags are counted, and the byte range of the gap tags is found.
ghost use Rattle.std.specs.Prelude.{◌≡◌, option_to_list};
ghost use Rattle.format.specs.Decoding.{refused};
ghost use Rattle.format.specs.Order.{decode_tag};
ghost use Rattle.format.specs.PutGaps.{is_plain};
ghost use Rattle.wire.specs.WireAnswers.{fault_meaning};
ghost use Rattle.tags.specs.Skips.{offset_after};
ghost use Rattle.part_tags.specs.TagBytes.{TagThere, role_at};
ghost use Rattle.part_tags.specs.Survey.{sizes_at, LeadingFound, RangeFound, SurveyFound};

use crate::{DWORD_TYPE, END_NAME, Leading, SIZE_NAME, START_NAME, Sizes, Surveyed, dword_at};
use tags::{read_tag, tag_after};
use wire::{Cursor, Fault, Items};

// A tag is a gap tag by the first byte of its name, 09 or 0A.
pub fn is_plain(s: &[u8], at: usize) -> bool
    requires { TagThere s.now at }
    ensures { result ≡ is_plain (role_at (decode_tag s.now at)) }
{
    let first = s[at + 3];
    if first < START_NAME {
        return true;
    }
    END_NAME < first
}

// The number of a size tag: a DWORD whose name is the one byte 02.
pub fn size_at(s: &[u8], at: usize) -> Option<u32>
    requires { TagThere s.now at }
    ensures { option_to_list result ≡ sizes_at (decode_tag s.now at) }
{
    let first = s[at + 3];
    if first != SIZE_NAME {
        return None;
    }
    let length = s[at + 1];
    if length != 1 {
        return None;
    }
    let code = s[at];
    if code != DWORD_TYPE {
        return None;
    }
    Some(dword_at(s, at + 4))
}

// The fault of a tag that is refused.
fn fault_at(s: &[u8], at: usize) -> Fault
    requires { offset_after (decode_tag s.now at) ≡ 0 }
    ensures { refused (fault_meaning result) ≡ decode_tag s.now at }
{
    read_tag(s, Cursor { at }).unwrap_err()
}

// The tags before the first gap tag.
pub fn leading_tags(s: &[u8], at: usize, count: u32) -> Result<Leading, Fault>
    ensures { LeadingFound s.now at count result }
{
    let mut sizes = Sizes::None;
    let mut next = at;
    for i in 0..count {
        let after = tag_after(s, next);
        if after == 0 {
            return Err(fault_at(s, next));
        }
        if !is_plain(s, next) {
            return Ok(Leading {
                count: i,
                end: next,
                sizes,
            });
        }
        let number = size_at(s, next);
        sizes = sizes.join(number);
        next = after;
    }
    Ok(Leading {
        count,
        end: next,
        sizes,
    })
}

// The tags from the first gap tag on, after the sizes seen.
fn gap_range(s: &[u8], at: usize, count: u32, before: Sizes) -> Result<Surveyed, Fault>
    ensures { RangeFound s.now at count before result }
{
    let mut sizes = before;
    let mut gap_end = at;
    let mut gap_count: u32 = 0;
    let mut next = at;
    for i in 0..count {
        let here = next;
        let after = tag_after(s, here);
        if after == 0 {
            return Err(fault_at(s, here));
        }
        let number = size_at(s, here);
        sizes = sizes.join(number);
        next = after;
        if is_plain(s, here) {
            continue;
        }
        gap_end = after;
        gap_count = i + 1;
    }
    Ok(Surveyed {
        range: Items {
            at,
            end: gap_end,
            count: gap_count,
        },
        end: next,
        sizes,
    })
}

// The whole list.
pub fn survey(s: &[u8], at: usize, count: u32) -> Result<Surveyed, Fault>
    ensures { SurveyFound s.now at count result }
{
    let leading = leading_tags(s, at, count)?;
    gap_range(s, leading.end, count - leading.count, leading.sizes)
}
