// Putting a gap record into a part.met: all but the gap tags stay, in order, and the gaps follow as pairs of tags.
//
// The new file is the old one with another tag list: the bytes before the list as they were, the new count, the tags that
// are no gap tags, the pairs of gap tags, and the bytes after the list as they were. The gap tags lie in a range of the list: the tags
// before it and after it are copied as two runs, and only the tags in it one by one. All is checked and the length of the new file is known
// before the first byte is written. The record is lent as numbers (crate gap_numbers), so that it is not copied at every call.
//
// specs/PutAnswers.antt says which record is put, specs/Pieces.antt what the private steps write.

#![tactic(auto)]

ghost use Rattle.std.specs.Prelude.{◌≡◌, ◌∷◌, ◌+◌, ◌-◌, ◌*◌, ◌≤◌, ◌<◌, length};
ghost use Rattle.format.specs.Layout.{encode_tag, encode_tags, encode_part_met};
ghost use Rattle.format.specs.Order.{decode_tag};
ghost use Rattle.format.specs.Gaps.{gap};
ghost use Rattle.format.specs.Rules.{dword_tag};
ghost use Rattle.format.specs.GapTags.{role};
ghost use Rattle.format.specs.PutGaps.{is_plain, plain_tags, decimal_of, regapped, with_gaps, within_ceiling};
ghost use Rattle.format.specs.Writing.{overwritten};
ghost use Rattle.wire.specs.WireAnswers.{ItemsPlaced, ItemsInside};
ghost use Rattle.tags.specs.TagAnswers.{tag_of, tags_in};
ghost use Rattle.gaps.specs.GapRecords.{gaps_of};
ghost use Rattle.gap_numbers.specs.Numbers.{held, record_in};
ghost use Rattle.met.specs.MetAnswers.{part_met_in, tags_place};
ghost use Rattle.output.specs.WriteAnswers.{answered};
ghost use Rattle.part_tags.specs.Survey.{GapTagsIn};
ghost use Rattle.put_gaps.specs.PutAnswers.{spec_put_record};
ghost use Rattle.put_gaps.specs.Pieces.{Accepts, WasRead, LawfulNumbers, HasGaps, SizesOf};
ghost use Rattle.put_gaps.specs.Pieces.{head_of, spec_tags_at, kept_tags, spec_kept_bytes, plain_bytes, pair_bytes, pairs_bytes, spec_pairs_length};

use gap_numbers::{GAP_NUMBERS, judge_numbers, put_record};
use gaps::GapRecord;
use met::{MET_CEILING, PartGaps, PartMet, read_part};
use output::{Refusal, Written, copy, put_byte, put_dword, put_word};
use tags::{Tag, read_tag};
use wire::{Cursor, Items, bytes_at};

// Where the tag list begins: after E0, date, hash, WORD count and the part hashes; or after E1, 02, date and hash.
pub fn tags_at(part: PartMet) -> usize
    ensures { result ≡ spec_tags_at part }
{
    match part {
        PartMet::E0(entry) => {
            let parts = entry.parts;
            23 + 16 * (parts.count as usize)
        }
        PartMet::E1(_) => 22,
    }
}

// Where the bytes after the tag list begin, in the file that the part.met was read from.
pub fn tail_at(file: &[u8], part: PartMet) -> usize
    requires { WasRead file.now part }
    ensures { result ≡ length (head_of (part_met_in file.now part)) + length (encode_tags (tags_in file.now (tags_place part))) }
{
    let tags = part.tags();
    let at = tags_at(part);
    at + 4 + (tags.end - tags.at)
}

// The first byte of the name of a gap's start tag and of its end tag, by which a gap tag is known.
const START: u8 = 0x09;

const END: u8 = 0x0A;

pub fn is_plain(s: &[u8], tag: Tag) -> bool
    ensures { result ≡ is_plain (role (tag_of s.now tag)) }
{
    let name = bytes_at(s, tag.name_at, tag.name_len);
    if name.len() == 0 {
        return true;
    }
    let first = name[0];
    if first == START {
        return false;
    }
    first != END
}

// The bytes of a tag that stays; none of a gap tag. The tag lies from `from` up to `to`.
fn kept_bytes(s: &[u8], tag: Tag, from: usize, to: usize) -> &[u8]
    requires { from ≤ to }
    ensures { result.now ≡ spec_kept_bytes s.now (tag_of s.now tag) from to }
{
    if is_plain(s, tag) {
        bytes_at(s, from, to - from)
    } else {
        bytes_at(s, from, 0)
    }
}

// 1 for a tag that stays, 0 for a gap tag.
fn kept_count(s: &[u8], tag: Tag) -> u32
    ensures { result ≡ length (kept_tags (tag_of s.now tag)) }
{
    if is_plain(s, tag) { 1 } else { 0 }
}

// How many tags stay, and how many bytes they have.
#[derive(Clone, Copy)]
pub struct Plain {
    pub count: u32,
    pub bytes: usize,
}

// The list was read before, so that every tag is there: the refusal in this loop and in the next is never met.
fn measure_plain(s: &[u8], tags: Items) -> Plain
    requires { ItemsPlaced decode_tag s.now tags }
    ensures count { result.count ≡ length (plain_tags (tags_in s.now tags)) }
    ensures bytes { result.bytes ≡ length (plain_bytes (tags_in s.now tags)) }
{
    let total = tags.count;
    let mut count: u32 = 0;
    let mut bytes: usize = 0;
    let mut next = Cursor { at: tags.at };
    for _ in 0..total {
        let Ok((tag, after)) = read_tag(s, next) else {
            return Plain { count, bytes };
        };
        let kept = kept_bytes(s, tag, next.at, after.at);
        bytes += kept.len();
        count += kept_count(s, tag);
        next = after;
    }
    Plain { count, bytes }
}

// The same of the byte range of the gap tags: most often it has the two tags of each gap and no other, and then none is read.
pub fn measure_within(s: &[u8], range: Items, gaps: usize) -> Plain
    requires { ItemsPlaced decode_tag s.now range × (gaps ≤ 64) × (2 * gaps + length (plain_tags (tags_in s.now range)) ≤ range.count) }
    ensures count { result.count ≡ length (plain_tags (tags_in s.now range)) }
    ensures bytes { result.bytes ≡ length (plain_bytes (tags_in s.now range)) }
{
    if range.count as usize == 2 * gaps {
        return Plain { count: 0, bytes: 0 };
    }
    measure_plain(s, range)
}

// The same of a list whose gap tags lie in the range, and the bytes of the tags in the range that stay.
#[derive(Clone, Copy)]
struct Measured {
    count: u32,
    bytes: usize,
    within: usize,
}

fn measure_kept(s: &[u8], tags: Items, range: Items, gaps: usize) -> Measured
    requires { ItemsInside decode_tag s.now tags × GapTagsIn s.now tags range × HasGaps s.now tags gaps }
    ensures count { result.count ≡ length (plain_tags (tags_in s.now tags)) }
    ensures bytes { result.bytes ≡ length (plain_bytes (tags_in s.now tags)) }
    ensures within { result.within ≡ length (plain_bytes (tags_in s.now range)) }
{
    let plain = measure_within(s, range, gaps);
    let within = plain.bytes;
    let count = tags.count - range.count + plain.count;
    let bytes = range.at - tags.at + within + (tags.end - range.end);
    Measured {
        count,
        bytes,
        within,
    }
}

// The functions below that write return the number of bytes written. Each is lent the rest of the output, from its offset on.

// The tags of a list that stay.
fn put_plain(out: &mut [u8], s: &[u8], tags: Items) -> usize
    requires { ItemsPlaced decode_tag s.now tags × (length (plain_bytes (tags_in s.now tags)) ≤ length out.old) }
    ensures written { result ≡ length (plain_bytes (tags_in s.now tags)) }
    ensures output { out.new ≡ overwritten (plain_bytes (tags_in s.now tags)) out.old }
{
    let total = tags.count;
    let mut wrote: usize = 0;
    let mut next = Cursor { at: tags.at };
    for _ in 0..total {
        let Ok((tag, after)) = read_tag(s, next) else {
            return wrote;
        };
        let kept = kept_bytes(s, tag, next.at, after.at);
        copy(&mut out[wrote..], kept);
        wrote += kept.len();
        next = after;
    }
    wrote
}

// The same, where these have so many bytes: most often none, and then no tag is read.
fn put_within(out: &mut [u8], s: &[u8], range: Items, bytes: usize)
    requires { ItemsPlaced decode_tag s.now range × (bytes ≡ length (plain_bytes (tags_in s.now range))) × (bytes ≤ length out.old) }
    ensures { out.new ≡ overwritten (plain_bytes (tags_in s.now range)) out.old }
{
    if bytes == 0 {
        return;
    }
    put_plain(out, s, range);
}

// The tags that stay of a list whose gap tags lie in the range; those in the range that stay have `within` bytes.
fn put_kept(out: &mut [u8], s: &[u8], tags: Items, range: Items, within: usize) -> usize
    requires { ItemsInside decode_tag s.now tags × GapTagsIn s.now tags range × (within ≡ length (plain_bytes (tags_in s.now range)))
        × (length (plain_bytes (tags_in s.now tags)) ≤ length out.old) }
    ensures written { result ≡ length (plain_bytes (tags_in s.now tags)) }
    ensures output { out.new ≡ overwritten (plain_bytes (tags_in s.now tags)) out.old }
{
    let before = range.at - tags.at;
    copy(out, bytes_at(s, tags.at, before));
    put_within(&mut out[before..], s, range, within);
    let at = before + within;
    let after = tags.end - range.end;
    copy(&mut out[at..], bytes_at(s, range.end, after));
    at + after
}

// The number of digits of a number below 100.
fn digit_count(i: usize) -> usize
    ensures { result ≡ length (decimal_of i) }
{
    if i < 10 { 1 } else { 2 }
}

// The number of a pair, in shortest decimal.
fn put_decimal(out: &mut [u8], i: usize)
    requires { (i < 100) × (length (decimal_of i) ≤ length out.old) }
    ensures { out.new ≡ overwritten (decimal_of i) out.old }
{
    if i < 10 {
        out[0] = b'0' + i as u8;
        return;
    }
    out[0] = b'0' + (i / 10) as u8;
    out[1] = b'0' + (i % 10) as u8;
}

// The type of a DWORD tag.
const DWORD: u8 = 3;

// A DWORD tag whose name is `first` and the digits of the number i.
fn put_gap_tag(out: &mut [u8], first: u8, i: usize, value: u32) -> usize
    requires { (i < 100) × (8 + length (decimal_of i) ≤ length out.old) }
    ensures written { result ≡ 8 + length (decimal_of i) }
    ensures output { out.new ≡ overwritten (encode_tag (dword_tag (first ∷ decimal_of i) value)) out.old }
{
    let digits = digit_count(i);
    put_byte(out, DWORD);
    put_word(&mut out[1..], 1 + digits as u16);
    put_byte(&mut out[3..], first);
    put_decimal(&mut out[4..], i);
    let at = 4 + digits;
    put_dword(&mut out[at..], value);
    at + 4
}

// The start tag and the end tag of a gap.
fn put_pair(out: &mut [u8], i: usize, start: u64, end: u64) -> usize
    requires { (i < 100) × (start < 4294967296) × (end < 4294967296) × (16 + 2 * length (decimal_of i) ≤ length out.old) }
    ensures written { result ≡ length (pair_bytes i (gap start end)) }
    ensures output { out.new ≡ overwritten (pair_bytes i (gap start end)) out.old }
{
    let wrote = put_gap_tag(out, START, i, start as u32);
    wrote + put_gap_tag(&mut out[wrote..], END, i, end as u32)
}

// The pairs of all gaps, numbered from 0.
fn put_pairs(out: &mut [u8], gaps: &[u64]) -> usize
    requires { LawfulNumbers gaps.now × (length (pairs_bytes 0 (gaps_of (held gaps.now))) ≤ length out.old) }
    ensures written { result ≡ length (pairs_bytes 0 (gaps_of (held gaps.now))) }
    ensures output { out.new ≡ overwritten (pairs_bytes 0 (gaps_of (held gaps.now))) out.old }
{
    let pairs = gaps[1] as usize;
    let mut wrote: usize = 0;
    for i in 0..pairs {
        let start = gaps[2 * i + 2];
        let end = gaps[2 * i + 3];
        wrote += put_pair(&mut out[wrote..], i, start, end);
    }
    wrote
}

// The length of so many pairs: 18 bytes each, and two more from the pair 10 on, whose number has two digits.
fn pairs_length(pairs: usize) -> usize
    requires { pairs ≤ 64 }
    ensures { result ≡ spec_pairs_length pairs }
{
    if pairs < 10 {
        18 * pairs
    } else {
        18 * pairs + 2 * (pairs - 10)
    }
}

// A tag list of `count` tags: those that stay, and the pairs.
pub fn put_tag_list(
    out: &mut [u8],
    s: &[u8],
    tags: Items,
    range: Items,
    within: usize,
    count: u32,
    gaps: &[u64],
) -> usize
    requires { ItemsInside decode_tag s.now tags × GapTagsIn s.now tags range × (within ≡ length (plain_bytes (tags_in s.now range)))
        × (count ≡ length (regapped (gaps_of (held gaps.now)) (tags_in s.now tags))) × LawfulNumbers gaps.now
        × (4 + length (plain_bytes (tags_in s.now tags)) + length (pairs_bytes 0 (gaps_of (held gaps.now))) ≤ length out.old) }
    ensures written { result
        ≡ 4 + length (plain_bytes (tags_in s.now tags)) + length (pairs_bytes 0 (gaps_of (held gaps.now))) }
    ensures output { out.new
        ≡ overwritten (encode_tags (regapped (gaps_of (held gaps.now)) (tags_in s.now tags))) out.old }
{
    put_dword(out, count);
    let kept = put_kept(&mut out[4..], s, tags, range, within);
    let at = 4 + kept;
    at + put_pairs(&mut out[at..], gaps)
}

// The numbers of a new file: where the tag list begins; how many tags and how many bytes it has, and of these the bytes of the tags in the
// range of the gap tags that stay; where the list ended in the file that all but the list is from; and the length of the new file.
#[derive(Clone, Copy)]
pub struct Sizes {
    pub at: usize,
    pub count: u32,
    pub list: usize,
    pub within: usize,
    pub after: usize,
    pub length: usize,
}

// From the length of the file that all but the tag list is from, where its list begins and ends, the tags that stay, and the number of pairs.
fn sizes_of(file: usize, at: usize, after: usize, kept: Measured, pairs: usize) -> Sizes
    requires { (at ≤ after) × (after ≤ file) × (file ≤ 1048576) × (kept.count ≤ 1048576) × (kept.bytes ≤ 1048576) × (pairs ≤ 64) }
    ensures { (result.at ≡ at) × (result.count ≡ kept.count + 2 * pairs) × (result.list ≡ 4 + kept.bytes + spec_pairs_length pairs)
        × (result.within ≡ kept.within) × (result.after ≡ after) × (result.length ≡ at + result.list + (file - after)) }
{
    let count = kept.count + 2 * (pairs as u32);
    let list = 4 + kept.bytes + pairs_length(pairs);
    let length = at + list + (file - after);
    Sizes {
        at,
        count,
        list,
        within: kept.within,
        after,
        length,
    }
}

// The numbers of the file that has all but the tag list from `form_file`, and the tags of `file`, which may be the same, with the gaps of
// the record.
pub fn measure_file(
    form_file: &[u8],
    form: PartMet,
    file: &[u8],
    part: PartMet,
    found: PartGaps,
    gaps: &[u64],
) -> Sizes
    requires { WasRead form_file.now form × Accepts file.now part found × LawfulNumbers gaps.now }
    ensures { SizesOf form_file.now form file.now part found (gaps_of (held gaps.now)) result }
{
    let tags = part.tags();
    let kept = measure_kept(file, tags, found.range, found.count);
    let at = tags_at(form);
    let after = tail_at(form_file, form);
    sizes_of(form_file.len(), at, after, kept, gaps[1] as usize)
}

// The new file, if it is not too long for a part.met (6) and for the output (10). The part.met was read from the old one.
fn put_file(out: &mut [u8], file: &[u8], part: PartMet, found: PartGaps, gaps: &[u64]) -> Written
    requires { Accepts file.now part found × LawfulNumbers gaps.now }
    ensures { answered result out.new
        ≡ within_ceiling (encode_part_met (with_gaps (gaps_of (held gaps.now)) (part_met_in file.now part))) out.old }
{
    let sizes = measure_file(file, part, file, part, found, gaps);
    let length = sizes.length;
    if MET_CEILING < length {
        return Err(Refusal::Limit);
    }
    if out.len() < length {
        return Err(Refusal::Room);
    }
    let at = sizes.at;
    copy(out, bytes_at(file, 0, at));
    put_tag_list(
        &mut out[at..],
        file,
        part.tags(),
        found.range,
        sizes.within,
        sizes.count,
        gaps,
    );
    let end = at + sizes.list;
    copy(&mut out[end..], bytes_at(file, sizes.after, file.len()));
    Ok(length)
}

// The part.met `file` with the gaps of the record, at the front of `out`. The record is lawful and has the file's size, else 8; the
// new file has at most 1,048,576 bytes, else 6. A refusal leaves `out` as it was. The record is lent as numbers.
pub fn put_gap_numbers(file: &[u8], gaps: &[u64], out: &mut [u8]) -> Written
    ensures { answered result out.new ≡ spec_put_record file.now (record_in gaps.now) out.old }
{
    let mut starts: [usize; 64] = [0; 64];
    let (part, found) = read_part(file, &mut starts)?;
    if judge_numbers(gaps).is_none() {
        return Err(Refusal::Data);
    }
    if gaps[0] != found.size as u64 {
        return Err(Refusal::Data);
    }
    put_file(out, file, part, found, gaps)
}

// The same of a record by value.
pub fn put_gaps(file: &[u8], g: GapRecord, out: &mut [u8]) -> Written
    ensures { answered result out.new ≡ spec_put_record file.now g out.old }
{
    let mut numbers = [0u64; GAP_NUMBERS];
    put_record(&mut numbers, g);
    put_gap_numbers(file, &numbers, out)
}
