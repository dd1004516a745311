// Merging two saves of one model (02, No. 3): the file that both windows opened, and the two that they want to save, make one file.
//
// All three are read; then they are compared, each part by itself; then the gaps are merged; then the outcome is written, if there is room.
// Nothing is copied but into the output. Own buffers are the offsets of three files' gaps, and four gap records as numbers.
//
// The format's specs/Merging.antt says what a merge is, specs/Choices.antt what the private steps answer.

#![tactic(auto)]

ghost use Rattle.std.specs.Prelude.{◌≡◌, true, ◌↔◌, ◌≤◌, max, length};
ghost use Rattle.format.specs.Layout.{encode_part_met};
ghost use Rattle.format.specs.PutGaps.{plain_tags, tags_of, within_ceiling};
ghost use Rattle.format.specs.Merging.{Merged, Merges, OneModel, form_of, gaps_left};
ghost use Rattle.format.specs.Writing.{overwritten};
ghost use Rattle.gaps.specs.GapRecords.{gaps_of};
ghost use Rattle.gap_numbers.specs.Numbers.{held};
ghost use Rattle.output.specs.WriteAnswers.{answered};
ghost use Rattle.put_gaps.specs.Pieces.{LawfulNumbers};
ghost use Rattle.merge_write.specs.Outcome.{joined};
ghost use Rattle.merge.specs.Choices.{Chosen, Found, ReadAs, Reads, SameSizes, date_in, numbers_left, part_from, save_of};

use gap_numbers::{GAP_NUMBERS, put_found};
use gaps::GAP_LIMIT;
use merge_compare::{same_form, same_hash, same_tags};
use merge_gaps::{MERGED_NUMBERS, merge_gaps};
use merge_write::put_merged;
use met::{PartGaps, PartMet, read_part};
use output::{Refusal, Written};
use wire::Rule;

// A part.met that was read, with its bytes and the offsets of its gaps, which are lent.
#[derive(Clone, Copy)]
struct Read<'a> {
    bytes: &'a [u8],
    starts: &'a [usize; 64],
    part: PartMet,
    gaps: PartGaps,
}

// One of the two saves.
#[derive(Clone, Copy)]
enum Save {
    First,
    Second,
}

impl Save {
    fn of<'a>(self, first: Read<'a>, second: Read<'a>) -> Read<'a>
        ensures { result ≡ save_of self first.entry second.entry }
    {
        match self {
            Save::First => first,
            Save::Second => second,
        }
    }
}

// Whether all three have one size and one file hash.
fn is_one_model(opened: Read, first: Read, second: Read) -> bool
    requires { Reads opened × Reads first × Reads second }
    ensures { (result ≡ true)
        ↔ OneModel opened.entry.gaps.size (part_from opened.entry) (part_from first.entry) (part_from second.entry) }
{
    let size = opened.gaps.size;
    if first.gaps.size != size {
        return false;
    }
    if second.gaps.size != size {
        return false;
    }
    if !same_hash(first.bytes, first.part, opened.bytes, opened.part) {
        return false;
    }
    same_hash(second.bytes, second.part, opened.bytes, opened.part)
}

fn is_same_form(one: Read, other: Read) -> bool
    requires { Reads one × Reads other × (other.gaps.size ≡ one.gaps.size) }
    ensures { (result ≡ true) ↔ (form_of (part_from one.entry) ≡ form_of (part_from other.entry)) }
{
    same_form(one.bytes, one.part, other.bytes, other.part)
}

// Whose opening form with its hash lists wins; none where both saves changed it in different ways.
fn choose_form(opened: Read, first: Read, second: Read) -> Option<Save>
    requires { Reads opened × Reads first × Reads second × SameSizes opened first second }
    ensures { Chosen (form_of (part_from opened.entry)) (form_of (part_from first.entry)) (form_of (part_from second.entry)) result }
{
    if is_same_form(first, second) {
        return Some(Save::First);
    }
    if is_same_form(second, opened) {
        return Some(Save::First);
    }
    if is_same_form(first, opened) {
        return Some(Save::Second);
    }
    None
}

fn has_same_tags(one: Read, other: Read) -> bool
    requires { Reads one × Reads other }
    ensures { (result ≡ true)
        ↔ (plain_tags (tags_of (part_from one.entry)) ≡ plain_tags (tags_of (part_from other.entry))) }
{
    same_tags(
        one.bytes,
        one.part,
        one.gaps,
        other.bytes,
        other.part,
        other.gaps,
    )
}

// Whose tags other than gap tags.
fn choose_tags(opened: Read, first: Read, second: Read) -> Option<Save>
    requires { Reads opened × Reads first × Reads second }
    ensures { Chosen (plain_tags (tags_of (part_from opened.entry))) (plain_tags (tags_of (part_from first.entry)))
        (plain_tags (tags_of (part_from second.entry))) result }
{
    if has_same_tags(first, second) {
        return Some(Save::First);
    }
    if has_same_tags(second, opened) {
        return Some(Save::First);
    }
    if has_same_tags(first, opened) {
        return Some(Save::Second);
    }
    None
}

fn date_of(part: PartMet) -> u32
    ensures { result ≡ date_in part }
{
    match part {
        PartMet::E0(entry) => entry.date,
        PartMet::E1(file) => file.date,
    }
}

// The merged gaps as numbers, at the front of `out`.
fn merge_numbers(opened: Read, first: Read, second: Read, out: &mut [u64])
    requires { Found opened × Found first × Found second × SameSizes opened first second × (386 ≤ length out.old) }
    ensures { out.new ≡ overwritten (numbers_left opened.entry.gaps.size (gaps_left opened.entry.gaps.size
        (part_from opened.entry) (part_from first.entry) (part_from second.entry))) out.old }
{
    let mut opened_numbers = [0u64; GAP_NUMBERS];
    put_found(
        &mut opened_numbers,
        opened.bytes,
        opened.starts,
        opened.gaps.count,
        opened.gaps.size,
    );
    let mut first_numbers = [0u64; GAP_NUMBERS];
    put_found(
        &mut first_numbers,
        first.bytes,
        first.starts,
        first.gaps.count,
        first.gaps.size,
    );
    let mut second_numbers = [0u64; GAP_NUMBERS];
    put_found(
        &mut second_numbers,
        second.bytes,
        second.starts,
        second.gaps.count,
        second.gaps.size,
    );
    merge_gaps(&opened_numbers, &first_numbers, &second_numbers, out);
}

// The outcome, from the saves that win, if it is within the limits.
fn put_chosen(
    out: &mut [u8],
    form: Save,
    tags: Save,
    first: Read,
    second: Read,
    gaps: &[u64],
) -> Written
    requires { Reads first × Reads second × LawfulNumbers gaps.now }
    ensures { answered result out.new
        ≡ within_ceiling (encode_part_met (joined (save_of form (part_from first.entry) (part_from second.entry))
        (max (date_in first.entry.part) (date_in second.entry.part))
        (save_of tags (part_from first.entry) (part_from second.entry)) (gaps_of (held gaps.now))))
        out.old }
{
    let date = date_of(first.part).max(date_of(second.part));
    let form = form.of(first, second);
    let tags = tags.of(first, second);
    put_merged(
        out, form.bytes, form.part, date, tags.bytes, tags.part, tags.gaps, gaps,
    )
}

// Three files that are accepted.
fn merge_read(opened: Read, first: Read, second: Read, out: &mut [u8]) -> Written
    requires { Found opened × Found first × Found second }
    ensures { Merged (part_from opened.entry) (part_from first.entry) (part_from second.entry)
        out.old (answered result out.new) }
{
    if !is_one_model(opened, first, second) {
        return Err(Refusal::Strangers);
    }
    let form = choose_form(opened, first, second).ok_or(Refusal::Conflict)?;
    let tags = choose_tags(opened, first, second).ok_or(Refusal::Conflict)?;
    let mut numbers = [0u64; MERGED_NUMBERS];
    merge_numbers(opened, first, second, &mut numbers);
    if GAP_LIMIT < numbers[1] as usize {
        return Err(Refusal::Limit);
    }
    put_chosen(out, form, tags, first, second, &numbers)
}

// The merge of three files that have been read, whether they were accepted or not: how, and the offsets of their gaps, are lent beside them.
// Each file's own number comes first, in the order of the files.
pub fn merge_with_reads(
    opened: &[u8],
    opened_starts: &[usize; 64],
    opened_read: Result<(PartMet, PartGaps), Rule>,
    first: &[u8],
    first_starts: &[usize; 64],
    first_read: Result<(PartMet, PartGaps), Rule>,
    second: &[u8],
    second_starts: &[usize; 64],
    second_read: Result<(PartMet, PartGaps), Rule>,
    out: &mut [u8],
) -> Written
    requires { ReadAs opened.now opened_starts.now opened_read × ReadAs first.now first_starts.now first_read
        × ReadAs second.now second_starts.now second_read }
    ensures { Merges opened.now first.now second.now out.old (answered result out.new) }
{
    let (opened_part, opened_gaps) = opened_read?;
    let (first_part, first_gaps) = first_read?;
    let (second_part, second_gaps) = second_read?;
    merge_read(
        Read {
            bytes: opened,
            starts: opened_starts,
            part: opened_part,
            gaps: opened_gaps,
        },
        Read {
            bytes: first,
            starts: first_starts,
            part: first_part,
            gaps: first_gaps,
        },
        Read {
            bytes: second,
            starts: second_starts,
            part: second_part,
            gaps: second_gaps,
        },
        out,
    )
}

// `opened` is the file that both windows opened, `first` and `second` what they want to save. `out` takes the outcome at its front and is not
// touched after it, nor by a refusal.
pub fn merge(opened: &[u8], first: &[u8], second: &[u8], out: &mut [u8]) -> Written
    ensures { Merges opened.now first.now second.now out.old (answered result out.new) }
{
    let mut opened_starts: [usize; 64] = [0; 64];
    let opened_read = read_part(opened, &mut opened_starts);
    let mut first_starts: [usize; 64] = [0; 64];
    let first_read = read_part(first, &mut first_starts);
    let mut second_starts: [usize; 64] = [0; 64];
    let second_read = read_part(second, &mut second_starts);
    merge_with_reads(
        opened,
        &opened_starts,
        opened_read,
        first,
        &first_starts,
        first_read,
        second,
        &second_starts,
        second_read,
        out,
    )
}
