// Writing the outcome of a merge: the opening form with its hash lists from one part.met, the tags other than gap tags from another or the
// same, a date, and gaps.
//
// All is checked and the length is known before the first byte is written. The bytes are copied from where they lie.
//
// specs/Outcome.antt says what is written.

#![tactic(auto)]

ghost use Rattle.std.specs.Prelude.{◌≡◌, ◌≤◌, length};
ghost use Rattle.format.specs.Layout.{encode_part_met};
ghost use Rattle.format.specs.PutGaps.{within_ceiling};
ghost use Rattle.format.specs.Writing.{overwritten};
ghost use Rattle.gaps.specs.GapRecords.{gaps_of};
ghost use Rattle.gap_numbers.specs.Numbers.{held};
ghost use Rattle.met.specs.MetAnswers.{part_met_in};
ghost use Rattle.output.specs.WriteAnswers.{answered};
ghost use Rattle.put_gaps.specs.Pieces.{Accepts, LawfulNumbers, WasRead, head_of};
ghost use Rattle.merge_write.specs.Outcome.{date_place, dated_head, joined};

use met::{MET_CEILING, PartGaps, PartMet};
use output::{Refusal, Written, copy, put_dword};
use put_gaps::{measure_file, put_tag_list};
use wire::bytes_at;

// Where the date lies: after E0, or after E1 and 02.
fn date_at(part: PartMet) -> usize
    ensures { result ≡ date_place part }
{
    match part {
        PartMet::E0(_) => 1,
        PartMet::E1(_) => 2,
    }
}

// All before the tag list, which begins at `end`, with another date.
fn put_head(out: &mut [u8], file: &[u8], part: PartMet, end: usize, date: u32)
    requires { WasRead file.now part × (end ≡ length (head_of (part_met_in file.now part))) × (end ≤ length out.old) }
    ensures { out.new ≡ overwritten (dated_head (part_met_in file.now part) date) out.old }
{
    let at = date_at(part);
    copy(out, bytes_at(file, 0, at));
    put_dword(&mut out[at..], date);
    let rest = at + 4;
    let left = end - rest;
    copy(&mut out[rest..], bytes_at(file, rest, left));
}

// The outcome, if it is not too long for a part.met (6) and for the output (10). Both files were read; the gaps are lent as numbers.
pub fn put_merged(
    out: &mut [u8],
    form_file: &[u8],
    form: PartMet,
    date: u32,
    file: &[u8],
    part: PartMet,
    found: PartGaps,
    gaps: &[u64],
) -> Written
    requires { WasRead form_file.now form × Accepts file.now part found × LawfulNumbers gaps.now }
    ensures { answered result out.new
        ≡ within_ceiling (encode_part_met (joined (part_met_in form_file.now form) date (part_met_in file.now part)
        (gaps_of (held gaps.now)))) out.old }
{
    let sizes = measure_file(form_file, form, file, part, found, gaps);
    let length = sizes.length;
    if MET_CEILING < length {
        return Err(Refusal::Limit);
    }
    if out.len() < length {
        return Err(Refusal::Room);
    }
    let at = sizes.at;
    put_head(out, form_file, form, at, date);
    put_tag_list(
        &mut out[at..],
        file,
        part.tags(),
        found.range,
        sizes.within,
        sizes.count,
        gaps,
    );
    let end = at + sizes.list;
    copy(
        &mut out[end..],
        bytes_at(form_file, sizes.after, form_file.len()),
    );
    Ok(length)
}
