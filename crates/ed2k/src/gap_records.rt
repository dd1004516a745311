// The calls over gap records, which C lends as numbers, and over part.met files: gaps, marking, putting, saving and merging.
ghost use Rattle.std.specs.Prelude.{◌≡◌};
ghost use Rattle.format.specs.Messages.{part_met};
ghost use Rattle.format.specs.Decoding.{reply};
ghost use Rattle.format.specs.MetOrder.{decode};
ghost use Rattle.format.specs.Gaps.{size_limit};
ghost use Rattle.format.specs.Saving.{Saves, spec_save_strict};
ghost use Rattle.format.specs.Merging.{Merges};
ghost use Rattle.gaps.specs.Marking.{marked};
ghost use Rattle.met.specs.MetAnswers.{gaps_answer};
ghost use Rattle.put_gaps.specs.PutAnswers.{spec_put_record};
ghost use Rattle.ed2k.specs.Calls.{numbered};
ghost use Rattle.ed2k.specs.Calls.{leaves};
ghost use Rattle.gap_numbers.specs.Numbers.{MarksNumbers, record_in};
ghost use Rattle.ed2k.specs.GapCalls.{gaps_read, all_missing_out, Counts, counted};

use crate::report;
use gap_numbers::{GAP_NUMBERS, judge_numbers, mark_numbers, put_found, put_record};
use gaps::SIZE_LIMIT;
use output::Refusal;
use put_gaps::put_gap_numbers;

pub fn ed2k_read_gaps(file: &[u8], gaps: &mut [u64]) -> u8
    ensures { numbered result gaps.new ≡ gaps_read (gaps_answer (reply (decode part_met file.now))) gaps.old }
{
    let mut starts: [usize; 64] = [0; 64];
    let read = met::read_part(file, &mut starts);
    match read {
        Err(rule) => rule.number(),
        Ok((_, found)) => {
            if gaps.len() < GAP_NUMBERS {
                return Refusal::Room.number();
            }
            put_found(gaps, file, &starts, found.count, found.size);
            0
        }
    }
}

pub fn ed2k_all_missing(size: u64, gaps: &mut [u64]) -> u8
    ensures { numbered result gaps.new ≡ all_missing_out size gaps.old }
{
    if SIZE_LIMIT < size {
        return Refusal::Data.number();
    }
    if gaps.len() < GAP_NUMBERS {
        return Refusal::Room.number();
    }
    put_record(gaps, gaps::all_missing(size));
    0
}

pub fn ed2k_count_missing(gaps: &[u64], missing: &mut u64) -> u8
    ensures { Counts (record_in gaps.now) result missing.new }
{
    match judge_numbers(gaps) {
        Some(count) => {
            *missing = count;
            0
        }
        None => {
            *missing = 0;
            Refusal::Data.number()
        }
    }
}

pub fn ed2k_mark(gaps: &mut [u64], start: u64, end: u64, missing: &mut u64) -> u8
    ensures { MarksNumbers (marked size_limit (record_in gaps.old) start end) (counted result missing.new)
        gaps.old gaps.new }
{
    match mark_numbers(gaps, start, end) {
        Ok(left) => {
            *missing = left;
            0
        }
        Err(refusal) => {
            *missing = 0;
            refusal.number()
        }
    }
}

pub fn ed2k_put_gaps(file: &[u8], gaps: &[u64], output: &mut [u8], written: &mut usize) -> u8
    ensures { leaves result written.new output.new ≡ spec_put_record file.now (record_in gaps.now) output.old }
{
    report(put_gap_numbers(file, gaps, output), written)
}

pub fn ed2k_save(
    stored: &[u8],
    opened: &[u8],
    saved: &[u8],
    output: &mut [u8],
    written: &mut usize,
) -> u8
    ensures { Saves stored.now opened.now saved.now output.old (leaves result written.new output.new) }
{
    report(save::save(stored, opened, saved, output), written)
}

pub fn ed2k_save_strict(
    stored: &[u8],
    opened: &[u8],
    saved: &[u8],
    output: &mut [u8],
    written: &mut usize,
) -> u8
    ensures { leaves result written.new output.new ≡ spec_save_strict stored.now opened.now saved.now output.old }
{
    report(save::save_strict(stored, opened, saved, output), written)
}

pub fn ed2k_merge(
    opened: &[u8],
    first: &[u8],
    second: &[u8],
    output: &mut [u8],
    written: &mut usize,
) -> u8
    ensures { Merges opened.now first.now second.now output.old (leaves result written.new output.new) }
{
    report(merge::merge(opened, first, second, output), written)
}
