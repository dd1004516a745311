// The calls over gap records and over part.met files.
ghost use Rattle.std.specs.Prelude.{◌≡◌};
ghost use Rattle.format.specs.Messages.{part_met};
ghost use Rattle.format.specs.Decoding.{reply};
ghost use Rattle.format.specs.MetOrder.{decode};
ghost use Rattle.format.specs.Gaps.{size_limit};
ghost use Rattle.format.specs.Saving.{Saves, spec_save_strict};
ghost use Rattle.format.specs.Merging.{Merges};
ghost use Rattle.gaps.specs.Marking.{marked};
ghost use Rattle.met.specs.MetAnswers.{gaps_answer};
ghost use Rattle.put_gaps.specs.PutAnswers.{spec_put_record};
ghost use Rattle.ed2k.specs.Calls.{numbered, leaves};
ghost use Rattle.gap_numbers.specs.Numbers.{MarksNumbers, record_in};
ghost use Rattle.ed2k.specs.GapCalls.{gaps_read, all_missing_out, Counts, counted};

#[unsafe(no_mangle)]
pub extern "C" fn ed2k_read_gaps(file: &[u8], gaps: &mut [u64]) -> u8
    ensures { numbered result gaps.new ≡ gaps_read (gaps_answer (reply (decode part_met file.now))) gaps.old }
{
    ed2k::ed2k_read_gaps(file, gaps)
}

#[unsafe(no_mangle)]
pub extern "C" fn ed2k_all_missing(size: u64, gaps: &mut [u64]) -> u8
    ensures { numbered result gaps.new ≡ all_missing_out size gaps.old }
{
    ed2k::ed2k_all_missing(size, gaps)
}

#[unsafe(no_mangle)]
pub extern "C" fn ed2k_count_missing(gaps: &[u64], missing: &mut u64) -> u8
    ensures { Counts (record_in gaps.now) result missing.new }
{
    ed2k::ed2k_count_missing(gaps, missing)
}

#[unsafe(no_mangle)]
pub extern "C" fn ed2k_mark(gaps: &mut [u64], start: u64, end: u64, missing: &mut u64) -> u8
    ensures { MarksNumbers (marked size_limit (record_in gaps.old) start end) (counted result missing.new)
        gaps.old gaps.new }
{
    ed2k::ed2k_mark(gaps, start, end, missing)
}

#[unsafe(no_mangle)]
pub extern "C" fn ed2k_put_gaps(
    file: &[u8],
    gaps: &[u64],
    output: &mut [u8],
    written: &mut usize,
) -> u8
    ensures { leaves result written.new output.new ≡ spec_put_record file.now (record_in gaps.now) output.old }
{
    ed2k::ed2k_put_gaps(file, gaps, output, written)
}

#[unsafe(no_mangle)]
pub extern "C" fn ed2k_save(
    stored: &[u8],
    opened: &[u8],
    saved: &[u8],
    output: &mut [u8],
    written: &mut usize,
) -> u8
    ensures { Saves stored.now opened.now saved.now output.old (leaves result written.new output.new) }
{
    ed2k::ed2k_save(stored, opened, saved, output, written)
}

#[unsafe(no_mangle)]
pub extern "C" fn ed2k_save_strict(
    stored: &[u8],
    opened: &[u8],
    saved: &[u8],
    output: &mut [u8],
    written: &mut usize,
) -> u8
    ensures { leaves result written.new output.new ≡ spec_save_strict stored.now opened.now saved.now output.old }
{
    ed2k::ed2k_save_strict(stored, opened, saved, output, written)
}

#[unsafe(no_mangle)]
pub extern "C" fn ed2k_merge(
    opened: &[u8],
    first: &[u8],
    second: &[u8],
    output: &mut [u8],
    written: &mut usize,
) -> u8
    ensures { Merges opened.now first.now second.now output.old (leaves result written.new output.new) }
{
    ed2k::ed2k_merge(opened, first, second, output, written)
}
