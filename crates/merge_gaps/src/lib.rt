// The gaps of a merge (02, No. 3): three gap records of one size, lent as numbers, make one.
//
// The numbers of a record's gaps, in order, are bounds: the start of a gap, its end, the start of the next. Between two neighbouring bounds of
// all three records no byte differs from the next in who misses it. So one walk over all bounds in order decides each such stretch once, and
// keeps a bound where the decision changes: runs of missing bytes that touch are one gap.

#![tactic(auto)]

ghost use Rattle.std.specs.Prelude.{◌≡◌, ◌∷◌, ◌+◌, ◌*◌, ◌≤◌, length, get_or, eqb};
ghost use Rattle.format.specs.Tables.{pick};
ghost use Rattle.format.specs.Writing.{overwritten};
ghost use Rattle.format.specs.Merging.{merged_missing};
ghost use Rattle.gap_numbers.specs.NumberSteps.{Holds, gap_number_list};
ghost use Rattle.merge_gaps.specs.Bounds.{odd, bounds_in, bound_after, OneSize, outcome};

// How many numbers an outcome may need: the size, the number of gaps, and two for each of three times 64 gaps.
pub const MERGED_NUMBERS: usize = 386;

// Stands for a bound where there is none: no file is as long.
const NO_BOUND: u64 = 18446744073709551615;

// Whether the outcome misses a byte, by which files miss it.
fn misses(opened: bool, first: bool, second: bool) -> bool
    ensures { result ≡ merged_missing opened first second }
{
    if opened {
        first && second
    } else {
        first || second
    }
}

// Whether the bytes after so many bounds are missing.
fn in_gap(bounds: usize) -> bool
    ensures { result ≡ odd bounds }
{
    bounds % 2 == 1
}

// The bound of a record after those that are passed, of `bounds` in all.
fn next_bound(numbers: &[u64], passed: usize, bounds: usize) -> u64
    requires { Holds numbers.now (get_or numbers.now 1 0) × (bounds ≡ 2 * get_or numbers.now 1 0) }
    ensures { result ≡ bound_after (bounds_in numbers.now) passed }
{
    if passed < bounds {
        numbers[passed + 2]
    } else {
        NO_BOUND
    }
}

// A bound that lies at `at` is passed.
fn pass(passed: usize, bound: u64, at: u64) -> usize
    requires { passed ≤ 128 }
    ensures { result ≡ pick (eqb bound at) (passed + 1) passed }
{
    if bound == at { passed + 1 } else { passed }
}

// The bounds of the outcome, at the front of `out`; the answer is how many.
fn merge_bounds(opened: &[u64], first: &[u64], second: &[u64], out: &mut [u64]) -> usize
    requires { OneSize opened.now first.now second.now × (384 ≤ length out.old) }
    ensures counted { result ≡ 2 * length (outcome opened.now first.now second.now) }
    ensures output { out.new
        ≡ overwritten (gap_number_list (outcome opened.now first.now second.now)) out.old }
{
    let opened_bounds = 2 * opened[1] as usize;
    let first_bounds = 2 * first[1] as usize;
    let second_bounds = 2 * second[1] as usize;
    let all = opened_bounds + first_bounds + second_bounds;
    let mut opened_passed = 0;
    let mut first_passed = 0;
    let mut second_passed = 0;
    let mut kept = 0;
    // By `while`, since a turn passes a bound of one file, of two or of all.
    while opened_passed + first_passed + second_passed < all {
        let opened_next = next_bound(opened, opened_passed, opened_bounds);
        let first_next = next_bound(first, first_passed, first_bounds);
        let second_next = next_bound(second, second_passed, second_bounds);
        let at = opened_next.min(first_next).min(second_next);
        opened_passed = pass(opened_passed, opened_next, at);
        first_passed = pass(first_passed, first_next, at);
        second_passed = pass(second_passed, second_next, at);
        let missing = misses(
            in_gap(opened_passed),
            in_gap(first_passed),
            in_gap(second_passed),
        );
        if missing != in_gap(kept) {
            out[kept] = at;
            kept += 1;
        }
    }
    kept
}

// The outcome as numbers, at the front of `out`: the size, how many gaps, and their starts and ends. It may have more gaps than a record.
pub fn merge_gaps(opened: &[u64], first: &[u64], second: &[u64], out: &mut [u64])
    requires { OneSize opened.now first.now second.now × (386 ≤ length out.old) }
    ensures { out.new
        ≡ overwritten (get_or opened.now 0 0 ∷ length (outcome opened.now first.now second.now)
        ∷ gap_number_list (outcome opened.now first.now second.now)) out.old }
{
    let bounds = merge_bounds(opened, first, second, &mut out[2..]);
    out[0] = opened[0];
    out[1] = (bounds / 2) as u64;
}
