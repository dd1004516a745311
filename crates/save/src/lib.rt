// Saving a part.met: the save merges what was saved since, the strict save is made over the file that was opened and over no other.

#![tactic(auto)]

ghost use Rattle.std.specs.Prelude.{◌≡◌};
ghost use Rattle.format.specs.Saving.{Saves, spec_save_strict};
ghost use Rattle.output.specs.WriteAnswers.{answered};

use merge::merge_with_reads;
use met::{read_part, read_part_met};
use output::{Refusal, Written, copy, same};

// `stored` is the file as it is now, `opened` as it was read, both of any bytes; two empty ones are equal: a first save. The new
// bytes are checked first. `out` takes them at its front and is not touched after them, nor by a refusal.
pub fn save_strict(stored: &[u8], opened: &[u8], new: &[u8], out: &mut [u8]) -> Written
    ensures { answered result out.new
        ≡ spec_save_strict stored.now opened.now new.now out.old }
{
    read_part_met(new)?;
    if !same(stored, opened) {
        return Err(Refusal::Conflict);
    }
    let length = new.len();
    if out.len() < length {
        return Err(Refusal::Room);
    }
    copy(out, new);
    Ok(length)
}

// The save over another file than the one opened: the new bytes are read first, and once.
fn save_over_another(stored: &[u8], opened: &[u8], new: &[u8], out: &mut [u8]) -> Written
    requires { (stored.now ≡ opened.now) → ⊥ }
    ensures { Saves stored.now opened.now new.now out.old (answered result out.new) }
{
    let mut new_starts: [usize; 64] = [0; 64];
    let new_read = read_part(new, &mut new_starts);
    new_read?;
    let mut opened_starts: [usize; 64] = [0; 64];
    let opened_read = read_part(opened, &mut opened_starts);
    let mut stored_starts: [usize; 64] = [0; 64];
    let stored_read = read_part(stored, &mut stored_starts);
    merge_with_reads(
        opened,
        &opened_starts,
        opened_read,
        stored,
        &stored_starts,
        stored_read,
        new,
        &new_starts,
        new_read,
        out,
    )
}

// `stored` and `opened` are as for the strict save. If they are equal, this is the strict save; else the new bytes are merged with what was
// saved since, which is the first save of the merge. `out` takes the outcome at its front and is not touched after it, nor by a refusal.
pub fn save(stored: &[u8], opened: &[u8], new: &[u8], out: &mut [u8]) -> Written
    ensures { Saves stored.now opened.now new.now out.old (answered result out.new) }
{
    if same(stored, opened) {
        let nothing: [u8; 0] = [];
        return save_strict(&nothing, &nothing, new, out); // any two equal files do, and these cost no second comparison
    }
    save_over_another(stored, opened, new, out)
}
