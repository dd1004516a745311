// The C interface of the library: include/ed2k.h says what each call does.
//
// A call hands on to the crate that does the work, and puts the answer into what C lent: numbers into `fields` or `gaps`, a length
// into `written`. A refused call leaves the numbers as they were, and 0 as the length, the count or the truth.

#![tactic(auto)]

ghost use Rattle.std.specs.Prelude.{◌≡◌, ◌≤◌, List, ℕ, length};
ghost use Rattle.format.specs.Writing.{overwritten};
ghost use Rattle.output.specs.WriteAnswers.{answered};
ghost use Rattle.ed2k.specs.Calls.{leaves, numbered, handed_out};

use output::{Refusal, Written};
use packets::{Link, Packet};

mod compose;
mod gap_records;
mod read;
mod reasons;
mod write;

pub use compose::{
    ed2k_truth, ed2k_write_address, ed2k_write_dword_tag, ed2k_write_field, ed2k_write_file_entry,
    ed2k_write_float_tag, ed2k_write_hash_tag, ed2k_write_join, ed2k_write_keyword,
    ed2k_write_limit, ed2k_write_query, ed2k_write_record, ed2k_write_server_entry,
    ed2k_write_tag_list, ed2k_write_text_tag,
};
pub use gap_records::{
    ed2k_all_missing, ed2k_count_missing, ed2k_mark, ed2k_merge, ed2k_put_gaps, ed2k_read_gaps,
    ed2k_save, ed2k_save_strict,
};
pub use read::{
    ed2k_block_count, ed2k_part_count, ed2k_read, ed2k_read_address, ed2k_read_file_entry,
    ed2k_read_query_node, ed2k_read_record, ed2k_read_server_entry, ed2k_read_tag,
};
pub use reasons::ed2k_why;
pub use write::ed2k_write;

// A packet whose numbers are handed out: the one that bytes are on a link, or one that numbers were given for.
#[derive(Clone, Copy)]
enum PacketSource {
    Read(Link),
    Given(Packet),
}

// Numbers that a call returns.

fn copy_numbers(out: &mut [u64], src: &[u64])
    requires { length src.now ≤ length out.old }
    ensures { out.new ≡ overwritten src.now out.old }
{
    out[..src.len()].copy_from_slice(src);
}

// The numbers of what was read, if there is room for them.
fn hand_out(numbers: &[u64], fields: &mut [u64]) -> u8
    ensures { numbered result fields.new ≡ handed_out numbers.now fields.old }
{
    if fields.len() < numbers.len() {
        return Refusal::Room.number();
    }
    copy_numbers(fields, numbers);
    0
}

// What a call that writes answers to C: 0 and how many bytes it wrote, or the number of the refusal and 0.
fn report(wrote: Written, written: &mut usize) -> u8
    ensures { (output : List ℕ) → leaves result written.new output ≡ answered wrote output }
{
    match wrote {
        Ok(length) => {
            *written = length;
            0
        }
        Err(refusal) => {
            *written = 0;
            refusal.number()
        }
    }
}
