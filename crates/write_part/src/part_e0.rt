// A part.met that begins with E0: one file entry.
ghost use Rattle.std.specs.Prelude.{◌≡◌, ◌+◌, ◌≤◌, Ok, length};
ghost use Rattle.format.specs.Messages.{part_met, e0};
ghost use Rattle.format.specs.Layout.{encode_part_met};
ghost use Rattle.format.specs.Order.{decode_tag};
ghost use Rattle.format.specs.Writing.{overwritten};
ghost use Rattle.format.specs.RoundTrip.{WritesAt};
ghost use Rattle.wire.specs.WireAnswers.{items_in};
ghost use Rattle.met.specs.MetAnswers.{file_entry_in};
ghost use Rattle.output.specs.WriteAnswers.{answered, number_of};
ghost use Rattle.write_met.specs.MetWrites.{file_entry_there};
ghost use Rattle.write_met.specs.Lengths.{EntryMeaning};
ghost use Rattle.write_part.specs.BlockSteps.{spec_e0_number};

use crate::check_tags;
use met::{FileEntry, MET_CEILING};
use output::{Refusal, Written, put_byte};
use write_met::{PARTS_MOST, file_entry_lengths, put_file_entry};

const E0_OPENING: u8 = 0xE0;

// What the byte ceiling leaves for the part hashes and the tags.
const E0_CEILING: usize = MET_CEILING - 27;

// The check of a file of `27 + parts_len + tags_len` bytes, apart from the room.
#[tactic(auto, unfolding(crate::specs::BlockSteps::spec_e0_number))]
fn check_e0(src: &[u8], file: FileEntry, parts_len: usize, tags_len: usize) -> Result<(), Refusal>
    requires { EntryMeaning src.now file (Ok (parts_len, tags_len)) }
    ensures { number_of result ≡ spec_e0_number file.parts.count (27 + parts_len + tags_len) (items_in decode_tag src.now file.tags) }
{
    let parts = file.parts;
    if PARTS_MOST < parts.count {
        return Err(Refusal::Limit);
    }
    if E0_CEILING < parts_len {
        return Err(Refusal::Limit);
    }
    if E0_CEILING - parts_len < tags_len {
        return Err(Refusal::Limit);
    }
    check_tags(src, file.tags, tags_len)?;
    Ok(())
}

fn put_part_e0(
    out: &mut [u8],
    src: &[u8],
    file: FileEntry,
    parts_len: usize,
    tags_len: usize,
) -> usize
    requires { EntryMeaning src.now file (Ok (parts_len, tags_len)) × (file.parts.count ≤ 65535) × (27 + parts_len + tags_len ≤ length out.old) }
    ensures written { result ≡ 27 + parts_len + tags_len }
    ensures output { out.new ≡ overwritten (encode_part_met (e0 (file_entry_in src.now file))) out.old }
{
    put_byte(out, E0_OPENING);
    let wrote = put_file_entry(&mut out[1..], src, file, parts_len, tags_len);
    1 + wrote
}

pub fn write_part_e0(src: &[u8], file: FileEntry, out: &mut [u8]) -> Written
    ensures { WritesAt part_met (file_entry_there src.now file) (e0 (file_entry_in src.now file)) out.old
        (answered result out.new) }
{
    let (parts_len, tags_len) = file_entry_lengths(src, file)?;
    check_e0(src, file, parts_len, tags_len)?;
    if out.len() < 27 + parts_len + tags_len {
        return Err(Refusal::Room);
    }
    Ok(put_part_e0(out, src, file, parts_len, tags_len))
}
