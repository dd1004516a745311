// A part.met that begins with E1: date, hash, tags and blocks of hashes.
ghost use Rattle.std.specs.Prelude.{◌≡◌, ◌+◌, ◌≤◌, Ok, length};
ghost use Rattle.format.specs.Messages.{part_met, e1};
ghost use Rattle.format.specs.Decoding.{got};
ghost use Rattle.format.specs.Order.{decode_tag};
ghost use Rattle.format.specs.PartTagOrder.{spec_check_part_tags};
ghost use Rattle.format.specs.Writing.{overwritten};
ghost use Rattle.format.specs.RoundTrip.{WritesAt};
ghost use Rattle.wire.specs.WireAnswers.{items_in};
ghost use Rattle.met.specs.MetAnswers.{part_e1_in};
ghost use Rattle.output.specs.WriteAnswers.{answered, number_of};
ghost use Rattle.write_items.specs.There.{hash_there, items_there};
ghost use Rattle.write_part.specs.PartWrites.{part_e1_there};
ghost use Rattle.write_part.specs.BlockSteps.{spec_area_size, AreaLies, spec_blocks_number, spec_e1_number, E1Meaning, e1_head, e1_bytes};

use crate::areas::{area_of, area_size, check_blocks, is_within, put_area};
use crate::{Area, check_tags};
use met::PartE1;
use output::{Refusal, Written, copy, put_byte, put_dword};
use wire::{Cursor, Fault, bytes_at};
use write_items::put_list;
use write_met::tags_length;

const E1_OPENING: u8 = 0xE1;

// The byte after the opening byte.
const E1_VERSION: u8 = 0x02;

const HASH_BYTES: usize = 16;

// How many bytes the tags have, and the area of the blocks.
fn e1_lengths(s: &[u8], file: PartE1) -> Result<(usize, Area), Fault>
    ensures { E1Meaning s.now file result }
{
    let cursor = Cursor { at: file.hash };
    cursor.hash(s)?;
    let tags_len = tags_length(s, file.tags)?;
    let area = area_of(s, file.blocks)?;
    Ok((tags_len, area))
}

// The check of a file of `26 + tags_len` bytes and those of its area, apart from the room.
#[tactic(auto, unfolding(crate::specs::BlockSteps::spec_e1_number))]
fn check_e1(src: &[u8], file: PartE1, tags_len: usize, area: Area) -> Result<(), Refusal>
    requires { (got tt (file.tags.at + tags_len) ≡ items_there decode_tag src.now file.tags) × AreaLies src.now area }
    ensures { number_of result ≡ spec_e1_number (26 + tags_len + spec_area_size area) (spec_check_part_tags (items_in decode_tag src.now file.tags))
        (spec_blocks_number src.now file.blocks area) }
{
    if !is_within(tags_len, area) {
        return Err(Refusal::Limit);
    }
    let size = check_tags(src, file.tags, tags_len)?;
    check_blocks(src, file.blocks, area, size)
}

// All before the tags.
fn put_e1_head(out: &mut [u8], src: &[u8], file: PartE1)
    requires { (got tt (file.hash + 16) ≡ hash_there src.now file.hash) × (22 ≤ length out.old) }
    ensures { out.new ≡ overwritten (e1_head src.now file) out.old }
{
    put_byte(out, E1_OPENING);
    put_byte(&mut out[1..], E1_VERSION);
    put_dword(&mut out[2..], file.date);
    copy(&mut out[6..], bytes_at(src, file.hash, HASH_BYTES));
}

fn put_part_e1(out: &mut [u8], src: &[u8], file: PartE1, tags_len: usize, area: Area) -> usize
    requires { E1Meaning src.now file (Ok (tags_len, area)) × (26 + tags_len + spec_area_size area ≤ length out.old) }
    ensures written { result ≡ 26 + tags_len + spec_area_size area }
    ensures output { out.new ≡ overwritten (e1_bytes src.now file tags_len area) out.old }
{
    let tags = file.tags;
    put_e1_head(out, src, file);
    let wrote = put_list(&mut out[22..], tags.count, bytes_at(src, tags.at, tags_len));
    let at = 22 + wrote;
    let rest = put_area(&mut out[at..], src, area);
    at + rest
}

pub fn write_part_e1(src: &[u8], file: PartE1, out: &mut [u8]) -> Written
    ensures { WritesAt part_met (part_e1_there src.now file) (e1 (part_e1_in src.now file)) out.old
        (answered result out.new) }
{
    let (tags_len, area) = e1_lengths(src, file)?;
    check_e1(src, file, tags_len, area)?;
    let size = area_size(area);
    if out.len() < 26 + tags_len + size {
        return Err(Refusal::Room);
    }
    Ok(put_part_e1(out, src, file, tags_len, area))
}
