// The blocks of hashes at the end of a part.met that begins with E1: an area of none, one or two blocks and the closing mark.
ghost use Rattle.std.specs.Prelude.{◌≡◌, ◌++◌, ◌+◌, ◌≤◌, get_or, length, leb};
ghost use Rattle.format.specs.Layout.{byte};
ghost use Rattle.format.specs.Decoding.{decode_run};
ghost use Rattle.format.specs.Writing.{overwritten};
ghost use Rattle.met.specs.declared.HashBlocks.{HashBlocks};
ghost use Rattle.write_items.specs.There.{items_there};
ghost use Rattle.output.specs.WriteAnswers.{number_of, refusal_number};
ghost use Rattle.write_met.specs.Lengths.{length_meaning};
ghost use Rattle.write_part.specs.BlockSteps.{area_bytes, spec_area_size, AreaLies, AreaMeaning};
ghost use Rattle.write_part.specs.BlockSteps.{closed, spec_area_number, allowed, spec_blocks_number};

use crate::Area;
use met::{HashBlocks, MET_CEILING, block_count, block_hashes_from, part_count};
use output::{Refusal, copy, put_byte};
use wire::{Cursor, Fault, Items, Place, bytes_at};
use write_met::{hashes_length, length_from};

// The byte before each block, and the byte after the last one.
const BLOCK_MARK: u8 = 1;

const CLOSING_MARK: u8 = 0;

// The bytes of a part hash and of a block hash.
const PART_HASH_BYTES: usize = 16;

const BLOCK_HASH_BYTES: usize = 8;

fn block_hashes_length(s: &[u8], list: Items) -> Result<usize, Fault>
    ensures { length_meaning list.at result ≡ items_there (decode_run 8) s.now list }
{
    let at = list.at;
    length_from(at, block_hashes_from(s, Cursor { at }, list.count))
}

#[tactic(auto, using(crate::proofs::AreaBytes::no_blocks, crate::proofs::AreaBytes::one_parts, crate::proofs::AreaBytes::one_blocks, crate::proofs::AreaBytes::both_blocks))]
pub fn area_of(s: &[u8], blocks: HashBlocks) -> Result<Area, Fault>
    ensures { AreaMeaning s.now blocks result }
{
    match blocks {
        HashBlocks::Nothing => Ok(Area::Nothing),
        HashBlocks::Parts(list) => {
            let len = hashes_length(s, list)?;
            Ok(Area::One(Place { at: list.at, len }))
        }
        HashBlocks::Blocks(list) => {
            let len = block_hashes_length(s, list)?;
            Ok(Area::One(Place { at: list.at, len }))
        }
        HashBlocks::Both(parts, blocks) => {
            let parts_len = hashes_length(s, parts)?;
            let blocks_len = block_hashes_length(s, blocks)?;
            let first = Place {
                at: parts.at,
                len: parts_len,
            };
            let second = Place {
                at: blocks.at,
                len: blocks_len,
            };
            Ok(Area::Two(first, second))
        }
    }
}

// Whether a file has at most 1,048,576 bytes: 26 and those of its tags and of its area.
pub fn is_within(tags_len: usize, area: Area) -> bool
    ensures { result ≡ leb (26 + tags_len + spec_area_size area) 1048576 }
{
    if MET_CEILING < tags_len {
        return false;
    }
    match area {
        Area::Nothing => 27 + tags_len <= MET_CEILING,
        Area::One(block) => {
            let block_len = block.len;
            if MET_CEILING < block_len {
                return false;
            }
            28 + tags_len + block_len <= MET_CEILING
        }
        Area::Two(first, second) => {
            let first_len = first.len;
            let second_len = second.len;
            if MET_CEILING < first_len {
                return false;
            }
            if MET_CEILING < second_len {
                return false;
            }
            29 + tags_len + first_len + second_len <= MET_CEILING
        }
    }
}

// How many bytes an area has.
pub fn area_size(area: Area) -> usize
    requires { spec_area_size area ≤ 1048576 }
    ensures { result ≡ spec_area_size area }
{
    match area {
        Area::Nothing => 1,
        Area::One(block) => 2 + block.len,
        Area::Two(first, second) => 3 + first.len + second.len,
    }
}

// The bytes of a last block: its mark, its hashes, and the closing byte.
#[tactic(auto, using(crate::proofs::AreaBytes::at_mark, crate::proofs::AreaBytes::in_list, crate::proofs::AreaBytes::after_last))]
fn last_byte(hashes: &[u8], i: usize) -> u8
    ensures { result ≡ get_or (byte 1 ++ (hashes.now ++ byte 0)) i 0 }
{
    if i == 0 {
        return BLOCK_MARK;
    }
    let j = i - 1;
    if j < hashes.len() {
        return hashes[j];
    }
    CLOSING_MARK
}

#[tactic(auto, using(crate::proofs::AreaBytes::at_mark, crate::proofs::AreaBytes::in_list, crate::proofs::AreaBytes::after_list))]
fn two_byte(first: &[u8], second: &[u8], i: usize) -> u8
    ensures { result ≡ get_or (byte 1 ++ (first.now ++ (byte 1 ++ (second.now ++ byte 0)))) i 0 }
{
    if i == 0 {
        return BLOCK_MARK;
    }
    let j = i - 1;
    if j < first.len() {
        return first[j];
    }
    last_byte(second, j - first.len())
}

// The byte at an offset of an area, 0 after its end.
#[tactic(auto, using(crate::proofs::AreaBytes::at_closing))]
fn area_byte(src: &[u8], area: Area, i: usize) -> u8
    ensures { result ≡ get_or (area_bytes src.now area) i 0 }
{
    match area {
        Area::Nothing => 0,
        Area::One(block) => last_byte(bytes_at(src, block.at, block.len), i),
        Area::Two(first, second) => two_byte(
            bytes_at(src, first.at, first.len),
            bytes_at(src, second.at, second.len),
            i,
        ),
    }
}

// Where the bytes end with the closing mark, they are those of another file; else bytes are left over.
fn closed_refusal(size: usize, end: usize) -> Refusal
    ensures { refusal_number result ≡ closed size end }
{
    if size == end {
        Refusal::Choice
    } else {
        Refusal::Rest
    }
}

// What the reader says of an area that is not allowed, for a file with so many parts and blocks: it is followed by
// lengths and marks.
#[tactic(auto, using(crate::proofs::AreaBytes::area_sized), unfolding(crate::specs::BlockSteps::spec_area_number))]
fn area_refusal(src: &[u8], area: Area, parts: u32, blocks: u32) -> Refusal
    requires { AreaLies src.now area × (spec_area_size area ≤ 1048576) }
    ensures { refusal_number result ≡ spec_area_number parts blocks (area_bytes src.now area) }
{
    let size = area_size(area);
    let second = 1 + PART_HASH_BYTES * (parts as usize);
    if size <= second {
        return Refusal::Short;
    }
    let mark = area_byte(src, area, second);
    if mark == CLOSING_MARK {
        return closed_refusal(size, second + 1);
    }
    if mark != BLOCK_MARK {
        return Refusal::Choice;
    }
    let last = second + 1 + BLOCK_HASH_BYTES * (blocks as usize);
    if size <= last {
        return Refusal::Short;
    }
    let closing = area_byte(src, area, last);
    if closing != CLOSING_MARK {
        return Refusal::Choice;
    }
    closed_refusal(size, last + 1)
}

fn is_allowed(blocks: HashBlocks, size: u32) -> bool
    ensures { result ≡ allowed size blocks }
{
    match blocks {
        HashBlocks::Nothing => true,
        HashBlocks::Parts(list) => list.count == part_count(size),
        HashBlocks::Blocks(_) => false,
        HashBlocks::Both(first, second) => {
            first.count == part_count(size) && second.count == block_count(size)
        }
    }
}

// The check of the blocks of a file of this size.
#[tactic(auto, unfolding(crate::specs::BlockSteps::spec_blocks_number))]
pub fn check_blocks(src: &[u8], blocks: HashBlocks, area: Area, size: u32) -> Result<(), Refusal>
    requires { AreaLies src.now area × (spec_area_size area ≤ 1048576) }
    ensures { number_of result ≡ spec_blocks_number src.now blocks area size }
{
    if is_allowed(blocks, size) {
        return Ok(());
    }
    Err(area_refusal(src, area, part_count(size), block_count(size)))
}

// A mark and the hashes of a block.
fn put_block(out: &mut [u8], hashes: &[u8]) -> usize
    requires { 1 + length hashes.now ≤ length out.old }
    ensures written { result ≡ 1 + length hashes.now }
    ensures output { out.new ≡ overwritten (byte 1 ++ hashes.now) out.old }
{
    put_byte(out, BLOCK_MARK);
    copy(&mut out[1..], hashes);
    1 + hashes.len()
}

// The last block and the closing byte.
fn put_last(out: &mut [u8], hashes: &[u8]) -> usize
    requires { 2 + length hashes.now ≤ length out.old }
    ensures written { result ≡ 2 + length hashes.now }
    ensures output { out.new ≡ overwritten (byte 1 ++ (hashes.now ++ byte 0)) out.old }
{
    let at = put_block(out, hashes);
    put_byte(&mut out[at..], CLOSING_MARK);
    at + 1
}

fn put_two(out: &mut [u8], first: &[u8], second: &[u8]) -> usize
    requires { 3 + length first.now + length second.now ≤ length out.old }
    ensures written { result ≡ 3 + length first.now + length second.now }
    ensures output { out.new
        ≡ overwritten (byte 1 ++ (first.now ++ (byte 1 ++ (second.now ++ byte 0)))) out.old }
{
    let at = put_block(out, first);
    let wrote = put_last(&mut out[at..], second);
    at + wrote
}

pub fn put_area(out: &mut [u8], src: &[u8], area: Area) -> usize
    requires { AreaLies src.now area × (spec_area_size area ≤ length out.old) }
    ensures written { result ≡ spec_area_size area }
    ensures output { out.new ≡ overwritten (area_bytes src.now area) out.old }
{
    match area {
        Area::Nothing => {
            put_byte(out, CLOSING_MARK);
            1
        }
        Area::One(block) => put_last(out, bytes_at(src, block.at, block.len)),
        Area::Two(first, second) => put_two(
            out,
            bytes_at(src, first.at, first.len),
            bytes_at(src, second.at, second.len),
        ),
    }
}
