// The reader of part.met, and of its gaps.
ghost use Rattle.std.specs.Prelude.{◌≡◌, ◌↔◌, length};
ghost use Rattle.format.specs.Messages as messages;
ghost use Rattle.format.specs.Messages.{part_met};
ghost use Rattle.format.specs.Layout.{encode};
ghost use Rattle.format.specs.Rules.{Valid};
ghost use Rattle.format.specs.Decoding.{and_then, decode_run, decode_many, reply, message};
ghost use Rattle.format.specs.Order.{decode_hash, decode_code};
ghost use Rattle.format.specs.MetOrder.{decode};
ghost use Rattle.format.specs.MetOrder.{marks, decode_second_block, decode_hash_blocks, decode_part_tags};
ghost use Rattle.format.specs.MetOrder.{is_e0, is_e1, decode_edition, decode_part_body, decode_part_met};
ghost use Rattle.wire.specs.WireAnswers.{items_in, ItemsInside, items_meaning, ItemsStepPlaced};
ghost use Rattle.met.specs.MetAnswers.{mark_meaning, blocks_meaning, BlocksStepPlaced, edition_meaning};
ghost use Rattle.met.specs.MetAnswers.{part_tags_meaning, PartTagsStepPlaced, PartTagsStepSized};
ghost use Rattle.met.specs.MetAnswers.{part_met_meaning, PartMetStepPlaced, PartMetStepSized};
ghost use Rattle.met.specs.MetAnswers.{part_reply, PartAnswerPlaced, PartAnswerSized, gaps_told, gaps_answer};
ghost use Rattle.met.specs.MetAnswers.{part_in, PartReadSized};

use crate::{
    Edition, FileEntry, HashBlocks, MET_CEILING, Mark, PartE1, PartGaps, PartMet, block_count,
    part_count,
};
use gaps::GapRecord;
use part_tags::{part_tags_from, record_of};
use records::{hashes_from, read_hashes};
use wire::{Cursor, Fault, Items, Rule, Step, items_from};

// part.met

// Block hashes: runs of 8 bytes, with no count before them.
fn block_hash_by_block_hash(s: &[u8], first: Cursor, n: u32) -> Step<Items>
    ensures meaning { items_meaning (decode_run 8) s.now result ≡ decode_many n (decode_run 8) s.now first.at }
    ensures placed { ItemsStepPlaced (decode_run 8) s.now result }
{
    items_from(first, n, |c| c.run(s, 8))
}

// Block hashes all have 8 bytes: where the bytes of all are there, none is read.
pub fn block_hashes_from(s: &[u8], first: Cursor, n: u32) -> Step<Items>
    ensures meaning { items_meaning (decode_run 8) s.now result ≡ decode_many n (decode_run 8) s.now first.at }
    ensures placed { ItemsStepPlaced (decode_run 8) s.now result }
{
    let at = first.at;
    let size = 8 * n as usize;
    if s.len() < size {
        return block_hash_by_block_hash(s, first, n);
    }
    if s.len() - size < at {
        return block_hash_by_block_hash(s, first, n);
    }
    let end = at + size;
    Ok((Items { at, end, count: n }, Cursor { at: end }))
}

#[tactic(auto, unfolding(format::specs::Order::decode_code))]
fn read_mark(s: &[u8], c: Cursor) -> Step<Mark>
    ensures { mark_meaning result ≡ decode_code marks s.now c.at }
{
    let (code, next) = c.byte(s)?;
    match code {
        0x00 => Ok((Mark::Stop, next)),
        0x01 => Ok((Mark::More, next)),
        _ => Err(Fault {
            rule: Rule::Choice,
            at: c.at,
            size: 1,
        }),
    }
}

// What stands after the part hashes: the closing mark, or a second block and the closing mark.
#[tactic(auto, using(crate::proofs::Inside::block_hashes_inside), unfolding(format::specs::MetOrder::decode_second_block))]
fn read_second_block(s: &[u8], c: Cursor, size: u32, parts: Items) -> Step<HashBlocks>
    requires { ItemsInside decode_hash s.now parts }
    ensures meaning { blocks_meaning s.now result
        ≡ and_then s.now (decode_code marks s.now c.at)
        (decode_second_block size (items_in decode_hash s.now parts)) }
    ensures placed { BlocksStepPlaced s.now result }
{
    let (mark, after_mark) = read_mark(s, c)?;
    let Mark::More = mark else {
        return Ok((HashBlocks::Parts(parts), after_mark));
    };
    let (blocks, after_blocks) = block_hashes_from(s, after_mark, block_count(size))?;
    let next = after_blocks.fixed(s, 0x00)?;
    Ok((HashBlocks::Both(parts, blocks), next))
}

// The blocks of a file of this size.
#[tactic(auto, using(crate::proofs::Inside::hashes_inside), unfolding(format::specs::MetOrder::decode_hash_blocks))]
fn read_blocks(s: &[u8], c: Cursor, size: u32) -> Step<HashBlocks>
    ensures meaning { blocks_meaning s.now result ≡ decode_hash_blocks size s.now c.at }
    ensures placed { BlocksStepPlaced s.now result }
{
    let (mark, after_mark) = read_mark(s, c)?;
    let Mark::More = mark else {
        return Ok((HashBlocks::Nothing, after_mark));
    };
    let (parts, after_parts) = hashes_from(s, after_mark, part_count(size))?;
    read_second_block(s, after_parts, size, parts)
}

#[tactic(auto, unfolding(format::specs::MetOrder::decode_edition))]
fn read_edition(s: &[u8], c: Cursor) -> Step<Edition>
    ensures { edition_meaning result ≡ decode_edition s.now c.at }
{
    let (code, next) = c.byte(s)?;
    match code {
        0xE0 => Ok((Edition::E0, next)),
        0xE1 => Ok((Edition::E1, next)),
        _ => Err(Fault {
            rule: Rule::Opening,
            at: c.at,
            size: 1,
        }),
    }
}

// A tag list, which is checked when it is there. Where it breaks a rule, the faulty item is the whole list. The offsets of the start tags
// are left in the array, here and in the readers below.
#[tactic(auto, using(crate::proofs::PartFile::tags_pass, crate::proofs::PartFile::tags_inside, crate::proofs::PartFile::tags_violate), unfolding(format::specs::MetOrder::decode_part_tags, format::specs::Order::decode_tags, format::specs::Order::decode_counted))]
fn read_part_tags(s: &[u8], c: Cursor, starts: &mut [usize; 64]) -> Step<(Items, PartGaps)>
    requires { length starts.old ≡ 64 }
    ensures meaning { part_tags_meaning s.now result ≡ decode_part_tags s.now c.at }
    ensures placed { PartTagsStepPlaced s.now result }
    ensures sized { PartTagsStepSized s.now starts.new result }
{
    let (count, first) = c.dword(s)?;
    let at = first.at;
    let checked = part_tags_from(s, at, count, starts)?;
    let end = checked.end;
    match checked.verdict {
        Ok(size) => {
            let gaps = PartGaps {
                range: checked.range,
                count: checked.gaps,
                size,
            };
            Ok(((Items { at, end, count }, gaps), Cursor { at: end }))
        }
        Err(rule) => Err(Fault {
            rule,
            at: c.at,
            size: end.saturating_sub(c.at),
        }),
    }
}

// After E0 stands one entry, as in known.met, whose tags are checked.
#[tactic(auto, unfolding(format::specs::MetOrder::decode_part_e0))]
fn read_part_e0(s: &[u8], c: Cursor, starts: &mut [usize; 64]) -> Step<(PartMet, PartGaps)>
    requires { length starts.old ≡ 64 }
    ensures meaning { part_met_meaning s.now result ≡ decode_part_body is_e0 s.now c.at }
    ensures placed { PartMetStepPlaced s.now result }
    ensures sized { PartMetStepSized s.now starts.new result }
{
    let (date, after_date) = c.dword(s)?;
    let (hash, after_hash) = after_date.hash(s)?;
    let (parts, after_parts) = read_hashes(s, after_hash)?;
    let ((tags, gaps), next) = read_part_tags(s, after_parts, starts)?;
    let entry = FileEntry {
        date,
        hash,
        parts,
        tags,
    };
    Ok(((PartMet::E0(entry), gaps), next))
}

// The tags are checked before the blocks are read, and their size says how many hashes a block has.
#[tactic(auto, unfolding(format::specs::MetOrder::decode_part_e1))]
fn read_part_e1(s: &[u8], c: Cursor, starts: &mut [usize; 64]) -> Step<(PartMet, PartGaps)>
    requires { length starts.old ≡ 64 }
    ensures meaning { part_met_meaning s.now result ≡ decode_part_body is_e1 s.now c.at }
    ensures placed { PartMetStepPlaced s.now result }
    ensures sized { PartMetStepSized s.now starts.new result }
{
    let after_fixed = c.fixed(s, 0x02)?;
    let (date, after_date) = after_fixed.dword(s)?;
    let (hash, after_hash) = after_date.hash(s)?;
    let ((tags, gaps), after_tags) = read_part_tags(s, after_hash, starts)?;
    let (blocks, next) = read_blocks(s, after_tags, gaps.size)?;
    let file = PartE1 {
        date,
        hash,
        tags,
        blocks,
    };
    Ok(((PartMet::E1(file), gaps), next))
}

#[tactic(auto, unfolding(format::specs::MetOrder::decode_part_met))]
fn read_part_met_at(s: &[u8], c: Cursor, starts: &mut [usize; 64]) -> Step<(PartMet, PartGaps)>
    requires { length starts.old ≡ 64 }
    ensures meaning { part_met_meaning s.now result ≡ decode_part_met s.now c.at }
    ensures placed { PartMetStepPlaced s.now result }
    ensures sized { PartMetStepSized s.now starts.new result }
{
    let (edition, next) = read_edition(s, c)?;
    match edition {
        Edition::E0 => read_part_e0(s, next, starts),
        Edition::E1 => read_part_e1(s, next, starts),
    }
}

// A part.met and its gaps.
pub fn read_part(s: &[u8], starts: &mut [usize; 64]) -> Result<(PartMet, PartGaps), Rule>
    requires { length starts.old ≡ 64 }
    ensures meaning { part_reply s.now (part_in result) ≡ reply (decode part_met s.now) }
    ensures placed { PartAnswerPlaced s.now (part_in result) }
    ensures sized { PartReadSized s.now starts.new result }
    ensures exact { (m : messages.PartMet) →
        (part_reply s.now (part_in result) ≡ message m) ↔ ((s.now ≡ encode part_met m) × Valid part_met m) }
{
    if MET_CEILING < s.len() {
        return Err(Rule::BytesCeiling);
    }
    let ((file, gaps), next) = read_part_met_at(s, Cursor { at: 0 }, starts)?;
    let end = next.at;
    if end == s.len() {
        return Ok((file, gaps));
    }
    Err(Rule::Rest)
}

pub fn read_part_met(s: &[u8]) -> Result<(PartMet, u32), Rule>
    ensures meaning { part_reply s.now result ≡ reply (decode part_met s.now) }
    ensures placed { PartAnswerPlaced s.now result }
    ensures sized { PartAnswerSized s.now result }
    ensures exact { (m : messages.PartMet) →
        (part_reply s.now result ≡ message m) ↔ ((s.now ≡ encode part_met m) × Valid part_met m) }
{
    let mut starts: [usize; 64] = [0; 64];
    let (file, gaps) = read_part(s, &mut starts)?;
    Ok((file, gaps.size))
}

// The gaps of a part.met.
pub fn read_gaps(s: &[u8]) -> Result<GapRecord, Rule>
    ensures { gaps_told result ≡ gaps_answer (reply (decode part_met s.now)) }
{
    let mut starts: [usize; 64] = [0; 64];
    let (_, gaps) = read_part(s, &mut starts)?;
    Ok(record_of(s, &starts, gaps.count, gaps.size))
}
