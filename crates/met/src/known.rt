// The reader of known.met. An entry of it is also what stands after the opening byte of a part.met that opens with E0.
ghost use Rattle.std.specs.Prelude.{◌≡◌, ◌↔◌};
ghost use Rattle.format.specs.Messages as messages;
ghost use Rattle.format.specs.Messages.{known_met};
ghost use Rattle.format.specs.Layout.{encode};
ghost use Rattle.format.specs.Rules.{Valid};
ghost use Rattle.format.specs.Decoding.{decode_many, ends, reply, message};
ghost use Rattle.format.specs.Order.{decode_dword, decode_counted};
ghost use Rattle.format.specs.MetOrder.{decode, decode_file_entry, decode_known_met};
ghost use Rattle.wire.specs.WireAnswers.{items_meaning, ItemsStepPlaced, ItemsStepInside};
ghost use Rattle.tags.specs.Skips.{EndsThere};
ghost use Rattle.met.specs.MetAnswers.{file_entry_meaning, FileEntryStepPlaced};
ghost use Rattle.met.specs.MetAnswers.{known_met_meaning, KnownMetStepPlaced, known_reply, KnownAnswerPlaced};

use crate::{FileEntry, KnownMet, MET_CEILING, read_opening};
use records::read_hashes;
use tags::{read_tags, tag_list_end};
use wire::{Cursor, Items, Rule, Step, pair};

// The date, the HASH and the number of the part hashes, in bytes.
const BEFORE_HASHES: usize = 22;

#[tactic(auto, unfolding(format::specs::MetOrder::decode_file_entry))]
pub fn read_file_entry(s: &[u8], c: Cursor) -> Step<FileEntry>
    ensures meaning { file_entry_meaning s.now result ≡ decode_file_entry s.now c.at }
    ensures placed { FileEntryStepPlaced s.now result }
{
    let (date, after_date) = c.dword(s)?;
    let (hash, after_hash) = after_date.hash(s)?;
    let (parts, after_parts) = read_hashes(s, after_hash)?;
    let (tags, next) = read_tags(s, after_parts)?;
    Ok((
        FileEntry {
            date,
            hash,
            parts,
            tags,
        },
        next,
    ))
}

// To skip an entry without its values, as crates/tags skips a tag: the offset after the entry at `at`, or 0 where the tests do not tell.
fn file_entry_end(s: &[u8], at: usize) -> usize
    ensures { EndsThere (ends (decode_file_entry s.now at)) result }
{
    if s.len() < BEFORE_HASHES {
        return 0;
    }
    if s.len() - BEFORE_HASHES < at {
        return 0;
    }
    let count = pair(s[at + 20], s[at + 21]) as usize;
    let size = 16 * count;
    let hashes = at + BEFORE_HASHES;
    if s.len() - hashes < size {
        return 0;
    }
    tag_list_end(s, hashes + size)
}

// Entries one after the other: each is skipped, and where the tests do not tell, it is read for the fault.
pub fn file_entries_from(s: &[u8], first: Cursor, count: u32) -> Step<Items>
    ensures meaning { items_meaning decode_file_entry s.now result
        ≡ decode_many count decode_file_entry s.now first.at }
    ensures placed { ItemsStepPlaced decode_file_entry s.now result }
{
    let at = first.at;
    let mut end = at;
    for _ in 0..count {
        let next = file_entry_end(s, end);
        if next != 0 {
            end = next;
            continue;
        }
        let (_, after) = read_file_entry(s, Cursor { at: end })?;
        end = after.at;
    }
    Ok((Items { at, end, count }, Cursor { at: end }))
}

// DWORD count, then the entries.
#[tactic(auto, unfolding(format::specs::Order::decode_counted))]
fn read_file_entries(s: &[u8], c: Cursor) -> Step<Items>
    ensures meaning { items_meaning decode_file_entry s.now result
        ≡ decode_counted decode_dword decode_file_entry s.now c.at }
    ensures placed { ItemsStepInside decode_file_entry s.now result }
{
    let (count, first) = c.dword(s)?;
    file_entries_from(s, first, count)
}

#[tactic(auto, unfolding(format::specs::MetOrder::decode_known_met))]
fn read_known_met_at(s: &[u8], c: Cursor) -> Step<KnownMet>
    ensures meaning { known_met_meaning s.now result ≡ decode_known_met s.now c.at }
    ensures placed { KnownMetStepPlaced s.now result }
{
    let (opening, after_opening) = read_opening(s, c)?;
    let (entries, next) = read_file_entries(s, after_opening)?;
    Ok((KnownMet { opening, entries }, next))
}

pub fn read_known_met(s: &[u8]) -> Result<KnownMet, Rule>
    ensures meaning { known_reply s.now result ≡ reply (decode known_met s.now) }
    ensures placed { KnownAnswerPlaced s.now result }
    ensures exact { (m : messages.KnownMet) →
        (known_reply s.now result ≡ message m) ↔ ((s.now ≡ encode known_met m) × Valid known_met m) }
{
    if MET_CEILING < s.len() {
        return Err(Rule::BytesCeiling);
    }
    let (file, next) = read_known_met_at(s, Cursor { at: 0 })?;
    let end = next.at;
    if end == s.len() {
        return Ok(file);
    }
    Err(Rule::Rest)
}
