// The reader of server.met: all after the last entry is tail.
ghost use Rattle.std.specs.Prelude.{◌≤◌, ◌≡◌, ◌↔◌, drop, length};
ghost use Rattle.format.specs.Messages as messages;
ghost use Rattle.format.specs.Messages.{server_met};
ghost use Rattle.format.specs.Layout.{encode};
ghost use Rattle.format.specs.Rules.{Valid};
ghost use Rattle.format.specs.Decoding.{decode_many, ends, reply, message};
ghost use Rattle.format.specs.Order.{decode_dword, decode_counted};
ghost use Rattle.format.specs.MetOrder.{decode, decode_server_entry, decode_server_met};
ghost use Rattle.wire.specs.WireAnswers.{items_meaning, ItemsStepPlaced, ItemsStepInside, place_bytes, PlaceInside};
ghost use Rattle.tags.specs.Skips.{EndsThere};
ghost use Rattle.met.specs.MetAnswers.{server_entry_meaning, ServerEntryStepPlaced};
ghost use Rattle.met.specs.MetAnswers.{server_met_meaning, ServerMetStepPlaced, server_reply, ServerAnswerPlaced};

use crate::{MET_CEILING, ServerEntry, ServerMet, read_opening};
use tags::{read_tags, tag_list_end};
use wire::{Cursor, Fault, Items, Place, Rule, Step};

// The IP and the port, in bytes.
const BEFORE_TAGS: usize = 6;

#[tactic(auto, unfolding(format::specs::MetOrder::decode_server_entry))]
pub fn read_server_entry(s: &[u8], c: Cursor) -> Step<ServerEntry>
    ensures meaning { server_entry_meaning s.now result ≡ decode_server_entry s.now c.at }
    ensures placed { ServerEntryStepPlaced s.now result }
{
    let (ip, after_ip) = c.dword(s)?;
    let (port, after_port) = after_ip.word(s)?;
    let (tags, next) = read_tags(s, after_port)?;
    Ok((ServerEntry { ip, port, tags }, next))
}

// The offset after the entry at `at`, or 0 where the tests do not tell.
fn server_entry_end(s: &[u8], at: usize) -> usize
    ensures { EndsThere (ends (decode_server_entry s.now at)) result }
{
    if s.len() < BEFORE_TAGS {
        return 0;
    }
    if s.len() - BEFORE_TAGS < at {
        return 0;
    }
    tag_list_end(s, at + BEFORE_TAGS)
}

// Entries one after the other: each is skipped, and where the tests do not tell, it is read for the fault.
pub fn server_entries_from(s: &[u8], first: Cursor, count: u32) -> Step<Items>
    ensures meaning { items_meaning decode_server_entry s.now result
        ≡ decode_many count decode_server_entry s.now first.at }
    ensures placed { ItemsStepPlaced decode_server_entry s.now result }
{
    let at = first.at;
    let mut end = at;
    for _ in 0..count {
        let next = server_entry_end(s, end);
        if next != 0 {
            end = next;
            continue;
        }
        let (_, after) = read_server_entry(s, Cursor { at: end })?;
        end = after.at;
    }
    Ok((Items { at, end, count }, Cursor { at: end }))
}

// DWORD count, then the entries.
#[tactic(auto, unfolding(format::specs::Order::decode_counted))]
fn read_server_entries(s: &[u8], c: Cursor) -> Step<Items>
    ensures meaning { items_meaning decode_server_entry s.now result
        ≡ decode_counted decode_dword decode_server_entry s.now c.at }
    ensures placed { ItemsStepInside decode_server_entry s.now result }
{
    let (count, first) = c.dword(s)?;
    server_entries_from(s, first, count)
}

// All the bytes from the cursor on.
fn tail_from(s: &[u8], c: Cursor) -> Place
    requires { c.at ≤ length s.now }
    ensures result_value { place_bytes s.now result ≡ drop c.at s.now }
    ensures inside { PlaceInside s.now result }
{
    let at = c.at;
    Place {
        at,
        len: s.len() - at,
    }
}

#[tactic(auto, using(crate::proofs::Inside::entries_inside), unfolding(format::specs::MetOrder::decode_server_met, format::specs::Decoding::decode_tail))]
fn read_server_met_at(s: &[u8], c: Cursor) -> Result<ServerMet, Fault>
    ensures meaning { server_met_meaning s.now result ≡ decode_server_met s.now c.at }
    ensures placed { ServerMetStepPlaced s.now result }
{
    let (opening, after_opening) = read_opening(s, c)?;
    let (entries, after_entries) = read_server_entries(s, after_opening)?;
    let tail = tail_from(s, after_entries);
    Ok(ServerMet {
        opening,
        entries,
        tail,
    })
}

// All after the last entry is tail, so that no bytes are left over.
pub fn read_server_met(s: &[u8]) -> Result<ServerMet, Rule>
    ensures meaning { server_reply s.now result ≡ reply (decode server_met s.now) }
    ensures placed { ServerAnswerPlaced s.now result }
    ensures exact { (m : messages.ServerMet) →
        (server_reply s.now result ≡ message m) ↔ ((s.now ≡ encode server_met m) × Valid server_met m) }
{
    if MET_CEILING < s.len() {
        return Err(Rule::BytesCeiling);
    }
    Ok(read_server_met_at(s, Cursor { at: 0 })?)
}
