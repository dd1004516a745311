// Addresses, records and lists of these and of hashes: what packets and met files are made of besides tags.
//
// A list is returned as its range (Items). To scan it, start a cursor at its first item and read item after item with
// the reader of one item, as many as the list counts.

#![tactic(auto)]

ghost use Rattle.std.specs.Prelude.{◌≡◌};
ghost use Rattle.format.specs.Decoding.{decode_many, ends};
ghost use Rattle.format.specs.Order.{decode_byte, decode_word, decode_dword, decode_hash, decode_address, decode_record, decode_counted};
ghost use Rattle.wire.specs.WireAnswers.{items_meaning, ItemsStepPlaced, ItemsStepInside};
ghost use Rattle.tags.specs.Skips.{EndsThere};
ghost use Rattle.records.specs.RecordAnswers.{address_meaning, record_meaning, RecordStepPlaced};

use tags::{read_tags, tag_list_end};
use wire::{Cursor, Fault, Items, Step, items_from};

#[derive(Clone, Copy)]
pub struct Address {
    pub ip: u32,
    pub port: u16,
}

// A file or a client, as peers and servers list it: `hash` is the offset of its 16 bytes.
#[derive(Clone, Copy)]
pub struct Record {
    pub hash: usize,
    pub client: u32,
    pub port: u16,
    pub tags: Items,
}

pub fn read_address(s: &[u8], c: Cursor) -> Step<Address>
    ensures { address_meaning result ≡ decode_address s.now c.at }
{
    let (ip, after_ip) = c.dword(s)?;
    let (port, next) = after_ip.word(s)?;
    Ok((Address { ip, port }, next))
}

// The HASH, the client and the port of a record, in bytes.
const BEFORE_TAGS: usize = 22;

pub fn read_record(s: &[u8], c: Cursor) -> Step<Record>
    ensures meaning { record_meaning s.now result ≡ decode_record s.now c.at }
    ensures placed { RecordStepPlaced s.now result }
{
    let (hash, after_hash) = c.hash(s)?;
    let (client, after_client) = after_hash.dword(s)?;
    let (port, after_port) = after_client.word(s)?;
    let (tags, next) = read_tags(s, after_port)?;
    Ok((
        Record {
            hash,
            client,
            port,
            tags,
        },
        next,
    ))
}

// Items one after the other, each read by itself. A count that is too high ends at the first missing item.
fn address_by_address(s: &[u8], first: Cursor, count: u32) -> Step<Items>
    ensures meaning { items_meaning decode_address s.now result ≡ decode_many count decode_address s.now first.at }
    ensures placed { ItemsStepPlaced decode_address s.now result }
{
    items_from(first, count, |c| read_address(s, c))
}

// Addresses all have 6 bytes: where the bytes of all are there, none is read.
pub fn addresses_from(s: &[u8], first: Cursor, count: u32) -> Step<Items>
    ensures meaning { items_meaning decode_address s.now result ≡ decode_many count decode_address s.now first.at }
    ensures placed { ItemsStepPlaced decode_address s.now result }
{
    let at = first.at;
    let size = 6 * count as usize;
    if s.len() < size {
        return address_by_address(s, first, count);
    }
    if s.len() - size < at {
        return address_by_address(s, first, count);
    }
    let end = at + size;
    Ok((Items { at, end, count }, Cursor { at: end }))
}

// The offset after the record at `at`, or 0 where the tests do not tell, as crates/tags skips a tag.
fn record_end(s: &[u8], at: usize) -> usize
    ensures { EndsThere (ends (decode_record s.now at)) result }
{
    if s.len() < BEFORE_TAGS {
        return 0;
    }
    if s.len() - BEFORE_TAGS < at {
        return 0;
    }
    tag_list_end(s, at + BEFORE_TAGS)
}

// Records one after the other: each is skipped, and where the tests do not tell, it is read for the fault.
pub fn records_from(s: &[u8], first: Cursor, count: u32) -> Step<Items>
    ensures meaning { items_meaning decode_record s.now result ≡ decode_many count decode_record s.now first.at }
    ensures placed { ItemsStepPlaced decode_record s.now result }
{
    let at = first.at;
    let mut end = at;
    for _ in 0..count {
        let next = record_end(s, end);
        if next != 0 {
            end = next;
            continue;
        }
        let (_, after) = read_record(s, Cursor { at: end })?;
        end = after.at;
    }
    Ok((Items { at, end, count }, Cursor { at: end }))
}

fn hash_by_hash(s: &[u8], first: Cursor, count: u32) -> Step<Items>
    ensures meaning { items_meaning decode_hash s.now result ≡ decode_many count decode_hash s.now first.at }
    ensures placed { ItemsStepPlaced decode_hash s.now result }
{
    items_from(first, count, |c| c.hash(s))
}

// Hashes with no count before them, as the blocks of a part.met have them. They all have 16 bytes.
pub fn hashes_from(s: &[u8], first: Cursor, count: u32) -> Step<Items>
    ensures meaning { items_meaning decode_hash s.now result ≡ decode_many count decode_hash s.now first.at }
    ensures placed { ItemsStepPlaced decode_hash s.now result }
{
    let at = first.at;
    let size = 16 * count as usize;
    if s.len() < size {
        return hash_by_hash(s, first, count);
    }
    if s.len() - size < at {
        return hash_by_hash(s, first, count);
    }
    let end = at + size;
    Ok((Items { at, end, count }, Cursor { at: end }))
}

// BYTE count, then the addresses.
pub fn read_addresses(s: &[u8], c: Cursor) -> Step<Items>
    ensures meaning { items_meaning decode_address s.now result ≡ decode_counted decode_byte decode_address s.now c.at }
    ensures placed { ItemsStepInside decode_address s.now result }
{
    let (count, first) = c.byte(s)?;
    addresses_from(s, first, count as u32)
}

// DWORD count, then the records.
pub fn read_records(s: &[u8], c: Cursor) -> Step<Items>
    ensures meaning { items_meaning decode_record s.now result ≡ decode_counted decode_dword decode_record s.now c.at }
    ensures placed { ItemsStepInside decode_record s.now result }
{
    let (count, first) = c.dword(s)?;
    records_from(s, first, count)
}

// WORD count, then the hashes.
pub fn read_hashes(s: &[u8], c: Cursor) -> Step<Items>
    ensures meaning { items_meaning decode_hash s.now result ≡ decode_counted decode_word decode_hash s.now c.at }
    ensures placed { ItemsStepInside decode_hash s.now result }
{
    let (count, first) = c.word(s)?;
    hashes_from(s, first, count as u32)
}
