// The bodies of items alone: numbers, texts, hashes, addresses, records and lists of them, one after the other.

#![tactic(auto, unfolding(format::specs::PacketOrder::decode_body))]

ghost use Rattle.std.specs.Prelude.{◌≡◌};
ghost use Rattle.format.specs.Messages.{query_body, hash_body, dword_body, two_dwords_body, text_body, two_texts_body};
ghost use Rattle.format.specs.Messages.{address_body, addresses_body, hash_addresses_body, address_dword_body, hash_address_tags_body};
ghost use Rattle.format.specs.Messages.{record_body, records_body, records_flag_body, record_address_body, hello_body};
ghost use Rattle.format.specs.Messages.{hash_text_body, hashset_body};
ghost use Rattle.format.specs.PacketOrder.{decode_flag, decode_body};
ghost use Rattle.wire.specs.WireAnswers.{number_meaning};
ghost use Rattle.bodies.specs.BodyAnswers.{body_meaning, BodyStepPlaced};

use crate::Body;
use query::read_query;
use records::{read_address, read_addresses, read_hashes, read_record, read_records};
use tags::read_tags;
use wire::{Cursor, Fault, Rule, Step};

// The byte before the record of a Hello: the size of its hash.
const HELLO_HASH_SIZE: u8 = 0x10;

pub fn read_query_body(s: &[u8], c: Cursor) -> Step<Body>
    ensures meaning { body_meaning s.now result ≡ decode_body query_body s.now c.at }
    ensures placed { BodyStepPlaced s.now result }
{
    let (query, next) = read_query(s, c)?;
    Ok((Body::Query(query), next))
}

pub fn read_hash_body(s: &[u8], c: Cursor) -> Step<Body>
    ensures meaning { body_meaning s.now result ≡ decode_body hash_body s.now c.at }
    ensures placed { BodyStepPlaced s.now result }
{
    let (hash, next) = c.hash(s)?;
    Ok((Body::Hash(hash), next))
}

pub fn read_dword_body(s: &[u8], c: Cursor) -> Step<Body>
    ensures meaning { body_meaning s.now result ≡ decode_body dword_body s.now c.at }
    ensures placed { BodyStepPlaced s.now result }
{
    let (number, next) = c.dword(s)?;
    Ok((Body::Dword(number), next))
}

pub fn read_two_dwords(s: &[u8], c: Cursor) -> Step<Body>
    ensures meaning { body_meaning s.now result ≡ decode_body two_dwords_body s.now c.at }
    ensures placed { BodyStepPlaced s.now result }
{
    let (first, after_first) = c.dword(s)?;
    let (second, next) = after_first.dword(s)?;
    Ok((Body::TwoDwords(first, second), next))
}

pub fn read_text_body(s: &[u8], c: Cursor) -> Step<Body>
    ensures meaning { body_meaning s.now result ≡ decode_body text_body s.now c.at }
    ensures placed { BodyStepPlaced s.now result }
{
    let (text, next) = c.string(s)?;
    Ok((Body::Text(text), next))
}

pub fn read_two_texts(s: &[u8], c: Cursor) -> Step<Body>
    ensures meaning { body_meaning s.now result ≡ decode_body two_texts_body s.now c.at }
    ensures placed { BodyStepPlaced s.now result }
{
    let (first, after_first) = c.string(s)?;
    let (second, next) = after_first.string(s)?;
    Ok((Body::TwoTexts(first, second), next))
}

pub fn read_address_body(s: &[u8], c: Cursor) -> Step<Body>
    ensures meaning { body_meaning s.now result ≡ decode_body address_body s.now c.at }
    ensures placed { BodyStepPlaced s.now result }
{
    let (address, next) = read_address(s, c)?;
    Ok((Body::Address(address), next))
}

pub fn read_addresses_body(s: &[u8], c: Cursor) -> Step<Body>
    ensures meaning { body_meaning s.now result ≡ decode_body addresses_body s.now c.at }
    ensures placed { BodyStepPlaced s.now result }
{
    let (addresses, next) = read_addresses(s, c)?;
    Ok((Body::Addresses(addresses), next))
}

pub fn read_hash_addresses(s: &[u8], c: Cursor) -> Step<Body>
    ensures meaning { body_meaning s.now result ≡ decode_body hash_addresses_body s.now c.at }
    ensures placed { BodyStepPlaced s.now result }
{
    let (hash, after_hash) = c.hash(s)?;
    let (addresses, next) = read_addresses(s, after_hash)?;
    Ok((Body::HashAddresses(hash, addresses), next))
}

pub fn read_address_dword(s: &[u8], c: Cursor) -> Step<Body>
    ensures meaning { body_meaning s.now result ≡ decode_body address_dword_body s.now c.at }
    ensures placed { BodyStepPlaced s.now result }
{
    let (address, after_address) = read_address(s, c)?;
    let (number, next) = after_address.dword(s)?;
    Ok((Body::AddressDword(address, number), next))
}

pub fn read_hash_address_tags(s: &[u8], c: Cursor) -> Step<Body>
    ensures meaning { body_meaning s.now result ≡ decode_body hash_address_tags_body s.now c.at }
    ensures placed { BodyStepPlaced s.now result }
{
    let (hash, after_hash) = c.hash(s)?;
    let (address, after_address) = read_address(s, after_hash)?;
    let (tags, next) = read_tags(s, after_address)?;
    Ok((Body::HashAddressTags(hash, address, tags), next))
}

pub fn read_record_body(s: &[u8], c: Cursor) -> Step<Body>
    ensures meaning { body_meaning s.now result ≡ decode_body record_body s.now c.at }
    ensures placed { BodyStepPlaced s.now result }
{
    let (record, next) = read_record(s, c)?;
    Ok((Body::Record(record), next))
}

pub fn read_records_body(s: &[u8], c: Cursor) -> Step<Body>
    ensures meaning { body_meaning s.now result ≡ decode_body records_body s.now c.at }
    ensures placed { BodyStepPlaced s.now result }
{
    let (records, next) = read_records(s, c)?;
    Ok((Body::Records(records), next))
}

// A byte 00 or 01.
#[tactic(auto, unfolding(format::specs::PacketOrder::decode_flag))]
fn read_flag(s: &[u8], c: Cursor) -> Step<u8>
    ensures { number_meaning result ≡ decode_flag s.now c.at }
{
    let (flag, next) = c.byte(s)?;
    if flag <= 1 {
        return Ok((flag, next));
    }
    Err(Fault {
        rule: Rule::Choice,
        at: c.at,
        size: 1,
    })
}

pub fn read_records_flag(s: &[u8], c: Cursor) -> Step<Body>
    ensures meaning { body_meaning s.now result ≡ decode_body records_flag_body s.now c.at }
    ensures placed { BodyStepPlaced s.now result }
{
    let (records, after_records) = read_records(s, c)?;
    let (flag, next) = read_flag(s, after_records)?;
    Ok((Body::RecordsFlag(records, flag), next))
}

pub fn read_record_address(s: &[u8], c: Cursor) -> Step<Body>
    ensures meaning { body_meaning s.now result ≡ decode_body record_address_body s.now c.at }
    ensures placed { BodyStepPlaced s.now result }
{
    let (record, after_record) = read_record(s, c)?;
    let (address, next) = read_address(s, after_record)?;
    Ok((Body::RecordAddress(record, address), next))
}

pub fn read_hello(s: &[u8], c: Cursor) -> Step<Body>
    ensures meaning { body_meaning s.now result ≡ decode_body hello_body s.now c.at }
    ensures placed { BodyStepPlaced s.now result }
{
    let after_fixed = c.fixed(s, HELLO_HASH_SIZE)?;
    let (record, after_record) = read_record(s, after_fixed)?;
    let (address, next) = read_address(s, after_record)?;
    Ok((Body::Hello(record, address), next))
}

pub fn read_hash_text(s: &[u8], c: Cursor) -> Step<Body>
    ensures meaning { body_meaning s.now result ≡ decode_body hash_text_body s.now c.at }
    ensures placed { BodyStepPlaced s.now result }
{
    let (hash, after_hash) = c.hash(s)?;
    let (text, next) = after_hash.string(s)?;
    Ok((Body::HashText(hash, text), next))
}

pub fn read_hashset(s: &[u8], c: Cursor) -> Step<Body>
    ensures meaning { body_meaning s.now result ≡ decode_body hashset_body s.now c.at }
    ensures placed { BodyStepPlaced s.now result }
{
    let (hash, after_hash) = c.hash(s)?;
    let (parts, next) = read_hashes(s, after_hash)?;
    Ok((Body::Hashset(hash, parts), next))
}
