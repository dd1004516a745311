// The message that given numbers would be those of.
ghost use Rattle.std.specs.Prelude.{◌≡◌, ◌<◌};
ghost use Rattle.fields.specs.Given.{number_at, byte_at, word_at, spec_dword_at, place_at, spec_items_at, spec_query_at, spec_address_at, spec_record_at, spec_triple_at, spec_form_at};
ghost use Rattle.fields.specs.Given.{sending_part_given, request_parts_given, file_status_given, status_request_given, extended_status_given};
ghost use Rattle.fields.specs.Given.{spec_body_given, spec_packet_given, spec_known_given, spec_server_given, spec_blocks_given, spec_e0_given, spec_e1_given, spec_part_given, spec_size_given};

use crate::shape;
use bodies::{
    Body, ExtendedStatus, FileStatus, Form, RequestParts, SendingPart, StatusRequest, Triple,
};
use met::{FileEntry, HashBlocks, KnownMet, PartE1, PartMet, ServerMet};
use packets::Packet;
use query::Query;
use records::{Address, Record};
use wire::{Items, Place};

// The message that given numbers would be those of. Each number is taken as its field can hold it, so that what is found has the
// numbers that were given exactly where they are a message's (same_fields).

// 0 where there is no such number.
fn number_at(given: &[u64], i: usize) -> u64
    ensures { result ≡ number_at given.now i }
{
    given.get(i).copied().unwrap_or(0)
}

fn place_of(given: &[u64], i: usize) -> usize
    ensures { result ≡ number_at given.now i }
{
    number_at(given, i) as usize
}

fn byte_at(given: &[u64], i: usize) -> u8
    ensures { result ≡ byte_at given.now i }
{
    (number_at(given, i) % 256) as u8
}

fn word_at(given: &[u64], i: usize) -> u16
    ensures { result ≡ word_at given.now i }
{
    (number_at(given, i) % 65536) as u16
}

fn dword_at(given: &[u64], i: usize) -> u32
    ensures { result ≡ spec_dword_at given.now i }
{
    (number_at(given, i) % 4294967296) as u32
}

fn text_at(given: &[u64], i: usize) -> Place
    requires { i < 16 }
    ensures { result ≡ place_at given.now i }
{
    Place {
        at: place_of(given, i),
        len: place_of(given, i + 1),
    }
}

fn items_at(given: &[u64], i: usize) -> Items
    requires { i < 16 }
    ensures { result ≡ spec_items_at given.now i }
{
    Items {
        at: place_of(given, i),
        end: place_of(given, i + 1),
        count: dword_at(given, i + 2),
    }
}

fn address_at(given: &[u64], i: usize) -> Address
    requires { i < 16 }
    ensures { result ≡ spec_address_at given.now i }
{
    Address {
        ip: dword_at(given, i),
        port: word_at(given, i + 1),
    }
}

fn record_at(given: &[u64], i: usize) -> Record
    requires { i < 13 }
    ensures { result ≡ spec_record_at given.now i }
{
    let hash = place_of(given, i);
    let client = dword_at(given, i + 1);
    let port = word_at(given, i + 2);
    let tags = items_at(given, i + 3);
    Record {
        hash,
        client,
        port,
        tags,
    }
}

fn triple_at(given: &[u64], i: usize) -> Triple
    requires { i < 16 }
    ensures { result ≡ spec_triple_at given.now i }
{
    Triple {
        first: dword_at(given, i),
        second: dword_at(given, i + 1),
        third: dword_at(given, i + 2),
    }
}

fn query_at(given: &[u64], i: usize) -> Query
    requires { i < 16 }
    ensures { result ≡ spec_query_at given.now i }
{
    Query {
        at: place_of(given, i),
        end: place_of(given, i + 1),
        depth: place_of(given, i + 2),
    }
}

// The form by its number in the C interface: `form_number` of packet.rt.
fn form_at(given: &[u64], i: usize) -> Form
    ensures { result ≡ spec_form_at given.now i }
{
    match number_at(given, i) {
        0 => Form::Plain,
        _ => Form::Extended,
    }
}

fn sending_part_at(given: &[u64]) -> Body
    ensures { result ≡ sending_part_given given.now }
{
    let hash = place_of(given, 3);
    let start = dword_at(given, 4);
    let end = dword_at(given, 5);
    let data = text_at(given, 6);
    Body::SendingPart(SendingPart {
        hash,
        start,
        end,
        data,
    })
}

fn request_parts_at(given: &[u64]) -> Body
    ensures { result ≡ request_parts_given given.now }
{
    let hash = place_of(given, 3);
    let starts = triple_at(given, 4);
    let ends = triple_at(given, 7);
    Body::RequestParts(RequestParts { hash, starts, ends })
}

fn file_status_at(given: &[u64]) -> Body
    ensures { result ≡ file_status_given given.now }
{
    let hash = place_of(given, 3);
    let parts = place_of(given, 4);
    let bits = place_of(given, 5);
    Body::FileStatus(FileStatus { hash, parts, bits })
}

fn status_request_at(given: &[u64]) -> Body
    ensures { result ≡ status_request_given given.now }
{
    let form = form_at(given, 3);
    let number = dword_at(given, 4);
    Body::StatusRequest(StatusRequest { form, number })
}

fn extended_status_at(given: &[u64]) -> Body
    ensures { result ≡ extended_status_given given.now }
{
    let first = byte_at(given, 3);
    let second = byte_at(given, 4);
    let numbers = triple_at(given, 5);
    Body::ExtendedStatus(ExtendedStatus {
        first,
        second,
        numbers,
    })
}

#[tactic(auto, unfolding(crate::specs::Given::spec_body_given))]
fn body_given(given: &[u64]) -> Body
    ensures { result ≡ spec_body_given given.now }
{
    match number_at(given, 2) {
        shape::QUERY => Body::Query(query_at(given, 3)),
        shape::HASH => Body::Hash(place_of(given, 3)),
        shape::DWORD => Body::Dword(dword_at(given, 3)),
        shape::TWO_DWORDS => Body::TwoDwords(dword_at(given, 3), dword_at(given, 4)),
        shape::TEXT => Body::Text(text_at(given, 3)),
        shape::TWO_TEXTS => Body::TwoTexts(text_at(given, 3), text_at(given, 5)),
        shape::ADDRESS => Body::Address(address_at(given, 3)),
        shape::ADDRESSES => Body::Addresses(items_at(given, 3)),
        shape::HASH_ADDRESSES => Body::HashAddresses(place_of(given, 3), items_at(given, 4)),
        shape::ADDRESS_DWORD => Body::AddressDword(address_at(given, 3), dword_at(given, 5)),
        shape::HASH_ADDRESS_TAGS => Body::HashAddressTags(
            place_of(given, 3),
            address_at(given, 4),
            items_at(given, 6),
        ),
        shape::RECORD => Body::Record(record_at(given, 3)),
        shape::RECORDS => Body::Records(items_at(given, 3)),
        shape::RECORDS_FLAG => Body::RecordsFlag(items_at(given, 3), byte_at(given, 6)),
        shape::RECORD_ADDRESS => Body::RecordAddress(record_at(given, 3), address_at(given, 9)),
        shape::HELLO => Body::Hello(record_at(given, 3), address_at(given, 9)),
        shape::HASH_TEXT => Body::HashText(place_of(given, 3), text_at(given, 4)),
        shape::HASHSET => Body::Hashset(place_of(given, 3), items_at(given, 4)),
        shape::SENDING_PART => sending_part_at(given),
        shape::REQUEST_PARTS => request_parts_at(given),
        shape::FILE_STATUS => file_status_at(given),
        shape::STATUS_REQUEST => status_request_at(given),
        shape::STATUS => Body::Status(triple_at(given, 3)),
        shape::EXTENDED_STATUS => extended_status_at(given),
        _ => Body::Nothing,
    }
}

pub fn packet_given(given: &[u64]) -> Packet
    ensures { result ≡ spec_packet_given given.now }
{
    let opening = byte_at(given, 0);
    let opcode = byte_at(given, 1);
    let body = body_given(given);
    Packet {
        opening,
        opcode,
        body,
    }
}

pub fn query_given(given: &[u64]) -> Query
    ensures { result ≡ spec_query_at given.now 0 }
{
    query_at(given, 0)
}

pub fn list_given(given: &[u64]) -> Items
    ensures { result ≡ spec_items_at given.now 0 }
{
    items_at(given, 0)
}

pub fn known_given(given: &[u64]) -> KnownMet
    ensures { result ≡ spec_known_given given.now }
{
    let opening = byte_at(given, 0);
    let entries = items_at(given, 1);
    KnownMet { opening, entries }
}

pub fn server_given(given: &[u64]) -> ServerMet
    ensures { result ≡ spec_server_given given.now }
{
    let opening = byte_at(given, 0);
    let entries = items_at(given, 1);
    let tail = text_at(given, 4);
    ServerMet {
        opening,
        entries,
        tail,
    }
}

#[tactic(auto, unfolding(crate::specs::Given::spec_blocks_given))]
fn blocks_given(given: &[u64]) -> HashBlocks
    ensures { result ≡ spec_blocks_given given.now }
{
    match number_at(given, 7) {
        shape::PART_HASHES => HashBlocks::Parts(items_at(given, 8)),
        shape::BLOCK_HASHES => HashBlocks::Blocks(items_at(given, 11)),
        shape::BOTH_HASHES => HashBlocks::Both(items_at(given, 8), items_at(given, 11)),
        _ => HashBlocks::Nothing,
    }
}

fn e0_given(given: &[u64]) -> PartMet
    ensures { result ≡ spec_e0_given given.now }
{
    let date = dword_at(given, 2);
    let hash = place_of(given, 3);
    let tags = items_at(given, 4);
    let parts = items_at(given, 8);
    PartMet::E0(FileEntry {
        date,
        hash,
        parts,
        tags,
    })
}

fn e1_given(given: &[u64]) -> PartMet
    ensures { result ≡ spec_e1_given given.now }
{
    let date = dword_at(given, 2);
    let hash = place_of(given, 3);
    let tags = items_at(given, 4);
    let blocks = blocks_given(given);
    PartMet::E1(PartE1 {
        date,
        hash,
        tags,
        blocks,
    })
}

#[tactic(auto, unfolding(crate::specs::Given::spec_part_given))]
pub fn part_given(given: &[u64]) -> PartMet
    ensures { result ≡ spec_part_given given.now }
{
    match number_at(given, 0) {
        0xE0 => e0_given(given),
        _ => e1_given(given),
    }
}

// The size that is returned with a part.met.
pub fn size_given(given: &[u64]) -> u32
    ensures { result ≡ spec_size_given given.now }
{
    dword_at(given, 1)
}
