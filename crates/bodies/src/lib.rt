// The bodies of packets: a reader for each shape that a body can have.
//
// Numbers are returned as numbers, and texts, hashes, lists and data as places in the lent bytes.

#![tactic(auto)]

ghost use Rattle.std.specs.Prelude.{◌≡◌};
ghost use Rattle.format.specs.PacketOrder.{decode_body};
ghost use Rattle.bodies.specs.BodyAnswers.{shape_of, body_meaning, BodyStepPlaced};

use crate::items::{
    read_address_body, read_address_dword, read_addresses_body, read_dword_body,
    read_hash_address_tags, read_hash_addresses, read_hash_body, read_hash_text, read_hashset,
    read_hello, read_query_body, read_record_address, read_record_body, read_records_body,
    read_records_flag, read_text_body, read_two_dwords, read_two_texts,
};
use crate::ranges::{read_request_parts, read_sending_part};
use crate::status::{read_file_status, read_status, read_status_request};
use query::Query;
use records::{Address, Record};
use wire::{Cursor, Items, Place, Step};

mod items;
mod ranges;
mod status;

pub use ranges::read_triple;
pub use status::read_bits;

// What a body holds.
#[derive(Clone, Copy, PartialEq, Eq)]
pub enum Shape {
    Nothing,
    Query,
    Hash,
    Dword,
    TwoDwords,
    Text,
    TwoTexts,
    Address,
    Addresses,
    HashAddresses,
    AddressDword,
    HashAddressTags,
    Record,
    Records,
    RecordsFlag,
    RecordAddress,
    Hello,
    HashText,
    Hashset,
    SendingPart,
    RequestParts,
    FileStatus,
    StatusRequest,
    Status,
}

#[derive(Clone, Copy)]
pub struct Triple {
    pub first: u32,
    pub second: u32,
    pub third: u32,
}

// 46: `data` are the bytes of the file from `start` up to `end`.
#[derive(Clone, Copy)]
pub struct SendingPart {
    pub hash: usize,
    pub start: u32,
    pub end: u32,
    pub data: Place,
}

// 47: three ranges of a file.
#[derive(Clone, Copy)]
pub struct RequestParts {
    pub hash: usize,
    pub starts: Triple,
    pub ends: Triple,
}

// 50: part p is held if bit p % 8 of the byte at `bits` + p / 8 is set. A writer may be given more parts than a WORD can count.
#[derive(Clone, Copy)]
pub struct FileStatus {
    pub hash: usize,
    pub parts: usize,
    pub bits: usize,
}

// 96 in its two forms, which are the same DWORD.
#[derive(Clone, Copy)]
pub enum Form {
    Plain,
    Extended,
}

#[derive(Clone, Copy)]
pub struct StatusRequest {
    pub form: Form,
    pub number: u32,
}

// 97 in its longer form.
#[derive(Clone, Copy)]
pub struct ExtendedStatus {
    pub first: u8,
    pub second: u8,
    pub numbers: Triple,
}

// The values of a body. A hash is the place of its 16 bytes.
#[derive(Clone, Copy)]
pub enum Body {
    Nothing,
    Query(Query),
    Hash(usize),
    Dword(u32),
    TwoDwords(u32, u32),
    Text(Place),
    TwoTexts(Place, Place),
    Address(Address),
    Addresses(Items),
    HashAddresses(usize, Items),
    AddressDword(Address, u32),
    HashAddressTags(usize, Address, Items),
    Record(Record),
    Records(Items),
    RecordsFlag(Items, u8),
    RecordAddress(Record, Address),
    Hello(Record, Address),
    HashText(usize, Place),
    Hashset(usize, Items),
    SendingPart(SendingPart),
    RequestParts(RequestParts),
    FileStatus(FileStatus),
    StatusRequest(StatusRequest),
    Status(Triple),
    ExtendedStatus(ExtendedStatus),
}

// The body of a shape.
pub fn read_body(s: &[u8], c: Cursor, shape: Shape) -> Step<Body>
    ensures meaning { body_meaning s.now result ≡ decode_body (shape_of shape) s.now c.at }
    ensures placed { BodyStepPlaced s.now result }
{
    match shape {
        Shape::Nothing => Ok((Body::Nothing, c)),
        Shape::Query => read_query_body(s, c),
        Shape::Hash => read_hash_body(s, c),
        Shape::Dword => read_dword_body(s, c),
        Shape::TwoDwords => read_two_dwords(s, c),
        Shape::Text => read_text_body(s, c),
        Shape::TwoTexts => read_two_texts(s, c),
        Shape::Address => read_address_body(s, c),
        Shape::Addresses => read_addresses_body(s, c),
        Shape::HashAddresses => read_hash_addresses(s, c),
        Shape::AddressDword => read_address_dword(s, c),
        Shape::HashAddressTags => read_hash_address_tags(s, c),
        Shape::Record => read_record_body(s, c),
        Shape::Records => read_records_body(s, c),
        Shape::RecordsFlag => read_records_flag(s, c),
        Shape::RecordAddress => read_record_address(s, c),
        Shape::Hello => read_hello(s, c),
        Shape::HashText => read_hash_text(s, c),
        Shape::Hashset => read_hashset(s, c),
        Shape::SendingPart => read_sending_part(s, c),
        Shape::RequestParts => read_request_parts(s, c),
        Shape::FileStatus => read_file_status(s, c),
        Shape::StatusRequest => read_status_request(s, c),
        Shape::Status => read_status(s, c),
    }
}
