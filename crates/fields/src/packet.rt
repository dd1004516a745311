// The numbers of a packet: its opening byte, its opcode, the shape of its body and the body's values.
ghost use Rattle.std.specs.Prelude.{◌≡◌, [], ◌∷◌, ◌++◌};
ghost use Rattle.bodies.specs.declared.Body.{Body};
ghost use Rattle.fields.specs.Fields.{filled, items_numbers, address_numbers, record_numbers};
ghost use Rattle.fields.specs.Fields.{spec_form_number, body_numbers, spec_packet_numbers};

use crate::shape;
use bodies::{
    Body, ExtendedStatus, FileStatus, Form, RequestParts, SendingPart, StatusRequest, Triple,
};
use packets::Packet;
use query::Query;
use records::{Address, Record};
use wire::{Items, Place};

// The shape and four values, and 0 after them.
fn row(
    opening: u8,
    opcode: u8,
    shape: u64,
    first: u64,
    second: u64,
    third: u64,
    fourth: u64,
) -> [u64; 16]
    ensures { result ≡ filled 16 (opening ∷ opcode ∷ shape ∷ first ∷ second ∷ third ∷ fourth ∷ []) }
{
    [
        opening as u64,
        opcode as u64,
        shape,
        first,
        second,
        third,
        fourth,
        0,
        0,
        0,
        0,
        0,
        0,
        0,
        0,
        0,
    ]
}

fn query_row(opening: u8, opcode: u8, query: Query) -> [u64; 16]
    ensures { result ≡ filled 16 (opening ∷ opcode ∷ body_numbers (Body.Query query)) }
{
    row(
        opening,
        opcode,
        shape::QUERY,
        query.at as u64,
        query.end as u64,
        query.depth as u64,
        0,
    )
}

fn text_row(opening: u8, opcode: u8, text: Place) -> [u64; 16]
    ensures { result ≡ filled 16 (opening ∷ opcode ∷ body_numbers (Body.Text text)) }
{
    row(
        opening,
        opcode,
        shape::TEXT,
        text.at as u64,
        text.len as u64,
        0,
        0,
    )
}

fn two_texts_row(opening: u8, opcode: u8, first: Place, second: Place) -> [u64; 16]
    ensures { result ≡ filled 16 (opening ∷ opcode ∷ body_numbers (Body.TwoTexts first second)) }
{
    row(
        opening,
        opcode,
        shape::TWO_TEXTS,
        first.at as u64,
        first.len as u64,
        second.at as u64,
        second.len as u64,
    )
}

fn hash_text_row(opening: u8, opcode: u8, hash: usize, text: Place) -> [u64; 16]
    ensures { result ≡ filled 16 (opening ∷ opcode ∷ body_numbers (Body.HashText hash text)) }
{
    row(
        opening,
        opcode,
        shape::HASH_TEXT,
        hash as u64,
        text.at as u64,
        text.len as u64,
        0,
    )
}

fn address_row(opening: u8, opcode: u8, shape: u64, address: Address, number: u32) -> [u64; 16]
    ensures { result ≡ filled 16 (opening ∷ opcode ∷ shape ∷ address_numbers address ++ number ∷ []) }
{
    row(
        opening,
        opcode,
        shape,
        address.ip as u64,
        address.port as u64,
        number as u64,
        0,
    )
}

fn list_row(opening: u8, opcode: u8, shape: u64, list: Items, flag: u8) -> [u64; 16]
    ensures { result ≡ filled 16 (opening ∷ opcode ∷ shape ∷ items_numbers list ++ flag ∷ []) }
{
    row(
        opening,
        opcode,
        shape,
        list.at as u64,
        list.end as u64,
        list.count as u64,
        flag as u64,
    )
}

fn hash_list_row(opening: u8, opcode: u8, shape: u64, hash: usize, list: Items) -> [u64; 16]
    ensures { result ≡ filled 16 (opening ∷ opcode ∷ shape ∷ hash ∷ items_numbers list) }
{
    row(
        opening,
        opcode,
        shape,
        hash as u64,
        list.at as u64,
        list.end as u64,
        list.count as u64,
    )
}

fn hash_address_tags_row(
    opening: u8,
    opcode: u8,
    hash: usize,
    address: Address,
    tags: Items,
) -> [u64; 16]
    ensures { result ≡ filled 16 (opening ∷ opcode ∷ body_numbers (Body.HashAddressTags hash address tags)) }
{
    let hash = hash as u64;
    let ip = address.ip as u64;
    let port = address.port as u64;
    let at = tags.at as u64;
    let end = tags.end as u64;
    let count = tags.count as u64;
    [
        opening as u64,
        opcode as u64,
        shape::HASH_ADDRESS_TAGS,
        hash,
        ip,
        port,
        at,
        end,
        count,
        0,
        0,
        0,
        0,
        0,
        0,
        0,
    ]
}

// A record and an address, or 0 for one that is not there.
fn record_row(opening: u8, opcode: u8, shape: u64, entry: Record, address: Address) -> [u64; 16]
    ensures { result ≡ filled 16 (opening ∷ opcode ∷ shape ∷ record_numbers entry ++ address_numbers address) }
{
    let tags = entry.tags;
    [
        opening as u64,
        opcode as u64,
        shape,
        entry.hash as u64,
        entry.client as u64,
        entry.port as u64,
        tags.at as u64,
        tags.end as u64,
        tags.count as u64,
        address.ip as u64,
        address.port as u64,
        0,
        0,
        0,
        0,
        0,
    ]
}

fn sending_part_row(opening: u8, opcode: u8, part: SendingPart) -> [u64; 16]
    ensures { result ≡ filled 16 (opening ∷ opcode ∷ body_numbers (Body.SendingPart part)) }
{
    let data = part.data;
    let hash = part.hash as u64;
    let start = part.start as u64;
    let end = part.end as u64;
    let at = data.at as u64;
    let len = data.len as u64;
    [
        opening as u64,
        opcode as u64,
        shape::SENDING_PART,
        hash,
        start,
        end,
        at,
        len,
        0,
        0,
        0,
        0,
        0,
        0,
        0,
        0,
    ]
}

fn request_parts_row(opening: u8, opcode: u8, parts: RequestParts) -> [u64; 16]
    ensures { result ≡ filled 16 (opening ∷ opcode ∷ body_numbers (Body.RequestParts parts)) }
{
    let starts = parts.starts;
    let ends = parts.ends;
    [
        opening as u64,
        opcode as u64,
        shape::REQUEST_PARTS,
        parts.hash as u64,
        starts.first as u64,
        starts.second as u64,
        starts.third as u64,
        ends.first as u64,
        ends.second as u64,
        ends.third as u64,
        0,
        0,
        0,
        0,
        0,
        0,
    ]
}

fn file_status_row(opening: u8, opcode: u8, status: FileStatus) -> [u64; 16]
    ensures { result ≡ filled 16 (opening ∷ opcode ∷ body_numbers (Body.FileStatus status)) }
{
    row(
        opening,
        opcode,
        shape::FILE_STATUS,
        status.hash as u64,
        status.parts as u64,
        status.bits as u64,
        0,
    )
}

// The C interface fixes these numbers: include/ed2k.h.
fn form_number(form: Form) -> u64
    ensures { result ≡ spec_form_number form }
{
    match form {
        Form::Plain => 0,
        Form::Extended => 1,
    }
}

fn status_request_row(opening: u8, opcode: u8, request: StatusRequest) -> [u64; 16]
    ensures { result ≡ filled 16 (opening ∷ opcode ∷ body_numbers (Body.StatusRequest request)) }
{
    row(
        opening,
        opcode,
        shape::STATUS_REQUEST,
        form_number(request.form),
        request.number as u64,
        0,
        0,
    )
}

fn status_row(opening: u8, opcode: u8, numbers: Triple) -> [u64; 16]
    ensures { result ≡ filled 16 (opening ∷ opcode ∷ body_numbers (Body.Status numbers)) }
{
    row(
        opening,
        opcode,
        shape::STATUS,
        numbers.first as u64,
        numbers.second as u64,
        numbers.third as u64,
        0,
    )
}

fn extended_status_row(opening: u8, opcode: u8, status: ExtendedStatus) -> [u64; 16]
    ensures { result ≡ filled 16 (opening ∷ opcode ∷ body_numbers (Body.ExtendedStatus status)) }
{
    let numbers = status.numbers;
    let first_byte = status.first as u64;
    let second_byte = status.second as u64;
    let first = numbers.first as u64;
    let second = numbers.second as u64;
    let third = numbers.third as u64;
    [
        opening as u64,
        opcode as u64,
        shape::EXTENDED_STATUS,
        first_byte,
        second_byte,
        first,
        second,
        third,
        0,
        0,
        0,
        0,
        0,
        0,
        0,
        0,
    ]
}

// A function with one caller is compiled into it: the caller that reads and the one that writes share one (hand_out_packet in crates/ed2k).
pub fn packet_fields(p: Packet) -> [u64; 16]
    ensures { result ≡ filled 16 (spec_packet_numbers p) }
{
    let opening = p.opening;
    let opcode = p.opcode;
    match p.body {
        Body::Nothing => row(opening, opcode, shape::NOTHING, 0, 0, 0, 0),
        Body::Query(query) => query_row(opening, opcode, query),
        Body::Hash(hash) => row(opening, opcode, shape::HASH, hash as u64, 0, 0, 0),
        Body::Dword(number) => row(opening, opcode, shape::DWORD, number as u64, 0, 0, 0),
        Body::TwoDwords(first, second) => row(
            opening,
            opcode,
            shape::TWO_DWORDS,
            first as u64,
            second as u64,
            0,
            0,
        ),
        Body::Text(text) => text_row(opening, opcode, text),
        Body::TwoTexts(first, second) => two_texts_row(opening, opcode, first, second),
        Body::Address(address) => address_row(opening, opcode, shape::ADDRESS, address, 0),
        Body::Addresses(list) => list_row(opening, opcode, shape::ADDRESSES, list, 0),
        Body::HashAddresses(hash, list) => hash_list_row(
            opening,
            opcode,
            shape::HASH_ADDRESSES,
            hash,
            list,
        ),
        Body::AddressDword(address, number) => address_row(
            opening,
            opcode,
            shape::ADDRESS_DWORD,
            address,
            number,
        ),
        Body::HashAddressTags(hash, address, list) => hash_address_tags_row(
            opening, opcode, hash, address, list,
        ),
        Body::Record(record) => record_row(
            opening,
            opcode,
            shape::RECORD,
            record,
            Address { ip: 0, port: 0 },
        ),
        Body::Records(list) => list_row(opening, opcode, shape::RECORDS, list, 0),
        Body::RecordsFlag(list, flag) => list_row(opening, opcode, shape::RECORDS_FLAG, list, flag),
        Body::RecordAddress(record, address) => record_row(
            opening,
            opcode,
            shape::RECORD_ADDRESS,
            record,
            address,
        ),
        Body::Hello(record, address) => record_row(opening, opcode, shape::HELLO, record, address),
        Body::HashText(hash, text) => hash_text_row(opening, opcode, hash, text),
        Body::Hashset(hash, list) => hash_list_row(opening, opcode, shape::HASHSET, hash, list),
        Body::SendingPart(sending) => sending_part_row(opening, opcode, sending),
        Body::RequestParts(request) => request_parts_row(opening, opcode, request),
        Body::FileStatus(status) => file_status_row(opening, opcode, status),
        Body::StatusRequest(request) => status_request_row(opening, opcode, request),
        Body::Status(numbers) => status_row(opening, opcode, numbers),
        Body::ExtendedStatus(status) => extended_status_row(opening, opcode, status),
    }
}
