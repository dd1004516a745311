// The bytes of bodies, and the writers of entries and lists that callers compose.

#![tactic(auto)]

ghost use Rattle.std.specs.Prelude.{◌≡◌, ◌++◌, ◌+◌, ◌-◌, ◌≤◌, ◌<◌, length};
ghost use Rattle.format.specs.Bits.{spec_packed_bytes};
ghost use Rattle.format.specs.Layout.{byte, word, dword, encode_address, encode_string, encode_triple};
ghost use Rattle.format.specs.Decoding.{bytes_at};
ghost use Rattle.format.specs.Writing.{overwritten};
ghost use Rattle.wire.specs.WireAnswers.{hash_at, place_bytes};
ghost use Rattle.records.specs.RecordAnswers.{address_of};
ghost use Rattle.bodies.specs.BodyAnswers.{body_in, triple_of};
ghost use Rattle.output.specs.WriteAnswers.{answered};
ghost use Rattle.check_bodies.specs.Bodies.{bytes_of};
ghost use Rattle.write_bodies.specs.RecordEntries.{WritesBody, spec_write_address, spec_write_addresses, spec_write_record, spec_write_records};
ghost use Rattle.write_items.specs.Puts.{Puts};
ghost use Rattle.write_bodies.specs.PutBodies.{ListRun, Puttable, Run, list_bytes};

use bodies::{Body, ExtendedStatus, FileStatus, RequestParts, SendingPart, Triple};
use output::{Refusal, Written};
use query::Query;
use records::{Address, Record};
use wire::{Items, Place};

const HASH_BYTES: usize = 16;

const ADDRESS_BYTES: usize = 6;

// The byte before the record of a hello: the length of its hash.
const HELLO_HASH: u8 = 0x10;

// The two bytes that tell an extended status from a plain one.
const EXTENDED_LOW: u8 = 0xAA;

const EXTENDED_HIGH: u8 = 0x5A;

// The bytes of a body, put at the front of what is lent. Each function returns how many bytes it wrote. They are for put_body
// alone: each requires that the items were read at their offsets before, that counts fit, and that there is room.

fn put_run(src: &[u8], at: usize, size: usize, out: &mut [u8]) -> usize
    requires { Run src.now at size × (size ≤ length out.old) }
    ensures { Puts (bytes_at src.now at size) size out.old out.new result }
{
    let bytes = wire::bytes_at(src, at, size);
    output::copy(out, bytes);
    size
}

fn put_query(src: &[u8], q: Query, end: usize, out: &mut [u8]) -> usize
    requires { (q.at ≤ end) × Run src.now q.at (end - q.at) × (end - q.at ≤ length out.old) }
    ensures { Puts (bytes_at src.now q.at (end - q.at)) (end - q.at) out.old out.new result }
{
    let at = q.at;
    put_run(src, at, end - at, out)
}

fn put_text(src: &[u8], place: Place, out: &mut [u8]) -> usize
    requires { Run src.now place.at place.len × (place.len < 65536) × (2 + place.len ≤ length out.old) }
    ensures { Puts (encode_string (place_bytes src.now place)) (2 + place.len) out.old out.new result }
{
    let at = place.at;
    let len = place.len;
    let text = wire::bytes_at(src, at, len);
    output::put_string(out, text)
}

fn put_number(number: u32, out: &mut [u8]) -> usize
    requires { 4 ≤ length out.old }
    ensures { Puts (dword number) 4 out.old out.new result }
{
    output::put_dword(out, number);
    4
}

fn put_two_dwords(first: u32, second: u32, out: &mut [u8]) -> usize
    requires { 8 ≤ length out.old }
    ensures { Puts (dword first ++ dword second) (4 + 4) out.old out.new result }
{
    output::put_dword(out, first);
    output::put_dword(&mut out[4..], second);
    8
}

fn put_triple(triple: Triple, out: &mut [u8]) -> usize
    requires { 12 ≤ length out.old }
    ensures { Puts (encode_triple (triple_of triple)) (4 + (4 + 4)) out.old out.new result }
{
    output::put_dword(out, triple.first);
    let wrote = put_two_dwords(triple.second, triple.third, &mut out[4..]);
    4 + wrote
}

// The ip comes before the port.
fn put_address(address: Address, out: &mut [u8]) -> usize
    requires { 6 ≤ length out.old }
    ensures { Puts (encode_address (address_of address)) (4 + 2) out.old out.new result }
{
    output::put_dword(out, address.ip);
    output::put_word(&mut out[4..], address.port);
    ADDRESS_BYTES
}

// A count that fits its field.
fn byte_count(count: u32) -> u8
    requires { count < 256 }
    ensures { result ≡ count }
{
    count as u8
}

fn word_count(count: u32) -> u16
    requires { count < 65536 }
    ensures { result ≡ count }
{
    count as u16
}

// A list is encoded as its count, then its items, whose bytes are copied.

fn put_byte_list(src: &[u8], list: Items, end: usize, out: &mut [u8]) -> usize
    requires { ListRun src.now list end × (list.count < 256) × (1 + (end - list.at) ≤ length out.old) }
    ensures { Puts (byte list.count ++ list_bytes src.now list end) (1 + (end - list.at)) out.old out.new result }
{
    let at = list.at;
    let size = end - at;
    let count = byte_count(list.count);
    output::put_byte(out, count);
    let wrote = put_run(src, at, size, &mut out[1..]);
    1 + wrote
}

fn put_word_list(src: &[u8], list: Items, end: usize, out: &mut [u8]) -> usize
    requires { ListRun src.now list end × (list.count < 65536) × (2 + (end - list.at) ≤ length out.old) }
    ensures { Puts (word list.count ++ list_bytes src.now list end) (2 + (end - list.at)) out.old out.new result }
{
    let at = list.at;
    let size = end - at;
    let count = word_count(list.count);
    output::put_word(out, count);
    let wrote = put_run(src, at, size, &mut out[2..]);
    2 + wrote
}

fn put_dword_list(src: &[u8], list: Items, end: usize, out: &mut [u8]) -> usize
    requires { ListRun src.now list end × (4 + (end - list.at) ≤ length out.old) }
    ensures { Puts (dword list.count ++ list_bytes src.now list end) (4 + (end - list.at)) out.old out.new result }
{
    let at = list.at;
    let size = end - at;
    output::put_dword(out, list.count);
    let wrote = put_run(src, at, size, &mut out[4..]);
    4 + wrote
}

// A hash, an address and a tag list.
fn put_entry(
    src: &[u8],
    hash: usize,
    address: Address,
    tags: Items,
    end: usize,
    out: &mut [u8],
) -> usize
    requires { Run src.now hash 16 × ListRun src.now tags end × (26 + (end - tags.at) ≤ length out.old) }
    ensures { Puts ((hash_at src.now hash ++ encode_address (address_of address)) ++ (dword tags.count ++ list_bytes src.now tags end))
        ((16 + (4 + 2)) + (4 + (end - tags.at))) out.old out.new result }
{
    let first = put_run(src, hash, HASH_BYTES, out);
    let second = put_address(address, &mut out[first..]);
    let at = first + second;
    let wrote = put_dword_list(src, tags, end, &mut out[at..]);
    at + wrote
}

// A record is encoded as its hash, then its client and port like an address, then its tags.
fn put_record(src: &[u8], file: Record, end: usize, out: &mut [u8]) -> usize
    requires { Run src.now file.hash 16 × ListRun src.now file.tags end × (26 + (end - file.tags.at) ≤ length out.old) }
    ensures { Puts (hash_at src.now file.hash ++ (dword file.client ++ (word file.port ++ (dword file.tags.count ++ list_bytes src.now file.tags end))))
        (26 + (end - file.tags.at)) out.old out.new result }
{
    let hash = file.hash;
    let tags = file.tags;
    let address = Address {
        ip: file.client,
        port: file.port,
    };
    put_entry(src, hash, address, tags, end, out)
}

fn put_two_texts(src: &[u8], first: Place, second: Place, out: &mut [u8]) -> usize
    requires { (Run src.now first.at first.len × (first.len < 65536)) × (Run src.now second.at second.len × (second.len < 65536)) × (4 + first.len + second.len ≤ length out.old) }
    ensures { Puts (encode_string (place_bytes src.now first) ++ encode_string (place_bytes src.now second)) ((2 + first.len) + (2 + second.len))
        out.old out.new result }
{
    let at = put_text(src, first, out);
    let wrote = put_text(src, second, &mut out[at..]);
    at + wrote
}

fn put_hash_addresses(src: &[u8], hash: usize, list: Items, end: usize, out: &mut [u8]) -> usize
    requires { Run src.now hash 16 × ListRun src.now list end × (list.count < 256) × (17 + (end - list.at) ≤ length out.old) }
    ensures { Puts (hash_at src.now hash ++ (byte list.count ++ list_bytes src.now list end)) (16 + (1 + (end - list.at)))
        out.old out.new result }
{
    let at = put_run(src, hash, HASH_BYTES, out);
    let wrote = put_byte_list(src, list, end, &mut out[at..]);
    at + wrote
}

fn put_address_dword(address: Address, number: u32, out: &mut [u8]) -> usize
    requires { 10 ≤ length out.old }
    ensures { Puts (encode_address (address_of address) ++ dword number) ((4 + 2) + 4) out.old out.new result }
{
    let at = put_address(address, out);
    output::put_dword(&mut out[at..], number);
    at + 4
}

fn put_records_flag(src: &[u8], list: Items, flag: u8, end: usize, out: &mut [u8]) -> usize
    requires { ListRun src.now list end × (5 + (end - list.at) ≤ length out.old) }
    ensures { Puts ((dword list.count ++ list_bytes src.now list end) ++ byte flag) ((4 + (end - list.at)) + 1)
        out.old out.new result }
{
    let at = put_dword_list(src, list, end, out);
    output::put_byte(&mut out[at..], flag);
    at + 1
}

fn put_record_address(
    src: &[u8],
    file: Record,
    address: Address,
    end: usize,
    out: &mut [u8],
) -> usize
    requires { Run src.now file.hash 16 × ListRun src.now file.tags end × (32 + (end - file.tags.at) ≤ length out.old) }
    ensures { Puts ((hash_at src.now file.hash ++ (dword file.client ++ (word file.port ++ (dword file.tags.count ++ list_bytes src.now file.tags end))))
        ++ encode_address (address_of address)) ((26 + (end - file.tags.at)) + (4 + 2)) out.old out.new result }
{
    let at = put_record(src, file, end, out);
    let wrote = put_address(address, &mut out[at..]);
    at + wrote
}

fn put_hello(src: &[u8], client: Record, address: Address, end: usize, out: &mut [u8]) -> usize
    requires { Run src.now client.hash 16 × ListRun src.now client.tags end × (33 + (end - client.tags.at) ≤ length out.old) }
    ensures { Puts (byte 0x10 ++ ((hash_at src.now client.hash ++ (dword client.client ++ (word client.port ++ (dword client.tags.count ++ list_bytes src.now client.tags end))))
        ++ encode_address (address_of address))) (1 + ((26 + (end - client.tags.at)) + (4 + 2))) out.old out.new result }
{
    output::put_byte(out, HELLO_HASH);
    let wrote = put_record_address(src, client, address, end, &mut out[1..]);
    1 + wrote
}

fn put_hash_text(src: &[u8], hash: usize, text: Place, out: &mut [u8]) -> usize
    requires { Run src.now hash 16 × Run src.now text.at text.len × (text.len < 65536) × (18 + text.len ≤ length out.old) }
    ensures { Puts (hash_at src.now hash ++ encode_string (place_bytes src.now text)) (16 + (2 + text.len)) out.old out.new result }
{
    let at = put_run(src, hash, HASH_BYTES, out);
    let wrote = put_text(src, text, &mut out[at..]);
    at + wrote
}

fn put_hashset(src: &[u8], hash: usize, list: Items, end: usize, out: &mut [u8]) -> usize
    requires { Run src.now hash 16 × ListRun src.now list end × (list.count < 65536) × (18 + (end - list.at) ≤ length out.old) }
    ensures { Puts (hash_at src.now hash ++ (word list.count ++ list_bytes src.now list end)) (16 + (2 + (end - list.at)))
        out.old out.new result }
{
    let at = put_run(src, hash, HASH_BYTES, out);
    let wrote = put_word_list(src, list, end, &mut out[at..]);
    at + wrote
}

fn put_sending_part(src: &[u8], part: SendingPart, out: &mut [u8]) -> usize
    requires { Run src.now part.hash 16 × Run src.now part.data.at part.data.len × (24 + part.data.len ≤ length out.old) }
    ensures { Puts ((hash_at src.now part.hash ++ (dword part.start ++ dword part.end)) ++ place_bytes src.now part.data) ((16 + (4 + 4)) + part.data.len)
        out.old out.new result }
{
    let hash = part.hash;
    let data = part.data;
    let at = data.at;
    let len = data.len;
    let first = put_run(src, hash, HASH_BYTES, out);
    let second = put_two_dwords(part.start, part.end, &mut out[first..]);
    let head = first + second;
    let wrote = put_run(src, at, len, &mut out[head..]);
    head + wrote
}

fn put_request_parts(src: &[u8], parts: RequestParts, out: &mut [u8]) -> usize
    requires { Run src.now parts.hash 16 × (40 ≤ length out.old) }
    ensures { Puts ((hash_at src.now parts.hash ++ encode_triple (triple_of parts.starts)) ++ encode_triple (triple_of parts.ends)) ((16 + (4 + (4 + 4))) + (4 + (4 + 4)))
        out.old out.new result }
{
    let hash = parts.hash;
    let starts = parts.starts;
    let ends = parts.ends;
    let first = put_run(src, hash, HASH_BYTES, out);
    let second = put_triple(starts, &mut out[first..]);
    let at = first + second;
    let wrote = put_triple(ends, &mut out[at..]);
    at + wrote
}

fn put_file_status(src: &[u8], status: FileStatus, out: &mut [u8]) -> usize
    requires { Run src.now status.hash 16 × Run src.now status.bits (spec_packed_bytes status.parts) × (status.parts < 65536) × (18 + spec_packed_bytes status.parts ≤ length out.old) }
    ensures { Puts ((hash_at src.now status.hash ++ word status.parts) ++ bytes_at src.now status.bits (spec_packed_bytes status.parts)) ((16 + 2) + spec_packed_bytes status.parts)
        out.old out.new result }
{
    let hash = status.hash;
    let bits = status.bits;
    let parts = status.parts;
    let size = (parts + 7) / 8;
    let first = put_run(src, hash, HASH_BYTES, out);
    output::put_word(&mut out[first..], parts as u16);
    let at = first + 2;
    let wrote = put_run(src, bits, size, &mut out[at..]);
    at + wrote
}

fn put_extended_status(status: ExtendedStatus, out: &mut [u8]) -> usize
    requires { 16 ≤ length out.old }
    ensures { Puts ((((byte status.first ++ byte status.second) ++ byte 0xAA) ++ byte 0x5A) ++ encode_triple (triple_of status.numbers)) ((((1 + 1) + 1) + 1) + (4 + (4 + 4)))
        out.old out.new result }
{
    let numbers = status.numbers;
    output::put_byte(out, status.first);
    output::put_byte(&mut out[1..], status.second);
    output::put_byte(&mut out[2..], EXTENDED_LOW);
    output::put_byte(&mut out[3..], EXTENDED_HIGH);
    let wrote = put_triple(numbers, &mut out[4..]);
    4 + wrote
}

// The bytes of a body that check_body found nothing against; `end` is the offset after its list or query that check_body gave.
// It is public for the crates above alone: it requires what check_body says, and room.
pub fn put_body(src: &[u8], b: Body, end: usize, out: &mut [u8]) -> usize
    requires { Puttable src.now b end out.old }
    ensures written { result ≡ length (bytes_of (body_in src.now b)) }
    ensures output { out.new ≡ overwritten (bytes_of (body_in src.now b)) out.old }
{
    match b {
        Body::Nothing => 0,
        Body::Query(q) => put_query(src, q, end, out),
        Body::Hash(hash) => put_run(src, hash, HASH_BYTES, out),
        Body::Dword(number) => put_number(number, out),
        Body::TwoDwords(first, second) => put_two_dwords(first, second, out),
        Body::Text(text) => put_text(src, text, out),
        Body::TwoTexts(first, second) => put_two_texts(src, first, second, out),
        Body::Address(address) => put_address(address, out),
        Body::Addresses(list) => put_byte_list(src, list, end, out),
        Body::HashAddresses(hash, list) => put_hash_addresses(src, hash, list, end, out),
        Body::AddressDword(address, number) => put_address_dword(address, number, out),
        Body::HashAddressTags(hash, address, tags) => put_entry(src, hash, address, tags, end, out),
        Body::Record(file) => put_record(src, file, end, out),
        Body::Records(list) => put_dword_list(src, list, end, out),
        Body::RecordsFlag(list, flag) => put_records_flag(src, list, flag, end, out),
        Body::RecordAddress(file, address) => put_record_address(src, file, address, end, out),
        Body::Hello(client, address) => put_hello(src, client, address, end, out),
        Body::HashText(hash, text) => put_hash_text(src, hash, text, out),
        Body::Hashset(hash, list) => put_hashset(src, hash, list, end, out),
        Body::SendingPart(part) => put_sending_part(src, part, out),
        Body::RequestParts(parts) => put_request_parts(src, parts, out),
        Body::FileStatus(status) => put_file_status(src, status, out),
        Body::StatusRequest(request) => put_number(request.number, out),
        Body::Status(triple) => put_triple(triple, out),
        Body::ExtendedStatus(status) => put_extended_status(status, out),
    }
}

// Entries and lists that no reader gave: a caller writes them one after the other into bytes of its own, and hands their offset to a
// writer of messages. Each answers with a refusal, which leaves the output as it was, or with how many bytes it wrote.

// A body by itself. Its values may break a rule of its packet: only offsets, counts and room are checked.
fn write_bare(src: &[u8], b: Body, out: &mut [u8]) -> Written
    ensures { WritesBody src.now b out.old (answered result out.new) }
{
    let found = check_bodies::check_body(src, b)?;
    if out.len() < found.size {
        return Err(Refusal::Room);
    }
    Ok(put_body(src, b, found.end, out))
}

pub fn write_address(address: Address, out: &mut [u8]) -> Written
    ensures { answered result out.new ≡ spec_write_address (address_of address) out.old }
{
    if out.len() < ADDRESS_BYTES {
        return Err(Refusal::Room);
    }
    Ok(put_address(address, out))
}

// A record, whose hash and tags are encoded at offsets of `src`.
pub fn write_record(src: &[u8], file: Record, out: &mut [u8]) -> Written
    ensures { answered result out.new ≡ spec_write_record src.now file out.old }
{
    write_bare(src, Body::Record(file), out)
}

// The addresses that are encoded at an offset of `src`, after a BYTE that counts them.
pub fn write_addresses(src: &[u8], list: Items, out: &mut [u8]) -> Written
    ensures { answered result out.new ≡ spec_write_addresses src.now list out.old }
{
    write_bare(src, Body::Addresses(list), out)
}

// The records that are encoded at an offset of `src`, after a DWORD that counts them.
pub fn write_records(src: &[u8], list: Items, out: &mut [u8]) -> Written
    ensures { answered result out.new ≡ spec_write_records src.now list out.old }
{
    write_bare(src, Body::Records(list), out)
}
