// What has to be known of a body before a byte of it is written. Bodies are given as the readers return them: numbers, and offsets
// in lent bytes. What is encoded at an offset is read again, whoever made the body.

#![tactic(auto)]

ghost use Rattle.std.specs.Prelude.{◌≡◌, ◌+◌, length, Ok, Some};
ghost use Rattle.format.specs.Bits.{spec_packed_bytes};
ghost use Rattle.format.specs.Layout.{encode_address, encode_all, encode_hash, encode_query, encode_record, encode_string, encode_tag};
ghost use Rattle.format.specs.Rules.{Byte, Word};
ghost use Rattle.format.specs.Decoding.{ends};
ghost use Rattle.format.specs.Order.{decode_address, decode_hash, decode_record, decode_tag};
ghost use Rattle.format.specs.PacketOrder.{decode_bits};
ghost use Rattle.format.specs.Writing.{QueryFits, RecordsFit, StringFits, TagsFit, ValuesFit};
ghost use Rattle.output.specs.WriteAnswers.{number_of};
ghost use Rattle.wire.specs.WireAnswers.{hash_at, items_in, place_bytes};
ghost use Rattle.query.specs.QueryAnswers.{query_in};
ghost use Rattle.bodies.specs.BodyAnswers.{body_in};
ghost use Rattle.write_items.specs.There.{both_there, hash_there, items_there, place_there};
ghost use Rattle.check_bodies.specs.Extents.{Adds, BothAdd, Extends, NoEnd, spec_bytes_after, both_extents, list_bound};
ghost use Rattle.check_bodies.specs.Extents.{Bounded, spec_broken_rule, spec_flag_rule, spec_form_rule, spec_range_rule, spec_ranges_rule};
ghost use Rattle.check_bodies.specs.Bodies.{BodyChecked, BodyEnds, EndsAt, body_there, bytes_of, query_there};

use bodies::{Body, Form, Triple};
use output::Refusal;
use query::Query;
use wire::{Cursor, Items, Place};

// The most bytes of a text or parts of a file, addresses and hashes that their count fields hold.
const WORD_MOST: usize = 65535;

const ADDRESSES_MOST: u32 = 255;

const HASHES_MOST: u32 = 65535;

const HASH_BYTES: usize = 16;

// The upper WORD of the number in an extended status request.
const EXTENDED_MARK: u32 = 0x5AAA;

// What check_body finds: the size of the body's bytes; the offset after its list or query; and the rule that its values break, which
// is refused after the byte ceiling.
#[derive(Clone, Copy)]
pub struct BodyCheck {
    pub size: usize,
    pub end: usize,
    pub rule: Result<(), Refusal>,
}

// How far a part of a body extends: its size and the offset after its list or query; none, if the part is too long for its count
// field; or the refusal of an offset at which it is not encoded.
type Extent = Result<Option<(usize, usize)>, Refusal>;

// So many bytes more.
fn bytes_after(more: usize, part: Extent) -> Extent
    requires { Adds more part }
    ensures { result ≡ spec_bytes_after more part }
{
    let Some((size, end)) = part? else {
        return Ok(None);
    };
    Ok(Some((more + size, end)))
}

// Two parts, of which only the second may have a list or query. That one is not encoded comes before that one is too long.
fn both(first: Extent, second: Extent) -> Extent
    requires { BothAdd first second }
    ensures { result ≡ both_extents first second }
{
    let Some((size, _)) = first? else {
        second?;
        return Ok(None);
    };
    bytes_after(size, second)
}

fn hash_extent(src: &[u8], at: usize) -> Extent
    ensures { Extends (hash_there src.now at) (Unit {0}) (length (hash_at src.now at)) NoEnd 16 result }
{
    let cursor = Cursor { at };
    cursor.hash(src)?;
    Ok(Some((HASH_BYTES, 0)))
}

fn place_extent(src: &[u8], place: Place) -> Extent
    ensures { Extends (place_there src.now place) (Unit {0}) (length (place_bytes src.now place)) NoEnd list_bound result }
{
    let cursor = Cursor { at: place.at };
    let len = place.len;
    cursor.run(src, len)?;
    Ok(Some((len, 0)))
}

fn text_extent(src: &[u8], text: Place) -> Extent
    ensures { Extends (place_there src.now text) (StringFits (place_bytes src.now text)) (length (encode_string (place_bytes src.now text))) NoEnd 65537 result }
{
    let cursor = Cursor { at: text.at };
    let len = text.len;
    cursor.run(src, len)?;
    if WORD_MOST < len {
        return Ok(None);
    }
    Ok(Some((2 + len, 0)))
}

// The bits of so many parts, which a WORD counts.
fn bits_extent(src: &[u8], at: usize, parts: usize) -> Extent
    ensures { Extends (ends (decode_bits parts src.now at)) (Word parts) (spec_packed_bytes parts) NoEnd 65537 result }
{
    bodies::read_bits(src, Cursor { at }, parts)?;
    if WORD_MOST < parts {
        return Ok(None);
    }
    let size = (parts + 7) / 8;
    Ok(Some((size, 0)))
}

// Lists and queries are read again: the end that the body gives is not trusted.

fn query_extent(src: &[u8], q: Query) -> Extent
    ensures { Extends (query_there src.now q) (QueryFits (query_in src.now q))
        (length (encode_query (query_in src.now q))) (EndsAt (query_there src.now q)) list_bound result }
{
    let at = q.at;
    let (_, next) = query::read_query(src, Cursor { at })?;
    let end = next.at;
    let size = end - at;
    Ok(Some((size, end)))
}

// BYTE count, then the addresses.
fn addresses_extent(src: &[u8], list: Items) -> Extent
    ensures { Extends (items_there decode_address src.now list) (Byte (length (items_in decode_address src.now list)))
        (1 + length (encode_all encode_address (items_in decode_address src.now list))) (EndsAt (items_there decode_address src.now list)) list_bound result }
{
    let at = list.at;
    let count = list.count;
    let (_, next) = records::addresses_from(src, Cursor { at }, count)?;
    if ADDRESSES_MOST < count {
        return Ok(None);
    }
    let end = next.at;
    let size = end - at;
    Ok(Some((1 + size, end)))
}

// WORD count, then the hashes.
fn hashes_extent(src: &[u8], list: Items) -> Extent
    ensures { Extends (items_there decode_hash src.now list) (Word (length (items_in decode_hash src.now list)))
        (2 + length (encode_all encode_hash (items_in decode_hash src.now list))) (EndsAt (items_there decode_hash src.now list)) list_bound result }
{
    let at = list.at;
    let count = list.count;
    let (_, next) = records::hashes_from(src, Cursor { at }, count)?;
    if HASHES_MOST < count {
        return Ok(None);
    }
    let end = next.at;
    let size = end - at;
    Ok(Some((2 + size, end)))
}

// DWORD count, then the tags. Every count fits.
fn tags_extent(src: &[u8], list: Items) -> Extent
    ensures { Extends (items_there decode_tag src.now list) (TagsFit (items_in decode_tag src.now list))
        (4 + length (encode_all encode_tag (items_in decode_tag src.now list))) (EndsAt (items_there decode_tag src.now list)) list_bound result }
{
    let at = list.at;
    let count = list.count;
    let next = write_items::tags_end(src, Cursor { at }, count)?;
    let end = next.at;
    let size = end - at;
    Ok(Some((4 + size, end)))
}

// DWORD count, then the records.
fn records_extent(src: &[u8], list: Items) -> Extent
    ensures { Extends (items_there decode_record src.now list) (RecordsFit (items_in decode_record src.now list))
        (4 + length (encode_all encode_record (items_in decode_record src.now list))) (EndsAt (items_there decode_record src.now list)) list_bound result }
{
    let at = list.at;
    let count = list.count;
    let (_, next) = records::records_from(src, Cursor { at }, count)?;
    let end = next.at;
    let size = end - at;
    Ok(Some((4 + size, end)))
}

// The rules that the values of a body can break. What is encoded at its offsets was decoded there and keeps the rules.

fn flag_rule(flag: u8) -> Result<(), Refusal>
    ensures { number_of result ≡ spec_flag_rule flag }
{
    if flag <= 1 {
        Ok(())
    } else {
        Err(Refusal::Choice)
    }
}

fn range_rule(start: u32, end: u32, size: usize) -> Result<(), Refusal>
    ensures { number_of result ≡ spec_range_rule start end size }
{
    if end < start {
        return Err(Refusal::Data);
    }
    let wanted = (end - start) as usize;
    if size == wanted {
        Ok(())
    } else {
        Err(Refusal::Data)
    }
}

fn ranges_rule(starts: Triple, ends: Triple) -> Result<(), Refusal>
    ensures { number_of result ≡ spec_ranges_rule starts ends }
{
    if ends.first < starts.first {
        return Err(Refusal::Data);
    }
    if ends.second < starts.second {
        return Err(Refusal::Data);
    }
    if ends.third < starts.third {
        Err(Refusal::Data)
    } else {
        Ok(())
    }
}

fn form_rule(form: Form, number: u32) -> Result<(), Refusal>
    ensures { number_of result ≡ spec_form_rule form number }
{
    match form {
        Form::Plain => {
            if number / 65536 == EXTENDED_MARK {
                return Err(Refusal::Choice);
            }
            Ok(())
        }
        Form::Extended => {
            if number / 65536 == EXTENDED_MARK {
                return Ok(());
            }
            Err(Refusal::Choice)
        }
    }
}

// The rule that a body of its shape breaks; most shapes have none. Numbers are bound, used or not, since that they keep to
// their fields is known where they are.
fn broken_rule(b: Body) -> Result<(), Refusal>
    ensures rule { number_of result ≡ spec_broken_rule b }
    ensures bounded { Bounded b }
{
    match b {
        Body::Nothing => Ok(()),
        Body::Query(_) => Ok(()),
        Body::Hash(_) => Ok(()),
        Body::Dword(_n) => Ok(()),
        Body::TwoDwords(_n, _m) => Ok(()),
        Body::Text(_) => Ok(()),
        Body::TwoTexts(_, _) => Ok(()),
        Body::Address(_a) => Ok(()),
        Body::Addresses(_) => Ok(()),
        Body::HashAddresses(_, _) => Ok(()),
        Body::AddressDword(_a, _n) => Ok(()),
        Body::HashAddressTags(_, _a, _) => Ok(()),
        Body::Record(_r) => Ok(()),
        Body::Records(_) => Ok(()),
        Body::RecordsFlag(_, flag) => flag_rule(flag),
        Body::RecordAddress(_r, _a) => Ok(()),
        Body::Hello(_r, _a) => Ok(()),
        Body::HashText(_, _) => Ok(()),
        Body::Hashset(_, _) => Ok(()),
        Body::SendingPart(p) => range_rule(p.start, p.end, p.data.len),
        Body::RequestParts(p) => ranges_rule(p.starts, p.ends),
        Body::FileStatus(_) => Ok(()),
        Body::StatusRequest(p) => {
            let form = p.form;
            form_rule(form, p.number)
        }
        Body::Status(_t) => Ok(()),
        Body::ExtendedStatus(_p) => Ok(()),
    }
}

// A hash, six more bytes, and a tag list.
fn entry_extent(src: &[u8], hash: usize, tags: Items) -> Extent
    ensures { Extends (both_there (hash_there src.now hash) (items_there decode_tag src.now tags))
        (Unit {0} × TagsFit (items_in decode_tag src.now tags))
        (6 + (length (hash_at src.now hash) + (4 + length (encode_all encode_tag (items_in decode_tag src.now tags)))))
        (EndsAt (items_there decode_tag src.now tags)) (6 + (16 + list_bound)) result }
{
    let hash_part = hash_extent(src, hash);
    let tags_part = tags_extent(src, tags);
    bytes_after(6, both(hash_part, tags_part))
}

// A part of numbers alone.
fn fixed(size: usize) -> Extent
    ensures { result ≡ Ok (Some (size, 0)) }
{
    Ok(Some((size, 0)))
}

fn body_extent(src: &[u8], b: Body) -> Extent
    ensures { Extends (body_there src.now b) (ValuesFit (body_in src.now b).0 (body_in src.now b).1)
        (length (bytes_of (body_in src.now b))) (BodyEnds src.now b) (64 + list_bound) result }
{
    match b {
        Body::Nothing => fixed(0),
        Body::Query(q) => query_extent(src, q),
        Body::Hash(hash) => hash_extent(src, hash),
        Body::Dword(_) => fixed(4),
        Body::TwoDwords(_, _) => fixed(8),
        Body::Text(text) => text_extent(src, text),
        Body::TwoTexts(first, second) => both(text_extent(src, first), text_extent(src, second)),
        Body::Address(_) => fixed(6),
        Body::Addresses(list) => addresses_extent(src, list),
        Body::HashAddresses(hash, list) => both(
            hash_extent(src, hash),
            addresses_extent(src, list),
        ),
        Body::AddressDword(_, _) => fixed(10),
        Body::HashAddressTags(hash, _, tags) => entry_extent(src, hash, tags),
        Body::Record(file) => entry_extent(src, file.hash, file.tags),
        Body::Records(list) => records_extent(src, list),
        Body::RecordsFlag(list, _) => bytes_after(1, records_extent(src, list)),
        Body::RecordAddress(file, _) => bytes_after(6, entry_extent(src, file.hash, file.tags)),
        Body::Hello(client, _) => bytes_after(7, entry_extent(src, client.hash, client.tags)),
        Body::HashText(hash, text) => both(hash_extent(src, hash), text_extent(src, text)),
        Body::Hashset(hash, list) => both(hash_extent(src, hash), hashes_extent(src, list)),
        Body::SendingPart(part) => bytes_after(
            8,
            both(hash_extent(src, part.hash), place_extent(src, part.data)),
        ),
        Body::RequestParts(parts) => bytes_after(24, hash_extent(src, parts.hash)),
        Body::FileStatus(status) => bytes_after(
            2,
            both(
                hash_extent(src, status.hash),
                bits_extent(src, status.bits, status.parts),
            ),
        ),
        Body::StatusRequest(_) => fixed(4),
        Body::Status(_) => fixed(12),
        Body::ExtendedStatus(_) => fixed(16),
    }
}

// What is checked of a body before it is written: whether its items are encoded at its offsets, whether its counts fit, how many
// bytes it takes, and whether its values keep the rules.
pub fn check_body(src: &[u8], b: Body) -> Result<BodyCheck, Refusal>
    ensures { BodyChecked src.now b result }
{
    let Some((size, end)) = body_extent(src, b)? else {
        return Err(Refusal::Limit);
    };
    let rule = broken_rule(b);
    Ok(BodyCheck { size, end, rule })
}
