// The calls that compose: queries and tags from pieces, lists and entries; and the truth of a query on a tag list.
ghost use Rattle.std.specs.Prelude.{◌≡◌};
ghost use Rattle.format.specs.Tables.{lookup};
ghost use Rattle.format.specs.Messages.{lone_query};
ghost use Rattle.format.specs.Messages.{keyword, field, limit, string_type, dword_type, float_type, hash_type};
ghost use Rattle.format.specs.MetOrder.{decode};
ghost use Rattle.format.specs.Truth as format;
ghost use Rattle.wire.specs.WireAnswers.{hash_at};
ghost use Rattle.query.specs.QueryAnswers.{bound_of, operator_of};
ghost use Rattle.write_items.specs.There.{hash_there, no_places};
ghost use Rattle.write_items.specs.Item.{WritesTag, tag_of};
ghost use Rattle.write_bodies.specs.RecordEntries.{spec_write_address, spec_write_record};
ghost use Rattle.write_met.specs.MetEntries.{spec_write_file_entry, spec_write_server_entry};
ghost use Rattle.ed2k.specs.Calls.{leaves, items_from, query_from, truth_byte, Chosen, bounds, operators};
ghost use Rattle.ed2k.specs.Calls.{QueryWritten, TagListWritten, PiecesWritten, JoinWritten};

use crate::report;
use met::{FileEntry, ServerEntry};
use output::Refusal;
use query::{Bound, Operator, Query};
use records::{Address, Record};
use wire::Items;

pub fn ed2k_truth(query: &[u8], tags: &[u8], truth: &mut u8) -> u8
    ensures { (result ≡ (format.truth query.now tags.now).number) × (truth.new ≡ truth_byte (format.truth query.now tags.now)) }
{
    match truth::truth_of(query, tags) {
        Ok(holds) => {
            *truth = holds as u8;
            0
        }
        Err(rule) => {
            *truth = 0;
            rule.number()
        }
    }
}

pub fn ed2k_write_keyword(text: &[u8], output: &mut [u8], written: &mut usize) -> u8
    ensures { PiecesWritten (keyword text.now) output.old (leaves result written.new output.new) }
{
    report(write_items::write_keyword(text, output), written)
}

pub fn ed2k_write_field(text: &[u8], name: &[u8], output: &mut [u8], written: &mut usize) -> u8
    ensures { PiecesWritten (field text.now name.now) output.old (leaves result written.new output.new) }
{
    report(write_items::write_field(text, name, output), written)
}

fn write_limit(number: u32, bound: Bound, name: &[u8], output: &mut [u8], written: &mut usize) -> u8
    ensures { PiecesWritten (limit number (bound_of bound) name.now) output.old (leaves result written.new output.new) }
{
    report(
        write_items::write_limit(number, bound, name, output),
        written,
    )
}

pub fn ed2k_write_limit(
    number: u32,
    bound: u8,
    name: &[u8],
    output: &mut [u8],
    written: &mut usize,
) -> u8
    ensures { Chosen (lookup bounds bound) (λ b. PiecesWritten (limit number b name.now) output.old) output.old
        (leaves result written.new output.new) }
{
    match bound {
        1 => write_limit(number, Bound::AtLeast, name, output, written),
        2 => write_limit(number, Bound::AtMost, name, output, written),
        _ => report(Err(Refusal::Choice), written),
    }
}

fn write_join(
    operator: Operator,
    left: &[u8],
    right: &[u8],
    output: &mut [u8],
    written: &mut usize,
) -> u8
    ensures { JoinWritten (operator_of operator) (decode lone_query left.now) (decode lone_query right.now) output.old
        (leaves result written.new output.new) }
{
    report(
        write_items::write_join(operator, left, right, output),
        written,
    )
}

pub fn ed2k_write_join(
    operation: u8,
    left: &[u8],
    right: &[u8],
    output: &mut [u8],
    written: &mut usize,
) -> u8
    ensures { Chosen (lookup operators operation)
        (λ o. JoinWritten o (decode lone_query left.now) (decode lone_query right.now) output.old)
        output.old (leaves result written.new output.new) }
{
    match operation {
        0 => write_join(Operator::And, left, right, output, written),
        1 => write_join(Operator::Or, left, right, output, written),
        2 => write_join(Operator::AndNot, left, right, output, written),
        _ => report(Err(Refusal::Choice), written),
    }
}

pub fn ed2k_write_text_tag(name: &[u8], text: &[u8], output: &mut [u8], written: &mut usize) -> u8
    ensures { WritesTag no_places (tag_of name.now string_type text.now) output.old (leaves result written.new output.new) }
{
    report(write_items::write_text_tag(name, text, output), written)
}

pub fn ed2k_write_dword_tag(name: &[u8], number: u32, output: &mut [u8], written: &mut usize) -> u8
    ensures { WritesTag no_places (tag_of name.now dword_type number) output.old (leaves result written.new output.new) }
{
    report(write_items::write_dword_tag(name, number, output), written)
}

pub fn ed2k_write_float_tag(name: &[u8], bits: u32, output: &mut [u8], written: &mut usize) -> u8
    ensures { WritesTag no_places (tag_of name.now float_type bits) output.old (leaves result written.new output.new) }
{
    report(write_items::write_float_tag(name, bits, output), written)
}

pub fn ed2k_write_hash_tag(name: &[u8], hash: &[u8], output: &mut [u8], written: &mut usize) -> u8
    ensures { WritesTag (hash_there hash.now 0) (tag_of name.now hash_type (hash_at hash.now 0)) output.old
        (leaves result written.new output.new) }
{
    report(write_items::write_hash_tag(name, hash, 0, output), written)
}

pub fn ed2k_write_tag_list(
    bytes: &[u8],
    at: usize,
    count: u32,
    output: &mut [u8],
    written: &mut usize,
) -> u8
    ensures { TagListWritten bytes.now (items_from at count) output.old (leaves result written.new output.new) }
{
    report(
        write_items::write_tag_list(bytes, Items { at, end: at, count }, output),
        written,
    )
}

pub fn ed2k_write_query(bytes: &[u8], at: usize, output: &mut [u8], written: &mut usize) -> u8
    ensures { QueryWritten bytes.now (query_from at) output.old (leaves result written.new output.new) }
{
    let query = Query {
        at,
        end: at,
        depth: 0,
    };
    report(write_items::write_query(bytes, query, output), written)
}

// Entries, to compose lists. A list's end is not read: the list is read again.

pub fn ed2k_write_address(ip: u32, port: u16, output: &mut [u8], written: &mut usize) -> u8
    ensures { leaves result written.new output.new ≡ spec_write_address (record { ip = ip; port = port }) output.old }
{
    report(
        write_bodies::write_address(Address { ip, port }, output),
        written,
    )
}

pub fn ed2k_write_record(
    bytes: &[u8],
    hash: usize,
    client: u32,
    port: u16,
    tags_at: usize,
    tag_count: u32,
    output: &mut [u8],
    written: &mut usize,
) -> u8
    ensures { leaves result written.new output.new ≡ spec_write_record bytes.now (record { hash = hash; client = client; port = port; tags = items_from tags_at tag_count }) output.old }
{
    let tags = Items {
        at: tags_at,
        end: tags_at,
        count: tag_count,
    };
    let record = Record {
        hash,
        client,
        port,
        tags,
    };
    report(write_bodies::write_record(bytes, record, output), written)
}

pub fn ed2k_write_file_entry(
    bytes: &[u8],
    date: u32,
    hash: usize,
    hashes_at: usize,
    hash_count: u32,
    tags_at: usize,
    tag_count: u32,
    output: &mut [u8],
    written: &mut usize,
) -> u8
    ensures { leaves result written.new output.new ≡ spec_write_file_entry bytes.now (record { date = date; hash = hash; parts = items_from hashes_at hash_count; tags = items_from tags_at tag_count }) output.old }
{
    let parts = Items {
        at: hashes_at,
        end: hashes_at,
        count: hash_count,
    };
    let tags = Items {
        at: tags_at,
        end: tags_at,
        count: tag_count,
    };
    let entry = FileEntry {
        date,
        hash,
        parts,
        tags,
    };
    report(write_met::write_file_entry(bytes, entry, output), written)
}

pub fn ed2k_write_server_entry(
    bytes: &[u8],
    ip: u32,
    port: u16,
    tags_at: usize,
    tag_count: u32,
    output: &mut [u8],
    written: &mut usize,
) -> u8
    ensures { leaves result written.new output.new ≡ spec_write_server_entry bytes.now (record { ip = ip; port = port; tags = items_from tags_at tag_count }) output.old }
{
    let tags = Items {
        at: tags_at,
        end: tags_at,
        count: tag_count,
    };
    let entry = ServerEntry { ip, port, tags };
    report(write_met::write_server_entry(bytes, entry, output), written)
}
