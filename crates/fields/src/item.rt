// The numbers of one item of a list or a query, with the cursor after it.
ghost use Rattle.std.specs.Prelude.{◌≡◌, [], ◌∷◌};
ghost use Rattle.fields.specs.Fields.{filled, address_numbers, record_numbers};
ghost use Rattle.fields.specs.Fields.{tag_numbers, file_entry_numbers, server_entry_numbers};
ghost use Rattle.fields.specs.Fields.{spec_operator_number, spec_bound_number, node_numbers};

use crate::file::row_of_fields;
use met::{FileEntry, ServerEntry};
use query::{Bound, Node, Operator};
use records::{Address, Record};
use tags::{Tag, TagValue};
use wire::Cursor;

// The numbers of an item and of the offset after it.

fn tag_row(next: Cursor, code: u64, tag: Tag, first: u64, second: u64) -> [u64; 16]
    ensures { result ≡ filled 16 (next.at ∷ code ∷ tag.name_at ∷ tag.name_len ∷ first ∷ second ∷ []) }
{
    let at = next.at as u64;
    let name_at = tag.name_at as u64;
    let name_len = tag.name_len as u64;
    row_of_fields(at, code, name_at, name_len, first, second, 0, 0, 0)
}

// The C interface fixes the number of each type: ED2K_TAG_.. in include/ed2k.h.
pub fn tag_fields(tag: Tag, next: Cursor) -> [u64; 16]
    ensures { result ≡ filled 16 (tag_numbers tag next) }
{
    match tag.value {
        TagValue::Hash(hash) => tag_row(next, 1, tag, hash as u64, 16),
        TagValue::Text(text) => tag_row(next, 2, tag, text.at as u64, text.len as u64),
        TagValue::Dword(number) => tag_row(next, 3, tag, number as u64, 0),
        TagValue::Float(number) => tag_row(next, 4, tag, number as u64, 0),
    }
}

pub fn address_fields(address: Address, next: Cursor) -> [u64; 16]
    ensures { result ≡ filled 16 (next.at ∷ address_numbers address) }
{
    row_of_fields(
        next.at as u64,
        address.ip as u64,
        address.port as u64,
        0,
        0,
        0,
        0,
        0,
        0,
    )
}

pub fn record_fields(entry: Record, next: Cursor) -> [u64; 16]
    ensures { result ≡ filled 16 (next.at ∷ record_numbers entry) }
{
    let tags = entry.tags;
    let hash = entry.hash as u64;
    let client = entry.client as u64;
    let port = entry.port as u64;
    let at = tags.at as u64;
    let end = tags.end as u64;
    let count = tags.count as u64;
    row_of_fields(next.at as u64, hash, client, port, at, end, count, 0, 0)
}

pub fn file_entry_fields(entry: FileEntry, next: Cursor) -> [u64; 16]
    ensures { result ≡ filled 16 (file_entry_numbers entry next) }
{
    let parts = entry.parts;
    let tags = entry.tags;
    row_of_fields(
        next.at as u64,
        entry.date as u64,
        entry.hash as u64,
        parts.at as u64,
        parts.end as u64,
        parts.count as u64,
        tags.at as u64,
        tags.end as u64,
        tags.count as u64,
    )
}

pub fn server_entry_fields(entry: ServerEntry, next: Cursor) -> [u64; 16]
    ensures { result ≡ filled 16 (server_entry_numbers entry next) }
{
    let tags = entry.tags;
    let ip = entry.ip as u64;
    let port = entry.port as u64;
    let at = tags.at as u64;
    let end = tags.end as u64;
    let count = tags.count as u64;
    row_of_fields(next.at as u64, ip, port, at, end, count, 0, 0, 0)
}

// The C interface fixes these numbers: include/ed2k.h.
fn operator_number(operator: Operator) -> u64
    ensures { result ≡ spec_operator_number operator }
{
    match operator {
        Operator::And => 0,
        Operator::Or => 1,
        Operator::AndNot => 2,
    }
}

// The C interface fixes these numbers too; a node with no bound has 0.
fn bound_number(bound: Bound) -> u64
    ensures { result ≡ spec_bound_number bound }
{
    match bound {
        Bound::AtLeast => 1,
        Bound::AtMost => 2,
    }
}

// The C interface fixes the number of each node: ED2K_NODE_.. in include/ed2k.h.
pub fn node_fields(node: Node, next: Cursor) -> [u64; 16]
    ensures { result ≡ filled 16 (node_numbers node next) }
{
    let at = next.at as u64;
    match node {
        Node::Join(operator) => row_of_fields(at, 0, operator_number(operator), 0, 0, 0, 0, 0, 0),
        Node::Keyword(text) => row_of_fields(at, 1, 0, text.at as u64, text.len as u64, 0, 0, 0, 0),
        Node::Field(text, name) => {
            let name_at = name.at as u64;
            let name_len = name.len as u64;
            row_of_fields(
                at,
                2,
                0,
                text.at as u64,
                text.len as u64,
                0,
                0,
                name_at,
                name_len,
            )
        }
        Node::Limit(number, bound, name) => {
            let name_at = name.at as u64;
            let name_len = name.len as u64;
            row_of_fields(
                at,
                3,
                0,
                0,
                0,
                number as u64,
                bound_number(bound),
                name_at,
                name_len,
            )
        }
    }
}
