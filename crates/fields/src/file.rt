// The numbers of the met files, the lone query and the lone tag list.
ghost use Rattle.std.specs.Prelude.{◌≡◌, [], ◌∷◌, ◌++◌};
ghost use Rattle.fields.specs.Fields.{filled, items_numbers, query_numbers};
ghost use Rattle.fields.specs.Fields.{known_numbers, server_numbers, hashes_numbers, part_numbers};

use crate::shape;
use met::{HashBlocks, KnownMet, PartMet, ServerMet};
use query::Query;
use wire::Items;

// The numbers of the other messages.

// Nine numbers and 0 after them.
pub fn row_of_fields(
    first: u64,
    second: u64,
    third: u64,
    fourth: u64,
    fifth: u64,
    sixth: u64,
    seventh: u64,
    eighth: u64,
    ninth: u64,
) -> [u64; 16]
    ensures { result ≡ filled 16 (first ∷ second ∷ third ∷ fourth ∷ fifth ∷ sixth ∷ seventh ∷ eighth ∷ ninth ∷ []) }
{
    [
        first, second, third, fourth, fifth, sixth, seventh, eighth, ninth, 0, 0, 0, 0, 0, 0, 0,
    ]
}

pub fn known_fields(known: KnownMet) -> [u64; 16]
    ensures { result ≡ filled 16 (known_numbers known) }
{
    let entries = known.entries;
    let opening = known.opening as u64;
    let at = entries.at as u64;
    let end = entries.end as u64;
    let count = entries.count as u64;
    row_of_fields(opening, at, end, count, 0, 0, 0, 0, 0)
}

pub fn server_fields(server: ServerMet) -> [u64; 16]
    ensures { result ≡ filled 16 (server_numbers server) }
{
    let entries = server.entries;
    let tail = server.tail;
    let opening = server.opening as u64;
    let at = entries.at as u64;
    let end = entries.end as u64;
    let count = entries.count as u64;
    row_of_fields(
        opening,
        at,
        end,
        count,
        tail.at as u64,
        tail.len as u64,
        0,
        0,
        0,
    )
}

// A part.met, the same for each of its two layouts.
fn part_row(
    opening: u64,
    size: u32,
    date: u32,
    hash: usize,
    tags: Items,
    which: u64,
    parts: Items,
    blocks: Items,
) -> [u64; 16]
    ensures { result ≡ filled 16 (opening ∷ size ∷ date ∷ hash ∷ items_numbers tags ++ hashes_numbers which parts blocks) }
{
    [
        opening,
        size as u64,
        date as u64,
        hash as u64,
        tags.at as u64,
        tags.end as u64,
        tags.count as u64,
        which,
        parts.at as u64,
        parts.end as u64,
        parts.count as u64,
        blocks.at as u64,
        blocks.end as u64,
        blocks.count as u64,
        0,
        0,
    ]
}

pub fn part_fields(part: PartMet, size: u32) -> [u64; 16]
    ensures { result ≡ filled 16 (part_numbers part size) }
{
    let none = Items {
        at: 0,
        end: 0,
        count: 0,
    };
    match part {
        PartMet::E0(entry) => part_row(
            0xE0,
            size,
            entry.date,
            entry.hash,
            entry.tags,
            shape::COUNTED_HASHES,
            entry.parts,
            none,
        ),
        PartMet::E1(file) => {
            match file.blocks {
                HashBlocks::Nothing => {
                    part_row(
                        0xE1,
                        size,
                        file.date,
                        file.hash,
                        file.tags,
                        shape::NO_HASHES,
                        none,
                        none,
                    )
                }
                HashBlocks::Parts(part_hashes) => {
                    part_row(
                        0xE1,
                        size,
                        file.date,
                        file.hash,
                        file.tags,
                        shape::PART_HASHES,
                        part_hashes,
                        none,
                    )
                }
                HashBlocks::Blocks(block_hashes) => {
                    part_row(
                        0xE1,
                        size,
                        file.date,
                        file.hash,
                        file.tags,
                        shape::BLOCK_HASHES,
                        none,
                        block_hashes,
                    )
                }
                HashBlocks::Both(part_hashes, block_hashes) => part_row(
                    0xE1,
                    size,
                    file.date,
                    file.hash,
                    file.tags,
                    shape::BOTH_HASHES,
                    part_hashes,
                    block_hashes,
                ),
            }
        }
    }
}

pub fn query_fields(query: Query) -> [u64; 16]
    ensures { result ≡ filled 16 (query_numbers query) }
{
    row_of_fields(
        query.at as u64,
        query.end as u64,
        query.depth as u64,
        0,
        0,
        0,
        0,
        0,
        0,
    )
}

pub fn list_fields(list: Items) -> [u64; 16]
    ensures { result ≡ filled 16 (items_numbers list) }
{
    row_of_fields(
        list.at as u64,
        list.end as u64,
        list.count as u64,
        0,
        0,
        0,
        0,
        0,
        0,
    )
}
