// The readers of known.met, server.met and part.met, and the gaps of a part.met.
//
// A file is at most 1,048,576 bytes. It is read item by item from left to right, the first item at fault deciding, and must
// end with its last item; only server.met has a free tail. The readers copy nothing: a hash, a list and a tail are answered
// as the places where they lie. To go through the entries of a file, start a cursor at the first and read entry after
// entry with the reader of one entry, as many as the list counts.
//
// specs/MetAnswers.antt says what each answer stands for.

#![tactic(auto)]

ghost use Rattle.std.specs.Prelude.{◌≡◌};
ghost use Rattle.format.specs.Rules.{met_openings, spec_part_count, spec_block_count};
ghost use Rattle.format.specs.PacketOrder.{decode_opening};
ghost use Rattle.wire.specs.WireAnswers.{number_meaning};
ghost use Rattle.met.specs.MetAnswers.{tags_place};

use wire::{Cursor, Fault, Items, Place, Rule, Step};

mod known;
mod part;
mod server;

pub use known::{file_entries_from, read_file_entry, read_known_met};
pub use part::{block_hashes_from, read_gaps, read_part, read_part_met};
pub use server::{read_server_entry, read_server_met, server_entries_from};

// The largest met file, in bytes: `met_ceiling` in the format's rules.
pub const MET_CEILING: usize = 1048576;

// One part for each started 9,728,000 bytes of a file of this size.
pub fn part_count(size: u32) -> u32
    ensures { result ≡ spec_part_count size }
{
    ((size as u64 + 9727999) / 9728000) as u32
}

// One block for each started 486,400 bytes.
pub fn block_count(size: u32) -> u32
    ensures { result ≡ spec_block_count size }
{
    ((size as u64 + 486399) / 486400) as u32
}

// The byte that opens known.met and server.met.
#[tactic(auto, unfolding(format::specs::PacketOrder::decode_opening))]
fn read_opening(s: &[u8], c: Cursor) -> Step<u8>
    ensures { number_meaning result ≡ decode_opening met_openings s.now c.at }
{
    let (opening, next) = c.byte(s)?;
    if opening == 0x0E {
        return Ok((opening, next));
    }
    Err(Fault {
        rule: Rule::Opening,
        at: c.at,
        size: 1,
    })
}

// known.met

// An entry of known.met, and all that stands after the opening byte of a part.met that opens with E0. `hash` is the place
// of its 16 bytes, `parts` the list of the part hashes.
#[derive(Clone, Copy)]
pub struct FileEntry {
    pub date: u32,
    pub hash: usize,
    pub parts: Items,
    pub tags: Items,
}

#[derive(Clone, Copy)]
pub struct KnownMet {
    pub opening: u8,
    pub entries: Items,
}

// server.met

#[derive(Clone, Copy)]
pub struct ServerEntry {
    pub ip: u32,
    pub port: u16,
    pub tags: Items,
}

#[derive(Clone, Copy)]
pub struct ServerMet {
    pub opening: u8,
    pub entries: Items,
    pub tail: Place,
}

// Before each block stands a mark, and after the last one the closing mark.
#[derive(Clone, Copy)]
enum Mark {
    Stop,
    More,
}

// Which of its two blocks a part.met that opens with E1 has: part hashes of 16 bytes, block hashes of 8, or both in this order.
// A lone block is always the first: `Blocks` is never read.
#[derive(Clone, Copy)]
pub enum HashBlocks {
    Nothing,
    Parts(Items),
    Blocks(Items),
    Both(Items, Items),
}

// The byte that opens a part.met says which of the two layouts follows.
#[derive(Clone, Copy)]
enum Edition {
    E0,
    E1,
}

// The gaps of a part.met, whose offsets are left in an array that is lent: the byte range of its gap tags, outside of which no tag is a
// gap tag; how many gaps it has; and the size of its file.
#[derive(Clone, Copy)]
pub struct PartGaps {
    pub range: Items,
    pub count: usize,
    pub size: u32,
}

// What stands after the opening byte E1.
#[derive(Clone, Copy)]
pub struct PartE1 {
    pub date: u32,
    pub hash: usize,
    pub tags: Items,
    pub blocks: HashBlocks,
}

#[derive(Clone, Copy)]
pub enum PartMet {
    E0(FileEntry),
    E1(PartE1),
}

impl PartMet {
    // The place of the tag list.
    pub fn tags(self) -> Items
        ensures { result ≡ tags_place self }
    {
        match self {
            PartMet::E0(e) => e.tags,
            PartMet::E1(m) => m.tags,
        }
    }
}
