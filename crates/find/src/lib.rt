// Whether a part occurs in a text, in time that is linear in both.
//
// A short part, or a part in a short text, is compared at each offset that has its first and its last byte, which are looked for at the
// offsets of a block at the same time: at most 20 comparisons for each byte of the text, and twice for those of the last two blocks.
// Any other part is looked for by the method of Knuth, Morris and Pratt, with a table that samples every eighth length, so that the
// table for a part of 65,535 bytes takes 16 KiB of the stack. A part below 1,024 bytes has a table of 256 bytes, since clearing the long
// one would cost more than the search in a short text. The measures of the two loops bound their turns: fewer than 10 for each byte of
// the part to fill the table, and fewer than 10 for each byte of the text to search by it. A part of more than 65,535 bytes is
// compared at each offset, which is not linear: no String has one.
//
// specs/Shifts.antt says what the table holds.

#![tactic(auto)]

ghost use Rattle.std.specs.Prelude.{◌≡◌, ◌↔◌, ◌+◌, ◌-◌, ◌*◌, ◌≤◌, ◌<◌, eqb, length};
ghost use Rattle.format.specs.Tables.{pick};
ghost use Rattle.format.specs.Truth.{occurs};
ghost use Rattle.find.specs.Shifts.{Agrees, Decides, NoEnds, Samples, StandsIn, Moves};

// Entry k of the table is for the length STRIDE * k.
const STRIDE: usize = 8;

// The entries of a table, and the longest part that they serve: one byte fewer than STRIDE for each.
const MANY_ENTRIES: usize = 8192;

const LONGEST_PART: usize = 65535;

const FEW_ENTRIES: usize = 128;

const MEDIUM_PART: usize = 1023;

// Up to either of these lengths no table is made.
const SHORT_PART: usize = 16;

const SHORT_TEXT: usize = 64;

// Whether the part stands in the text at an offset.
fn stands_at(text: &[u8], part: &[u8], start: usize) -> bool
    requires { start + length part.now ≤ length text.now }
    ensures { Decides result (Agrees part.now text.now start (length part.now)) }
{
    for i in 0..part.len() {
        if part[i] != text[start + i] {
            return false;
        }
    }
    true
}

// Compares the part at each offset from `from` up to `end`.
fn search_from(text: &[u8], part: &[u8], from: usize, end: usize) -> bool
    requires { (0 < length part.now) × (end + length part.now ≤ length text.now + 1) }
    ensures { Decides result (StandsIn part.now text.now from end) }
{
    let first = part[0];
    for start in from..end {
        if text[start] != first {
            continue;
        }
        if stands_at(text, part, start) {
            return true;
        }
    }
    false
}

// Offsets are looked at by blocks: a loop with no way out of it looks at all offsets of a block at the same time.
const BLOCK: usize = 16;

// 1 for an offset with the first and the last byte of the part, or what was found before it.
fn noted(found: u8, here: u8, there: u8, first: u8, last: u8) -> u8
    ensures { result ≡ pick (eqb here first) (pick (eqb there last) 1 found) found }
{
    if here != first {
        return found;
    }
    if there == last { 1 } else { found }
}

// 0 if at no offset of a block stands the first byte and, `reach` bytes after it, the last one.
fn ends_in_block(text: &[u8], from: usize, reach: usize, first: u8, last: u8) -> u8
    requires { from + reach + 16 ≤ length text.now }
    ensures { (result ≡ 0) ↔ NoEnds text.now from reach first last 16 }
{
    let mut found: u8 = 0;
    for i in 0..BLOCK {
        let here = text[from + i];
        let there = text[from + reach + i];
        found = noted(found, here, there, first, last);
    }
    found
}

// Whether the part stands at an offset of a block. In most blocks there is no offset with its first and its last byte.
fn search_block(text: &[u8], part: &[u8], from: usize) -> bool
    requires { (0 < length part.now) × (from + 15 + length part.now ≤ length text.now) }
    ensures { Decides result (StandsIn part.now text.now from (from + 16)) }
{
    let reach = part.len() - 1;
    let found = ends_in_block(text, from, reach, part[0], part[reach]);
    if found == 0 {
        return false;
    }
    search_from(text, part, from, from + BLOCK)
}

// Looks for the part block by block. The last one ends at the last offset, so that it may begin in the block before.
fn search_blocks(text: &[u8], part: &[u8], end: usize) -> bool
    requires { (0 < length part.now) × (end + length part.now ≡ length text.now + 1) × (16 ≤ end) }
    ensures { result ≡ occurs part.now text.now }
{
    let mut start = 0;
    // By `while`, since it goes on by blocks.
    while start < end {
        let from = start.min(end - BLOCK);
        if search_block(text, part, from) {
            return true;
        }
        start = from + BLOCK;
    }
    false
}

// Compares the part at each offset.
fn search_each(text: &[u8], part: &[u8]) -> bool
    requires { (0 < length part.now) × (length part.now ≤ length text.now) }
    ensures { result ≡ occurs part.now text.now }
{
    let end = text.len() - part.len() + 1;
    if end < BLOCK {
        return search_from(text, part, 0, end);
    }
    search_blocks(text, part, end)
}

// How far the part is moved after a mismatch, and how many of its bytes are known to agree there.
#[derive(Clone, Copy)]
struct Move {
    shift: usize,
    kept: usize,
}

// The move after `matched` bytes that agree and one that does not. The length is rounded down to a sampled one, so that at most 7
// bytes are compared again.
fn after_mismatch(part: &[u8], table: &[u16], matched: usize) -> Move
    requires { (matched < 65536) × (matched < 8 * length table.now) × Samples part.now table.now matched }
    ensures { Moves part.now matched result.shift result.kept }
{
    if matched < STRIDE {
        return Move { shift: 1, kept: 0 };
    }
    let sample = matched / STRIDE;
    let shift = table[sample] as usize;
    let kept = STRIDE * sample - shift;
    Move { shift, kept }
}

// Fills the table: the part is looked for in itself, from offset 1 on. Where the bytes that agree first end at a sampled length, the
// offset is the least shift of that length.
fn fill_table(part: &[u8], table: &mut [u16])
    requires { (length part.now < 65536) × (length part.now < 8 * length table.old) }
    ensures { Samples part.now table.new (length part.now) }
{
    let mut start = 1;
    let mut matched = 0;
    let mut sample = 1;
    // By `while`, since a turn moves the part, matches one byte more, or fills an entry.
    while STRIDE * sample <= part.len() {
        if start + matched == STRIDE * sample {
            table[sample] = start as u16;
            sample += 1;
            continue;
        }
        if part[matched] == part[start + matched] {
            matched += 1;
            continue;
        }
        let next = after_mismatch(part, table, matched);
        start += next.shift;
        matched = next.kept;
    }
}

// Searches the text by the table of the part.
fn search_by_table(text: &[u8], part: &[u8], table: &[u16]) -> bool
    requires part_len_bound { (length part.now < 65536) × (length part.now ≤ length text.now) × (length part.now < 8 * length table.now) }
    requires samples { Samples part.now table.now (length part.now) }
    ensures { result ≡ occurs part.now text.now }
{
    let last = text.len() - part.len();
    let mut start = 0;
    let mut matched = 0;
    // By `while`, since a turn moves the part or matches one byte more.
    while start <= last {
        if matched == part.len() {
            return true;
        }
        if part[matched] == text[start + matched] {
            matched += 1;
            continue;
        }
        let next = after_mismatch(part, table, matched);
        start += next.shift;
        matched = next.kept;
    }
    false
}

// The table is made by a function of its own for each length, so that a shorter case does not clear a long one.
fn search_in<const ENTRIES: usize>(text: &[u8], part: &[u8]) -> bool
    requires part_len_bound { (length part.now < 8 * ENTRIES) × (length part.now ≤ length text.now) }
    requires entries { ENTRIES ≤ 8192 }
    ensures { result ≡ occurs part.now text.now }
{
    let mut table = [0; ENTRIES];
    fill_table(part, &mut table);
    search_by_table(text, part, &table)
}

// Whether the part occurs in the text, its bytes adjacent and in order.
pub fn contains(text: &[u8], part: &[u8]) -> bool
    ensures { result ≡ occurs part.now text.now }
{
    if part.len() == 0 {
        return true;
    }
    if text.len() < part.len() {
        return false;
    }
    if part.len() <= SHORT_PART || text.len() <= SHORT_TEXT || LONGEST_PART < part.len() {
        return search_each(text, part);
    }
    if part.len() <= MEDIUM_PART {
        return search_in::<FEW_ENTRIES>(text, part);
    }
    search_in::<MANY_ENTRIES>(text, part)
}
