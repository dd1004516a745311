// Comparing two part.mets that were read, in place: their file hashes, their opening forms with the hash lists, and their tags other than gap
// tags. Nothing is copied.
//
// The tags other than gap tags are most often two runs of bytes, before the gap tags and after them, and are compared as such. Where others
// stand among the gap tags, they are compared tag against tag.
//
// specs/Compared.antt says what the private steps answer.

#![tactic(auto)]

ghost use Rattle.std.specs.Prelude.{◌≡◌, true, ◌++◌, ◌↔◌, ◌≤◌, ltb, length};
ghost use Rattle.format.specs.Tables.{same};
ghost use Rattle.format.specs.Layout.{encode_all, encode_hash};
ghost use Rattle.format.specs.Order.{decode_hash, decode_tag};
ghost use Rattle.format.specs.Merging.{hash_of, form_of};
ghost use Rattle.format.specs.PutGaps.{plain_tags, tags_of};
ghost use Rattle.wire.specs.WireAnswers.{ItemsInside, ItemsPlaced, items_in};
ghost use Rattle.tags.specs.TagAnswers.{tags_in};
ghost use Rattle.met.specs.MetAnswers.{part_met_in};
ghost use Rattle.put_gaps.specs.Pieces.{Accepts, plain_bytes};
ghost use Rattle.merge_compare.specs.Compared.{Fewer, NextFound, OneSize, TagsThere, spec_run_after, spec_run_before, tags_from};

use met::{PartGaps, PartMet};
use output::same;
use put_gaps::{is_plain, measure_within, tail_at};
use tags::read_tag;
use wire::{Cursor, Items, bytes_at};

// The file hash.
fn hash_in(s: &[u8], part: PartMet) -> &[u8]
    ensures { result.now ≡ hash_of (part_met_in s.now part) }
{
    match part {
        PartMet::E0(entry) => bytes_at(s, entry.hash, 16),
        PartMet::E1(file) => bytes_at(s, file.hash, 16),
    }
}

pub fn same_hash(s: &[u8], part: PartMet, t: &[u8], other: PartMet) -> bool
    ensures { result ≡ same (hash_of (part_met_in s.now part)) (hash_of (part_met_in t.now other)) }
{
    same(hash_in(s, part), hash_in(t, other))
}

// The bytes of a list of hashes.
fn hashes_in(s: &[u8], hashes: Items) -> &[u8]
    requires { ItemsInside decode_hash s.now hashes }
    ensures { result.now ≡ encode_all encode_hash (items_in decode_hash s.now hashes) }
{
    bytes_at(s, hashes.at, hashes.end - hashes.at)
}

// E0 with its list of part hashes, or E1 with whichever blocks it has after its tags.
pub fn same_form(s: &[u8], part: PartMet, t: &[u8], other: PartMet) -> bool
    requires { OneSize s.now part t.now other }
    ensures { (result ≡ true) ↔ (form_of (part_met_in s.now part) ≡ form_of (part_met_in t.now other)) }
{
    match part {
        PartMet::E0(entry) => match other {
            PartMet::E0(other_entry) => {
                same(hashes_in(s, entry.parts), hashes_in(t, other_entry.parts))
            }
            PartMet::E1(_) => false,
        },
        PartMet::E1(_) => match other {
            PartMet::E0(_) => false,
            PartMet::E1(_) => same(
                bytes_at(s, tail_at(s, part), s.len()),
                bytes_at(t, tail_at(t, other), t.len()),
            ),
        },
    }
}

// Whether two runs, one after the other, are together equal to two others, the first of which is not longer.
fn same_after_shorter(long: &[u8], after_long: &[u8], short: &[u8], after_short: &[u8]) -> bool
    requires { length short.now ≤ length long.now }
    ensures { (result ≡ true) ↔ (long.now ++ after_long.now ≡ short.now ++ after_short.now) }
{
    let n = short.len();
    let shared = long.len() - n;
    if !same(bytes_at(long, 0, n), short) {
        return false;
    }
    if !same(bytes_at(long, n, shared), bytes_at(after_short, 0, shared)) {
        return false;
    }
    same(after_long, bytes_at(after_short, shared, after_short.len()))
}

// The same, whichever is longer.
fn same_joined(before: &[u8], after: &[u8], other_before: &[u8], other_after: &[u8]) -> bool
    ensures { (result ≡ true) ↔ (before.now ++ after.now ≡ other_before.now ++ other_after.now) }
{
    if before.len() < other_before.len() {
        return same_after_shorter(other_before, other_after, before, after);
    }
    same_after_shorter(before, after, other_before, other_after)
}

// A tag that is no gap tag: it lies from `at` up to `end`, and `left` tags come after it.
#[derive(Clone, Copy)]
struct Next {
    at: usize,
    end: usize,
    left: u32,
}

// The first tag that is no gap tag of the `left` tags from `at` on. They were read before, so that the refusal is never met.
fn next_plain(s: &[u8], at: usize, left: u32) -> Option<Next>
    requires { TagsThere s.now at left }
    ensures found { NextFound s.now (plain_tags (tags_from s.now at left)) result }
    ensures fewer { Fewer left result }
{
    let mut next = Cursor { at };
    for i in 0..left {
        let Ok((tag, after)) = read_tag(s, next) else {
            return None;
        };
        if is_plain(s, tag) {
            return Some(Next {
                at: next.at,
                end: after.at,
                left: left - i - 1,
            });
        }
        next = after;
    }
    None
}

// Tag against tag, over all tags of both lists.
fn same_by_tag(s: &[u8], tags: Items, t: &[u8], other: Items) -> bool
    requires { ItemsPlaced decode_tag s.now tags × ItemsPlaced decode_tag t.now other }
    ensures { (result ≡ true) ↔ (plain_tags (tags_in s.now tags) ≡ plain_tags (tags_in t.now other)) }
{
    let mut next = next_plain(s, tags.at, tags.count);
    let mut other_next = next_plain(t, other.at, other.count);
    // By `while`, since two lists are walked, and gap tags are skipped in both.
    while let Some(found) = next {
        let Some(other_found) = other_next else {
            return false;
        };
        let tag = bytes_at(s, found.at, found.end - found.at);
        let other_tag = bytes_at(t, other_found.at, other_found.end - other_found.at);
        if !same(tag, other_tag) {
            return false;
        }
        next = next_plain(s, found.end, found.left);
        other_next = next_plain(t, other_found.end, other_found.left);
    }
    other_next.is_none()
}

// The bytes of the tags before the gap tags.
fn run_before(s: &[u8], part: PartMet, gaps: PartGaps) -> &[u8]
    requires { Accepts s.now part gaps }
    ensures { result.now ≡ spec_run_before s.now part gaps }
{
    let tags = part.tags();
    let range = gaps.range;
    bytes_at(s, tags.at, range.at - tags.at)
}

// The bytes of the tags after them.
fn run_after(s: &[u8], part: PartMet, gaps: PartGaps) -> &[u8]
    requires { Accepts s.now part gaps }
    ensures { result.now ≡ spec_run_after s.now part gaps }
{
    let tags = part.tags();
    let range = gaps.range;
    bytes_at(s, range.end, tags.end - range.end)
}

// Whether other tags stand among the gap tags.
fn is_mixed(s: &[u8], part: PartMet, gaps: PartGaps) -> bool
    requires { Accepts s.now part gaps }
    ensures { result ≡ ltb 0 (length (plain_bytes (tags_in s.now gaps.range))) }
{
    let plain = measure_within(s, gaps.range, gaps.count);
    0 < plain.bytes
}

// Whether the tags other than gap tags are the same, order included.
pub fn same_tags(
    s: &[u8],
    part: PartMet,
    gaps: PartGaps,
    t: &[u8],
    other: PartMet,
    other_gaps: PartGaps,
) -> bool
    requires { Accepts s.now part gaps × Accepts t.now other other_gaps }
    ensures { (result ≡ true) ↔ (plain_tags (tags_of (part_met_in s.now part)) ≡ plain_tags (tags_of (part_met_in t.now other))) }
{
    if is_mixed(s, part, gaps) {
        return same_by_tag(s, part.tags(), t, other.tags());
    }
    if is_mixed(t, other, other_gaps) {
        return same_by_tag(s, part.tags(), t, other.tags());
    }
    same_joined(
        run_before(s, part, gaps),
        run_after(s, part, gaps),
        run_before(t, other, other_gaps),
        run_after(t, other, other_gaps),
    )
}
