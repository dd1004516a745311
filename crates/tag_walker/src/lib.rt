// The tag walker: it holds a lent tag list and a place in it, and gives tag after tag.
//
// A walker is made of the bytes of a tag list with its count. `next` gives the tag at its place and moves it after that tag; or it says that
// there are no more, or returns the fault that it found:
//
//     let mut w = tag_walker::new(tags);
//     loop {
//         match tag_walker::next(&mut w) {
//             Ok(Some(tag)) => { .. }
//             Ok(None) => { .. }
//             Err(fault) => { .. }
//         }
//     }
//
// At the end and at a fault the walker stays at its place, and the next call gives the same again. A walk from `new` gives the tags that
// `tags::read_tag_list` accepts, and then the end; or it comes to the fault whose rule that refuses the bytes by (specs/Walks.antt).

#![tactic(auto)]

ghost use Rattle.std.specs.Prelude.{◌≡◌};
ghost use Rattle.tag_walker.specs.Walk.{spec_walk_from, spec_walk_at, Walked, begun, Next};

use tags::{Tag, read_tag};
use wire::{Cursor, Fault, PACKET_CEILING, Rule};

// The offset 0 stands for the beginning, where the count is still to be read: no tag begins there. There `left` has no meaning.
#[derive(Clone, Copy)]
pub struct TagWalker<'a> {
    tags: &'a [u8],
    at: usize,
    left: u32,
}

// A tag; or that there are no more; or a fault.
pub type WalkStep = Result<Option<Tag>, Fault>;

// A tag, and where it moves the walker.
#[derive(Clone, Copy)]
struct Moved {
    tag: Tag,
    at: usize,
    left: u32,
}

// The step of a walker whose next tag is at `from`, the first of `count`.
fn walk_from(s: &[u8], from: usize, count: u32) -> Result<Option<Moved>, Fault>
    ensures { Walked s.now (spec_walk_from s.now from count) result }
{
    if count == 0 {
        if from < s.len() {
            return Err(Fault {
                rule: Rule::Rest,
                at: from,
                size: 1,
            });
        }
        return Ok(None);
    }
    let (tag, next) = read_tag(s, Cursor { at: from })?;
    Ok(Some(Moved {
        tag,
        at: next.at,
        left: count - 1,
    }))
}

// The step of a walker at any offset: at the beginning, 0, the byte ceiling and then the count come first.
fn walk_at(s: &[u8], at: usize, left: u32) -> Result<Option<Moved>, Fault>
    ensures { Walked s.now (spec_walk_at s.now at left) result }
{
    if at != 0 {
        return walk_from(s, at, left);
    }
    if PACKET_CEILING < s.len() {
        return Err(Fault {
            rule: Rule::BytesCeiling,
            at,
            size: s.len(),
        });
    }
    let (count, first) = Cursor { at: 0 }.dword(s)?;
    walk_from(s, first.at, count)
}

// A walker at the beginning of a tag list.
pub fn new<'a>(tags: &'a [u8]) -> TagWalker<'a>
    ensures { result ≡ begun tags.entry }
{
    TagWalker {
        tags,
        at: 0,
        left: 0,
    }
}

// The tag at the walker's offset, or the end, or a fault; a tag moves the walker after it.
pub fn next(w: &mut TagWalker) -> WalkStep
    ensures { Next w.old result w.new }
{
    let Some(m) = walk_at(w.tags, w.at, w.left)? else {
        return Ok(None);
    };
    w.at = m.at;
    w.left = m.left;
    Ok(Some(m.tag))
}
