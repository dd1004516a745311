// The bodies that hold byte ranges: a part that is sent, and parts that are asked for.
ghost use Rattle.std.specs.Prelude.{◌≡◌};
ghost use Rattle.format.specs.Messages.{sending_part_body, request_parts_body};
ghost use Rattle.format.specs.PacketOrder.{decode_range, decode_triple, decode_ranges, decode_body};
ghost use Rattle.bodies.specs.BodyAnswers.{body_meaning, BodyStepPlaced};
ghost use Rattle.bodies.specs.BodyAnswers.{range_meaning, triple_meaning, ranges_meaning};

use crate::{Body, RequestParts, SendingPart, Triple};
use wire::{Cursor, Fault, Place, Rule, Step};

// The size of a range, a start and an end, and of three of them.
const RANGE_SIZE: usize = 8;

const RANGES_SIZE: usize = 24;

// 46

// Start and end are checked together, by themselves and then by the number of bytes after them.
#[tactic(auto, unfolding(format::specs::PacketOrder::decode_range))]
fn read_range(s: &[u8], c: Cursor) -> Step<(u32, u32)>
    ensures { range_meaning result ≡ decode_range s.now c.at }
{
    let (start, after_start) = c.dword(s)?;
    let (end, next) = after_start.dword(s)?;
    if end < start {
        return Err(Fault {
            rule: Rule::Order,
            at: c.at,
            size: RANGE_SIZE,
        });
    }
    let left = next.remaining(s);
    let wanted = (end - start) as usize;
    if left == wanted {
        return Ok(((start, end), next));
    }
    Err(Fault {
        rule: Rule::DataLength,
        at: c.at,
        size: RANGE_SIZE,
    })
}

#[tactic(auto, unfolding(format::specs::PacketOrder::decode_body, format::specs::PacketOrder::decode_sending_part))]
pub fn read_sending_part(s: &[u8], c: Cursor) -> Step<Body>
    ensures meaning { body_meaning s.now result ≡ decode_body sending_part_body s.now c.at }
    ensures placed { BodyStepPlaced s.now result }
{
    let (hash, after_hash) = c.hash(s)?;
    let ((start, end), next) = read_range(s, after_hash)?;
    let len = next.remaining(s);
    let data = Place { at: next.at, len };
    let part = SendingPart {
        hash,
        start,
        end,
        data,
    };
    Ok((Body::SendingPart(part), Cursor { at: s.len() }))
}

// 47

#[tactic(auto, unfolding(format::specs::PacketOrder::decode_triple))]
pub fn read_triple(s: &[u8], c: Cursor) -> Step<Triple>
    ensures { triple_meaning result ≡ decode_triple s.now c.at }
{
    let (first, after_first) = c.dword(s)?;
    let (second, after_second) = after_first.dword(s)?;
    let (third, next) = after_second.dword(s)?;
    Ok((
        Triple {
            first,
            second,
            third,
        },
        next,
    ))
}

// All six numbers must be there before the pairs are checked.
#[tactic(auto, unfolding(format::specs::PacketOrder::decode_ranges))]
fn read_ranges(s: &[u8], c: Cursor) -> Step<(Triple, Triple)>
    ensures { ranges_meaning result ≡ decode_ranges s.now c.at }
{
    let (starts, after_starts) = read_triple(s, c)?;
    let (ends, next) = read_triple(s, after_starts)?;
    if ends.first < starts.first || ends.second < starts.second || ends.third < starts.third {
        return Err(Fault {
            rule: Rule::Order,
            at: c.at,
            size: RANGES_SIZE,
        });
    }
    Ok(((starts, ends), next))
}

#[tactic(auto, unfolding(format::specs::PacketOrder::decode_body, format::specs::PacketOrder::decode_request_parts))]
pub fn read_request_parts(s: &[u8], c: Cursor) -> Step<Body>
    ensures meaning { body_meaning s.now result ≡ decode_body request_parts_body s.now c.at }
    ensures placed { BodyStepPlaced s.now result }
{
    let (hash, after_hash) = c.hash(s)?;
    let ((starts, ends), next) = read_ranges(s, after_hash)?;
    let parts = RequestParts { hash, starts, ends };
    Ok((Body::RequestParts(parts), next))
}
