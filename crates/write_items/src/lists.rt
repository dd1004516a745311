// The lone tag list of tags that are encoded in the lent bytes.
ghost use Rattle.std.specs.Prelude.{◌≡◌, ◌++◌, ◌+◌, ◌≤◌, length};
ghost use Rattle.format.specs.Messages.{lone_tags};
ghost use Rattle.format.specs.Layout.{dword};
ghost use Rattle.format.specs.Decoding.{decode_many, ends};
ghost use Rattle.format.specs.Order.{decode_tag};
ghost use Rattle.format.specs.Writing.{overwritten};
ghost use Rattle.format.specs.RoundTrip.{RoundTrip, WritesAt};
ghost use Rattle.wire.specs.WireAnswers.{done_meaning, items_in};
ghost use Rattle.output.specs.WriteAnswers.{answered};
ghost use Rattle.write_items.specs.There.{items_there};

use crate::PACKET_CEILING;
use output::{Refusal, Written};
use wire::{Cursor, Fault, Items};

// What the byte ceiling leaves for the tags of a list after their count.
const TAGS_CEILING: usize = PACKET_CEILING - 4;

// The offset after `count` tags, each of which is read.
pub fn tags_end(s: &[u8], first: Cursor, count: u32) -> Result<Cursor, Fault>
    ensures { done_meaning result ≡ ends (decode_many count decode_tag s.now first.at) }
{
    let (_, next) = tags::tags_from(s, first, count)?;
    Ok(next)
}

// A DWORD count, and after it the bytes of that many items. The answer is how many bytes were written. It is public for the
// crates above alone: it requires room.
pub fn put_list(out: &mut [u8], count: u32, items: &[u8]) -> usize
    requires { 4 + length items.now ≤ length out.old }
    ensures written { result ≡ 4 + length items.now }
    ensures output { out.new ≡ overwritten (dword count ++ items.now) out.old }
{
    output::put_dword(out, count);
    output::copy(&mut out[4..], items);
    4 + items.len()
}

// The lone tag list of the tags that are encoded at an offset of `src`, as the readers return it. They are read again, and their
// bytes are copied. An offset at which they are not encoded is refused first, with the number of its own reading.
pub fn write_tag_list(src: &[u8], tags: Items, out: &mut [u8]) -> Written
    ensures writes { WritesAt lone_tags (items_there decode_tag src.now tags) (items_in decode_tag src.now tags)
        out.old (answered result out.new) }
    ensures round { RoundTrip lone_tags (items_there decode_tag src.now tags) (items_in decode_tag src.now tags)
        out.old (answered result out.new) }
{
    let at = tags.at;
    let next = tags_end(src, Cursor { at }, tags.count)?;
    let size = next.at - at;
    if TAGS_CEILING < size {
        return Err(Refusal::Limit);
    }
    if out.len() < 4 + size {
        return Err(Refusal::Room);
    }
    let items = wire::bytes_at(src, at, size);
    Ok(put_list(out, tags.count, items))
}
