// The writer of part.met.
//
// A file is given by its offsets in the lent bytes `src`, as the reader returns it; its lists are read again and copied. The
// order of the numbers is that of document 01: 6 for part hashes that their count field cannot hold; then what the reader says of
// the finished bytes: the byte ceiling (6), the tags (9, 8, 6), the blocks; and 10, the room, last. Where wrong blocks have the
// bytes of another file, the number is 5.
//
// specs/PartWrites.antt says what must be encoded at the offsets of a file.

#![tactic(auto)]

ghost use Rattle.std.specs.Prelude.{◌≡◌, ◌+◌};
ghost use Rattle.format.specs.Messages.{part_met};
ghost use Rattle.format.specs.Decoding.{got};
ghost use Rattle.format.specs.Order.{decode_tag};
ghost use Rattle.format.specs.PartTagOrder.{spec_check_part_tags};
ghost use Rattle.format.specs.RoundTrip.{RoundTrip, WritesAt};
ghost use Rattle.wire.specs.WireAnswers.{items_in};
ghost use Rattle.part_tags.specs.PartTagAnswers.{verdict_meaning};
ghost use Rattle.met.specs.MetAnswers.{part_met_in};
ghost use Rattle.output.specs.WriteAnswers.{answered};
ghost use Rattle.write_items.specs.There.{items_there};
ghost use Rattle.write_part.specs.PartWrites.{part_there};

use crate::part_e0::write_part_e0;
use crate::part_e1::write_part_e1;
use met::PartMet;
use output::Written;
use part_tags::check_part_tags;
use wire::{Items, Place, Rule};

mod areas;
mod part_e0;
mod part_e1;

// The blocks by their bytes in the source: none, one or two.
#[derive(Clone, Copy)]
enum Area {
    Nothing,
    One(Place),
    Two(Place, Place),
}

// The check of the tags that are encoded in `tags_len` bytes.
fn check_tags(src: &[u8], tags: Items, tags_len: usize) -> Result<u32, Rule>
    requires { got tt (tags.at + tags_len) ≡ items_there decode_tag src.now tags }
    ensures { verdict_meaning (items_in decode_tag src.now tags) result ≡ spec_check_part_tags (items_in decode_tag src.now tags) }
{
    let at = tags.at;
    let end = at + tags_len;
    let count = tags.count;
    let checked = check_part_tags(src, Items { at, end, count });
    checked.verdict
}

// The part.met whose hash, lists and blocks are encoded at offsets of `src`.
#[tactic(auto, using(crate::proofs::E1Places::part_promises))]
pub fn write_part_met(src: &[u8], part: PartMet, out: &mut [u8]) -> Written
    ensures writes { WritesAt part_met (part_there src.now part) (part_met_in src.now part) out.old
        (answered result out.new) }
    ensures round { RoundTrip part_met (part_there src.now part) (part_met_in src.now part) out.old
        (answered result out.new) }
{
    match part {
        PartMet::E0(file) => write_part_e0(src, file, out),
        PartMet::E1(file) => write_part_e1(src, file, out),
    }
}
