// The writers of the lone tag list and the lone query: what is encoded at an offset of the lent bytes, queries from their pieces,
// and single tags, of which a caller composes a list.
//
// Each writer is lent the output and answers with how many bytes it wrote at the front of it, or with the refusal. Everything is
// checked and the size is known before the first store, so a refusal leaves the output as it was. The order is that of document
// 01: 6 for what a count field cannot hold, then the number that the reader would give for the finished bytes, and 10, the room,
// last.
//
// The writers of messages promise a write of the format, at the offsets that the message has, and its round trip. Those of single
// items promise a write of specs/Item.antt.

#![tactic(auto)]

ghost use Rattle.std.specs.Prelude.{◌≡◌};
ghost use Rattle.output.specs.WriteAnswers.{number_of};
ghost use Rattle.write_items.specs.Numbers.{spec_name_number};

use output::Refusal;

mod items;
mod lists;
mod queries;

pub use items::{
    write_dword_tag, write_float_tag, write_hash_tag, write_name, write_string, write_text_tag,
};
pub use lists::{put_list, tags_end, write_tag_list};
pub use queries::{write_field, write_join, write_keyword, write_limit, write_query};

// The ceilings of document 01: the bytes of a lone query or tag list, the bytes of a name.
const PACKET_CEILING: usize = 65536;

const NAME_LIMIT: usize = 255;

// The highest count that a WORD holds.
const WORD_MOST: usize = 65535;

// The check of a name of this length that its count field holds.
fn check_name(name: usize) -> Result<(), Refusal>
    ensures { number_of result ≡ spec_name_number name }
{
    if name == 0 {
        return Err(Refusal::Choice);
    }
    if name <= NAME_LIMIT {
        Ok(())
    } else {
        Err(Refusal::Limit)
    }
}
