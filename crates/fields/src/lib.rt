// Messages and their items as 16 numbers, in the order of include/ed2k.h: the form in which C is handed what was read, and hands
// over what is to be written. Numbers that a message does not use are 0.
//
// specs/Fields.antt says which numbers a message has, specs/Given.antt which message numbers would be those of.

#![tactic(auto)]

ghost use Rattle.std.specs.Prelude.{◌≡◌, take};
ghost use Rattle.format.specs.Tables.{same};

mod file;
mod item;
mod message;
mod packet;
mod shape;

pub use file::{known_fields, list_fields, part_fields, query_fields, server_fields};
pub use item::{
    address_fields, file_entry_fields, node_fields, record_fields, server_entry_fields, tag_fields,
};
pub use message::{
    known_given, list_given, packet_given, part_given, query_given, server_given, size_given,
};
pub use packet::packet_fields;

// Whether the given numbers are, or begin with, these 16.
#[tactic(auto, using(std::proofs::lemmas::List::take_min, crate::proofs::Same::pointwise_same))]
pub fn same_fields(fields: &[u64], given: &[u64]) -> bool
    ensures { result ≡ same fields.now (take 16 given.now) }
{
    fields == &given[..16.min(given.len())]
}
