// The calls that read: a whole message, and one item of a list or a query.
ghost use Rattle.std.specs.Prelude.{◌≤◌, ◌≡◌};
ghost use Rattle.std.proofs.Math.Option.{some};
ghost use Rattle.format.specs.Tables.{lookup};
ghost use Rattle.format.specs.Messages.{known_met, server_met, part_met};
ghost use Rattle.format.specs.Rules.{spec_part_count, spec_block_count};
ghost use Rattle.format.specs.Order.{decode_address};
ghost use Rattle.ed2k.specs.Calls.{numbered, kinds, ReadOf, PacketOut, StepFrom, StepOut, MessageRead, link_kind, QueryRead, TagListRead};
ghost use Rattle.ed2k.specs.Calls.{TagRead, address_read, RecordRead, FileEntryRead, ServerEntryRead, NodeRead};

use crate::{PacketSource, hand_out};
use output::Refusal;
use packets::{Link, Packet};
use wire::{Cursor, Fault};

// Reading.

// A message goes from its own reader straight to its fields, and not by way of the one call over the six kinds: each copy of an answer
// is felt in short messages.

fn step_from(source: PacketSource, bytes: &[u8]) -> Result<Packet, Fault>
    ensures { StepFrom source bytes.now result }
{
    match source {
        PacketSource::Read(link) => packets::packet_step(bytes, link),
        PacketSource::Given(packet) => Ok(packet),
    }
}

// The numbers of a packet that is read, and of one that is to be written: a function with one caller is compiled into it, and here
// the code of each shape goes straight on to its numbers, with no copy of the body in between. The call that says why a packet is
// refused comes this way too: the numbers of a fault are left in `reason`, as far as there is room for them.
pub fn hand_out_step(
    source: PacketSource,
    bytes: &[u8],
    fields: &mut [u64],
    reason: &mut [u64],
) -> u8
    ensures { StepOut source bytes.now fields.old reason.old (numbered result fields.new) reason.new }
{
    match step_from(source, bytes) {
        Ok(packet) => hand_out(&fields::packet_fields(packet), fields),
        Err(fault) => {
            hand_out(&why::reason_numbers(Some(fault)), reason);
            fault.rule.number()
        }
    }
}

// The packet's numbers alone.
pub fn hand_out_packet(source: PacketSource, bytes: &[u8], fields: &mut [u64]) -> u8
    ensures { PacketOut source bytes.now fields.old (numbered result fields.new) }
{
    let mut no_reason: [u64; 0] = [];
    hand_out_step(source, bytes, fields, &mut no_reason)
}

fn read_link(link: Link, bytes: &[u8], fields: &mut [u64]) -> u8
    ensures { MessageRead (link_kind link) bytes.now fields.old (numbered result fields.new) }
{
    hand_out_packet(PacketSource::Read(link), bytes, fields)
}

// The kinds up to this are packets of a link.
const LAST_LINK: u8 = 2;

fn link_of(kind: u8) -> Link
    requires { kind ≤ 2 }
    ensures { lookup kinds kind ≡ some (link_kind result) }
{
    match kind {
        0 => Link::Server,
        1 => Link::Client,
        _ => Link::Udp,
    }
}

fn read_known(bytes: &[u8], fields: &mut [u64]) -> u8
    ensures { MessageRead known_met bytes.now fields.old (numbered result fields.new) }
{
    match met::read_known_met(bytes) {
        Ok(known) => hand_out(&fields::known_fields(known), fields),
        Err(rule) => rule.number(),
    }
}

fn read_server(bytes: &[u8], fields: &mut [u64]) -> u8
    ensures { MessageRead server_met bytes.now fields.old (numbered result fields.new) }
{
    match met::read_server_met(bytes) {
        Ok(server) => hand_out(&fields::server_fields(server), fields),
        Err(rule) => rule.number(),
    }
}

fn read_part(bytes: &[u8], fields: &mut [u64]) -> u8
    ensures { MessageRead part_met bytes.now fields.old (numbered result fields.new) }
{
    match met::read_part_met(bytes) {
        Ok((part, size)) => hand_out(&fields::part_fields(part, size), fields),
        Err(rule) => rule.number(),
    }
}

fn read_lone_query(bytes: &[u8], fields: &mut [u64]) -> u8
    ensures { QueryRead bytes.now fields.old (numbered result fields.new) }
{
    match query::read_lone_query(bytes) {
        Ok(query) => hand_out(&fields::query_fields(query), fields),
        Err(rule) => rule.number(),
    }
}

fn read_lone_tags(bytes: &[u8], fields: &mut [u64]) -> u8
    ensures { TagListRead bytes.now fields.old (numbered result fields.new) }
{
    match tags::read_tag_list(bytes) {
        Ok(list) => hand_out(&fields::list_fields(list), fields),
        Err(rule) => rule.number(),
    }
}

pub fn ed2k_read(kind: u8, bytes: &[u8], fields: &mut [u64]) -> u8
    ensures { ReadOf (lookup kinds kind) bytes.now fields.old (numbered result fields.new) }
{
    if kind <= LAST_LINK {
        return read_link(link_of(kind), bytes, fields);
    }
    match kind {
        3 => read_known(bytes, fields),
        4 => read_server(bytes, fields),
        5 => read_part(bytes, fields),
        6 => read_lone_query(bytes, fields),
        7 => read_lone_tags(bytes, fields),
        _ => Refusal::Kind.number(),
    }
}

pub fn ed2k_read_tag(bytes: &[u8], at: usize, fields: &mut [u64]) -> u8
    ensures { TagRead bytes.now at fields.old (numbered result fields.new) }
{
    match tags::read_tag(bytes, Cursor { at }) {
        Ok((tag, next)) => hand_out(&fields::tag_fields(tag, next), fields),
        Err(fault) => fault.rule.number(),
    }
}

pub fn ed2k_read_address(bytes: &[u8], at: usize, fields: &mut [u64]) -> u8
    ensures { numbered result fields.new ≡ address_read (decode_address bytes.now at) fields.old }
{
    match records::read_address(bytes, Cursor { at }) {
        Ok((address, next)) => hand_out(&fields::address_fields(address, next), fields),
        Err(fault) => fault.rule.number(),
    }
}

pub fn ed2k_read_record(bytes: &[u8], at: usize, fields: &mut [u64]) -> u8
    ensures { RecordRead bytes.now at fields.old (numbered result fields.new) }
{
    match records::read_record(bytes, Cursor { at }) {
        Ok((record, next)) => hand_out(&fields::record_fields(record, next), fields),
        Err(fault) => fault.rule.number(),
    }
}

pub fn ed2k_read_file_entry(bytes: &[u8], at: usize, fields: &mut [u64]) -> u8
    ensures { FileEntryRead bytes.now at fields.old (numbered result fields.new) }
{
    match met::read_file_entry(bytes, Cursor { at }) {
        Ok((entry, next)) => hand_out(&fields::file_entry_fields(entry, next), fields),
        Err(fault) => fault.rule.number(),
    }
}

pub fn ed2k_read_server_entry(bytes: &[u8], at: usize, fields: &mut [u64]) -> u8
    ensures { ServerEntryRead bytes.now at fields.old (numbered result fields.new) }
{
    match met::read_server_entry(bytes, Cursor { at }) {
        Ok((entry, next)) => hand_out(&fields::server_entry_fields(entry, next), fields),
        Err(fault) => fault.rule.number(),
    }
}

pub fn ed2k_read_query_node(bytes: &[u8], at: usize, fields: &mut [u64]) -> u8
    ensures { NodeRead bytes.now at fields.old (numbered result fields.new) }
{
    match query::read_node(bytes, Cursor { at }) {
        Ok((node, next)) => hand_out(&fields::node_fields(node, next), fields),
        Err(fault) => fault.rule.number(),
    }
}

pub fn ed2k_part_count(size: u32) -> u32
    ensures { result ≡ spec_part_count size }
{
    met::part_count(size)
}

pub fn ed2k_block_count(size: u32) -> u32
    ensures { result ≡ spec_block_count size }
{
    met::block_count(size)
}
