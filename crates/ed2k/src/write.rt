// The call that writes a message from the numbers that the reading calls hand out.
ghost use Rattle.std.specs.Prelude.{◌≡◌};
ghost use Rattle.format.specs.Tables.{lookup};
ghost use Rattle.fields.specs.Fields.{filled, spec_packet_numbers};
ghost use Rattle.ed2k.specs.Calls.{kinds};
ghost use Rattle.ed2k.specs.Calls.{leaves};
ghost use Rattle.ed2k.specs.Calls.{WriteOf, PacketWrites, KnownWrites, ServerWrites, PartWrites, QueryWrites, TagListWrites};

use crate::read::hand_out_packet;
use crate::{PacketSource, report};
use output::Refusal;
use packets::{Link, Packet};

// Writing.

// What is reported by 16 numbers, as ed2k_read hands them out.

fn packet_numbers(packet: Packet) -> [u64; 16]
    ensures { result ≡ filled 16 (spec_packet_numbers packet) }
{
    let mut numbers: [u64; 16] = [0; 16];
    hand_out_packet(PacketSource::Given(packet), b"", &mut numbers);
    numbers
}

fn write_link(link: Link, bytes: &[u8], given: &[u64], output: &mut [u8], written: &mut usize) -> u8
    ensures { PacketWrites link bytes.now given.now output.old (leaves result written.new output.new) }
{
    let packet = fields::packet_given(given);
    let numbers = packet_numbers(packet);
    if !fields::same_fields(&numbers, given) {
        return report(Err(Refusal::Choice), written);
    }
    report(
        write_packets::write_packet(bytes, link, packet, output),
        written,
    )
}

fn write_known(bytes: &[u8], given: &[u64], output: &mut [u8], written: &mut usize) -> u8
    ensures { KnownWrites bytes.now given.now output.old (leaves result written.new output.new) }
{
    let known = fields::known_given(given);
    let numbers = fields::known_fields(known);
    if !fields::same_fields(&numbers, given) {
        return report(Err(Refusal::Choice), written);
    }
    report(write_met::write_known_met(bytes, known, output), written)
}

fn write_server(bytes: &[u8], given: &[u64], output: &mut [u8], written: &mut usize) -> u8
    ensures { ServerWrites bytes.now given.now output.old (leaves result written.new output.new) }
{
    let server = fields::server_given(given);
    let numbers = fields::server_fields(server);
    if !fields::same_fields(&numbers, given) {
        return report(Err(Refusal::Choice), written);
    }
    report(write_met::write_server_met(bytes, server, output), written)
}

fn write_part(bytes: &[u8], given: &[u64], output: &mut [u8], written: &mut usize) -> u8
    ensures { PartWrites bytes.now given.now output.old (leaves result written.new output.new) }
{
    let part = fields::part_given(given);
    let size = fields::size_given(given);
    let numbers = fields::part_fields(part, size);
    if !fields::same_fields(&numbers, given) {
        return report(Err(Refusal::Choice), written);
    }
    report(write_part::write_part_met(bytes, part, output), written)
}

fn write_lone_query(bytes: &[u8], given: &[u64], output: &mut [u8], written: &mut usize) -> u8
    ensures { QueryWrites bytes.now given.now output.old (leaves result written.new output.new) }
{
    let query = fields::query_given(given);
    let numbers = fields::query_fields(query);
    if !fields::same_fields(&numbers, given) {
        return report(Err(Refusal::Choice), written);
    }
    report(write_items::write_query(bytes, query, output), written)
}

fn write_lone_tags(bytes: &[u8], given: &[u64], output: &mut [u8], written: &mut usize) -> u8
    ensures { TagListWrites bytes.now given.now output.old (leaves result written.new output.new) }
{
    let list = fields::list_given(given);
    let numbers = fields::list_fields(list);
    if !fields::same_fields(&numbers, given) {
        return report(Err(Refusal::Choice), written);
    }
    report(write_items::write_tag_list(bytes, list, output), written)
}

pub fn ed2k_write(
    kind: u8,
    bytes: &[u8],
    given: &[u64],
    output: &mut [u8],
    written: &mut usize,
) -> u8
    ensures { WriteOf (lookup kinds kind) bytes.now given.now output.old (leaves result written.new output.new) }
{
    match kind {
        0 => write_link(Link::Server, bytes, given, output, written),
        1 => write_link(Link::Client, bytes, given, output, written),
        2 => write_link(Link::Udp, bytes, given, output, written),
        3 => write_known(bytes, given, output, written),
        4 => write_server(bytes, given, output, written),
        5 => write_part(bytes, given, output, written),
        6 => write_lone_query(bytes, given, output, written),
        7 => write_lone_tags(bytes, given, output, written),
        _ => report(Err(Refusal::Kind), written),
    }
}
