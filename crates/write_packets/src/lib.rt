// The writer of packets: a packet as the reader returns it, over the bytes that its offsets are in.
//
// Everything is checked and the size is known before the first store, so a refusal leaves the output as it was. The order is that
// of document 01, with the offsets before all: 4 for a body of another shape than that of its opcode, and the number of an offset
// at which an item is not encoded; 6 for a text or list that its count field cannot hold; then the number that the reader would
// give for the finished bytes; and 10, the room, last.

#![tactic(auto)]

ghost use Rattle.std.specs.Prelude.{◌≡◌, List, ◌++◌, ℕ, ◌+◌, ◌≤◌, length};
ghost use Rattle.format.specs.Layout.{byte, dword};
ghost use Rattle.format.specs.Writing.{overwritten};
ghost use Rattle.bodies.specs.BodyAnswers.{body_in, shape_of};
ghost use Rattle.output.specs.WriteAnswers.{answered, number_of};
ghost use Rattle.format.specs.RoundTrip.{RoundTrip, WritesAt};
ghost use Rattle.write_packets.specs.Packets.{Ready, spec_another_shape, head_bytes, spec_head_size, kind_of, packet_of, packet_there, spec_reader_number};

use bodies::{Body, Shape};
use check_bodies::{BodyCheck, check_body};
use output::{Refusal, Written};
use packets::{Link, Packet, shape_of};
use write_bodies::put_body;

const PACKET_CEILING: usize = 65536;

// The byte that opens every packet.
const PACKET_OPENING: u8 = 0xE3;

// How many bytes come before the body of a packet.
const TCP_HEAD: usize = 6;

const UDP_HEAD: usize = 2;

// The shape that a body has: it drops what the body holds, so that it is no conversion.
fn body_shape(body: Body) -> Shape
    ensures { (s : List ℕ) → shape_of result ≡ (body_in s body).0 }
{
    match body {
        Body::Nothing => Shape::Nothing,
        Body::Query(_) => Shape::Query,
        Body::Hash(_) => Shape::Hash,
        Body::Dword(_) => Shape::Dword,
        Body::TwoDwords(_, _) => Shape::TwoDwords,
        Body::Text(_) => Shape::Text,
        Body::TwoTexts(_, _) => Shape::TwoTexts,
        Body::Address(_) => Shape::Address,
        Body::Addresses(_) => Shape::Addresses,
        Body::HashAddresses(_, _) => Shape::HashAddresses,
        Body::AddressDword(_, _) => Shape::AddressDword,
        Body::HashAddressTags(_, _, _) => Shape::HashAddressTags,
        Body::Record(_) => Shape::Record,
        Body::Records(_) => Shape::Records,
        Body::RecordsFlag(_, _) => Shape::RecordsFlag,
        Body::RecordAddress(_, _) => Shape::RecordAddress,
        Body::Hello(_, _) => Shape::Hello,
        Body::HashText(_, _) => Shape::HashText,
        Body::Hashset(_, _) => Shape::Hashset,
        Body::SendingPart(_) => Shape::SendingPart,
        Body::RequestParts(_) => Shape::RequestParts,
        Body::FileStatus(_) => Shape::FileStatus,
        Body::StatusRequest(_) => Shape::StatusRequest,
        Body::Status(_) => Shape::Status,
        Body::ExtendedStatus(_) => Shape::Status,
    }
}

// Whether the link lists the packet's opcode with another shape than that of its body.
fn another_shape(link: Link, packet: Packet) -> bool
    ensures { (s : List ℕ) → result ≡ spec_another_shape link s packet }
{
    let Some(listed) = shape_of(link, packet.opcode) else {
        return false;
    };
    listed != body_shape(packet.body)
}

// What the reader says of the finished bytes once they are within the byte ceiling. `rule` is what it says of the body.
fn check_reading(
    link: Link,
    opening: u8,
    opcode: u8,
    rule: Result<(), Refusal>,
) -> Result<(), Refusal>
    ensures { number_of result ≡ spec_reader_number link opening opcode (number_of rule) }
{
    if opening != PACKET_OPENING {
        return Err(Refusal::Opening);
    }
    if shape_of(link, opcode).is_none() {
        return Err(Refusal::Kind);
    }
    rule
}

fn head_size(link: Link) -> usize
    ensures { result ≡ spec_head_size link }
{
    match link {
        Link::Server => TCP_HEAD,
        Link::Client => TCP_HEAD,
        Link::Udp => UDP_HEAD,
    }
}

// The frame of a TCP packet, up to its body of `size` bytes.
fn put_tcp_head(out: &mut [u8], opening: u8, opcode: u8, size: usize)
    requires { (6 ≤ length out.old) × (size ≤ 65536) }
    ensures { out.new ≡ overwritten (byte opening ++ (dword (1 + size) ++ byte opcode)) out.old }
{
    let counted = 1 + size;
    output::put_byte(out, opening);
    output::put_dword(&mut out[1..], counted as u32);
    output::put_byte(&mut out[5..], opcode);
}

// The frame of a UDP packet.
fn put_udp_head(out: &mut [u8], opening: u8, opcode: u8)
    requires { 2 ≤ length out.old }
    ensures { out.new ≡ overwritten (byte opening ++ byte opcode) out.old }
{
    output::put_byte(out, opening);
    output::put_byte(&mut out[1..], opcode);
}

fn put_head(out: &mut [u8], link: Link, opening: u8, opcode: u8, size: usize)
    requires { (spec_head_size link ≤ length out.old) × (size ≤ 65536) }
    ensures { out.new ≡ overwritten (head_bytes link opening opcode size) out.old }
{
    match link {
        Link::Server => put_tcp_head(out, opening, opcode, size),
        Link::Client => put_tcp_head(out, opening, opcode, size),
        Link::Udp => put_udp_head(out, opening, opcode),
    }
}

// A packet whose shape, offsets and counts are in order.
fn write_ready(src: &[u8], link: Link, packet: Packet, found: BodyCheck, out: &mut [u8]) -> Written
    requires { Ready link src.now packet found }
    ensures writes { WritesAt (kind_of link) (packet_there link src.now packet) (packet_of link src.now packet)
        out.old (answered result out.new) }
    ensures round { RoundTrip (kind_of link) (packet_there link src.now packet) (packet_of link src.now packet)
        out.old (answered result out.new) }
{
    let opening = packet.opening;
    let opcode = packet.opcode;
    let body = packet.body;
    let bytes = found.size;
    let head = head_size(link);
    if PACKET_CEILING - head < bytes {
        return Err(Refusal::Limit);
    }
    let size = head + bytes;
    check_reading(link, opening, opcode, found.rule)?;
    if out.len() < size {
        return Err(Refusal::Room);
    }
    put_head(out, link, opening, opcode, bytes);
    put_body(src, body, found.end, &mut out[head..]);
    Ok(size)
}

// A packet of a link. Its offsets are in `src`, as the reader returns it. A body of another shape than that of its opcode, and an
// offset at which an item is not encoded, are no message: they are refused first.
pub fn write_packet(src: &[u8], link: Link, packet: Packet, out: &mut [u8]) -> Written
    ensures writes { WritesAt (kind_of link) (packet_there link src.now packet) (packet_of link src.now packet)
        out.old (answered result out.new) }
    ensures round { RoundTrip (kind_of link) (packet_there link src.now packet) (packet_of link src.now packet)
        out.old (answered result out.new) }
{
    if another_shape(link, packet) {
        return Err(Refusal::Kind);
    }
    let found = check_body(src, packet.body)?;
    write_ready(src, link, packet, found, out)
}
