// Packets of the server link, the client link and UDP: every opcode that document 01 lists.
//
// A packet is read in document 01's order: the byte ceiling, the opening byte, on TCP the header's length, the opcode, the
// body's items from left to right, then the rest. A refusal holds its rule and nothing of the input.

#![tactic(auto)]

ghost use Rattle.std.specs.Prelude.{◌≡◌, ◌↔◌, [], ◌∷◌, ◌≤◌, ◌<◌};
ghost use Rattle.format.specs.Tables.{lookup};
ghost use Rattle.format.specs.Messages.{server_opcodes, client_opcodes, udp_opcodes};
ghost use Rattle.format.specs.Messages as messages;
ghost use Rattle.format.specs.Decoding.{message, ends};
ghost use Rattle.format.specs.Reasons.{Explains};
ghost use Rattle.format.specs.PacketOrder.{decode_opening, decode_length, decode_opcode};
ghost use Rattle.wire.specs.WireAnswers.{number_meaning, done_meaning};
ghost use Rattle.packets.specs.PacketAnswers.{opcodes_of, decode_link, decode_frame, shape_meaning, head_meaning, packet_after};
ghost use Rattle.packets.specs.PacketAnswers.{answer_of, packet_reply, PacketPlaced, link_kind, link_reply, LinkAccepts, step_reason};

use bodies::{Body, Shape, read_body};
use wire::{Cursor, Fault, PACKET_CEILING, Rule, Step};

pub mod opcode;

#[derive(Clone, Copy)]
pub enum Link {
    Server,
    Client,
    Udp,
}

#[derive(Clone, Copy)]
pub struct Packet {
    pub opening: u8,
    pub opcode: u8,
    pub body: Body,
}

// The opcodes of a link stand in runs: the compiler takes a short run into its callers, and there the code of an opcode goes straight on
// to that of its body.

fn server_session_shape(code: u8) -> Option<Shape>
    requires { code < 0x14 }
    ensures { shape_meaning result ≡ lookup server_opcodes code }
{
    match code {
        opcode::HELLO_SERVER => Some(Shape::Record),
        opcode::BAD_PROTOCOL => Some(Shape::Nothing),
        _ => None,
    }
}

fn server_request_shape(code: u8) -> Option<Shape>
    requires { (0x14 ≤ code) × (code < 0x32) }
    ensures { shape_meaning result ≡ lookup server_opcodes code }
{
    match code {
        opcode::GET_SERVER_LIST | opcode::DISCONNECT | opcode::MORE_RESULTS => Some(Shape::Nothing),
        opcode::SEARCH_FILE | opcode::SEARCH_USER => Some(Shape::Query),
        opcode::GET_SOURCES => Some(Shape::Hash),
        opcode::CLIENT_CB_REQUEST => Some(Shape::Dword),
        opcode::OFFER_FILES => Some(Shape::Records),
        _ => None,
    }
}

fn server_answer_shape(code: u8) -> Option<Shape>
    requires { 0x32 ≤ code }
    ensures { shape_meaning result ≡ lookup server_opcodes code }
{
    match code {
        opcode::CALLBACK_FAIL | opcode::ID_CHANGE => Some(Shape::Dword),
        opcode::SERVER_STATUS => Some(Shape::TwoDwords),
        opcode::SERVER_MESSAGE => Some(Shape::Text),
        opcode::SERVER_CB_REQUEST => Some(Shape::Address),
        opcode::SERVER_LIST => Some(Shape::Addresses),
        opcode::FOUND_SOURCES => Some(Shape::HashAddresses),
        opcode::SEARCH_USER_RESULTS => Some(Shape::Records),
        opcode::SEARCH_FILE_RESULTS => Some(Shape::RecordsFlag),
        opcode::SERVER_INFO_DATA => Some(Shape::HashAddressTags),
        _ => None,
    }
}

fn server_shape(code: u8) -> Option<Shape>
    ensures { shape_meaning result ≡ lookup server_opcodes code }
{
    if code < opcode::GET_SERVER_LIST {
        return server_session_shape(code);
    }
    if code < opcode::SERVER_LIST {
        return server_request_shape(code);
    }
    server_answer_shape(code)
}

// Opcodes that follow each other stand in different arms: in one arm they would be a range, and tested by its ends.
fn client_transfer_shape(code: u8) -> Option<Shape>
    requires { 0x46 ≤ code }
    ensures { shape_meaning result ≡ lookup client_opcodes code }
{
    match code {
        opcode::VIEW_FILES | opcode::SLOT_GIVEN | opcode::SLOT_TAKEN => Some(Shape::Nothing),
        opcode::SLOT_RELEASE => Some(Shape::Nothing),
        opcode::NO_SUCH_FILE | opcode::FILE_STATUS_REQUEST | opcode::HASHSET_REQUEST => Some(
            Shape::Hash,
        ),
        opcode::END_OF_DOWNLOAD | opcode::SLOT_REQUEST | opcode::FILE_REQUEST => Some(Shape::Hash),
        opcode::HELLO_ANSWER => Some(Shape::RecordAddress),
        opcode::QUEUE_RANK => Some(Shape::Dword),
        opcode::NEW_CLIENT_ID => Some(Shape::TwoDwords),
        opcode::MESSAGE => Some(Shape::Text),
        opcode::FILE_REQUEST_ANSWER => Some(Shape::HashText),
        opcode::VIEW_FILES_ANSWER => Some(Shape::Records),
        opcode::HASHSET_ANSWER => Some(Shape::Hashset),
        opcode::SENDING_PART => Some(Shape::SendingPart),
        opcode::REQUEST_PARTS => Some(Shape::RequestParts),
        opcode::FILE_STATUS => Some(Shape::FileStatus),
        _ => None,
    }
}

fn client_shape(code: u8) -> Option<Shape>
    ensures { shape_meaning result ≡ lookup client_opcodes code }
{
    if opcode::SENDING_PART <= code {
        return client_transfer_shape(code);
    }
    match code {
        opcode::HELLO_CLIENT => Some(Shape::Hello),
        _ => None,
    }
}

fn udp_shape(code: u8) -> Option<Shape>
    ensures { shape_meaning result ≡ lookup udp_opcodes code }
{
    match code {
        opcode::UDP_GET_SERVER_INFO | opcode::UDP_GET_SERVER_LIST => Some(Shape::Nothing),
        opcode::UDP_GET_SOURCES => Some(Shape::Hash),
        opcode::UDP_SEARCH_FILE => Some(Shape::Query),
        opcode::UDP_SEARCH_FILE_RESULT => Some(Shape::Record),
        opcode::UDP_FOUND_SOURCES => Some(Shape::HashAddresses),
        opcode::UDP_CALLBACK_REQUEST => Some(Shape::AddressDword),
        opcode::UDP_CALLBACK_FAIL => Some(Shape::Dword),
        opcode::UDP_SERVER_LIST => Some(Shape::Addresses),
        opcode::UDP_SERVER_INFO => Some(Shape::TwoTexts),
        opcode::UDP_SERVER_STATUS_REQUEST => Some(Shape::StatusRequest),
        opcode::UDP_SERVER_STATUS => Some(Shape::Status),
        _ => None,
    }
}

// The shape of the body after an opcode, if the link lists the opcode.
pub fn shape_of(link: Link, code: u8) -> Option<Shape>
    ensures { shape_meaning result ≡ lookup (opcodes_of link) code }
{
    match link {
        Link::Server => server_shape(code),
        Link::Client => client_shape(code),
        Link::Udp => udp_shape(code),
    }
}

// The same for the reader of the opcode alone: a function with one caller is compiled into it.
fn shape_to_read(link: Link, code: u8) -> Option<Shape>
    ensures { shape_meaning result ≡ lookup (opcodes_of link) code }
{
    match link {
        Link::Server => server_shape(code),
        Link::Client => client_shape(code),
        Link::Udp => udp_shape(code),
    }
}

// The opening byte of every link.
const OPENING: u8 = 0xE3;

#[tactic(auto, unfolding(format::specs::PacketOrder::decode_opening))]
fn read_opening(s: &[u8], c: Cursor) -> Step<u8>
    ensures { number_meaning result ≡ decode_opening (0xE3 ∷ []) s.now c.at }
{
    let (opening, next) = c.byte(s)?;
    if opening == OPENING {
        return Ok((opening, next));
    }
    Err(Fault {
        rule: Rule::Opening,
        at: c.at,
        size: 1,
    })
}

// The header's length, which must be the number of bytes after it, and not 0.
#[tactic(auto, unfolding(format::specs::PacketOrder::decode_length, format::specs::Decoding::ends))]
fn read_length(s: &[u8], c: Cursor) -> Result<Cursor, Fault>
    ensures { done_meaning result ≡ ends (decode_length s.now c.at) }
{
    let (length, next) = c.dword(s)?;
    let fault = Fault {
        rule: Rule::FrameLength,
        at: c.at,
        size: 4,
    };
    if length == 0 {
        return Err(fault);
    }
    let framed = length as usize;
    let left = next.remaining(s);
    if framed == left {
        return Ok(next);
    }
    Err(fault)
}

// What comes between the opening byte and the opcode: on TCP the length, on UDP nothing.
fn read_frame(s: &[u8], c: Cursor, link: Link) -> Result<Cursor, Fault>
    ensures { done_meaning result ≡ decode_frame link s.now c.at }
{
    match link {
        Link::Server => read_length(s, c),
        Link::Client => read_length(s, c),
        Link::Udp => Ok(c),
    }
}

// The opcode, and the shape of the body after it.
#[tactic(auto, unfolding(format::specs::PacketOrder::decode_opcode))]
fn read_opcode(s: &[u8], c: Cursor, link: Link) -> Step<(u8, Shape)>
    ensures { head_meaning result ≡ decode_opcode (opcodes_of link) s.now c.at }
{
    let (code, next) = c.byte(s)?;
    let Some(shape) = shape_to_read(link, code) else {
        return Err(Fault {
            rule: Rule::Kind,
            at: c.at,
            size: 1,
        });
    };
    Ok(((code, shape), next))
}

// The head of a packet. The opcode is read in one call for all links: a function with one caller is compiled into it, so that the code of
// the opcode goes straight on to that of the body.
fn read_head(s: &[u8], link: Link) -> Step<(u8, Shape)>
    ensures { packet_after s.now result ≡ decode_link link s.now 0 }
{
    let (_, after_opening) = read_opening(s, Cursor { at: 0 })?;
    let after_frame = read_frame(s, after_opening, link)?;
    read_opcode(s, after_frame, link)
}

// The packet that the bytes are on a link, if they are exactly one, or the fault that decides. The clauses are those of the answer that a
// caller gets (`meaning`, `placed`, `demand3`), and that the fault is its reason (`reason`; 02, No. 7). The body is moved once, from
// its reader into the answer: it is the largest value of a packet, and each further copy costs time.
pub fn packet_step(s: &[u8], link: Link) -> Result<Packet, Fault>
    ensures meaning { packet_reply s.now (answer_of result) ≡ link_reply link s.now }
    ensures placed { PacketPlaced s.now (answer_of result) }
    ensures demand3 { (m : messages.Packet) → (packet_reply s.now (answer_of result) ≡ message m) ↔ LinkAccepts link s.now m }
    ensures reason { Explains (link_kind link) s.now (step_reason result) }
{
    let length = s.len();
    if PACKET_CEILING < length {
        let too_many = Fault {
            rule: Rule::BytesCeiling,
            at: 0,
            size: length,
        };
        return Err(too_many);
    }
    let ((opcode, shape), after_opcode) = read_head(s, link)?;
    let (body, next) = read_body(s, after_opcode, shape)?;
    let end = next.at;
    if end == length {
        return Ok(Packet {
            opening: OPENING,
            opcode,
            body,
        });
    }
    let left_over = Fault {
        rule: Rule::Rest,
        at: end,
        size: 1,
    };
    Err(left_over)
}

// What a caller gets: the packet, or the rule that is broken alone.
pub fn read_packet(s: &[u8], link: Link) -> Result<Packet, Rule>
    ensures meaning { packet_reply s.now result ≡ link_reply link s.now }
    ensures placed { PacketPlaced s.now result }
    ensures demand3 { (m : messages.Packet) → (packet_reply s.now result ≡ message m) ↔ LinkAccepts link s.now m }
{
    Ok(packet_step(s, link)?)
}
