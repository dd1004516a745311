// Refusals of the writers, each with the write beside it that is accepted: a line gives the number of the answer and how many bytes were
// written. After each refusal the output is as it was before.

#![tactic(auto)]

use bodies::{Body, Form, StatusRequest};
use met::{HashBlocks, PartE1, PartMet};
use output::{Refusal, Written, same};
use packets::{Link, Packet, opcode};
use std::io;
use wire::{Items, bytes_at};
use write_packets::write_packet;
use write_part::write_part_met;

// A hash, the size tag of 972,800 bytes (one part, two blocks), and 16 bytes that are one part hash or two block hashes.
const SOURCE: [u8; 40] = [
    0x01, 0x02, 0x03, 0x04, 0x05, 0x06, 0x07, 0x08, 0x09, 0x0A, 0x0B, 0x0C, 0x0D, 0x0E, 0x0F, 0x10,
    0x03, 0x01, 0x00, 0x02, 0x00, 0xD8, 0x0E, 0x00, 0x41, 0x42, 0x43, 0x44, 0x45, 0x46, 0x47, 0x48,
    0x49, 0x4A, 0x4B, 0x4C, 0x4D, 0x4E, 0x4F, 0x50,
];

fn items(at: usize, count: u32) -> Items {
    Items { at, end: at, count }
}

// Prints a refusal, and whether a byte of the output, which held 0 before, has changed.
fn show_refused(rt: &impl Print, words: &str, refusal: Refusal, out: &[u8]) -> io::Result<()> {
    print!(rt; "{words}: answer {}, bytes 0", refusal.number())?;
    let before = [0u8; 64];
    if !same(out, bytes_at(&before, 0, out.len())) {
        print!(rt; ", output changed")?;
    }
    println!(rt)
}

fn show(rt: &impl Print, words: &str, answer: Written, out: &[u8]) -> io::Result<()> {
    match answer {
        Ok(length) => println!(rt; "{words}: answer 0, bytes {length}"),
        Err(refusal) => show_refused(rt, words, refusal, out),
    }
}

// A packet into an output of 64 bytes.
fn show_packet(
    rt: &impl Print,
    words: &str,
    src: &[u8],
    link: Link,
    code: u8,
    body: Body,
) -> io::Result<()> {
    let mut out = [0u8; 64];
    let packet = Packet {
        opening: 0xE3,
        opcode: code,
        body,
    };
    let answer = write_packet(src, link, packet, &mut out);
    show(rt, words, answer, &out)
}

fn show_short_room(rt: &impl Print) -> io::Result<()> {
    let mut out = [0u8; 13];
    let packet = Packet {
        opening: 0xE3,
        opcode: opcode::SERVER_STATUS,
        body: Body::TwoDwords(3, 5),
    };
    let answer = write_packet(&SOURCE, Link::Server, packet, &mut out);
    show(rt, "two numbers into 13 bytes", answer, &out)
}

fn show_opening(rt: &impl Print) -> io::Result<()> {
    let mut out = [0u8; 64];
    let packet = Packet {
        opening: 0xC5,
        opcode: opcode::SERVER_STATUS,
        body: Body::TwoDwords(3, 5),
    };
    let answer = write_packet(&SOURCE, Link::Server, packet, &mut out);
    show(rt, "a packet that opens with C5", answer, &out)
}

// 96 with a number: whether it is the plain or the extended request is in the number.
fn show_status_request(rt: &impl Print, words: &str, form: Form, number: u32) -> io::Result<()> {
    let request = StatusRequest { form, number };
    show_packet(
        rt,
        words,
        &SOURCE,
        Link::Udp,
        opcode::UDP_SERVER_STATUS_REQUEST,
        Body::StatusRequest(request),
    )
}

// A part.met of 972,800 bytes with these blocks.
fn show_part(rt: &impl Print, words: &str, blocks: HashBlocks) -> io::Result<()> {
    let mut out = [0u8; 64];
    let tags = items(16, 1);
    let part = PartE1 {
        date: 0,
        hash: 0,
        tags,
        blocks,
    };
    let answer = write_part_met(&SOURCE, PartMet::E1(part), &mut out);
    show(rt, words, answer, &out)
}

fn show_addresses(rt: &impl Print, words: &str, count: u32) -> io::Result<()> {
    let source = [7u8; 1536];
    let list = items(0, count);
    show_packet(
        rt,
        words,
        &source,
        Link::Server,
        opcode::SERVER_LIST,
        Body::Addresses(list),
    )
}

fn show_packets(rt: &impl Print) -> io::Result<()> {
    show_packet(
        rt,
        "two numbers",
        &SOURCE,
        Link::Server,
        opcode::SERVER_STATUS,
        Body::TwoDwords(3, 5),
    )?;
    show_short_room(rt)?;
    show_opening(rt)?;
    show_packet(
        rt,
        "one number where two belong",
        &SOURCE,
        Link::Server,
        opcode::SERVER_STATUS,
        Body::Dword(3),
    )?;
    show_packet(
        rt,
        "an opcode that is not listed",
        &SOURCE,
        Link::Server,
        0x99,
        Body::Dword(3),
    )?;
    show_packet(
        rt,
        "a hash that is not there",
        &SOURCE,
        Link::Server,
        opcode::GET_SOURCES,
        Body::Hash(25),
    )
}

fn show_counts(rt: &impl Print) -> io::Result<()> {
    show_addresses(rt, "9 addresses", 9)?;
    show_addresses(rt, "256 addresses", 256)?;
    show_addresses(rt, "257 addresses where 256 are", 257)
}

fn show_forms(rt: &impl Print) -> io::Result<()> {
    show_status_request(rt, "a plain 96", Form::Plain, 0x01020304)?;
    show_status_request(rt, "an extended 96", Form::Extended, 0x5AAA0102)?;
    show_status_request(rt, "a plain 96 called extended", Form::Extended, 0x01020304)?;
    show_status_request(rt, "an extended 96 called plain", Form::Plain, 0x5AAA0102)
}

fn show_parts(rt: &impl Print) -> io::Result<()> {
    show_part(rt, "no blocks", HashBlocks::Nothing)?;
    show_part(rt, "one part hash", HashBlocks::Parts(items(24, 1)))?;
    show_part(
        rt,
        "two block hashes alone",
        HashBlocks::Blocks(items(24, 2)),
    )?;
    show_part(rt, "one block hash alone", HashBlocks::Blocks(items(24, 1)))?;
    show_part(
        rt,
        "no part hash where one belongs",
        HashBlocks::Parts(items(24, 0)),
    )?;
    show_part(
        rt,
        "three block hashes where two belong",
        HashBlocks::Both(items(24, 1), items(0, 3)),
    )
}

fn main(rt: HostRuntime) -> io::Result<()> {
    show_packets(&rt)?;
    show_counts(&rt)?;
    show_forms(&rt)?;
    show_parts(&rt)
}
