// Writes again each packet and file that is read from the two files. Prints for each kind how many were read, and how many of them
// were written as the same bytes.
use console::next_input;
use output::{Written, same};
use packets::{Link, Packet};
use read_any::{Kind, Message, read};
use std::fs::File;
use std::io;
use std::io::Read;
use std::rt::Files;
use wire::bytes_at;
use write_met::{write_known_met, write_server_met};
use write_packets::write_packet;
use write_part::write_part_met;

#[derive(Clone, Copy)]
struct Tally {
    read: u64,
    same: u64,
}

// A packet of a kind that is a link.
fn write_link(kind: Kind, s: &[u8], p: Packet, out: &mut [u8]) -> Written {
    match kind {
        Kind::ClientLink => write_packet(s, Link::Client, p, out),
        Kind::UdpLink => write_packet(s, Link::Udp, p, out),
        _ => write_packet(s, Link::Server, p, out),
    }
}

// What was read from s as a kind.
fn write_message(kind: Kind, s: &[u8], m: Message, out: &mut [u8]) -> Written {
    match m {
        Message::Packet(p) => write_link(kind, s, p, out),
        Message::KnownMet(k) => write_known_met(s, k, out),
        Message::ServerMet(v) => write_server_met(s, v, out),
        Message::PartMet(p, _) => write_part_met(s, p, out),
    }
}

// Counts the message that is read from the bytes of s, if there is one, and whether it is written as these.
fn tally_message(tally: Tally, kind: Kind, s: &[u8], out: &mut [u8]) -> Tally {
    let Ok(message) = read(kind, s) else {
        return tally;
    };
    let read = tally.read.wrapping_add(1);
    if let Ok(length) = write_message(kind, s, message, out) {
        if same(bytes_at(out, 0, length), s) {
            return Tally {
                read,
                same: tally.same.wrapping_add(1),
            };
        }
    }
    Tally {
        read,
        same: tally.same,
    }
}

// The same for an input that is of the kind, or is not.
fn tally_input(tally: Tally, of_kind: bool, kind: Kind, s: &[u8], out: &mut [u8]) -> Tally {
    if of_kind {
        return tally_message(tally, kind, s, out);
    }
    tally
}

// A loop must end, and nothing says that a file does: it counts its turns, up to a number that no file uses up.
fn tally_inputs<R: Read>(
    tally: Tally,
    file: &mut R,
    letter: u8,
    kind: Kind,
    bytes: &mut [u8],
    out: &mut [u8],
) -> io::Result<Tally> {
    let mut so_far = tally;
    for _ in 0..u64::MAX {
        let Some(input) = next_input(file, bytes)? else {
            return Ok(so_far);
        };
        so_far = tally_input(
            so_far,
            input.letter == letter,
            kind,
            bytes_at(bytes, 0, input.length),
            out,
        );
    }
    Ok(so_far)
}

fn tally_file(
    rt: &impl Files,
    tally: Tally,
    path: &str,
    letter: u8,
    kind: Kind,
    bytes: &mut [u8],
    out: &mut [u8],
) -> io::Result<Tally> {
    let mut file = File::open(rt, path)?;
    tally_inputs(tally, &mut file, letter, kind, bytes, out)
}

fn print_kind(
    rt: &(impl Files + Print),
    name: &str,
    letter: u8,
    kind: Kind,
    bytes: &mut [u8],
    out: &mut [u8],
) -> io::Result<()> {
    let none = Tally { read: 0, same: 0 };
    let made = tally_file(rt, none, "vectors.bin", letter, kind, bytes, out)?;
    let all = tally_file(rt, made, "samples.bin", letter, kind, bytes, out)?;
    println!(rt; "{name}: {} read, {} written the same", all.read, all.same)
}

fn print_links(rt: &(impl Files + Print), bytes: &mut [u8], out: &mut [u8]) -> io::Result<()> {
    print_kind(rt, "server link", b's', Kind::ServerLink, bytes, out)?;
    print_kind(rt, "client link", b'c', Kind::ClientLink, bytes, out)?;
    print_kind(rt, "UDP", b'u', Kind::UdpLink, bytes, out)
}

fn print_met_files(rt: &(impl Files + Print), bytes: &mut [u8], out: &mut [u8]) -> io::Result<()> {
    print_kind(rt, "known.met", b'k', Kind::KnownMet, bytes, out)?;
    print_kind(rt, "server.met", b'v', Kind::ServerMet, bytes, out)?;
    print_kind(rt, "part.met", b'p', Kind::PartMet, bytes, out)
}

pub fn print_written_back(
    rt: &(impl Files + Print),
    bytes: &mut [u8],
    out: &mut [u8],
) -> io::Result<()> {
    print_links(rt, bytes, out)?;
    print_met_files(rt, bytes, out)
}
