// Composes an offer of two files and a search for one of them from nothing: tags are written one by one after a hash into a scratch
// buffer, the records over these into a second one, and the packet over the records. Then all is read back, and each step prints one line.

#![tactic(auto)]

ghost use Rattle.std.specs.Prelude.{◌≤◌, IfOk, length};

use bodies::Body;
use packets::{Link, Packet, opcode, read_packet};
use query::{Bound, Operator, Query};
use records::{Record, read_record};
use std::io;
use tags::{TagValue, read_tag};
use truth::truth_of;
use wire::{Cursor, Items, bytes_at};
use write_bodies::write_record;
use write_items::{
    write_dword_tag, write_join, write_keyword, write_limit, write_tag_list, write_text_tag,
};
use write_packets::write_packet;

// The published special tags.
const NAME: [u8; 1] = [0x01];

const SIZE: [u8; 1] = [0x02];

// The tags of a file stand after its hash.
const TAGS_AT: usize = 16;

fn say(rt: &impl Print, words: &str, n: u64) -> io::Result<()> {
    println!(rt; "{words}{n}")
}

// The name and the size of a file as two tags, at the front of what is lent: how many bytes they have.
fn put_tags(out: &mut [u8], name: &[u8], size: u32) -> usize
    ensures { result ≤ length out.old }
{
    let named = write_text_tag(&NAME, name, out).unwrap_or(0);
    let at = named.min(out.len());
    let sized = write_dword_tag(&SIZE, size, &mut out[at..]).unwrap_or(0);
    let rest = out.len() - at;
    at + sized.min(rest)
}

// The tags of a file, after the hash that a scratch buffer begins with: how many bytes they have.
fn put_file_tags(scratch: &mut [u8], name: &[u8], size: u32) -> usize
    requires { 16 ≤ length scratch.old }
{
    put_tags(&mut scratch[TAGS_AT..], name, size)
}

// The two tags after the hash.
fn file_tags(tags_end: usize) -> Items {
    Items {
        at: TAGS_AT,
        end: tags_end,
        count: 2,
    }
}

// A file's record, at the front of what is lent: how many bytes it has.
fn put_file(rt: &impl Print, scratch: &[u8], tags: Items, out: &mut [u8]) -> io::Result<usize>
    ensures { IfOk result (λ count. count ≤ length out.old) }
{
    let record = Record {
        hash: 0,
        client: 0,
        port: 0,
        tags,
    };
    let wrote = write_record(scratch, record, out).unwrap_or(0);
    say(rt, "record written; bytes: ", wrote as u64)?;
    Ok(wrote.min(out.len()))
}

// The records of two files, one after the other: how many bytes they have.
fn put_files(
    rt: &impl Print,
    first: &[u8],
    first_end: usize,
    second: &[u8],
    second_end: usize,
    out: &mut [u8],
) -> io::Result<usize> {
    let at = put_file(rt, first, file_tags(first_end), out)?;
    let more = put_file(rt, second, file_tags(second_end), &mut out[at..])?;
    Ok(at + more)
}

// The offer of two files, over the records of both.
fn put_offer(
    rt: &impl Print,
    records: &[u8],
    records_end: usize,
    out: &mut [u8],
) -> io::Result<usize> {
    let list = Items {
        at: 0,
        end: records_end,
        count: 2,
    };
    let packet = Packet {
        opening: 0xE3,
        opcode: opcode::OFFER_FILES,
        body: Body::Records(list),
    };
    let wrote = write_packet(records, Link::Server, packet, out).unwrap_or(0);
    say(rt, "offer written; bytes: ", wrote as u64)?;
    Ok(wrote)
}

// A query for files whose name has `left` in it and that have at least 20,000,000 bytes.
fn put_query(out: &mut [u8]) -> usize {
    let mut word = [0u8; 32];
    let mut limit = [0u8; 32];
    let keyword = write_keyword(b"left", &mut word).unwrap_or(0);
    let bound = write_limit(20000000, Bound::AtLeast, &SIZE, &mut limit).unwrap_or(0);
    let left = bytes_at(&word, 0, keyword);
    let right = bytes_at(&limit, 0, bound);
    write_join(Operator::And, left, right, out).unwrap_or(0)
}

fn put_search(rt: &impl Print, query: &[u8], out: &mut [u8]) -> io::Result<usize> {
    let whole = Query {
        at: 0,
        end: 0,
        depth: 0,
    };
    let packet = Packet {
        opening: 0xE3,
        opcode: opcode::SEARCH_FILE,
        body: Body::Query(whole),
    };
    let wrote = write_packet(query, Link::Server, packet, out).unwrap_or(0);
    say(rt, "search written; bytes: ", wrote as u64)?;
    Ok(wrote)
}

// Reading back

fn show_text(rt: &impl Print, s: &[u8], at: usize, length: usize) -> io::Result<()> {
    print!(rt; "  name: ")?;
    rt.write_all(bytes_at(s, at, length))?;
    println!(rt)
}

fn show_value(rt: &impl Print, s: &[u8], value: TagValue) -> io::Result<()> {
    match value {
        TagValue::Text(p) => show_text(rt, s, p.at, p.len),
        TagValue::Dword(n) => say(rt, "  size: ", n as u64),
        TagValue::Hash(at) => say(rt, "  hash at ", at as u64),
        TagValue::Float(bits) => say(rt, "  float bits ", bits as u64),
    }
}

// The tag at an offset: the offset after it.
fn show_tag(rt: &impl Print, s: &[u8], at: usize) -> io::Result<usize> {
    match read_tag(s, Cursor { at }) {
        Ok((tag, next)) => {
            show_value(rt, s, tag.value)?;
            Ok(next.at)
        }
        Err(fault) => {
            say(rt, "  tag refused: ", fault.rule.number() as u64)?;
            Ok(at)
        }
    }
}

// The record of a file at an offset, with its two tags: the offset after it.
fn show_record(rt: &impl Print, s: &[u8], at: usize) -> io::Result<usize> {
    match read_record(s, Cursor { at }) {
        Ok((record, next)) => {
            let second = show_tag(rt, s, record.tags.at)?;
            show_tag(rt, s, second)?;
            Ok(next.at)
        }
        Err(fault) => {
            say(rt, "record refused: ", fault.rule.number() as u64)?;
            Ok(at)
        }
    }
}

fn show_body(rt: &impl Print, s: &[u8], body: Body) -> io::Result<()> {
    match body {
        Body::Records(l) => {
            say(rt, "files offered: ", l.count as u64)?;
            let second = show_record(rt, s, l.at)?;
            show_record(rt, s, second)?;
            Ok(())
        }
        Body::Query(q) => say(rt, "query of depth ", q.depth as u64),
        _ => Ok(()),
    }
}

fn show_packet(rt: &impl Print, s: &[u8]) -> io::Result<()> {
    let Ok(packet) = read_packet(s, Link::Server) else {
        return println!(rt; "packet refused");
    };
    say(rt, "read back; opcode: ", packet.opcode as u64)?;
    show_body(rt, s, packet.body)
}

// Whether the query finds a file by its tags.
fn show_truth(rt: &impl Print, query: &[u8], scratch: &[u8], tags: Items) -> io::Result<()> {
    let mut list = [0u8; 128];
    let wrote = write_tag_list(scratch, tags, &mut list).unwrap_or(0);
    if truth_of(query, bytes_at(&list, 0, wrote)).unwrap_or(false) {
        println!(rt; "the search finds the file")
    } else {
        println!(rt; "the search does not find the file")
    }
}

// Composes the offer and reads it back.
fn offer(
    rt: &impl Print,
    first: &[u8],
    first_end: usize,
    second: &[u8],
    second_end: usize,
) -> io::Result<()> {
    let mut records = [0u8; 256];
    let mut packet = [0u8; 256];
    let end = put_files(rt, first, first_end, second, second_end, &mut records)?;
    let size = put_offer(rt, &records, end, &mut packet)?;
    show_packet(rt, bytes_at(&packet, 0, size))
}

// Composes the search, reads it back, and asks it of both files.
fn search(
    rt: &impl Print,
    first: &[u8],
    first_end: usize,
    second: &[u8],
    second_end: usize,
) -> io::Result<()> {
    let mut query = [0u8; 64];
    let mut packet = [0u8; 256];
    let query_length = put_query(&mut query);
    let asked = bytes_at(&query, 0, query_length);
    let size = put_search(rt, asked, &mut packet)?;
    show_packet(rt, bytes_at(&packet, 0, size))?;
    show_truth(rt, asked, first, file_tags(first_end))?;
    show_truth(rt, asked, second, file_tags(second_end))
}

fn show(
    rt: &impl Print,
    first: &[u8],
    first_end: usize,
    second: &[u8],
    second_end: usize,
) -> io::Result<()> {
    offer(rt, first, first_end, second, second_end)?;
    search(rt, first, first_end, second, second_end)
}

fn main(rt: HostRuntime) -> io::Result<()> {
    let mut first = [0xA1u8; 128];
    let mut second = [0xB2u8; 128];
    let first_end = put_file_tags(&mut first, b"last 41 left.stl", 48211004);
    let second_end = put_file_tags(&mut second, b"last 41 right.stl", 48307212);
    show(&rt, &first, first_end, &second, second_end)
}
