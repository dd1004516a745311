// The tag walker on lists of each outcome. A walker is asked until it has twice given no tag, and each call of `next` prints a line: at the
// end and at a refusal the same comes again.

#![tactic(auto)]

ghost use Rattle.std.specs.Prelude.{◌≡◌, ◌<◌, IfOk};
ghost use Rattle.test_walker.specs.Stops.{stops_after};

use std::io;
use tag_walker::{WalkStep, new, next};
use tags::{Tag, TagValue};
use wire::bytes_at;

fn write(rt: &impl Print, bytes: &[u8]) -> io::Result<()> {
    rt.write_all(bytes)
}

fn write_line(rt: &impl Print, bytes: &[u8]) -> io::Result<()> {
    write(rt, bytes)?;
    println!(rt)
}

fn write_number(rt: &impl Print, n: u64) -> io::Result<()> {
    println!(rt; "{n}")
}

fn show_tag(rt: &impl Print, list: &[u8], tag: Tag) -> io::Result<()> {
    let name = bytes_at(list, tag.name_at, tag.name_len);
    write(rt, b"  tag ")?;
    write(rt, name)?;
    let value = tag.value;
    match value {
        TagValue::Hash(at) => {
            write(rt, b", hash ")?;
            write_line(rt, bytes_at(list, at, 16))
        }
        TagValue::Text(p) => {
            write(rt, b", string ")?;
            write_line(rt, bytes_at(list, p.at, p.len))
        }
        TagValue::Dword(n) => {
            write(rt, b", number ")?;
            write_number(rt, u64::from(n))
        }
        TagValue::Float(n) => {
            write(rt, b", bits of a float ")?;
            write_number(rt, u64::from(n))
        }
    }
}

// Prints a step, and counts those that are no tag.
fn show(rt: &impl Print, list: &[u8], step: WalkStep, stops: u8) -> io::Result<u8>
    requires { stops < 2 }
    ensures { IfOk result (λ count. count ≡ stops_after step stops) }
{
    match step {
        Ok(Some(tag)) => {
            show_tag(rt, list, tag)?;
            Ok(stops)
        }
        Ok(None) => {
            write(rt, b"  end\n")?;
            Ok(stops + 1)
        }
        Err(fault) => {
            write(rt, b"  refused ")?;
            write_number(rt, u64::from(fault.rule.number()))?;
            Ok(stops + 1)
        }
    }
}

// Asks a walker until it has twice given no tag.
fn walk(rt: &impl Print, list: &[u8]) -> io::Result<()> {
    let mut w = new(list);
    let mut stops = 0;
    // By `while`, since a tag is no stop.
    while stops < 2 {
        stops = show(rt, list, next(&mut w), stops)?;
    }
    Ok(())
}

fn show_walk(rt: &impl Print, words: &[u8], list: &[u8]) -> io::Result<()> {
    write_line(rt, words)?;
    walk(rt, list)
}

fn main(rt: HostRuntime) -> io::Result<()> {
    show_walk(&rt, b"the empty list", b"\x00\x00\x00\x00")?;
    show_walk(
        &rt,
        b"a tag of each type",
        b"\x04\x00\x00\x00\
        \x02\x06\x00Artist\x08\x00Coltrane\
        \x03\x07\x00bitrate\xc0\x00\x00\x00\
        \x01\x06\x00source0123456789abcdef\
        \x04\x05\x00girth\x00\x00\x80\x3f",
    )?;
    show_walk(
        &rt,
        b"a byte left after the last tag",
        b"\x01\x00\x00\x00\x03\x04\x00size\x05\x00\x00\x00\x00",
    )?;
    show_walk(
        &rt,
        b"a second tag that is cut short",
        b"\x02\x00\x00\x00\x03\x04\x00size\x05\x00\x00\x00\x03\x04\x00size\x05\x00\x00",
    )?;
    show_walk(
        &rt,
        b"a second tag of a wrong type",
        b"\x02\x00\x00\x00\x03\x04\x00size\x05\x00\x00\x00\x05\x04\x00size\x05\x00\x00\x00",
    )?;
    show_walk(&rt, b"a name of 256 bytes", b"\x01\x00\x00\x00\x03\x00\x01")?;
    show_walk(&rt, b"no bytes", b"")?;
    show_walk(&rt, b"65,537 bytes", &[0u8; 65537])?;
    show_walk(&rt, b"65,536 bytes", &[0u8; 65536])
}
