// Cases of a query's truth on a tag list. A line of cases.txt is the bytes of the query, those of the tag list, and words that say what it
// tries; each prints a line: these words, the number, and the truth. Most ask a list with the tags 01 "Blue Train.mp3", 03 "Audio",
// 02 5,000,000, "Artist" "Coltrane", "bitrate" 192, a HASH named 01 and a FLOAT named 04.

#![tactic(auto)]

ghost use Rattle.std.specs.Prelude.{◌≤◌, ◌<◌};

use console::{field_end, read_all, read_hex};
use std::fs::File;
use std::io;
use truth::truth_of;
use wire::bytes_at;

// The room for the text of all cases.
const ROOM: usize = 32768;

fn print_truth(rt: &impl Print, words: &[u8], query: &[u8], tags: &[u8]) -> io::Result<()> {
    let truth = truth_of(query, tags);
    rt.write_all(words)?;
    match truth {
        Ok(true) => println!(rt; ": 0 yes"),
        Ok(false) => println!(rt; ": 0 no"),
        Err(rule) => println!(rt; ": {} no", rule.number()),
    }
}

// Where the fields of a line end: the query, the tag list, and the words, which end with the line.
#[derive(Clone, Copy)]
struct Line {
    query: usize,
    tags: usize,
    end: usize,
}

fn line_at(text: &[u8; ROOM], at: usize) -> Line
    requires { at < 32768 }
    ensures { (at ≤ result.query) × (result.query < result.tags) × (result.tags < result.end) × (result.end < 262144) }
{
    let query = field_end(text, at, b' ');
    let tags = field_end(text, query + 1, b' ');
    let end = field_end(text, tags + 1, b'\n');
    Line { query, tags, end }
}

// Prints the case whose line begins at an offset.
fn print_case(rt: &impl Print, text: &[u8; ROOM], at: usize, line: Line) -> io::Result<()>
    requires { (at ≤ line.query) × (line.query < line.tags) × (line.tags < line.end) × (line.end < 262144) }
{
    let mut query = [0u8; 128];
    let mut tags = [0u8; 256];
    let tags_at = line.query + 1;
    let words_at = line.tags + 1;
    let query_length = read_hex(bytes_at(text, at, line.query - at), &mut query);
    let tags_length = read_hex(bytes_at(text, tags_at, line.tags - tags_at), &mut tags);
    print_truth(
        rt,
        bytes_at(text, words_at, line.end - words_at),
        bytes_at(&query, 0, query_length),
        bytes_at(&tags, 0, tags_length),
    )
}

// Prints the cases whose lines are the first bytes of the text.
fn print_cases(rt: &impl Print, text: &[u8; ROOM], length: usize) -> io::Result<()>
    requires { length ≤ 32768 }
{
    let mut at = 0;
    // By `while`, since a line's end is found in it.
    while at < length {
        let line = line_at(text, at);
        print_case(rt, text, at, line)?;
        at = line.end + 1;
    }
    Ok(())
}

fn main(rt: HostRuntime) -> io::Result<()> {
    let mut file = File::open(&rt, "cases.txt")?;
    let mut text = [0u8; ROOM];
    let length = read_all(&mut file, &mut text)?;
    print_cases(&rt, &text, length)
}
