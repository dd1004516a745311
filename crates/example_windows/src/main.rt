// A model's first save is the strict one. Two windows of an editor open its part.met, mark different ranges and save: the first save is accepted,
// and the second one is merged with it, so that both ranges have arrived. Had the second asked for the strict save, it would have been refused
// as a conflict (11). Had it been the first to save, the same file would be stored at the end. Two windows that set the priority in two ways are
// in conflict by either save. Each step prints one line.

#![tactic(auto)]

use gaps::{count_missing, mark, none_missing};
use met::read_gaps;
use output::{Written, same};
use put_gaps::put_gaps;
use save::{save, save_strict};
use std::io;
use wire::bytes_at;

// The part.met of a model of 100 bytes, all missing, with a tag for its priority.
const OPENED: [u8; 61] = [
    0xE0, 0x10, 0x20, 0x30, 0x40, 0x41, 0x42, 0x43, 0x44, 0x45, 0x46, 0x47, 0x48, 0x49, 0x4A, 0x4B,
    0x4C, 0x4D, 0x4E, 0x4F, 0x50, 0x00, 0x00, 0x04, 0x00, 0x00, 0x00, 0x03, 0x01, 0x00, 0x02, 0x64,
    0x00, 0x00, 0x00, 0x03, 0x01, 0x00, 0x13, 0x00, 0x00, 0x00, 0x00, 0x03, 0x02, 0x00, 0x09, 0x30,
    0x00, 0x00, 0x00, 0x00, 0x03, 0x02, 0x00, 0x0A, 0x30, 0x64, 0x00, 0x00, 0x00,
];

// The offset of the priority in it.
const PRIORITY: usize = 39;

fn say(rt: &impl Print, words: &str, n: u64) -> io::Result<()> {
    println!(rt; "{words}{n}")
}

// Says the number of an answer: how many bytes were written.
fn say_answer(rt: &impl Print, words: &str, answer: Written) -> io::Result<usize> {
    let number = answer.err().map_or(0, |refusal| refusal.number());
    say(rt, words, number as u64)?;
    Ok(answer.unwrap_or(0))
}

// What a window makes of the opened file when the bytes from start up to end arrive: how many bytes it wants to save.
fn edit(rt: &impl Print, opened: &[u8], start: u64, end: u64, out: &mut [u8]) -> io::Result<usize> {
    let given = read_gaps(opened).unwrap_or(none_missing(0));
    let (missing, after) = match mark(given, start, end) {
        Ok(marked) => (marked.missing, marked.after),
        Err(unmarked) => (0, unmarked.given),
    };
    say(rt, "window marks; bytes missing: ", missing)?;
    say_answer(
        rt,
        "window puts its gaps; answer: ",
        put_gaps(opened, after, out),
    )
}

// Both saves of what a window made say what they answer: how many bytes were written.
fn save_window(
    rt: &impl Print,
    stored: &[u8],
    opened: &[u8],
    made: &[u8],
    out: &mut [u8],
) -> io::Result<usize> {
    say_answer(rt, "save: answer ", save(stored, opened, made, out))
}

fn save_window_strictly(
    rt: &impl Print,
    stored: &[u8],
    opened: &[u8],
    made: &[u8],
    out: &mut [u8],
) -> io::Result<usize> {
    say_answer(
        rt,
        "strict save: answer ",
        save_strict(stored, opened, made, out),
    )
}

fn show_same(rt: &impl Print, a: &[u8], b: &[u8]) -> io::Result<()> {
    if same(a, b) {
        println!(rt; "the stored file is the first window's")
    } else {
        println!(rt; "the stored file is another")
    }
}

fn show_order(rt: &impl Print, one: &[u8], other: &[u8]) -> io::Result<()> {
    if same(one, other) {
        println!(rt; "in the other order the same file is stored")
    } else {
        println!(rt; "in the other order another file is stored")
    }
}

fn show_missing(rt: &impl Print, file: &[u8]) -> io::Result<()> {
    let missing = read_gaps(file).map_or(0, |given| count_missing(given));
    say(rt, "bytes missing in the stored file: ", missing)
}

// Two windows mark different ranges of the model that is stored.
fn mark_in_two_windows(rt: &impl Print, stored: &[u8]) -> io::Result<()> {
    let mut first = [0; 128];
    let mut second = [0; 128];
    let first_length = edit(rt, stored, 0, 40, &mut first)?;
    let second_length = edit(rt, stored, 60, 100, &mut second)?;
    let mine = bytes_at(&first, 0, first_length);
    let yours = bytes_at(&second, 0, second_length);
    let mut after_first = [0; 128];
    let saved = save_window(rt, stored, stored, mine, &mut after_first)?;
    let now = bytes_at(&after_first, 0, saved);
    show_same(rt, now, mine)?;
    let mut after_second = [0; 128];
    let refused = save_window_strictly(rt, now, stored, yours, &mut after_second)?;
    say(rt, "bytes written by it: ", refused as u64)?;
    let merged = save_window(rt, now, stored, yours, &mut after_second)?;
    let both = bytes_at(&after_second, 0, merged);
    show_missing(rt, both)?;
    let mut in_other_order = [0; 128];
    let exchanged = save_window(rt, yours, stored, mine, &mut in_other_order)?;
    show_order(rt, both, bytes_at(&in_other_order, 0, exchanged))
}

// Two windows set its priority in two ways.
fn set_in_two_windows(rt: &impl Print) -> io::Result<()> {
    let mut first = OPENED;
    let mut second = OPENED;
    first[PRIORITY] = 1;
    second[PRIORITY] = 2;
    let mut out = [0; 128];
    let refused = save_window(rt, &first, &OPENED, &second, &mut out)?;
    say(rt, "bytes written by it: ", refused as u64)
}

fn main(rt: HostRuntime) -> io::Result<()> {
    let nothing: [u8; 0] = [];
    let mut stored = [0; 128];
    let saved = save_window_strictly(&rt, &nothing, &nothing, &OPENED, &mut stored)?;
    mark_in_two_windows(&rt, bytes_at(&stored, 0, saved))?;
    set_in_two_windows(&rt)
}
