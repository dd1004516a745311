// Cases of a merge and of a save that merges, answers of an independent reading. A line of merges.txt is the number, the room of the output, the
// bytes of the opened file, of the first save and of the second, and those of the outcome; one of saves.txt has the bytes of the stored file, of
// the opened one and the new bytes there. Each prints a line: the number, the length, and whether the output holds the outcome at its front and
// is untouched after it. At the end the merges come once more, with the two saves exchanged (02, No. 12): the lines are those of the first time
// but where both saves are refused, each with a number of its own.

#![tactic(auto)]

ghost use Rattle.std.specs.Prelude.{◌≤◌, ◌<◌};

use console::{field_end, read_all, read_hex};
use merge::merge;
use output::{Written, copy, same};
use save::save;
use std::fs::File;
use std::io;
use std::rt::Files;
use wire::bytes_at;

// The room for the text of all cases, for the bytes of a file, and for an output: none of the outcomes has more.
const TEXT: usize = 1048576;

const FILE: usize = 2048;

const OUTPUT: usize = 4096;

// What an output holds before the call.
const PATTERN: u8 = 0xA5;

// The number of a field of digits, from the first nine of them.
fn read_decimal(field: &[u8]) -> usize {
    let mut number: usize = 0;
    for &digit in field {
        if 99999999 < number {
            return number;
        }
        number = 10 * number + usize::from(digit % 16);
    }
    number
}

// The room of a case, at most that of its output: a case may tell of more than any outcome needs.
fn room_within(room: usize, limit: usize) -> usize
    ensures { result ≤ limit }
{
    if limit < room { limit } else { room }
}

// Whether the output holds the outcome at its front, and the pattern after it.
fn is_as_told(output: &[u8], outcome: &[u8]) -> bool {
    let mut told = [PATTERN; OUTPUT];
    if output.len() < outcome.len() {
        return false;
    }
    if OUTPUT < outcome.len() {
        return false;
    }
    copy(&mut told, outcome);
    same(output, bytes_at(&told, 0, output.len()))
}

// The call that the cases of a file are of.
#[derive(Clone, Copy)]
enum Call {
    Merge,
    Save,
    MergeExchanged,
}

// Calls with the three files of a case, in the order of its line.
fn answer_of(call: Call, first: &[u8], second: &[u8], third: &[u8], output: &mut [u8]) -> Written {
    match call {
        Call::Merge => merge(first, second, third, output),
        Call::Save => save(first, second, third, output),
        Call::MergeExchanged => merge(first, third, second, output),
    }
}

// Calls with the first bytes of an output, which holds the pattern.
fn print_answer(
    rt: &impl Print,
    call: Call,
    first: &[u8],
    second: &[u8],
    third: &[u8],
    outcome: &[u8],
    output: &mut [u8],
    room: usize,
) -> io::Result<()> {
    let taken = room_within(room, output.len());
    let answer = answer_of(call, first, second, third, &mut output[..taken]);
    match answer {
        Ok(length) => print!(rt; "0 {length}")?,
        Err(refusal) => print!(rt; "{} 0", refusal.number())?,
    }
    if is_as_told(output, outcome) {
        println!(rt; " as told")
    } else {
        println!(rt; " otherwise")
    }
}

// Where the fields of a line end: the number, the room, the three files and the outcome, which ends with the line.
#[derive(Clone, Copy)]
struct Line {
    number: usize,
    room: usize,
    first: usize,
    second: usize,
    third: usize,
    end: usize,
}

fn line_at(text: &[u8; TEXT], at: usize) -> Line
    requires { at < 1048576 }
    ensures { (at ≤ result.number) × (result.number < result.room) × (result.room < result.first) × (result.first < result.second) × (result.second < result.third)
        × (result.third < result.end) × (result.end < 8388608) }
{
    let number = field_end(text, at, b' ');
    let room = field_end(text, number + 1, b' ');
    let first = field_end(text, room + 1, b' ');
    let second = field_end(text, first + 1, b' ');
    let third = field_end(text, second + 1, b' ');
    let end = field_end(text, third + 1, b'\n');
    Line {
        number,
        room,
        first,
        second,
        third,
        end,
    }
}

// The bytes between the ends of two fields.
fn field_after(text: &[u8; TEXT], before: usize, end: usize) -> &[u8]
    requires { before < end }
{
    bytes_at(text, before + 1, end - before - 1)
}

fn print_case(rt: &impl Print, call: Call, text: &[u8; TEXT], line: Line) -> io::Result<()>
    requires { (line.number < line.room) × (line.room < line.first) × (line.first < line.second) × (line.second < line.third)
        × (line.third < line.end) × (line.end < 8388608) }
{
    let mut first = [0u8; FILE];
    let mut second = [0u8; FILE];
    let mut third = [0u8; FILE];
    let mut outcome = [0u8; FILE];
    let mut output = [PATTERN; OUTPUT];
    let room = read_decimal(field_after(text, line.number, line.room));
    let first_length = read_hex(field_after(text, line.room, line.first), &mut first);
    let second_length = read_hex(field_after(text, line.first, line.second), &mut second);
    let third_length = read_hex(field_after(text, line.second, line.third), &mut third);
    let outcome_length = read_hex(field_after(text, line.third, line.end), &mut outcome);
    print_answer(
        rt,
        call,
        bytes_at(&first, 0, first_length),
        bytes_at(&second, 0, second_length),
        bytes_at(&third, 0, third_length),
        bytes_at(&outcome, 0, outcome_length),
        &mut output,
        room,
    )
}

// Prints the cases whose lines are the first bytes of the text.
fn print_cases(rt: &impl Print, call: Call, text: &[u8; TEXT], length: usize) -> io::Result<()>
    requires { length ≤ 1048576 }
{
    let mut at = 0;
    // By `while`, since a line's end is found in it.
    while at < length {
        let line = line_at(text, at);
        print_case(rt, call, text, line)?;
        at = line.end + 1;
    }
    Ok(())
}

fn print_file(rt: &(impl Files + Print), call: Call, name: &str) -> io::Result<()> {
    let mut file = File::open(rt, name)?;
    let mut text = [0u8; TEXT];
    let length = read_all(&mut file, &mut text)?;
    print_cases(rt, call, &text, length)
}

fn main(rt: HostRuntime) -> io::Result<()> {
    print_file(&rt, Call::Merge, "merges.txt")?;
    print_file(&rt, Call::Save, "saves.txt")?;
    print_file(&rt, Call::MergeExchanged, "merges.txt")
}
