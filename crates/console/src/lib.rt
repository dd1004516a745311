// What the programs share: reading until a buffer is full, the inputs of a file, the fields of a file of cases, and printing the line for
// some bytes.
//
// No contract can say what a file or a terminal gives or takes. Those that read say how much came at most, and of a reader whose bytes are
// known, as one over memory, which bytes came; those that print say nothing. A read or a write that fails gives its error.

#![tactic(auto)]

ghost use Rattle.std.specs.Prelude.{◌+◌, ◌≤◌, ◌<◌, IfOk, length, take};
ghost use Rattle.std.specs.Io.KnownBytes.{Consumes, IsAtEnd, ReadConsumes};

use read_any::Summary;
use std::io;
use std::io::Read;
use wire::Cursor;

// One read: how many bytes came. None come at the end of the input.
pub fn read_some<R: Read>(reader: &mut R, out: &mut [u8]) -> io::Result<usize>
    ensures fits { IfOk result (λ count. count ≤ length out.old) }
    ensures bytes { ReadConsumes (R.remaining reader.old) (R.remaining reader.new) result out.new }
{
    reader.read(out)
}

// Reads until the buffer is full or the input ends, in as many pieces as it comes: how many bytes came.
pub fn read_all<R: Read>(reader: &mut R, out: &mut [u8]) -> io::Result<usize>
    ensures fits { IfOk result (λ count. count ≤ length out.old) }
    ensures bytes { IfOk result (λ count. Consumes (R.remaining reader.old) (R.remaining reader.new) (take count out.new)) }
    ensures end { IfOk result (λ count. count < length out.old → IsAtEnd (R.remaining reader.new)) }
{
    let mut at = 0;
    // By `while`, since a read takes as many bytes as come.
    while at < out.len() {
        let came = read_some(reader, &mut out[at..])?;
        if came == 0 {
            return Ok(at);
        }
        at += came;
    }
    Ok(at)
}

// Reads n bytes into the front of the buffer: whether it holds them and they come.
fn read_front<R: Read>(reader: &mut R, out: &mut [u8], n: usize) -> io::Result<bool> {
    let Some(front) = out.get_mut(..n) else {
        return Ok(false);
    };
    Ok(read_all(reader, front)? == n)
}

// An input of a file: a letter for its kind, and how many bytes it has.
#[derive(Clone, Copy)]
pub struct Input {
    pub letter: u8,
    pub length: usize,
}

// A file of inputs is a run of them: a letter, a DWORD length, and as many bytes. The bytes of the next one fill the front of the
// buffer. The run ends with the file, at an input that breaks off, and at one that the buffer does not hold.
pub fn next_input<R: Read>(reader: &mut R, bytes: &mut [u8]) -> io::Result<Option<Input>> {
    if !read_front(reader, bytes, 5)? {
        return Ok(None);
    }
    let first = Cursor { at: 0 };
    let Ok((letter, after)) = first.byte(bytes) else {
        return Ok(None);
    };
    let Ok((count, _)) = after.dword(bytes) else {
        return Ok(None);
    };
    let length = count as usize;
    if !read_front(reader, bytes, length)? {
        return Ok(None);
    }
    Ok(Some(Input { letter, length }))
}

// A file of cases is lines of fields, with a space after each but the last. Bytes are a field of two hexadecimal digits each; `-` is no
// bytes.

// The offset of the next byte from `at` on that is `mark` or ends a line, or of the end of the text: a field ends at a space, the last
// field of a line at its end.
pub fn field_end(text: &[u8], at: usize, mark: u8) -> usize
    ensures { (at ≤ result) × (result ≤ at + length text.now) }
{
    let rest = text.get(at..).unwrap_or_default();
    let length = rest.iter().position(|byte| *byte == mark || *byte == b'\n');
    at + length.unwrap_or(rest.len())
}

// The number of a hexadecimal digit; 0 for any other byte.
fn digit(byte: u8) -> u8
    ensures { result < 16 }
{
    match byte {
        b'0'..=b'9' => byte - b'0',
        b'a'..=b'f' => byte - b'a' + 10,
        _ => 0,
    }
}

// The bytes of a field, as many as the buffer holds: how many they are.
pub fn read_hex(field: &[u8], out: &mut [u8]) -> usize
    ensures { result ≤ length out.old }
{
    let count = (field.len() / 2).min(out.len());
    for i in 0..count {
        out[i] = 16 * digit(field[2 * i]) + digit(field[2 * i + 1]);
    }
    count
}

// `refused`, with the number of the refusal.
pub fn print_refused(rt: &impl Print, number: u8) -> io::Result<()> {
    println!(rt; "refused {number}")
}

// `accepted`, with the opcode or opening byte, and the length.
fn print_accepted(rt: &impl Print, code: u8, length: usize) -> io::Result<()> {
    println!(rt; "accepted {code} {length}")
}

pub fn print_summary(rt: &impl Print, s: Summary) -> io::Result<()> {
    if s.number == 0 {
        print_accepted(rt, s.code, s.length)
    } else {
        print_refused(rt, s.number)
    }
}
