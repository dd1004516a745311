// The reading program: a letter for the kind of the bytes, then the bytes, on standard input; one line on standard output.
//
// It has one buffer, of the 65,536 bytes that it takes. The letter is read into its first place, and kept; then the bytes.

#![tactic(auto)]

ghost use Rattle.std.specs.Prelude.{◌<◌, length};

use console::{print_refused, print_summary, read_all, read_some};
use read_any::{Kind, kind_of_letter, summarize};
use std::io;
use std::io::Read;

// Whether more comes after the n bytes that were read. Where they fill the buffer, the next one is read into the first
// place, which is restored.
fn more_comes<R: Read>(input: &mut R, bytes: &mut [u8], n: usize) -> io::Result<bool>
    requires { 0 < length bytes.old }
{
    if n < bytes.len() {
        return Ok(false);
    }
    let first = bytes[0];
    let more = read_some(input, &mut bytes[..1]);
    bytes[0] = first;
    Ok(more? != 0)
}

fn print_bytes<R: Read>(
    rt: &impl Print,
    input: &mut R,
    kind: Kind,
    bytes: &mut [u8],
) -> io::Result<()>
    requires { 0 < length bytes.old }
{
    let n = read_all(input, bytes)?;
    if more_comes(input, bytes, n)? {
        return print_refused(rt, 6);
    }
    print_summary(rt, summarize(kind, &bytes[..n]))
}

fn print_line<R: Read>(rt: &impl Print, input: &mut R, bytes: &mut [u8]) -> io::Result<()>
    requires { 0 < length bytes.old }
{
    let n = read_some(input, &mut bytes[..1])?;
    if n == 0 {
        return print_refused(rt, 1);
    }
    let Some(kind) = kind_of_letter(bytes[0]) else {
        return print_refused(rt, 4);
    };
    print_bytes(rt, input, kind, bytes)
}

fn main(rt: HostRuntime) -> io::Result<()> {
    let mut bytes = [0u8; 65536];
    let mut input = rt.stdin();
    print_line(&rt, &mut input, &mut bytes)
}
