// Prints the line that the reader gives for each input of the two files.
use console::{next_input, print_summary};
use read_any::{kind_of_letter, summarize};
use std::fs::File;
use std::io;
use std::io::Read;
use std::rt::Files;
use wire::bytes_at;

// Prints the line for the next input of a file: whether there is one.
fn print_next<R: Read>(rt: &impl Print, file: &mut R, bytes: &mut [u8]) -> io::Result<bool> {
    let Some(input) = next_input(file, bytes)? else {
        return Ok(false);
    };
    let Some(kind) = kind_of_letter(input.letter) else {
        return Ok(false);
    };
    print_summary(rt, summarize(kind, bytes_at(bytes, 0, input.length)))?;
    Ok(true)
}

// A loop must end, and nothing says that a file does: it counts its turns, up to a number that no file uses up.
fn print_all<R: Read>(rt: &impl Print, file: &mut R, bytes: &mut [u8]) -> io::Result<()> {
    for _ in 0..u64::MAX {
        if !print_next(rt, file, bytes)? {
            break;
        }
    }
    Ok(())
}

fn print_file(rt: &(impl Files + Print), path: &str, bytes: &mut [u8]) -> io::Result<()> {
    let mut file = File::open(rt, path)?;
    print_all(rt, &mut file, bytes)
}

pub fn print_files(rt: &(impl Files + Print), bytes: &mut [u8]) -> io::Result<()> {
    print_file(rt, "vectors.bin", bytes)?;
    print_file(rt, "samples.bin", bytes)
}
