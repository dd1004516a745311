// Runs the inputs of two files, made inputs of every kind and what a stock client sent or wrote, through the reader and prints the line
// for each; then writes again what was read, and prints for each kind how much of it came out as the same bytes.

#![tactic(auto)]

use lines::print_files;
use std::io;
use written_back::print_written_back;

mod lines;
mod written_back;

fn main(rt: HostRuntime) -> io::Result<()> {
    let mut bytes = [0u8; 65536];
    let mut out = [0u8; 65536];
    print_files(&rt, &mut bytes)?;
    print_written_back(&rt, &mut bytes, &mut out)
}
