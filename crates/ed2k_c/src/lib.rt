// The C interface: each call of `ed2k` under its name, with its promise word for word. The archive libed2k.a is made of this crate.

#![tactic(auto)]

mod compose;
mod gap_records;
mod read;
mod reasons;
mod write;
