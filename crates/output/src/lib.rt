// Writing at the front of a lent output: each function is lent the rest of the output from the present offset on,
// `&mut out[at..]`, writes there, and changes nothing after what it wrote.
//
// The functions that write are for the crates above alone: each requires that its caller has checked the room before.

#![tactic(auto)]

ghost use Rattle.std.specs.Prelude.{◌≡◌, ◌↔◌, ◌+◌, ◌≤◌, ◌<◌, length, drop, eqb};
ghost use Rattle.output.specs.Agreement.{Agree};
ghost use Rattle.output.specs.WriteAnswers.{refusal_number, refusal_of};
ghost use Rattle.format.specs.Layout.{byte, word, dword, encode_string};
ghost use Rattle.format.specs.Tables.{pick, same};
ghost use Rattle.format.specs.Writing.{overwritten};

use wire::{Fault, Rule};

// Why a call is refused: a variant for each number of document 01 and for those that 02 adds. What a reader refuses has the number of the
// rule that is broken.
#[derive(Clone, Copy, PartialEq, Eq, Debug)]
pub enum Refusal {
    Short,
    Opening,
    FrameLength,
    Kind,
    Choice,
    Limit,
    Rest,
    Data,
    SizeTag,
    Room,
    Conflict,
    // No. 3 of 02: the files are not of one model.
    Strangers,
}

impl Refusal {
    pub fn number(self) -> u8
        ensures { result ≡ refusal_number self }
    {
        match self {
            Refusal::Short => 1,
            Refusal::Opening => 2,
            Refusal::FrameLength => 3,
            Refusal::Kind => 4,
            Refusal::Choice => 5,
            Refusal::Limit => 6,
            Refusal::Rest => 7,
            Refusal::Data => 8,
            Refusal::SizeTag => 9,
            Refusal::Room => 10,
            Refusal::Conflict => 11,
            Refusal::Strangers => 12,
        }
    }
}

// How many bytes a call wrote at the front of the output, or why it is refused.
pub type Written = Result<usize, Refusal>;

impl From<Rule> for Refusal {
    ghost from_gives = { λ rule refusal. refusal ≡ refusal_of rule };

    fn from(rule: Rule) -> Refusal {
        match rule {
            Rule::Short => Refusal::Short,
            Rule::Opening => Refusal::Opening,
            Rule::FrameLength => Refusal::FrameLength,
            Rule::Kind => Refusal::Kind,
            Rule::Choice => Refusal::Choice,
            Rule::StatusBit => Refusal::Choice,
            Rule::BytesCeiling => Refusal::Limit,
            Rule::DepthCeiling => Refusal::Limit,
            Rule::NameCeiling => Refusal::Limit,
            Rule::GapCeiling => Refusal::Limit,
            Rule::Rest => Refusal::Rest,
            Rule::Order => Refusal::Data,
            Rule::DataLength => Refusal::Data,
            Rule::SizeTag => Refusal::SizeTag,
        }
    }
}

impl From<Fault> for Refusal {
    ghost from_gives = { λ fault refusal. refusal ≡ refusal_of fault.rule };

    fn from(fault: Fault) -> Refusal {
        Refusal::from(fault.rule)
    }
}

pub fn put_byte(out: &mut [u8], v: u8)
    requires { 1 ≤ length out.old }
    ensures { out.new ≡ overwritten (byte v) out.old }
{
    out[0] = v;
}

// Low byte first.
pub fn put_word(out: &mut [u8], v: u16)
    requires { 2 ≤ length out.old }
    ensures { out.new ≡ overwritten (word v) out.old }
{
    let bytes = v.to_le_bytes();
    out[0] = bytes[0];
    out[1] = bytes[1];
}

pub fn put_dword(out: &mut [u8], v: u32)
    requires { 4 ≤ length out.old }
    ensures { out.new ≡ overwritten (dword v) out.old }
{
    let bytes = v.to_le_bytes();
    out[0] = bytes[0];
    out[1] = bytes[1];
    out[2] = bytes[2];
    out[3] = bytes[3];
}

// All bytes of `src`, by a loop: `copy_from_slice` would have the archive call the C library's memmove, which no other function needs.
pub fn copy(out: &mut [u8], src: &[u8])
    requires { length src.now ≤ length out.old }
    ensures { out.new ≡ overwritten src.now out.old }
{
    for i in 0..src.len() {
        out[i] = src[i];
    }
}

// A WORD with the length of the text, then the text. The answer is how many bytes were written.
pub fn put_string(out: &mut [u8], text: &[u8]) -> usize
    requires { (length text.now < 65536) × (2 + length text.now ≤ length out.old) }
    ensures written { result ≡ 2 + length text.now }
    ensures output { out.new ≡ overwritten (encode_string text.now) out.old }
{
    let n = text.len();
    put_word(out, n as u16);
    copy(&mut out[2..], text);
    2 + n
}

// Bytes are compared by blocks: a loop with no way out of it compares many at the same time.
const BLOCK: usize = 128;

// One more byte that differs, or none.
fn counted(differ: u8, x: u8, y: u8) -> u8
    requires { differ < 255 }
    ensures { result ≡ pick (eqb x y) differ (differ + 1) }
{
    if x == y { differ } else { differ + 1 }
}

// How many bytes of a block differ.
fn differing(a: &[u8], b: &[u8], at: usize) -> u8
    requires { (at + 128 ≤ length a.now) × (at + 128 ≤ length b.now) }
    ensures { (result ≡ 0) ↔ Agree a.now b.now at 128 }
{
    let mut differ: u8 = 0;
    for i in 0..BLOCK {
        let x = a[at + i];
        let y = b[at + i];
        differ = counted(differ, x, y);
    }
    differ
}

// Whether two runs of one length are equal from an offset on, byte by byte.
fn same_from(a: &[u8], b: &[u8], at: usize) -> bool
    requires { (length a.now ≡ length b.now) × (at ≤ length a.now) }
    ensures { result ≡ same (drop at a.now) (drop at b.now) }
{
    let n = a.len();
    for i in at..n {
        if a[i] != b[i] {
            return false;
        }
    }
    true
}

// Whether two runs of bytes are equal, length included. The last block may begin within the one before it: so no byte of a run of a block or
// more is compared alone.
pub fn same(a: &[u8], b: &[u8]) -> bool
    ensures { result ≡ same a.now b.now }
{
    let n = a.len();
    if n != b.len() {
        return false;
    }
    if n < BLOCK {
        return same_from(a, b, 0);
    }
    let last = n - BLOCK;
    let mut i = 0;
    // By `while`, since it goes on by blocks.
    while i < last {
        let differ = differing(a, b, i);
        if differ != 0 {
            return false;
        }
        i += BLOCK;
    }
    let differ_last = differing(a, b, last);
    if differ_last != 0 {
        return false;
    }
    true
}
