// The worked cases of document 01 that are run and compared, and markings in both orders (02, No. 12): each prints one line.

#![tactic(auto)]

ghost use Rattle.std.specs.Prelude.{◌≡◌, ◌+◌, ◌≤◌, ◌<◌, IfOk};
ghost use Rattle.format.specs.Gaps.{size_limit};
ghost use Rattle.gaps.specs.Marking.{marked, mark_meaning};
ghost use Rattle.test_cases.specs.Orders.{MarkedInBothOrders, tallied};

use gaps::{Gap, GapRecord, Marked, Unmarked, all_missing, mark, mark_in_place};
use met::{block_count, part_count};
use output::Refusal;
use query::read_lone_query;
use std::io;

fn say(rt: &impl Print, words: &str, n: u64) -> io::Result<()> {
    println!(rt; "{words}{n}")
}

fn show_query(rt: &impl Print, bytes: &[u8]) -> io::Result<()> {
    match read_lone_query(bytes) {
        Ok(q) => say(rt, "query of depth ", q.depth as u64),
        Err(rule) => say(rt, "query refused ", rule.number() as u64),
    }
}

// The two search filters printed in source document 003: audio files, and "filename" with format "txt", of 1 to 5678 bytes.
fn show_filters(rt: &impl Print) -> io::Result<()> {
    show_query(
        rt,
        b"\x00\x00\x00\x00\x00\x00\x01\x04\x00file\
        \x02\x05\x00audio\x01\x00\x03\
        \x03\xD2\x04\x00\x00\x01\x01\x00\x02\
        \x03.\x16\x00\x00\x02\x01\x00\x02",
    )?;
    show_query(
        rt,
        b"\x00\x00\x00\x00\x00\x00\x01\x08\x00filename\
        \x02\x03\x00txt\x01\x00\x04\
        \x03\x01\x00\x00\x00\x01\x01\x00\x02\
        \x03.\x16\x00\x00\x02\x01\x00\x02",
    )
}

// Operators one inside the other, each over the keyword "a" and the next: depth 24, and one operator more.
fn show_depths(rt: &impl Print) -> io::Result<()> {
    show_query(
        rt,
        b"\x00\x00\x01\x01\x00a\x00\x00\x01\x01\x00a\x00\x00\x01\x01\x00a\x00\x00\x01\x01\x00a\
        \x00\x00\x01\x01\x00a\x00\x00\x01\x01\x00a\x00\x00\x01\x01\x00a\x00\x00\x01\x01\x00a\
        \x00\x00\x01\x01\x00a\x00\x00\x01\x01\x00a\x00\x00\x01\x01\x00a\x00\x00\x01\x01\x00a\
        \x00\x00\x01\x01\x00a\x00\x00\x01\x01\x00a\x00\x00\x01\x01\x00a\x00\x00\x01\x01\x00a\
        \x00\x00\x01\x01\x00a\x00\x00\x01\x01\x00a\x00\x00\x01\x01\x00a\x00\x00\x01\x01\x00a\
        \x00\x00\x01\x01\x00a\x00\x00\x01\x01\x00a\x00\x00\x01\x01\x00a\
        \x01\x01\x00a",
    )?;
    show_query(
        rt,
        b"\x00\x00\x01\x01\x00a\x00\x00\x01\x01\x00a\x00\x00\x01\x01\x00a\x00\x00\x01\x01\x00a\
        \x00\x00\x01\x01\x00a\x00\x00\x01\x01\x00a\x00\x00\x01\x01\x00a\x00\x00\x01\x01\x00a\
        \x00\x00\x01\x01\x00a\x00\x00\x01\x01\x00a\x00\x00\x01\x01\x00a\x00\x00\x01\x01\x00a\
        \x00\x00\x01\x01\x00a\x00\x00\x01\x01\x00a\x00\x00\x01\x01\x00a\x00\x00\x01\x01\x00a\
        \x00\x00\x01\x01\x00a\x00\x00\x01\x01\x00a\x00\x00\x01\x01\x00a\x00\x00\x01\x01\x00a\
        \x00\x00\x01\x01\x00a\x00\x00\x01\x01\x00a\x00\x00\x01\x01\x00a\x00\x00\x01\x01\x00a\
        \x01\x01\x00a",
    )
}

// The record after a marking: on a refusal the one that is handed back.
fn record_after(answer: Result<Marked, Unmarked>) -> GapRecord
    ensures { result ≡ (mark_meaning answer).after }
{
    match answer {
        Ok(marked) => marked.after,
        Err(unmarked) => unmarked.given,
    }
}

// Prints the number of an answer to a marking: 0 where it is accepted.
fn show_answer(
    rt: &impl Print,
    words: &str,
    start: u64,
    end: u64,
    answer: Result<u64, Refusal>,
) -> io::Result<()> {
    let number = answer.err().map_or(0, |refusal| refusal.number());
    print!(rt; "{words}{start} to {end}: answer {number}")
}

// Marks a range, and prints the number of the answer, how many gaps are left and how many bytes are missing.
fn show_mark(rt: &impl Print, g: GapRecord, start: u64, end: u64) -> io::Result<GapRecord> {
    let answer = mark(g, start, end);
    let after = record_after(answer);
    let missing = answer
        .map(|marked| marked.missing)
        .map_err(|unmarked| unmarked.refusal);
    show_answer(rt, "mark ", start, end, missing)?;
    print!(rt; ", gaps {}", after.count)?;
    say(rt, ", missing ", missing.unwrap_or(0))?;
    Ok(after)
}

fn show_gap(rt: &impl Print, g: GapRecord, i: usize) -> io::Result<()> {
    if i < 64 {
        let gap = g.gaps[i];
        print!(rt; "gap {}", gap.start)?;
        say(rt, " to ", gap.end)?;
    }
    Ok(())
}

fn show_in_place(
    rt: &impl Print,
    answer: Result<u64, Refusal>,
    start: u64,
    end: u64,
) -> io::Result<()> {
    show_answer(rt, "mark in place ", start, end, answer)?;
    say(rt, ", missing ", answer.unwrap_or(0))
}

// Marks a range of a record that is lent to the marking call, and hands the record back as the call left it.
fn mark_lent(rt: &impl Print, mut g: GapRecord, start: u64, end: u64) -> io::Result<GapRecord>
    ensures { IfOk result (λ after. after ≡ (marked size_limit g start end).after) }
{
    let answer = mark_in_place(&mut g, start, end);
    show_in_place(rt, answer, start, end)?;
    Ok(g)
}

fn show_same(rt: &impl Print, a: GapRecord, b: GapRecord) -> io::Result<()> {
    if a == b {
        println!(rt; "the record is equal")
    } else {
        println!(rt; "the record differs")
    }
}

// A file of 640 bytes of which every tenth has arrived: 64 gaps.
fn many_gaps() -> GapRecord {
    let mut record = all_missing(640);
    for at in (9..640).step_by(10) {
        record = record_after(mark(record, at, at + 1));
    }
    record
}

// The marking in place: a refusal leaves the record equal.
fn show_lent(rt: &impl Print) -> io::Result<()> {
    let halves = mark_lent(rt, all_missing(100), 40, 60)?;
    show_gap(rt, halves, 0)?;
    show_gap(rt, halves, 1)?;
    show_same(rt, halves, mark_lent(rt, halves, 60, 60)?)?;
    let full = many_gaps();
    say(rt, "gaps ", full.count as u64)?;
    show_same(rt, full, mark_lent(rt, full, 3, 4)?)
}

// Two markings in each order: the answers of all four calls.
#[derive(Clone, Copy)]
struct Markings {
    first: Result<Marked, Unmarked>,
    one: Result<Marked, Unmarked>,
    second: Result<Marked, Unmarked>,
    other: Result<Marked, Unmarked>,
}

fn mark_both(given: GapRecord, a: Gap, b: Gap) -> Markings
    ensures { MarkedInBothOrders given a b result }
{
    let first = mark(given, a.start, a.end);
    let one = mark(record_after(first), b.start, b.end);
    let second = mark(given, b.start, b.end);
    let other = mark(record_after(second), a.start, a.end);
    Markings {
        first,
        one,
        second,
        other,
    }
}

// What came of a pair of ranges: a call was refused, or none was, and the last answers are equal or differ.
#[derive(Clone, Copy)]
enum Pair {
    Refused,
    Equal,
    Differs,
}

fn compare_orders(given: GapRecord, first: Gap, second: Gap) -> Pair {
    let both = mark_both(given, first, second);
    let (Ok(_), Ok(one), Ok(_), Ok(other)) = (both.first, both.one, both.second, both.other) else {
        return Pair::Refused;
    };
    if one == other {
        return Pair::Equal;
    }
    Pair::Differs
}

// Numbers that look random lie below this one.
const RANDOM_END: u64 = 2147483648;

// The size of the files whose ranges and gaps are drawn, and how many pairs of ranges are.
const DRAWN_SIZE: u64 = 640;

const PAIRS: u64 = 5000;

// Each number is made of the one before it. The lowest bits of such numbers repeat soon, so those that draw take the others.
fn next_random(random: u64) -> u64
    ensures { result < 2147483648 }
{
    (random % RANDOM_END * 1103515245 + 12345) % RANDOM_END
}

// A range that begins in the file; the end of some lies past that of the file, and they are refused.
fn random_range(random: u64, length: u64) -> Gap
    requires { length ≤ 640 }
{
    let start = random / 1024 % DRAWN_SIZE;
    Gap {
        start,
        end: start + length,
    }
}

// Marks a range of up to three bytes. One that would leave too many gaps is refused.
fn mark_random(given: GapRecord, random: u64) -> GapRecord {
    let range = random_range(random, random / 512 % 3 + 1);
    record_after(mark(given, range.start, range.end))
}

// A file of which up to 128 such ranges have arrived.
fn random_record(random: u64) -> GapRecord {
    let mut record = all_missing(DRAWN_SIZE);
    let mut next = random;
    for _ in 0..random / 1024 % 129 {
        next = next_random(next);
        record = mark_random(record, next);
    }
    record
}

fn random_pair(random: u64) -> Pair {
    let one = next_random(random);
    let other = next_random(one);
    let first = random_range(one, one / 512 % 40 + 1);
    let second = random_range(other, other / 512 % 40 + 1);
    compare_orders(random_record(other), first, second)
}

// How many pairs were marked with no refusal in either order, and how many of them left the same record and the same count.
#[derive(Clone, Copy)]
struct Tally {
    accepted: u64,
    equal: u64,
}

fn add_pair(tally: Tally, pair: Pair) -> Tally
    requires { (tally.accepted < 5000) × (tally.equal < 5000) }
    ensures { (result ≡ tallied tally pair) × (result.accepted ≤ tally.accepted + 1) × (result.equal ≤ tally.equal + 1) }
{
    let accepted = tally.accepted;
    let equal = tally.equal;
    match pair {
        Pair::Refused => Tally { accepted, equal },
        Pair::Equal => Tally {
            accepted: accepted + 1,
            equal: equal + 1,
        },
        Pair::Differs => Tally {
            accepted: accepted + 1,
            equal,
        },
    }
}

// Ranges and records that are drawn at random.
fn show_pairs(rt: &impl Print) -> io::Result<()> {
    let mut tally = Tally {
        accepted: 0,
        equal: 0,
    };
    let mut random = 1;
    for _ in 0..PAIRS {
        random = next_random(random);
        tally = add_pair(tally, random_pair(random));
    }
    say(rt, "pairs of ranges ", PAIRS)?;
    say(rt, "pairs with no refusal in either order ", tally.accepted)?;
    say(
        rt,
        "pairs that leave the same in either order ",
        tally.equal,
    )
}

// In place too: the second order leaves the record of the first.
fn show_lent_orders(rt: &impl Print) -> io::Result<()> {
    let whole = all_missing(100);
    let one = mark_lent(rt, mark_lent(rt, whole, 10, 30)?, 20, 50)?;
    show_same(
        rt,
        one,
        mark_lent(rt, mark_lent(rt, whole, 20, 50)?, 10, 30)?,
    )
}

// Why no call may be refused: at 64 gaps the first range makes one too many, unless the second has taken a whole gap away before.
fn show_refused_order(rt: &impl Print) -> io::Result<()> {
    let full = many_gaps();
    let one = show_mark(rt, show_mark(rt, full, 3, 4)?, 10, 19)?;
    show_same(rt, one, show_mark(rt, show_mark(rt, full, 10, 19)?, 3, 4)?)
}

// How many part hashes and block hashes a file of a size has.
fn show_size(rt: &impl Print, size: u32) -> io::Result<()> {
    print!(rt; "size {size}: parts {}", part_count(size))?;
    say(rt, ", blocks ", block_count(size) as u64)
}

fn main(rt: HostRuntime) -> io::Result<()> {
    show_filters(&rt)?;
    show_depths(&rt)?;
    show_size(&rt, 0)?;
    show_size(&rt, 972800)?;
    show_size(&rt, 9728000)?;
    show_size(&rt, 9728001)?;
    show_size(&rt, 4294967295)?;
    let whole = all_missing(100);
    let halves = show_mark(&rt, whole, 40, 60)?;
    show_gap(&rt, halves, 0)?;
    show_gap(&rt, halves, 1)?;
    show_gap(&rt, halves, 2)?;
    let same = show_mark(&rt, halves, 60, 60)?;
    let beyond = show_mark(&rt, same, 60, 101)?;
    let first = show_mark(&rt, beyond, 0, 50)?;
    show_gap(&rt, first, 0)?;
    show_mark(&rt, first, 0, 100)?;
    show_lent(&rt)?;
    show_lent_orders(&rt)?;
    show_refused_order(&rt)?;
    show_pairs(&rt)
}
