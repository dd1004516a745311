// The writers of known.met and server.met, and of single entries.
//
// A file is given by its offsets in the lent bytes `src`, as the readers return it. Its lists are read again from their first
// item on, and their bytes are copied; the end that a list gives is not read. Everything is checked and
// the size is known before the first store, so a refusal leaves the output as it was.
//
// specs/MetWrites.antt says what must be encoded at the offsets of a file. The functions that measure and put pieces of a file are
// also for the writer of part.met; those that put require that their caller has checked the room before.

#![tactic(auto)]

ghost use Rattle.std.specs.Prelude.{◌≡◌, ◌++◌, ◌+◌, ◌≤◌, Ok, length};
ghost use Rattle.format.specs.Messages.{known_met, server_met};
ghost use Rattle.format.specs.Layout.{byte, dword, word, encode_file_entry, encode_server_entry};
ghost use Rattle.format.specs.Decoding.{got};
ghost use Rattle.format.specs.Order.{decode_hash, decode_tag};
ghost use Rattle.format.specs.MetOrder.{decode_file_entry, decode_server_entry};
ghost use Rattle.format.specs.Writing.{overwritten};
ghost use Rattle.met.specs.MetAnswers.{file_entry_in, server_entry_in, known_met_in, server_met_in};
ghost use Rattle.write_items.specs.There.{hash_there, items_there};
ghost use Rattle.output.specs.WriteAnswers.{answered, number_of};
ghost use Rattle.format.specs.RoundTrip.{RoundTrip, WritesAt};
ghost use Rattle.write_met.specs.MetWrites.{server_entry_there, known_there, server_there};
ghost use Rattle.write_met.specs.Lengths.{length_meaning, items_end, EndsAfter, EntryMeaning, entry_head, spec_opening_number};
ghost use Rattle.write_met.specs.MetEntries.{spec_write_file_entry, spec_write_server_entry};

use met::{
    FileEntry, KnownMet, MET_CEILING, ServerEntry, ServerMet, file_entries_from,
    server_entries_from,
};
use output::{Refusal, Written, copy, put_byte, put_dword, put_word};
use records::hashes_from;
use wire::{Cursor, Fault, Items, Step, bytes_at};
use write_items::{put_list, tags_end};

// The byte that opens known.met and server.met.
const MET_OPENING: u8 = 0x0E;

// The most part hashes that their count field, a WORD, holds.
pub const PARTS_MOST: u32 = 65535;

// What the byte ceiling leaves after the opening byte and the count of the entries.
const ENTRIES_CEILING: usize = MET_CEILING - 5;

const HASH_BYTES: usize = 16;

// The length of a list that was read from `at` on.
pub fn length_from(at: usize, read: Step<Items>) -> Result<usize, Fault>
    requires { EndsAfter at read }
    ensures { length_meaning at result ≡ items_end read }
{
    let (_, next) = read?;
    Ok(next.at - at)
}

fn file_entries_length(s: &[u8], list: Items) -> Result<usize, Fault>
    ensures { length_meaning list.at result ≡ items_there decode_file_entry s.now list }
{
    let at = list.at;
    length_from(at, file_entries_from(s, Cursor { at }, list.count))
}

fn server_entries_length(s: &[u8], list: Items) -> Result<usize, Fault>
    ensures { length_meaning list.at result ≡ items_there decode_server_entry s.now list }
{
    let at = list.at;
    length_from(at, server_entries_from(s, Cursor { at }, list.count))
}

pub fn hashes_length(s: &[u8], list: Items) -> Result<usize, Fault>
    ensures { length_meaning list.at result ≡ items_there decode_hash s.now list }
{
    let at = list.at;
    length_from(at, hashes_from(s, Cursor { at }, list.count))
}

pub fn tags_length(s: &[u8], list: Items) -> Result<usize, Fault>
    ensures { length_meaning list.at result ≡ items_there decode_tag s.now list }
{
    let at = list.at;
    let next = tags_end(s, Cursor { at }, list.count)?;
    Ok(next.at - at)
}

// A WORD count, and after it the bytes of that many hashes.
fn put_hashes(out: &mut [u8], count: u16, hashes: &[u8]) -> usize
    requires { 2 + length hashes.now ≤ length out.old }
    ensures written { result ≡ 2 + length hashes.now }
    ensures output { out.new ≡ overwritten (word count ++ hashes.now) out.old }
{
    put_word(out, count);
    copy(&mut out[2..], hashes);
    2 + hashes.len()
}

// Entries

// How many bytes the part hashes and the tags have.
pub fn file_entry_lengths(s: &[u8], file: FileEntry) -> Result<(usize, usize), Fault>
    ensures { EntryMeaning s.now file result }
{
    let cursor = Cursor { at: file.hash };
    cursor.hash(s)?;
    let parts_len = hashes_length(s, file.parts)?;
    let tags_len = tags_length(s, file.tags)?;
    Ok((parts_len, tags_len))
}

// The date, the hash and the part hashes of an entry; these have `parts_len` bytes.
fn put_entry_head(out: &mut [u8], src: &[u8], file: FileEntry, parts_len: usize) -> usize
    requires { (got tt (file.hash + 16) ≡ hash_there src.now file.hash) × (got tt (file.parts.at + parts_len) ≡ items_there decode_hash src.now file.parts)
        × (file.parts.count ≤ 65535) × (22 + parts_len ≤ length out.old) }
    ensures written { result ≡ 22 + parts_len }
    ensures output { out.new ≡ overwritten (entry_head src.now file parts_len) out.old }
{
    let parts = file.parts;
    put_dword(out, file.date);
    copy(&mut out[4..], bytes_at(src, file.hash, HASH_BYTES));
    let wrote = put_hashes(
        &mut out[20..],
        parts.count as u16,
        bytes_at(src, parts.at, parts_len),
    );
    20 + wrote
}

// An entry of known.met, whose part hashes have `parts_len` bytes and whose tags have `tags_len`.
pub fn put_file_entry(
    out: &mut [u8],
    src: &[u8],
    file: FileEntry,
    parts_len: usize,
    tags_len: usize,
) -> usize
    requires { EntryMeaning src.now file (Ok (parts_len, tags_len)) × (file.parts.count ≤ 65535) × (26 + parts_len + tags_len ≤ length out.old) }
    ensures written { result ≡ 26 + parts_len + tags_len }
    ensures output { out.new ≡ overwritten (encode_file_entry (file_entry_in src.now file)) out.old }
{
    let tags = file.tags;
    let at = put_entry_head(out, src, file, parts_len);
    let wrote = put_list(&mut out[at..], tags.count, bytes_at(src, tags.at, tags_len));
    at + wrote
}

// One entry of known.met, for files that a caller composes. An entry alone has no byte ceiling.
pub fn write_file_entry(src: &[u8], file: FileEntry, out: &mut [u8]) -> Written
    ensures { answered result out.new ≡ spec_write_file_entry src.now file out.old }
{
    let (parts_len, tags_len) = file_entry_lengths(src, file)?;
    let parts = file.parts;
    if PARTS_MOST < parts.count {
        return Err(Refusal::Limit);
    }
    if out.len() < 26 + parts_len {
        return Err(Refusal::Room);
    }
    if out.len() - (26 + parts_len) < tags_len {
        return Err(Refusal::Room);
    }
    Ok(put_file_entry(out, src, file, parts_len, tags_len))
}

// An entry of server.met, whose tags have `tags_len` bytes.
fn put_server_entry(out: &mut [u8], src: &[u8], server: ServerEntry, tags_len: usize) -> usize
    requires { (got tt (server.tags.at + tags_len) ≡ server_entry_there src.now server) × (10 + tags_len ≤ length out.old) }
    ensures written { result ≡ 10 + tags_len }
    ensures output { out.new ≡ overwritten (encode_server_entry (server_entry_in src.now server)) out.old }
{
    let tags = server.tags;
    put_dword(out, server.ip);
    put_word(&mut out[4..], server.port);
    let wrote = put_list(&mut out[6..], tags.count, bytes_at(src, tags.at, tags_len));
    6 + wrote
}

// One entry of server.met.
pub fn write_server_entry(src: &[u8], server: ServerEntry, out: &mut [u8]) -> Written
    ensures { answered result out.new ≡ spec_write_server_entry src.now server out.old }
{
    let tags_len = tags_length(src, server.tags)?;
    if out.len() < 10 {
        return Err(Refusal::Room);
    }
    if out.len() - 10 < tags_len {
        return Err(Refusal::Room);
    }
    Ok(put_server_entry(out, src, server, tags_len))
}

// known.met and server.met

// The check of a file of `5 + size` bytes, apart from the room.
#[tactic(auto, unfolding(crate::specs::Lengths::spec_opening_number))]
fn check_opening(opening: u8, size: usize) -> Result<(), Refusal>
    ensures { number_of result ≡ spec_opening_number opening (5 + size) }
{
    if ENTRIES_CEILING < size {
        return Err(Refusal::Limit);
    }
    if opening == MET_OPENING {
        Ok(())
    } else {
        Err(Refusal::Opening)
    }
}

// The opening byte and the entries.
fn put_entries(out: &mut [u8], opening: u8, count: u32, entries: &[u8]) -> usize
    requires { 5 + length entries.now ≤ length out.old }
    ensures written { result ≡ 5 + length entries.now }
    ensures output { out.new ≡ overwritten (byte opening ++ (dword count ++ entries.now)) out.old }
{
    put_byte(out, opening);
    let wrote = put_list(&mut out[1..], count, entries);
    1 + wrote
}

// The known.met whose entries are encoded at an offset of `src`.
pub fn write_known_met(src: &[u8], known: KnownMet, out: &mut [u8]) -> Written
    ensures writes { WritesAt known_met (known_there src.now known) (known_met_in src.now known) out.old
        (answered result out.new) }
    ensures round { RoundTrip known_met (known_there src.now known) (known_met_in src.now known) out.old
        (answered result out.new) }
{
    let entries = known.entries;
    let size = file_entries_length(src, entries)?;
    check_opening(known.opening, size)?;
    if out.len() < 5 + size {
        return Err(Refusal::Room);
    }
    let items = bytes_at(src, entries.at, size);
    Ok(put_entries(out, known.opening, entries.count, items))
}

fn put_server_met(out: &mut [u8], opening: u8, count: u32, entries: &[u8], tail: &[u8]) -> usize
    requires { 5 + (length entries.now + length tail.now) ≤ length out.old }
    ensures written { result ≡ 5 + (length entries.now + length tail.now) }
    ensures output { out.new
        ≡ overwritten ((byte opening ++ (dword count ++ entries.now)) ++ tail.now) out.old }
{
    let at = put_entries(out, opening, count, entries);
    copy(&mut out[at..], tail);
    at + tail.len()
}

// The server.met whose entries and tail are encoded at offsets of `src`.
pub fn write_server_met(src: &[u8], server: ServerMet, out: &mut [u8]) -> Written
    ensures writes { WritesAt server_met (server_there src.now server) (server_met_in src.now server) out.old
        (answered result out.new) }
    ensures round { RoundTrip server_met (server_there src.now server) (server_met_in src.now server) out.old
        (answered result out.new) }
{
    let entries = server.entries;
    let size = server_entries_length(src, entries)?;
    let tail = server.tail;
    let cursor = Cursor { at: tail.at };
    cursor.run(src, tail.len)?;
    let rest = size + tail.len;
    check_opening(server.opening, rest)?;
    if out.len() < 5 + rest {
        return Err(Refusal::Room);
    }
    let items = bytes_at(src, entries.at, size);
    let tail_bytes = bytes_at(src, tail.at, tail.len);
    Ok(put_server_met(out, server.opening, entries.count, items, tail_bytes))
}
