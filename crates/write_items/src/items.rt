// Strings, names and single tags, for lists that a caller composes. They have no byte ceiling.
ghost use Rattle.std.specs.Prelude.{◌≡◌, ◌++◌, ◌+◌, ◌≤◌, length};
ghost use Rattle.format.specs.Messages.{string_type, dword_type, float_type, hash_type};
ghost use Rattle.format.specs.Layout.{byte, dword, encode_name, encode_string};
ghost use Rattle.format.specs.Order.{decode_name, decode_string};
ghost use Rattle.format.specs.Writing.{StringFits, overwritten, written_into};
ghost use Rattle.wire.specs.WireAnswers.{hash_at};
ghost use Rattle.output.specs.WriteAnswers.{answered, number_of};
ghost use Rattle.write_items.specs.There.{hash_there, no_places};
ghost use Rattle.write_items.specs.Item.{WritesItem, WritesTag, tag_of};
ghost use Rattle.write_items.specs.Numbers.{count_number, spec_tag_number, tried};

use crate::{WORD_MOST, check_name};
use output::{Refusal, Written};
use wire::Cursor;

// The codes of the types of tags.
const HASH_TYPE: u8 = 1;

const STRING_TYPE: u8 = 2;

const DWORD_TYPE: u8 = 3;

const FLOAT_TYPE: u8 = 4;

const HASH_BYTES: usize = 16;

fn check_string(text: usize) -> Result<(), Refusal>
    ensures { number_of result ≡ count_number text 0 }
{
    if WORD_MOST < text {
        Err(Refusal::Limit)
    } else {
        Ok(())
    }
}

#[tactic(auto, unfolding(crate::specs::Numbers::spec_tag_number))]
fn check_tag(name: usize, text: usize) -> Result<(), Refusal>
    ensures { number_of result ≡ spec_tag_number name text }
{
    if WORD_MOST < name {
        return Err(Refusal::Limit);
    }
    if WORD_MOST < text {
        return Err(Refusal::Limit);
    }
    check_name(name)
}

// The String of a text whose length is checked.
fn write_text(text: &[u8], out: &mut [u8]) -> Written
    requires { StringFits text.now }
    ensures { answered result out.new ≡ written_into (encode_string text.now) out.old }
{
    if out.len() < 2 + text.len() {
        return Err(Refusal::Room);
    }
    Ok(output::put_string(out, text))
}

// A String: the WORD of its length and its bytes.
pub fn write_string(text: &[u8], out: &mut [u8]) -> Written
    ensures { WritesItem StringFits encode_string decode_string no_places text.now
        out.old (answered result out.new) }
{
    check_string(text.len())?;
    write_text(text, out)
}

// A name: encoded as a String, of 1 to 255 bytes.
pub fn write_name(name: &[u8], out: &mut [u8]) -> Written
    ensures { WritesItem StringFits encode_name decode_name no_places name.now
        out.old (answered result out.new) }
{
    check_tag(name.len(), 0)?;
    write_text(name, out)
}

// The type and the name of a tag.
fn put_tag_head(out: &mut [u8], code: u8, name: &[u8]) -> usize
    requires { StringFits name.now × (3 + length name.now ≤ length out.old) }
    ensures written { result ≡ 3 + length name.now }
    ensures output { out.new ≡ overwritten (byte code ++ encode_name name.now) out.old }
{
    output::put_byte(out, code);
    let wrote = output::put_string(&mut out[1..], name);
    1 + wrote
}

fn put_number_tag(out: &mut [u8], code: u8, name: &[u8], value: u32) -> usize
    requires { StringFits name.now × (7 + length name.now ≤ length out.old) }
    ensures written { result ≡ 7 + length name.now }
    ensures output { out.new ≡ overwritten (byte code ++ (encode_name name.now ++ dword value)) out.old }
{
    let at = put_tag_head(out, code, name);
    output::put_dword(&mut out[at..], value);
    at + 4
}

fn put_text_tag(out: &mut [u8], name: &[u8], text: &[u8]) -> usize
    requires { StringFits name.now × StringFits text.now × (5 + length name.now + length text.now ≤ length out.old) }
    ensures written { result ≡ 5 + length name.now + length text.now }
    ensures output { out.new ≡ overwritten (byte 2 ++ (encode_name name.now ++ encode_string text.now)) out.old }
{
    let at = put_tag_head(out, STRING_TYPE, name);
    let wrote = output::put_string(&mut out[at..], text);
    at + wrote
}

// A String tag.
pub fn write_text_tag(name: &[u8], text: &[u8], out: &mut [u8]) -> Written
    ensures { WritesTag no_places (tag_of name.now string_type text.now)
        out.old (answered result out.new) }
{
    check_tag(name.len(), text.len())?;
    if out.len() < 5 + name.len() + text.len() {
        return Err(Refusal::Room);
    }
    Ok(put_text_tag(out, name, text))
}

// A tag that holds 4 bytes, of the type with this code.
fn write_number_tag(name: &[u8], code: u8, value: u32, out: &mut [u8]) -> Written
    ensures { answered result out.new ≡
        tried (spec_tag_number (length name.now) 0) (byte code ++ (encode_name name.now ++ dword value)) out.old }
{
    check_tag(name.len(), 0)?;
    if out.len() < 7 + name.len() {
        return Err(Refusal::Room);
    }
    Ok(put_number_tag(out, code, name, value))
}

// A DWORD tag.
pub fn write_dword_tag(name: &[u8], value: u32, out: &mut [u8]) -> Written
    ensures { WritesTag no_places (tag_of name.now dword_type value)
        out.old (answered result out.new) }
{
    write_number_tag(name, DWORD_TYPE, value, out)
}

// A FLOAT tag, given as its bits.
pub fn write_float_tag(name: &[u8], bits: u32, out: &mut [u8]) -> Written
    ensures { WritesTag no_places (tag_of name.now float_type bits)
        out.old (answered result out.new) }
{
    write_number_tag(name, FLOAT_TYPE, bits, out)
}

fn put_hash_tag(out: &mut [u8], name: &[u8], hash: &[u8]) -> usize
    requires { StringFits name.now × (length hash.now ≡ 16) × (19 + length name.now ≤ length out.old) }
    ensures written { result ≡ 19 + length name.now }
    ensures output { out.new ≡ overwritten (byte 1 ++ (encode_name name.now ++ hash.now)) out.old }
{
    let at = put_tag_head(out, HASH_TYPE, name);
    output::copy(&mut out[at..], hash);
    at + HASH_BYTES
}

// A HASH tag. The hash is the 16 bytes at an offset of `src`; where they end too early, the number is that of their own reading.
pub fn write_hash_tag(name: &[u8], src: &[u8], at: usize, out: &mut [u8]) -> Written
    ensures { WritesTag (hash_there src.now at) (tag_of name.now hash_type (hash_at src.now at))
        out.old (answered result out.new) }
{
    let cursor = Cursor { at };
    cursor.hash(src)?;
    check_tag(name.len(), 0)?;
    if out.len() < 19 + name.len() {
        return Err(Refusal::Room);
    }
    let hash = wire::bytes_at(src, at, HASH_BYTES);
    Ok(put_hash_tag(out, name, hash))
}
