// Tags and tag lists.
//
// A tag is a type byte, a name and a value; a tag list is a DWORD count and the tags. The readers copy nothing: a name and a
// text are byte ranges of the lent bytes, a hash is the offset of its bytes, and a list is the range of its tags and their
// number. A caller scans a list by `read_tag` from its start on, which returns the cursor after each tag.
//
// specs/TagAnswers.antt says what each answer stands for.

#![tactic(auto)]

ghost use Rattle.std.specs.Prelude.{◌≡◌, List, ◌↔◌, ◌+◌, ◌*◌, get_or};
ghost use Rattle.format.specs.Messages as messages;
ghost use Rattle.format.specs.Messages.{lone_tags};
ghost use Rattle.format.specs.Layout.{encode_tags};
ghost use Rattle.format.specs.Rules.{Valid};
ghost use Rattle.format.specs.Decoding.{decode_many, ends, got, reply, message};
ghost use Rattle.format.specs.Order.{decode_type, decode_value, decode_tag, decode_tags};
ghost use Rattle.format.specs.MetOrder.{decode};
ghost use Rattle.wire.specs.WireAnswers.{items_meaning, ItemsStepPlaced, ItemsStepInside};
ghost use Rattle.tags.specs.TagAnswers.{type_of, type_meaning, value_meaning, ValueStepInside, tag_meaning, TagStepInside, tag_list_reply, TagListPlaced};
ghost use Rattle.tags.specs.Skips.{EndsThere, Lies, spec_own_size, offset_after, spec_text_size};

use wire::{Cursor, Fault, Items, PACKET_CEILING, Place, Rule, Step, items_from, pair};

#[derive(Clone, Copy)]
pub enum TagType {
    Hash,
    Text,
    Dword,
    Float,
}

// The value of a tag. A hash is the offset of its 16 bytes; a FLOAT is kept as its bits.
#[derive(Clone, Copy)]
pub enum TagValue {
    Hash(usize),
    Text(Place),
    Dword(u32),
    Float(u32),
}

// A name of one byte is a published special tag; the others are texts. Names are reported apart by their bytes alone.
#[derive(Clone, Copy)]
pub struct Tag {
    pub name_at: usize,
    pub name_len: usize,
    pub value: TagValue,
}

#[tactic(auto, unfolding(format::specs::Order::decode_type, format::specs::Order::decode_code))]
pub fn read_type(s: &[u8], c: Cursor) -> Step<TagType>
    ensures { type_meaning result ≡ decode_type s.now c.at }
{
    let (code, next) = c.byte(s)?;
    match code {
        1 => Ok((TagType::Hash, next)),
        2 => Ok((TagType::Text, next)),
        3 => Ok((TagType::Dword, next)),
        4 => Ok((TagType::Float, next)),
        _ => Err(Fault {
            rule: Rule::Choice,
            at: c.at,
            size: 1,
        }),
    }
}

// A value of a type that was read before the name.
pub fn read_value(s: &[u8], c: Cursor, tag_type: TagType) -> Step<TagValue>
    ensures result_value { value_meaning s.now result ≡ decode_value (type_of tag_type) s.now c.at }
    ensures inside { ValueStepInside s.now result }
{
    match tag_type {
        TagType::Hash => {
            let (at, next) = c.hash(s)?;
            Ok((TagValue::Hash(at), next))
        }
        TagType::Text => {
            let (text, next) = c.string(s)?;
            Ok((TagValue::Text(text), next))
        }
        TagType::Dword => {
            let (value, next) = c.dword(s)?;
            Ok((TagValue::Dword(value), next))
        }
        TagType::Float => {
            let (bits, next) = c.dword(s)?;
            Ok((TagValue::Float(bits), next))
        }
    }
}

#[tactic(auto, unfolding(format::specs::Order::decode_tag))]
pub fn read_tag(s: &[u8], c: Cursor) -> Step<Tag>
    ensures result_value { tag_meaning s.now result ≡ decode_tag s.now c.at }
    ensures inside { TagStepInside s.now result }
{
    let (tag_type, after_type) = read_type(s, c)?;
    let (name, after_name) = after_type.name(s)?;
    let (value, next) = read_value(s, after_name, tag_type)?;
    Ok((
        Tag {
            name_at: name.at,
            name_len: name.len,
            value,
        },
        next,
    ))
}

// To skip tags without their values takes a few tests and no step of the cursor. Each function below returns the offset after what
// lies whole at an offset, or 0 where its tests do not tell: nothing ends at 0.

// The codes of types that are told apart to skip a tag, and the last code of all.
const HASH_CODE: u8 = 1;

const TEXT_CODE: u8 = 2;

const LAST_CODE: u8 = 4;

// How many bytes a tag has beside its name and a text: its type, the length of its name, and of its value 16 bytes, 4, or the length of a
// text. No tag has fewer than one with a text.
const HASH_TAG: usize = 19;

const NUMBER_TAG: usize = 7;

const TEXT_TAG: usize = 5;

fn own_size(code: u8) -> usize
    ensures { result ≡ spec_own_size code }
{
    if code == TEXT_CODE {
        return TEXT_TAG;
    }
    if code == HASH_CODE {
        HASH_TAG
    } else {
        NUMBER_TAG
    }
}

// How many bytes a text has, if the value is one: these are its first two.
fn text_size(code: u8, low: u8, high: u8) -> usize
    ensures { result ≡ spec_text_size code (low + 256 * high) }
{
    if code == TEXT_CODE {
        pair(low, high) as usize
    } else {
        0
    }
}

// The offset after a tag that is read for the first time. There is no jump by the type or by the length of the name, which would often be
// guessed wrong in a list of many types and names: the sizes are chosen by conditional moves, and every test fails for a refused tag alone.
// The bytes of a text are added last, since their number is known last.
fn tag_end(s: &[u8], at: usize) -> usize
    ensures { EndsThere (ends (decode_tag s.now at)) result }
{
    if s.len() < TEXT_TAG {
        return 0;
    }
    if s.len() - TEXT_TAG < at {
        return 0;
    }
    let code = s[at];
    let name_len = s[at + 1] as usize;
    if s.len() - TEXT_TAG - at < name_len {
        return 0;
    }
    if s[at + 2] != 0 {
        return 0;
    }
    if name_len == 0 {
        return 0;
    }
    if code == 0 {
        return 0;
    }
    if LAST_CODE < code {
        return 0;
    }
    let value = at + 3 + name_len;
    let before_text = at + name_len + own_size(code);
    let end = before_text + text_size(code, s[value], s[value + 1]);
    if s.len() < end {
        return 0;
    }
    end
}

// The offset after the whole tag at `at`, whose name has `name_len` bytes.
fn named_tag_end(s: &[u8], at: usize, name_len: usize) -> usize
    requires lies { Lies (decode_tag s.now at) }
    requires name_len_value { name_len ≡ get_or s.now (at + 1) 0 + 256 * get_or s.now (at + 2) 0 }
    ensures { ends (decode_tag s.now at) ≡ got tt result }
{
    let name = at + 3;
    let value = name + name_len;
    let code = s[at];
    if code == TEXT_CODE {
        let text_len = pair(s[value], s[value + 1]) as usize;
        let text = value + 2;
        return text + text_len;
    }
    if code == HASH_CODE {
        return value + 16;
    }
    value + 4
}

// The offset after the tag at `at`, which was read before. Unlike tag_end it jumps by the type: a list that was read before may be scanned
// many times, once for each leaf of a query, so that these jumps are guessed right, and the next tag is begun before the length of this
// one's text is read.
pub fn whole_tag_end(s: &[u8], at: usize) -> usize
    requires { Lies (decode_tag s.now at) }
    ensures { ends (decode_tag s.now at) ≡ got tt result }
{
    let name_len = pair(s[at + 1], s[at + 2]) as usize;
    named_tag_end(s, at, name_len)
}

// The offset after a tag, by reading it; 0 for one that is refused. It stands apart so that tag_after is short enough to be put into the
// loops that call it.
fn read_tag_after(s: &[u8], at: usize) -> usize
    ensures { result ≡ offset_after (decode_tag s.now at) }
{
    let Ok((_, next)) = read_tag(s, Cursor { at }) else {
        return 0;
    };
    next.at
}

// The offset after a tag; 0 for one that is refused.
pub fn tag_after(s: &[u8], at: usize) -> usize
    ensures { result ≡ offset_after (decode_tag s.now at) }
{
    let end = tag_end(s, at);
    if end != 0 {
        return end;
    }
    read_tag_after(s, at)
}

// Tags one after the other, as many as counted.
fn tags_end(s: &[u8], at: usize, count: u32) -> usize
    ensures { EndsThere (ends (decode_many count decode_tag s.now at)) result }
{
    let mut next = at;
    for _ in 0..count {
        let end = tag_end(s, next);
        if end == 0 {
            return 0;
        }
        next = end;
    }
    next
}

// Tags one after the other, each read by itself. A count that is too high ends at the first missing tag.
fn tag_by_tag(s: &[u8], first: Cursor, count: u32) -> Step<Items>
    ensures meaning { items_meaning decode_tag s.now result ≡ decode_many count decode_tag s.now first.at }
    ensures placed { ItemsStepPlaced decode_tag s.now result }
{
    items_from(first, count, |c| read_tag(s, c))
}

// Tags one after the other, as many as counted. Every tag is skipped, so that the list returned is known to lie there whole. Where the
// tests do not tell, the tags are read again one by one for the fault.
pub fn tags_from(s: &[u8], first: Cursor, count: u32) -> Step<Items>
    ensures meaning { items_meaning decode_tag s.now result ≡ decode_many count decode_tag s.now first.at }
    ensures placed { ItemsStepPlaced decode_tag s.now result }
{
    let at = first.at;
    let end = tags_end(s, at, count);
    if end == 0 {
        return tag_by_tag(s, first, count);
    }
    Ok((Items { at, end, count }, Cursor { at: end }))
}

// The offset after a tag list; 0 for one that is refused.
#[tactic(auto, unfolding(format::specs::Order::decode_tags, format::specs::Order::decode_counted))]
pub fn tag_list_end(s: &[u8], at: usize) -> usize
    ensures { result ≡ offset_after (decode_tags s.now at) }
{
    let c = Cursor { at };
    let Ok((count, first)) = c.dword(s) else {
        return 0;
    };
    let end = tags_end(s, first.at, count);
    if end != 0 {
        return end;
    }
    let Ok((_, next)) = tag_by_tag(s, first, count) else {
        return 0;
    };
    next.at
}

// A tag list: DWORD count, then the tags.
#[tactic(auto, unfolding(format::specs::Order::decode_tags, format::specs::Order::decode_counted))]
pub fn read_tags(s: &[u8], c: Cursor) -> Step<Items>
    ensures result_value { items_meaning decode_tag s.now result ≡ decode_tags s.now c.at }
    ensures placed { ItemsStepInside decode_tag s.now result }
{
    let (count, first) = c.dword(s)?;
    tags_from(s, first, count)
}

// A lone tag list: at most 65,536 bytes that are one tag list and nothing else. By the last clause it is accepted exactly
// when some valid tags have these bytes as their encoding, and then as these tags.
pub fn read_tag_list(s: &[u8]) -> Result<Items, Rule>
    ensures result_value { tag_list_reply s.now result ≡ reply (decode lone_tags s.now) }
    ensures placed { TagListPlaced s.now result }
    ensures exact { (m : List messages.Tag) →
        (tag_list_reply s.now result ≡ message m) ↔ ((s.now ≡ encode_tags m) × Valid lone_tags m) }
{
    if PACKET_CEILING < s.len() {
        return Err(Rule::BytesCeiling);
    }
    let (list, next) = read_tags(s, Cursor { at: 0 })?;
    let end = next.at;
    if end == s.len() {
        return Ok(list);
    }
    Err(Rule::Rest)
}
