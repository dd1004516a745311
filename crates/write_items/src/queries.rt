// Lone queries: from their pieces, and as they are encoded in the lent bytes.
ghost use Rattle.std.specs.Prelude.{◌≡◌, ◌++◌, suc, max, ◌+◌, ◌≤◌, length};
ghost use Rattle.format.specs.Messages.{keyword, field, limit, lone_query};
ghost use Rattle.format.specs.Layout.{byte, operator_code, encode_query};
ghost use Rattle.format.specs.Decoding.{ends};
ghost use Rattle.format.specs.Order.{decode_query};
ghost use Rattle.format.specs.MetOrder.{decode};
ghost use Rattle.format.specs.Writing.{StringFits, overwritten};
ghost use Rattle.format.specs.RoundTrip.{RoundTrip, WritesAt};
ghost use Rattle.output.specs.WriteAnswers.{answered, number_of};
ghost use Rattle.query.specs.QueryAnswers.{bound_of, operator_of, query_in};
ghost use Rattle.write_items.specs.There.{no_places};
ghost use Rattle.write_items.specs.Writers.{join_of, sides_there};
ghost use Rattle.write_items.specs.Numbers.{spec_keyword_number, spec_field_number, spec_limit_number, spec_join_number};

use crate::{PACKET_CEILING, WORD_MOST, check_name};
use output::{Refusal, Written};
use query::{Bound, Operator, Query};
use wire::Cursor;

// The bytes that the cases of a query begin with.
const JOIN: u8 = 0;

const KEYWORD: u8 = 1;

const FIELD: u8 = 2;

const BOUNDED: u8 = 3;

// The deepest query of document 01.
const DEPTH_LIMIT: usize = 24;

// What the byte ceiling leaves for the sides of a join after its two bytes.
const SIDES_CEILING: usize = PACKET_CEILING - 2;

// The checks of pieces that have these lengths, in the order of document 01; the writers check the room after them.

#[tactic(auto, unfolding(crate::specs::Numbers::spec_keyword_number))]
fn check_keyword(text: usize) -> Result<(), Refusal>
    ensures { number_of result ≡ spec_keyword_number text }
{
    if WORD_MOST < text {
        return Err(Refusal::Limit);
    }
    if PACKET_CEILING < 3 + text {
        Err(Refusal::Limit)
    } else {
        Ok(())
    }
}

#[tactic(auto, unfolding(crate::specs::Numbers::spec_field_number))]
fn check_field(text: usize, name: usize) -> Result<(), Refusal>
    ensures { number_of result ≡ spec_field_number text name }
{
    if WORD_MOST < text {
        return Err(Refusal::Limit);
    }
    if WORD_MOST < name {
        return Err(Refusal::Limit);
    }
    if PACKET_CEILING < 5 + text + name {
        return Err(Refusal::Limit);
    }
    check_name(name)
}

#[tactic(auto, unfolding(crate::specs::Numbers::spec_limit_number))]
fn check_limit(name: usize) -> Result<(), Refusal>
    ensures { number_of result ≡ spec_limit_number name }
{
    if WORD_MOST < name {
        return Err(Refusal::Limit);
    }
    if PACKET_CEILING < 8 + name {
        return Err(Refusal::Limit);
    }
    check_name(name)
}

// The pieces of a query, at the front of what is lent. Each returns how many bytes it wrote.

fn put_keyword(out: &mut [u8], text: &[u8]) -> usize
    requires { StringFits text.now × (3 + length text.now ≤ length out.old) }
    ensures written { result ≡ 3 + length text.now }
    ensures output { out.new ≡ overwritten (encode_query (keyword text.now)) out.old }
{
    output::put_byte(out, KEYWORD);
    let wrote = output::put_string(&mut out[1..], text);
    1 + wrote
}

fn put_field(out: &mut [u8], text: &[u8], name: &[u8]) -> usize
    requires { StringFits text.now × StringFits name.now × (5 + length text.now + length name.now ≤ length out.old) }
    ensures written { result ≡ 5 + length text.now + length name.now }
    ensures output { out.new ≡ overwritten (encode_query (field text.now name.now)) out.old }
{
    output::put_byte(out, FIELD);
    let text_size = output::put_string(&mut out[1..], text);
    let at = 1 + text_size;
    let name_size = output::put_string(&mut out[at..], name);
    at + name_size
}

fn put_limit(out: &mut [u8], value: u32, bound: Bound, name: &[u8]) -> usize
    requires { StringFits name.now × (8 + length name.now ≤ length out.old) }
    ensures written { result ≡ 8 + length name.now }
    ensures output { out.new ≡ overwritten (encode_query (limit value (bound_of bound) name.now)) out.old }
{
    let code = u8::from(bound);
    output::put_byte(out, BOUNDED);
    output::put_dword(&mut out[1..], value);
    output::put_byte(&mut out[5..], code);
    let wrote = output::put_string(&mut out[6..], name);
    6 + wrote
}

// A lone query that is a keyword.
pub fn write_keyword(text: &[u8], out: &mut [u8]) -> Written
    ensures writes { WritesAt lone_query no_places (keyword text.now)
        out.old (answered result out.new) }
    ensures round { RoundTrip lone_query no_places (keyword text.now)
        out.old (answered result out.new) }
{
    check_keyword(text.len())?;
    if out.len() < 3 + text.len() {
        return Err(Refusal::Room);
    }
    Ok(put_keyword(out, text))
}

// A lone query that is a field: a text and the name of the tag that must equal it.
pub fn write_field(text: &[u8], name: &[u8], out: &mut [u8]) -> Written
    ensures writes { WritesAt lone_query no_places (field text.now name.now)
        out.old (answered result out.new) }
    ensures round { RoundTrip lone_query no_places (field text.now name.now)
        out.old (answered result out.new) }
{
    check_field(text.len(), name.len())?;
    if out.len() < 5 + text.len() + name.len() {
        return Err(Refusal::Room);
    }
    Ok(put_field(out, text, name))
}

// A lone query that is a limit: a number, whether it is the least or the most, and the name of the tag that must keep to it.
pub fn write_limit(value: u32, bound: Bound, name: &[u8], out: &mut [u8]) -> Written
    ensures writes { WritesAt lone_query no_places (limit value (bound_of bound) name.now)
        out.old (answered result out.new) }
    ensures round { RoundTrip lone_query no_places (limit value (bound_of bound) name.now)
        out.old (answered result out.new) }
{
    check_limit(name.len())?;
    if out.len() < 8 + name.len() {
        return Err(Refusal::Room);
    }
    Ok(put_limit(out, value, bound, name))
}

// The check of a join of two queries that have these sizes and depths.
#[tactic(auto, unfolding(crate::specs::Numbers::spec_join_number))]
fn check_join(
    left: usize,
    right: usize,
    left_depth: usize,
    right_depth: usize,
) -> Result<(), Refusal>
    ensures { number_of result ≡ spec_join_number (2 + left + right) (suc (max left_depth right_depth)) }
{
    if SIDES_CEILING < left {
        return Err(Refusal::Limit);
    }
    if SIDES_CEILING - left < right {
        return Err(Refusal::Limit);
    }
    if DEPTH_LIMIT <= left_depth {
        return Err(Refusal::Limit);
    }
    if DEPTH_LIMIT <= right_depth {
        Err(Refusal::Limit)
    } else {
        Ok(())
    }
}

fn put_join(out: &mut [u8], operator: Operator, left: &[u8], right: &[u8]) -> usize
    requires { 2 + length left.now + length right.now ≤ length out.old }
    ensures written { result ≡ 2 + length left.now + length right.now }
    ensures output { out.new ≡
        overwritten (byte 0 ++ (byte (operator_code (operator_of operator)) ++ (left.now ++ right.now))) out.old }
{
    let code = u8::from(operator);
    output::put_byte(out, JOIN);
    output::put_byte(&mut out[1..], code);
    output::copy(&mut out[2..], left);
    let at = 2 + left.len();
    output::copy(&mut out[at..], right);
    at + right.len()
}

// A lone query that joins two lone queries, given as their bytes. A side that is no lone query is refused with its own number, the
// left one first; then the join is checked like any other query.
pub fn write_join(operator: Operator, left: &[u8], right: &[u8], out: &mut [u8]) -> Written
    ensures writes { WritesAt lone_query (sides_there (decode lone_query left.now) (decode lone_query right.now))
        (join_of (operator_of operator) (decode lone_query left.now) (decode lone_query right.now))
        out.old (answered result out.new) }
    ensures round { RoundTrip lone_query (sides_there (decode lone_query left.now) (decode lone_query right.now))
        (join_of (operator_of operator) (decode lone_query left.now) (decode lone_query right.now))
        out.old (answered result out.new) }
{
    let left_query = query::read_lone_query(left)?;
    let right_query = query::read_lone_query(right)?;
    check_join(left.len(), right.len(), left_query.depth, right_query.depth)?;
    if out.len() < 2 + left.len() + right.len() {
        return Err(Refusal::Room);
    }
    Ok(put_join(out, operator, left, right))
}

// The lone query that is encoded at an offset of `src`, as the readers return it. It is read again, and its bytes are copied.
pub fn write_query(src: &[u8], q: Query, out: &mut [u8]) -> Written
    ensures writes { WritesAt lone_query (ends (decode_query src.now q.at)) (query_in src.now q)
        out.old (answered result out.new) }
    ensures round { RoundTrip lone_query (ends (decode_query src.now q.at)) (query_in src.now q)
        out.old (answered result out.new) }
{
    let at = q.at;
    let (_, next) = query::read_query(src, Cursor { at })?;
    let size = next.at - at;
    if PACKET_CEILING < size {
        return Err(Refusal::Limit);
    }
    if out.len() < size {
        return Err(Refusal::Room);
    }
    let bytes = wire::bytes_at(src, at, size);
    output::copy(out, bytes);
    Ok(size)
}
