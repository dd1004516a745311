// Search queries: the nodes of a query one by one, a whole query by its place, and the lone query.
//
// A query is a leaf (a keyword, a field or a limit), or a join: an operator and two queries, its sides. None of this is copied: a
// query is answered as the place where it lies, with its depth, and a caller that wants its parts reads the node at that place.
//
// specs/Nodes.antt takes a query apart in the format's terms, specs/QueryAnswers.antt says what each answer stands for.

#![tactic(auto)]

ghost use Rattle.std.specs.Prelude.{◌≡◌, ◌↔◌, max, ◌+◌, ◌-◌, ◌≤◌, ◌<◌, length};
ghost use Rattle.format.specs.Messages as messages;
ghost use Rattle.format.specs.Layout.{encode_query, operator_code, bound_code};
ghost use Rattle.format.specs.Rules.{Valid, packet_ceiling, depth_limit};
ghost use Rattle.format.specs.Decoding.{message, reply};
ghost use Rattle.format.specs.Order.{decode_name, is_join, is_limit, decode_case, decode_query_in, decode_query};
ghost use Rattle.format.specs.MetOrder.{decode};
ghost use Rattle.query.specs.Nodes.{decode_node_of, decode_node, decode_leaf, depths};
ghost use Rattle.query.specs.Skips.{Passes, Spans, offset_after, places, end_in, depth_in};
ghost use Rattle.query.specs.QueryAnswers.{operator_of, bound_of, depth_meaning, query_meaning, query_reply, QueryStepPlaced, QueryAnswerPlaced};

use wire::{Cursor, Fault, PACKET_CEILING, Place, Rule, Step};

mod reading;

pub use reading::{read_bound, read_node, read_operator_code};

const DEPTH_LIMIT: usize = 24;

// More than there are places in a packet.
const PLACES: usize = 4294967296;

#[derive(Clone, Copy)]
pub enum Operator {
    And,
    Or,
    AndNot,
}

impl From<Operator> for u8 {
    ghost from_gives = { λ operator code. code ≡ operator_code (operator_of operator) };

    fn from(operator: Operator) -> u8 {
        match operator {
            Operator::And => 0,
            Operator::Or => 1,
            Operator::AndNot => 2,
        }
    }
}

// Document 01's min and max.
#[derive(Clone, Copy)]
pub enum Bound {
    AtLeast,
    AtMost,
}

impl From<Bound> for u8 {
    ghost from_gives = { λ bound code. code ≡ bound_code (bound_of bound) };

    fn from(bound: Bound) -> u8 {
        match bound {
            Bound::AtLeast => 1,
            Bound::AtMost => 2,
        }
    }
}

// The first byte of a query and what stands after it. The two sides of a join are queries of their own: they follow.
#[derive(Clone, Copy)]
pub enum Node {
    Join(Operator),
    Keyword(Place),
    Field(Place, Place),
    Limit(u32, Bound, Place),
}

// The place of a query in the lent bytes, and its depth: 1 for a leaf, one more than its deeper side for a join.
#[derive(Clone, Copy)]
pub struct Query {
    pub at: usize,
    pub end: usize,
    pub depth: usize,
}

// The leaf at the cursor: its depth, and the cursor after it.
#[tactic(auto, unfolding(crate::specs::Nodes::decode_leaf))]
fn read_leaf(s: &[u8], c: Cursor) -> Step<usize>
    ensures { depth_meaning result ≡ decode_leaf s.now c.at }
{
    let (_, next) = read_node(s, c)?;
    Ok((1, next))
}

// A query of at most `left` depth: its own depth, and the cursor after it. One that would begin below `left` is refused before its
// first byte is read. A query asks for the reading of its operator, an operator for that of two queries with one less left, one
// after the other, so every byte is read once and the calls are at most as deep as `left`, whatever the bytes are.
#[tactic(auto, using(crate::proofs::Nodes::query_case, crate::proofs::Depths::depth_leaf), unfolding(crate::specs::Nodes::depths, format::specs::Order::decode_query_in, format::specs::Order::decode_code))]
#[cycle(read_operator_read_query_in)]
pub fn read_query_in(s: &[u8], c: Cursor, left: usize) -> Step<usize>
    ensures { depth_meaning result ≡ depths (decode_query_in left s.now c.at) }
{
    if left == 0 {
        return Err(Fault {
            rule: Rule::DepthCeiling,
            at: c.at,
            size: 0,
        });
    }
    let (code, next) = c.byte(s)?;
    if code == 0 {
        return read_operator(s, next, left);
    }
    read_leaf(s, c)
}

// The operator and the two sides of a join of at most `left` depth: the depth of the join, and the cursor after it.
#[tactic(auto, using(crate::proofs::Depths::depth_join, crate::proofs::Depths::within_depths))]
#[cycle(read_operator_read_query_in)]
fn read_operator(s: &[u8], c: Cursor, left: usize) -> Step<usize>
    requires { 0 < left }
    ensures { depth_meaning result ≡ depths (decode_case (decode_query_in (left - 1)) is_join s.now c.at) }
{
    let (_, first) = read_operator_code(s, c)?;
    let side = left - 1;
    let (m, second) = read_query_in(s, first, side)?;
    let (n, end) = read_query_in(s, second, side)?;
    let depth = m.max(n) + 1;
    Ok((depth, end))
}

// To skip a query that is accepted needs neither a fault nor the places of its texts. Each function below answers with one number, in
// a register, where the answers of readers are handed over in memory; or with 0 where its tests do not decide: nothing ends at 0.

#[tactic(auto, using(crate::proofs::Skips::name_ends))]
fn name_end(s: &[u8], at: usize) -> usize
    requires { at ≤ length s.now }
    ensures { Passes decode_name s.now at result }
{
    let room = s.len() - at;
    if room < 2 {
        return 0;
    }
    let high = s[at + 1];
    if high != 0 {
        return 0;
    }
    let low = s[at];
    if low == 0 {
        return 0;
    }
    let n = low as usize;
    if room - 2 < n {
        return 0;
    }
    at + 2 + n
}

fn limit_end(s: &[u8], at: usize) -> usize
    requires { at ≤ length s.now }
    ensures { Passes (decode_node_of is_limit) s.now at result }
{
    if s.len() - at < 5 {
        return 0;
    }
    let bound = s[at + 4];
    if bound == 0 {
        return 0;
    }
    if 2 < bound {
        return 0;
    }
    name_end(s, at + 5)
}

fn leaf_end(s: &[u8], at: usize) -> usize
    ensures { Passes decode_node s.now at result }
{
    if s.len() < 3 {
        return 0;
    }
    if s.len() - 3 < at {
        return 0;
    }
    let code = s[at];
    if code == 3 {
        return limit_end(s, at + 1);
    }
    let n = wire::pair(s[at + 1], s[at + 2]) as usize;
    let text = at + 3;
    if s.len() - text < n {
        return 0;
    }
    let end = text + n;
    if code == 1 {
        return end;
    }
    if code != 2 {
        return 0;
    }
    name_end(s, end)
}

// The extent of a query: the offset after it and its depth, in one number. The place is the low half, which is reported in no time: the next
// query waits for it.
fn extent(end: usize, depth: usize) -> usize
    requires end_lt_places { end < places }
    requires depth_lt_places { depth < places }
    ensures { (end_in result ≡ end) × (depth_in result ≡ depth) }
{
    end + PLACES * depth
}

fn end_of(extent: usize) -> usize
    ensures { result ≡ end_in extent }
{
    extent % PLACES
}

fn depth_of(extent: usize) -> usize
    ensures { result ≡ depth_in extent }
{
    extent / PLACES
}

// The extent of a join, by those of its sides.
fn join_extent(first: usize, second: usize) -> usize
    requires first_bound { depth_in first < depth_limit }
    requires second_bound { depth_in second < depth_limit }
    ensures { (end_in result ≡ end_in second) × (depth_in result ≡ max (depth_in first) (depth_in second) + 1) }
{
    let depth = depth_of(first).max(depth_of(second)) + 1;
    extent(end_of(second), depth)
}

// A query of at most `left` depth is skipped in the form in which it is read: by its operator, and an operator by two queries.
#[cycle(operator_extent_query_extent)]
fn query_extent(s: &[u8], at: usize, left: usize) -> usize
    requires s_len_bound { length s.now ≤ packet_ceiling }
    requires left_le_depth_limit { left ≤ depth_limit }
    ensures { Spans (depths (decode_query_in left s.now at)) result }
{
    if left == 0 {
        return 0;
    }
    if s.len() <= at {
        return 0;
    }
    let code = s[at];
    if code == 0 {
        return operator_extent(s, at + 1, left);
    }
    let end = leaf_end(s, at);
    if end == 0 {
        return 0;
    }
    extent(end, 1)
}

#[cycle(operator_extent_query_extent)]
fn operator_extent(s: &[u8], at: usize, left: usize) -> usize
    requires s_len_bound { length s.now ≤ packet_ceiling }
    requires left_nonzero { (0 < left) × (left ≤ depth_limit) }
    ensures { Spans (depths (decode_case (decode_query_in (left - 1)) is_join s.now at)) result }
{
    if s.len() <= at {
        return 0;
    }
    let operator = s[at];
    if 2 < operator {
        return 0;
    }
    let side = left - 1;
    let first = query_extent(s, at + 1, side);
    if first == 0 {
        return 0;
    }
    let second = query_extent(s, end_of(first), side);
    if second == 0 {
        return 0;
    }
    join_extent(first, second)
}

// Of more bytes than a packet has, or below more depth than a query has, nothing is reported: an extent may have no room for it.
fn extent_in(s: &[u8], at: usize, left: usize) -> usize
    ensures { Spans (depths (decode_query_in left s.now at)) result }
{
    if PACKET_CEILING < s.len() {
        return 0;
    }
    if DEPTH_LIMIT < left {
        return 0;
    }
    query_extent(s, at, left)
}

// The offset after a query of at most `left` depth, 0 for one that is refused: for a caller that needs nothing else of it. It is skipped,
// and read where the tests do not decide.
#[tactic(auto, using(crate::proofs::Skips::depths_after, crate::proofs::Skips::span_after))]
pub fn query_end(s: &[u8], at: usize, left: usize) -> usize
    ensures { result ≡ offset_after (decode_query_in left s.now at) }
{
    let found = extent_in(s, at, left);
    if found != 0 {
        return end_of(found);
    }
    let Ok((_, next)) = read_query_in(s, Cursor { at }, left) else {
        return 0;
    };
    next.at
}

// A query as packets hold it. It is skipped, and read for its fault where its tests do not decide.
#[tactic(auto, using(crate::proofs::Depths::depths_query, crate::proofs::Depths::depths_refused), unfolding(format::specs::Order::decode_query))]
pub fn read_query(s: &[u8], c: Cursor) -> Step<Query>
    ensures meaning { query_meaning s.now result ≡ decode_query s.now c.at }
    ensures placed { QueryStepPlaced s.now result }
{
    let at = c.at;
    let found = extent_in(s, at, DEPTH_LIMIT);
    if found != 0 {
        let end = end_of(found);
        let depth = depth_of(found);
        return Ok((Query { at, end, depth }, Cursor { at: end }));
    }
    let (depth, next) = read_query_in(s, c, DEPTH_LIMIT)?;
    let end = next.at;
    Ok((Query { at, end, depth }, next))
}

// The lent bytes as one query: the byte ceiling first, then the query, then that nothing is left after it. `demand3` says that
// exactly the bytes of a valid query are accepted, and that it is that query.
pub fn read_lone_query(s: &[u8]) -> Result<Query, Rule>
    ensures meaning { query_reply s.now result ≡ reply (decode messages.lone_query s.now) }
    ensures placed { QueryAnswerPlaced s.now result }
    ensures demand3 { (m : messages.Query) →
        (query_reply s.now result ≡ message m) ↔ ((s.now ≡ encode_query m) × Valid messages.lone_query m) }
{
    if PACKET_CEILING < s.len() {
        return Err(Rule::BytesCeiling);
    }
    let (query, next) = read_query(s, Cursor { at: 0 })?;
    if next.at == s.len() {
        return Ok(query);
    }
    Err(Rule::Rest)
}
