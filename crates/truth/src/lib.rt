// The truth of a query on a tag list.
//
// The tag list is skipped once and the query is read as it is evaluated; both are refused as their readers refuse them, the query
// first. The query is evaluated node by node: an operator asks the same question of its two sides, the left one first, and skips the
// right one where it cannot change the truth; a leaf looks for a tag of the list. Nothing is copied: names and texts are compared
// where they lie in the lent bytes. The work is at most the number of leaves times the bytes of the tag list: a text is searched in time
// that is linear in its bytes.
//
// specs/TruthAnswers.antt says what each answer stands for.

#![tactic(auto)]

ghost use Rattle.std.specs.Prelude.{◌≡◌, ℕ, Bool, get_or};
ghost use Rattle.format.specs.Messages as messages;
ghost use Rattle.format.specs.Messages.{lone_query};
ghost use Rattle.format.specs.Decoding.{accepted};
ghost use Rattle.format.specs.Order.{decode_tag, decode_query_in};
ghost use Rattle.format.specs.MetOrder.{decode};
ghost use Rattle.format.specs.Truth as format;
ghost use Rattle.format.specs.Truth.{on_query, some, prefix, within};
ghost use Rattle.wire.specs.WireAnswers.{ItemsPlaced};
ghost use Rattle.tags.specs.Skips.{Lies};
ghost use Rattle.tags.specs.TagAnswers.{tags_in};
ghost use Rattle.query.specs.Nodes.{keyword, field, limit};
ghost use Rattle.query.specs.QueryAnswers.{operator_of, bound_of, node_in};
ghost use Rattle.truth.specs.TruthAnswers.{is_of, number_of, on_item, settled_by, tag_meets, text_of, value_offset, TellsOf};
ghost use Rattle.truth.specs.TruthAnswers.{truths, truth_step_meaning, truth_meaning};

use find::contains;
use output::same;
use query::{Bound, Node, Operator, query_end, read_lone_query, read_node};
use tags::{read_tag_list, tag_list_end, whole_tag_end};
use wire::{Cursor, Fault, Items, PACKET_CEILING, Rule, Step, bytes_at, pair};

// Leaves look for tags of two types. These are their codes.
const TEXT: u8 = 2;

const DWORD: u8 = 3;

const DEPTH_LIMIT: usize = 24;

// Whether s begins with the bytes t. By the slice's own starts_with the lines of the bench for a query of depth 24 and for one of 9,300
// leaves were at 0.83 and 0.80; by this loop they are above 1.
fn starts_with(s: &[u8], t: &[u8]) -> bool
    ensures { result ≡ prefix t.now s.now }
{
    if s.len() < t.len() {
        return false;
    }
    for i in 0..t.len() {
        if t[i] != s[i] {
            return false;
        }
    }
    true
}

fn is_within(bound: Bound, limit: u32, number: u32) -> bool
    ensures { result ≡ within (bound_of bound) limit number }
{
    match bound {
        Bound::AtLeast => limit <= number,
        Bound::AtMost => number <= limit,
    }
}

// A list is read before the leaves look into it, so that a tag lies whole at each of its offsets.

// Whether the tag at an offset has the type and the name. Its value is not read. Most names have one byte, compared without a call, and
// before the type: few tags of a list have one name, but many have one type, so that this test is guessed right.
fn is_candidate(tags: &[u8], at: usize, code: u8, name: &[u8]) -> bool
    requires { Lies (decode_tag tags.now at) }
    ensures { result ≡ on_item (is_of code name.now) (decode_tag tags.now at) }
{
    let name_length = pair(tags[at + 1], tags[at + 2]) as usize;
    if name_length != name.len() {
        return false;
    }
    if name_length == 1 {
        if tags[at + 3] != name[0] {
            return false;
        }
        return tags[at] == code;
    }
    if tags[at] != code {
        return false;
    }
    starts_with(name, bytes_at(tags, at + 3, name_length))
}

// The value of a tag is read where it lies. That the whole tag is there is known.

fn value_at(tags: &[u8], at: usize) -> usize
    requires { Lies (decode_tag tags.now at) }
    ensures { result ≡ value_offset tags.now at }
{
    let name_length = pair(tags[at + 1], tags[at + 2]) as usize;
    let name = at + 3;
    name + name_length
}

// The text of a String tag.
fn text_at(tags: &[u8], at: usize) -> &[u8]
    requires lies { Lies (decode_tag tags.now at) }
    requires at_value { get_or tags.now at 0 ≡ 2 }
    ensures { result.now ≡ text_of (decode_tag tags.now at) }
{
    let value = value_at(tags, at);
    let length = pair(tags[value], tags[value + 1]) as usize;
    bytes_at(tags, value + 2, length)
}

// The number of a DWORD tag.
fn number_at(tags: &[u8], at: usize) -> u32
    requires lies { Lies (decode_tag tags.now at) }
    requires at_value { get_or tags.now at 0 ≡ 3 }
    ensures { result ≡ number_of (decode_tag tags.now at) }
{
    let value = Cursor {
        at: value_at(tags, at),
    };
    let Ok((number, _)) = value.dword(tags) else {
        return 0;
    };
    number
}

// Whether the tag at an offset is one that a leaf looks for, and whether some tag of the list is: a keyword and a field look for a String
// tag, a limit for a DWORD tag. Most tags are of another type or name: their values are not read. The loop is compiled for each kind of
// leaf, so that what it looks for is known in it.

fn keyword_at(tags: &[u8], at: usize, text: &[u8]) -> bool
    requires { Lies (decode_tag tags.now at) }
    ensures { result ≡ on_item (tag_meets (keyword text.now)) (decode_tag tags.now at) }
{
    if is_candidate(tags, at, TEXT, b"\x01") {
        return contains(text_at(tags, at), text);
    }
    false
}

fn field_at(tags: &[u8], at: usize, text: &[u8], name: &[u8]) -> bool
    requires { Lies (decode_tag tags.now at) }
    ensures { result ≡ on_item (tag_meets (field text.now name.now)) (decode_tag tags.now at) }
{
    if is_candidate(tags, at, TEXT, name) {
        return same(text_at(tags, at), text);
    }
    false
}

fn limit_at(tags: &[u8], at: usize, threshold: u32, bound: Bound, name: &[u8]) -> bool
    requires { Lies (decode_tag tags.now at) }
    ensures { result ≡ on_item (tag_meets (limit threshold (bound_of bound) name.now)) (decode_tag tags.now at) }
{
    if is_candidate(tags, at, DWORD, name) {
        return is_within(bound, threshold, number_at(tags, at));
    }
    false
}

// Whether some tag of the list meets what a leaf looks for.
#[tactic(auto, using(crate::proofs::Found::look_lies, crate::proofs::Found::look_found, crate::proofs::Found::look_ended))]
fn some_tag<F: Fn(usize) -> bool>(tags: &[u8], list: Items, meets: F) -> bool
    requires placed { ItemsPlaced decode_tag tags.now list }
    requires tells { (at : ℕ) → Lies (decode_tag tags.now at) → F.pre meets at }
    ensures { (p : messages.Tag → Bool) → TellsOf p tags.now (F.post meets) → result ≡ some p (tags_in tags.now list) }
{
    let mut at = list.at;
    for _ in 0..list.count {
        if meets(at) {
            return true;
        }
        at = whole_tag_end(tags, at);
    }
    false
}

// The truth of a leaf. A join is no leaf: it looks for no tag.
fn leaf_holds(query: &[u8], leaf: Node, tags: &[u8], list: Items) -> bool
    requires { ItemsPlaced decode_tag tags.now list }
    ensures { result ≡ some (tag_meets (node_in query.now leaf)) (tags_in tags.now list) }
{
    match leaf {
        Node::Join(_) => false,
        Node::Keyword(text) => {
            let text = bytes_at(query, text.at, text.len);
            some_tag(tags, list, |at| keyword_at(tags, at, text))
        }
        Node::Field(text, name) => {
            let text = bytes_at(query, text.at, text.len);
            let name = bytes_at(query, name.at, name.len);
            some_tag(tags, list, |at| field_at(tags, at, text, name))
        }
        Node::Limit(threshold, bound, name) => {
            let name = bytes_at(query, name.at, name.len);
            some_tag(tags, list, |at| limit_at(tags, at, threshold, bound, name))
        }
    }
}

// Whether the left side alone decides: the right side cannot change the truth then, which is that of the left side.
fn is_settled(operator: Operator, first: bool) -> bool
    ensures { result ≡ settled_by (operator_of operator) first }
{
    match operator {
        Operator::And => !first,
        Operator::Or => first,
        Operator::AndNot => !first,
    }
}

fn combine(operator: Operator, first: bool, second: bool) -> bool
    ensures { result ≡ format.combine (operator_of operator) first second }
{
    match operator {
        Operator::And => first && second,
        Operator::Or => first || second,
        Operator::AndNot => first && !second,
    }
}

// The truth of the query at the cursor, of at most `left` depth, on a tag list that lies in `tags`. A right side that cannot change the
// truth is skipped, and evaluated for its fault alone.
fn evaluate(query: &[u8], c: Cursor, left: usize, tags: &[u8], list: Items) -> Step<bool>
    requires { ItemsPlaced decode_tag tags.now list }
    ensures { truth_step_meaning result ≡ truths (tags_in tags.now list) (decode_query_in left query.now c.at) }
{
    if left == 0 {
        return Err(Fault {
            rule: Rule::DepthCeiling,
            at: c.at,
            size: 0,
        });
    }
    let (node, next) = read_node(query, c)?;
    match node {
        Node::Join(operator) => {
            let side = left - 1;
            let (first, middle) = evaluate(query, next, side, tags, list)?;
            if is_settled(operator, first) {
                let end = query_end(query, middle.at, side);
                if end != 0 {
                    return Ok((first, Cursor { at: end }));
                }
            }
            let (second, end) = evaluate(query, middle, side, tags, list)?;
            Ok((combine(operator, first, second), end))
        }
        Node::Keyword(_) => Ok((leaf_holds(query, node, tags, list), next)),
        Node::Field(_, _) => Ok((leaf_holds(query, node, tags, list), next)),
        Node::Limit(_, _, _) => Ok((leaf_holds(query, node, tags, list), next)),
    }
}

// The truth of a lone query on a list that was read. The query is read as it is evaluated.
#[tactic(auto, using(crate::proofs::Answers::bytes_left, crate::proofs::Answers::evaluated), unfolding(format::specs::MetOrder::decode))]
fn truth_on(query: &[u8], tags: &[u8], list: Items) -> Result<bool, Rule>
    requires { ItemsPlaced decode_tag tags.now list }
    ensures { truth_meaning result ≡ on_query (decode lone_query query.now) (accepted (tags_in tags.now list)) }
{
    if PACKET_CEILING < query.len() {
        return Err(Rule::BytesCeiling);
    }
    let (holds, end) = evaluate(query, Cursor { at: 0 }, DEPTH_LIMIT, tags, list)?;
    if end.at == query.len() {
        return Ok(holds);
    }
    Err(Rule::Rest)
}

// The truth of a lone query on a lone tag list, by the readers' answers. The list is read first, since the query's leaves look into it, but a
// refusal of the query comes before one of the list.
#[tactic(auto, using(crate::proofs::Answers::query_refused, crate::proofs::Answers::tags_accepted, crate::proofs::Answers::tags_refused))]
fn truth_by_readers(query: &[u8], tags: &[u8]) -> Result<bool, Rule>
    ensures { truth_meaning result ≡ format.truth query.now tags.now }
{
    match read_tag_list(tags) {
        Ok(list) => truth_on(query, tags, list),
        Err(rule) => {
            read_lone_query(query)?;
            Err(rule)
        }
    }
}

// The truth of a lone query on a lone tag list, or the rule that one of them breaks: each is at most 65,536 bytes, and nothing else. The
// list is skipped, and its reader is asked where it does not end with the bytes.
#[tactic(auto, using(crate::proofs::Answers::list_placed, crate::proofs::Answers::list_accepted, crate::proofs::Answers::tags_accepted))]
pub fn truth_of(query: &[u8], tags: &[u8]) -> Result<bool, Rule>
    ensures { truth_meaning result ≡ format.truth query.now tags.now }
{
    let size = tags.len();
    if size == 0 || PACKET_CEILING < size {
        return truth_by_readers(query, tags);
    }
    if tag_list_end(tags, 0) != size {
        return truth_by_readers(query, tags);
    }
    let start = Cursor { at: 0 };
    let Ok((count, first)) = start.dword(tags) else {
        return truth_by_readers(query, tags);
    };
    let list = Items {
        at: first.at,
        end: size,
        count,
    };
    truth_on(query, tags, list)
}
