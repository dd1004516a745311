// The node at an offset: the first byte of a query and what stands after it, up to the sides of a join.
ghost use Rattle.std.specs.Prelude.{◌≡◌};
ghost use Rattle.format.specs.Order.{decode_code, operators, bounds, is_join, is_keyword, is_field, is_limit};
ghost use Rattle.query.specs.Nodes.{decode_node_of, decode_node};
ghost use Rattle.query.specs.QueryAnswers.{operator_meaning, bound_meaning, node_meaning, NodeStepInside};

use crate::{Bound, Node, Operator};
use wire::{Cursor, Fault, Rule, Step};

#[tactic(auto, unfolding(format::specs::Order::decode_code))]
pub fn read_operator_code(s: &[u8], c: Cursor) -> Step<Operator>
    ensures { operator_meaning result ≡ decode_code operators s.now c.at }
{
    let (code, next) = c.byte(s)?;
    match code {
        0 => Ok((Operator::And, next)),
        1 => Ok((Operator::Or, next)),
        2 => Ok((Operator::AndNot, next)),
        _ => Err(Fault {
            rule: Rule::Choice,
            at: c.at,
            size: 1,
        }),
    }
}

#[tactic(auto, unfolding(format::specs::Order::decode_code))]
pub fn read_bound(s: &[u8], c: Cursor) -> Step<Bound>
    ensures { bound_meaning result ≡ decode_code bounds s.now c.at }
{
    let (code, next) = c.byte(s)?;
    match code {
        1 => Ok((Bound::AtLeast, next)),
        2 => Ok((Bound::AtMost, next)),
        _ => Err(Fault {
            rule: Rule::Choice,
            at: c.at,
            size: 1,
        }),
    }
}

// What stands after the first byte of each case of a query.

fn read_join(s: &[u8], c: Cursor) -> Step<Node>
    ensures result_value { node_meaning s.now result ≡ decode_node_of is_join s.now c.at }
    ensures inside { NodeStepInside s.now result }
{
    let (operator, next) = read_operator_code(s, c)?;
    Ok((Node::Join(operator), next))
}

fn read_keyword(s: &[u8], c: Cursor) -> Step<Node>
    ensures result_value { node_meaning s.now result ≡ decode_node_of is_keyword s.now c.at }
    ensures inside { NodeStepInside s.now result }
{
    let (text, next) = c.string(s)?;
    Ok((Node::Keyword(text), next))
}

fn read_field(s: &[u8], c: Cursor) -> Step<Node>
    ensures result_value { node_meaning s.now result ≡ decode_node_of is_field s.now c.at }
    ensures inside { NodeStepInside s.now result }
{
    let (text, after_text) = c.string(s)?;
    let (name, next) = after_text.name(s)?;
    Ok((Node::Field(text, name), next))
}

fn read_limit(s: &[u8], c: Cursor) -> Step<Node>
    ensures result_value { node_meaning s.now result ≡ decode_node_of is_limit s.now c.at }
    ensures inside { NodeStepInside s.now result }
{
    let (value, after_value) = c.dword(s)?;
    let (bound, after_bound) = read_bound(s, after_value)?;
    let (name, next) = after_bound.name(s)?;
    Ok((Node::Limit(value, bound, name), next))
}

// The node at the cursor. After a join stand its two sides, after a leaf nothing of the query.
#[tactic(auto, unfolding(crate::specs::Nodes::decode_node, format::specs::Order::decode_code))]
pub fn read_node(s: &[u8], c: Cursor) -> Step<Node>
    ensures result_value { node_meaning s.now result ≡ decode_node s.now c.at }
    ensures inside { NodeStepInside s.now result }
{
    let (code, next) = c.byte(s)?;
    match code {
        0 => read_join(s, next),
        1 => read_keyword(s, next),
        2 => read_field(s, next),
        3 => read_limit(s, next),
        _ => Err(Fault {
            rule: Rule::Choice,
            at: c.at,
            size: 1,
        }),
    }
}
