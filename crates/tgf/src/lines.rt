// A line of the text: of a node, of an edge, the one with #.
ghost use Rattle.std.specs.Prelude.{◌≡◌, ◌+◌, ◌<◌, ◌≤◌, length, IfSome};
ghost use Rattle.tgf.specs.Read.{node_line_at, end_at, edge_at, hash_at};
ghost use Rattle.tgf.specs.Steps.{rest, number_out, node_out, edge_out, hash_out};

use crate::parts::{label_at, number_at};
use crate::{EdgeLine, NodeLine, Part};

// The line of node i.
pub fn node_at(text: &[u8], at: usize, i: usize) -> Option<NodeLine>
    ensures result_value { node_out text.now result ≡ node_line_at i (rest at text.now) }
    ensures in_bounds { IfSome result (λ x. (x.next ≤ length text.now) × (x.next ≤ at + 54) × (x.begin ≤ at + 4) × (x.size ≤ 49)
        × (x.next ≡ x.begin + x.size + 1)) }
{
    let p = number_at(text, at)?;
    if p.value != i {
        return None;
    }
    let l = label_at(text, p.next)?;
    Some(NodeLine {
        begin: p.next,
        size: l.value,
        next: l.next,
    })
}

// An end of an edge among m nodes.
fn end_at(text: &[u8], at: usize, m: usize) -> Option<Part>
    ensures result_value { number_out text.now result ≡ end_at m (rest at text.now) }
    ensures in_bounds { IfSome result (λ p. (p.next ≤ length text.now) × (p.next ≤ at + 4) × (p.value < 1000)) }
{
    let p = number_at(text, at)?;
    if m <= p.value {
        return None;
    }
    Some(p)
}

// The line of an edge among m nodes.
pub fn edge_at(text: &[u8], at: usize, m: usize) -> Option<EdgeLine>
    ensures result_value { edge_out text.now result ≡ edge_at m (rest at text.now) }
    ensures in_bounds { IfSome result (λ x. (x.next ≤ length text.now) × (x.next ≤ at + 58) × (x.begin ≤ at + 8) × (x.size ≤ 49) × (x.source < 1000)
        × (x.target < 1000) × (x.next ≡ x.begin + x.size + 1)) }
{
    let p = end_at(text, at, m)?;
    let q = end_at(text, p.next, m)?;
    let l = label_at(text, q.next)?;
    Some(EdgeLine {
        source: p.value,
        target: q.value,
        begin: q.next,
        size: l.value,
        next: l.next,
    })
}

// A line with #.
pub fn hash_at(text: &[u8], at: usize) -> bool
    requires { at ≤ length text.now }
    ensures { hash_out text.now at result ≡ hash_at (rest at text.now) }
{
    if text.len() < at + 2 {
        return false;
    }
    let a = text[at];
    if a != 35 {
        return false;
    }
    let b = text[at + 1];
    if b != 10 {
        return false;
    }
    true
}
