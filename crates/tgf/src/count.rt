// The first pass: the first bad or missing line, or how many nodes and edges there are.
ghost use Rattle.std.specs.Prelude.{◌≡◌, ◌≤◌, IfOk};
ghost use Rattle.tgf.specs.Read.{read_text};
ghost use Rattle.tgf.specs.Steps.{seen_of, edges_seen};

use crate::Seen;
use crate::lines::{edge_at, hash_at, node_at};

// The edges between m nodes, to the end of the text.
fn count_edges(text: &[u8], from: usize, m: usize) -> Result<Seen, usize>
    requires { m ≤ 128 }
    ensures value { result ≡ edges_seen text.now from m }
    ensures bounds { IfOk result (λ s. (s.nodes ≤ 128) × (s.edges ≤ 1024)) }
{
    let mut at = from;
    for k in 0..1024 {
        if text.len() <= at {
            return Ok(Seen { nodes: m, edges: k });
        }
        let Some(e) = edge_at(text, at, m) else {
            return Err(m + 2 + k);
        };
        at = e.next;
    }
    if text.len() <= at {
        return Ok(Seen {
            nodes: m,
            edges: 1024,
        });
    }
    Err(m + 1026)
}

// A whole text.
pub fn count(text: &[u8]) -> Result<Seen, usize>
    ensures value { result ≡ seen_of 0 0 (read_text text.now) }
    ensures bounds { IfOk result (λ s. (s.nodes ≤ 128) × (s.edges ≤ 1024)) }
{
    let Some(f) = node_at(text, 0, 0) else {
        return Err(1);
    };
    let mut at = f.next;
    for i in 1..128 {
        if hash_at(text, at) {
            return count_edges(text, at + 2, i);
        }
        let Some(x) = node_at(text, at, i) else {
            return Err(i + 1);
        };
        at = x.next;
    }
    if hash_at(text, at) {
        return count_edges(text, at + 2, 128);
    }
    Err(129)
}
