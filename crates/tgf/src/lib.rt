// Trivial Graph Format, the text of the wall display (document 02, order 14), read back. First the whole text is judged and counted,
// and nothing that was lent is written; then the lists are filled.
#![tactic(auto)]

mod count;
mod fill;
mod lines;
mod parts;

ghost use Rattle.std.specs.Prelude.{◌≡◌, length};
ghost use Rattle.tgf.specs.Read.{read_text};
ghost use Rattle.tgf.specs.Lent.{refused, tgf_counts, tgf_nodes, tgf_edges};

use count::count;
use fill::{fill_edges, fill_nodes};

// A number or the length of a label, and the place behind it.
#[derive(Clone, Copy)]
pub struct Part {
    pub value: usize,
    pub next: usize,
}

// Where a node's label begins, how long it is, and the place behind its line.
#[derive(Clone, Copy)]
pub struct NodeLine {
    pub begin: usize,
    pub size: usize,
    pub next: usize,
}

#[derive(Clone, Copy)]
pub struct EdgeLine {
    pub source: usize,
    pub target: usize,
    pub begin: usize,
    pub size: usize,
    pub next: usize,
}

// How many nodes and edges a good text has.
#[derive(Clone, Copy)]
pub struct Seen {
    pub nodes: usize,
    pub edges: usize,
}

// Kept: the C interface: `urzulempa_tgf_read` hands it out.
#[repr(C)]
#[derive(Clone, Copy)]
pub struct Counts {
    pub number: u64,
    pub place: u64,
    pub nodes: u64,
    pub edges: u64,
}

// A refusal in place of the counts.
fn refuse(number: u64, place: u64) -> Counts
    ensures { result ≡ refused number place }
{
    Counts {
        number,
        place,
        nodes: 0,
        edges: 0,
    }
}

// Reads a text of the wall display: two numbers for each node, four for each edge.
pub fn read(text: &[u8], nodes: &mut [u32], edges: &mut [u32]) -> Counts
    ensures value { result ≡ tgf_counts (read_text text.now) (length nodes.old) (length edges.old) }
    ensures nodes_after { nodes.new ≡ tgf_nodes (read_text text.now) nodes.old (length edges.old) }
    ensures edges_after { edges.new ≡ tgf_edges (read_text text.now) (length nodes.old) edges.old }
{
    let s = match count(text) {
        Ok(s) => s,
        Err(line) => return refuse(3, line as u64),
    };
    let n = s.nodes;
    let k = s.edges;
    if nodes.len() < 2 * n {
        return refuse(10, 0);
    }
    if edges.len() < 4 * k {
        return refuse(10, 0);
    }
    let h = fill_nodes(text, n, nodes);
    fill_edges(text, h + 2, n, k, edges);
    Counts {
        number: 0,
        place: 0,
        nodes: n as u64,
        edges: k as u64,
    }
}
