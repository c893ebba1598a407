// The second pass, over a good text: where each label stands, and the ends of each edge.
ghost use Rattle.std.specs.Prelude.{◌≡◌, true, ◌+◌, ◌*◌, ◌<◌, ◌≤◌, length, set};
ghost use Rattle.std.proofs.lemmas.List.Edits.{sets};
ghost use Rattle.tgf.specs.Read.{read_text};
ghost use Rattle.tgf.specs.Lent.{is_good, labels_in, edges_read, node_spots, nodes_end, edge_spots};
ghost use Rattle.tgf.specs.Steps.{two_put, HashAt, EdgesAt};

use crate::EdgeLine;
use crate::lines::{edge_at, node_at};
use basis::put;

// Two numbers side by side.
fn put_two(list: &mut [u32], at: usize, a: usize, b: usize)
    requires { (at < 8192) × (a < 4294967296) × (b < 4294967296) }
    ensures { list.new ≡ two_put list.old at a b }
{
    put(list, at, a as u32);
    put(list, at + 1, b as u32);
}

// The two numbers of node i.
fn put_node(list: &mut [u32], i: usize, begin: usize, size: usize)
    requires { (i < 128) × (begin < 4294967296) × (size < 4294967296) }
    ensures { list.new ≡ two_put list.old (2 * i) begin size }
{
    put_two(list, 2 * i, begin, size);
}

// The four numbers of edge k.
fn put_edge(list: &mut [u32], k: usize, x: EdgeLine)
    requires { (k < 1024) × (x.source < 1000) × (x.target < 1000) × (x.begin < 4294967296) × (x.size < 50) }
    ensures { list.new ≡ two_put (two_put list.old (4 * k) x.source x.target) (4 * k + 2) x.begin x.size }
{
    put_two(list, 4 * k, x.source, x.target);
    put_two(list, 4 * k + 2, x.begin, x.size);
}

// Two numbers for each of the n nodes of a good text, in which each line is one; the answer is the place of the #.
pub fn fill_nodes(text: &[u8], n: usize, nodes: &mut [u32]) -> usize
    requires text_value { is_good (read_text text.now) ≡ true }
    requires text_len { length (labels_in (read_text text.now)) ≡ n }
    requires n_bound { n ≤ 128 }
    ensures value { result ≡ nodes_end 0 0 (labels_in (read_text text.now)) }
    ensures nodes_after { nodes.new ≡ sets nodes.old 0 (node_spots 0 0 (labels_in (read_text text.now))) }
    ensures hash_at { HashAt text.now n result }
{
    let mut at: usize = 0;
    for i in 0..n {
        let Some(x) = node_at(text, at, i) else {
            break;
        };
        put_node(nodes, i, x.begin, x.size);
        at = x.next;
    }
    at
}

// Four numbers for each of the n edges between m nodes.
pub fn fill_edges(text: &[u8], from: usize, m: usize, n: usize, edges: &mut [u32])
    requires edges_at { EdgesAt text.now m from n }
    requires n_bound { n ≤ 1024 }
    ensures { edges.new ≡ sets edges.old 0 (edge_spots from (edges_read (read_text text.now))) }
{
    let mut at = from;
    for k in 0..n {
        let Some(x) = edge_at(text, at, m) else {
            break;
        };
        put_edge(edges, k, x);
        at = x.next;
    }
}
