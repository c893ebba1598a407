// Links of one node to several solvables, one after another, as a requirement has them with its candidates. The source is found once,
// and an answer is a plain number.
ghost use Rattle.std.specs.Prelude.{◌≡◌, ◌<◌, ◌≤◌};
ghost use Rattle.store.specs.Adding.{add_target};
ghost use Rattle.store.specs.Fan.{known_at, edge_by, linked_by};
ghost use Rattle.store.specs.Working.{add_edge_in};
ghost use Rattle.store.specs.Table.{graph_in, Growing, added_in, size_of};

use crate::{
    ConflictEdge, ConflictNode, Edge, GraphWords, Size, edge_word, entry_at, more, put_node,
};

// One more than the number of the node of solvable c, by the direct table; 0 where that has none, or no entry for c.
#[tactic(auto, using(crate::specs::Laws::Fan::knows))]
fn known(g: &GraphWords, c: u16) -> u64
    ensures { (result ≡ known_at g.now c) × (result < 256) }
{
    if c < 512 {
        let k = usize::from(c);
        return entry_at(g, 2 * k);
    }
    0
}

// The edge; whether there was no room.
// Kept: tried, and it misses a bar of speed. It is a part of each link, see `link_from`.
fn put_edge(g: &mut GraphWords, s: Size, e: Edge) -> bool
    requires growing { Growing g.old s }
    requires source_bound { (e.source < 128) × (e.target < s.nodes) }
    ensures result_after { added_in g.new (edge_by s result) ≡ add_edge_in (graph_in g.old s) e }
    ensures growing_2 { Growing g.new (size_of (edge_by s result)) }
{
    let m = s.edges;
    if 1024 <= m {
        return true;
    }
    let w = edge_word(e);
    let k = entry_at(g, m);
    g[m] = w + 72057594037927936 * k;
    false
}

// The link to a solvable whose node may have to be added.
fn link_new(g: &mut GraphWords, s: Size, source: u8, c: u16, q: u16) -> usize
    requires growing { Growing g.old s }
    requires source_bound { source < 128 }
    ensures result_after { added_in g.new (linked_by s result) ≡ add_target (graph_in g.old s) source (ConflictNode.Solvable c)
        (ConflictEdge.Requires q) }
    ensures growing_2 { Growing g.new (size_of (linked_by s result)) × (result ≤ 3) }
{
    let j = put_node(g, s, ConflictNode::Solvable(c));
    if 128 <= j {
        return 2;
    }
    let k = s.nodes;
    let n = more(k, j);
    let t = Size { nodes: n, ..s };
    let e = Edge {
        source,
        target: j as u8,
        weight: ConflictEdge::Requires(q),
        clause: s.hand,
    };
    if put_edge(g, t, e) {
        return 2 + (n - k);
    }
    n - k
}

// The link from node `source` to solvable c: how many nodes it added, 0 or 1, and 2 more where there was no room.
// Kept: tried, and it misses a bar of speed. A Result that this call returns costs more than the link itself (docs/DECISIONS.md).
pub fn link_from(g: &mut GraphWords, s: Size, source: u8, c: u16, q: u16) -> usize
    requires growing { Growing g.old s }
    requires source_bound { source < 128 }
    ensures result_after { added_in g.new (linked_by s result) ≡ add_target (graph_in g.old s) source (ConflictNode.Solvable c)
        (ConflictEdge.Requires q) }
    ensures growing_2 { Growing g.new (size_of (linked_by s result)) × (result ≤ 3) }
{
    let k = known(g, c);
    if k == 0 {
        return link_new(g, s, source, c, q);
    }
    let target = (k - 1) as u8;
    let e = Edge {
        source,
        target,
        weight: ConflictEdge::Requires(q),
        clause: s.hand,
    };
    if put_edge(g, s, e) {
        return 2;
    }
    0
}

// How much the table holds after a link from a table of size s that was answered by r.
pub fn size_after(s: Size, r: usize) -> Size
    requires { (s.nodes ≤ 128) × (s.edges ≤ 1024) × (r ≤ 3) }
    ensures { result ≡ size_of (linked_by s r) }
{
    if r == 0 {
        return Size {
            edges: s.edges + 1,
            ..s
        };
    }
    if 2 <= r {
        return Size {
            nodes: s.nodes + (r - 2),
            ..s
        };
    }
    Size {
        nodes: s.nodes + r,
        edges: s.edges + 1,
        ..s
    }
}
