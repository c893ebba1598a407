// What can be added behind a graph that is settled (document 02, order 10): a node, an edge. Unresolved may have gone, so that nothing
// but `Stored` is known of the table.
ghost use Rattle.std.specs.Prelude.{◌≡◌, ◌<◌, ◌≤◌};
ghost use Rattle.store.specs.Finding.{find_of};
ghost use Rattle.store.specs.Graph.{with_node, with_edge};
ghost use Rattle.store.specs.Numbers.{number_of};
ghost use Rattle.store.specs.Table.{graph_in, Stored};

use crate::{
    ConflictNode, Edge, GraphWords, Size, edge_word, enter, entry_at, find_node, node_word,
};

// The place of word w among the nodes, or their count: by the direct table, where it has an entry.
fn find_settled(g: &GraphWords, s: Size, w: u64) -> usize
    requires { Stored g.now s }
    ensures { result ≡ find_of g.now s.nodes w }
{
    let k = s.nodes;
    if w < 2048 && w % 2 == 1 {
        let e = entry_at(g, (w / 2) as usize);
        if e == 0 {
            return k;
        }
        return (e - 1) as usize;
    }
    find_node(g, k, w)
}

// The number of the node that stands for x, or the count of nodes where none does.
pub fn place_of(g: &GraphWords, s: Size, x: ConflictNode) -> usize
    requires { Stored g.now s }
    ensures { result ≡ number_of (graph_in g.now s).nodes x }
{
    let w = node_word(x);
    find_settled(g, s, w)
}

// One more node, which was not there.
pub fn push_node(g: &mut GraphWords, s: Size, x: ConflictNode) -> Size
    requires stored { Stored g.old s }
    requires nodes_bound { (s.nodes < 128) × (s.nodes ≤ number_of (graph_in g.old s).nodes x) }
    ensures { (graph_in g.new result ≡ with_node (graph_in g.old s) x) × Stored g.new result }
{
    let w = node_word(x);
    let k = s.nodes;
    let c = u64::from(s.hand);
    g[1024 + k] = w + 262144 * c;
    enter(g, w, (k + 1) as u64);
    Size { nodes: k + 1, ..s }
}

// One more edge, the newest.
pub fn push_edge(g: &mut GraphWords, s: Size, e: Edge) -> Size
    requires stored { Stored g.old s }
    requires edges_bound { s.edges < 1024 }
    requires source_bound { (e.source < 128) × (e.target < s.nodes) }
    ensures { (graph_in g.new result ≡ with_edge (graph_in g.old s) e) × Stored g.new result }
{
    let m = s.edges;
    let w = edge_word(e);
    let k = entry_at(g, m);
    g[m] = w + 72057594037927936 * k;
    Size { edges: m + 1, ..s }
}
