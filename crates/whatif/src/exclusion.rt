// The exclusion behind a graph that is settled: at most one node and one edge.
ghost use Rattle.std.specs.Prelude.{◌≡◌, ◌<◌, ◌≤◌, length};
ghost use Rattle.store.specs.declared.ConflictNode.TheVariants.{Excluded};
ghost use Rattle.store.specs.Table.{graph_in, Stored};
ghost use Rattle.whatif.specs.Asked.{nodes_with};
ghost use Rattle.whatif.specs.Laws.Exclusion.{with_reason, asked_from};

use store::{ConflictCause, ConflictEdge, ConflictNode, Edge, GraphWords, Size};

// "A reason that already has a node uses it"; a new one stands at the end.
#[tactic(auto, using(crate::specs::Laws::Exclusion::reason_there, crate::specs::Laws::Exclusion::reason_added, crate::specs::Laws::Exclusion::reason_few, crate::specs::Laws::Exclusion::reason_not_there))]
fn with_reason(g: &mut GraphWords, s: Size, reason: u16) -> Size
    requires stored { Stored g.old s }
    requires reason_len_bound { length (nodes_with (graph_in g.old s).nodes (Excluded reason)) ≤ 128 }
    ensures { (graph_in g.new result ≡ with_reason (graph_in g.old s) reason) × Stored g.new result }
{
    let b = store::behind::place_of(g, s, ConflictNode::Excluded(reason));
    if b < s.nodes {
        return s;
    }
    store::behind::push_node(g, s, ConflictNode::Excluded(reason))
}

// From node a, by clause n.
pub fn exclude(g: &mut GraphWords, s: Size, a: usize, reason: u16, n: u16) -> Size
    requires stored { Stored g.old s }
    requires a_lt_nodes { a < s.nodes }
    requires reason_len_bound { length (nodes_with (graph_in g.old s).nodes (Excluded reason)) ≤ 128 }
    requires edges_bound { s.edges < 1024 }
    ensures { (graph_in g.new result ≡ asked_from (graph_in g.old s) n a reason) × Stored g.new result }
{
    let b = store::behind::place_of(g, s, ConflictNode::Excluded(reason));
    let h = Size { hand: n, ..s };
    let t = with_reason(g, h, reason);
    let e = Edge {
        source: a as u8,
        target: b as u8,
        weight: ConflictEdge::Conflict(ConflictCause::Excluded),
        clause: n,
    };
    store::behind::push_edge(g, t, e)
}
