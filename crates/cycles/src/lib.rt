// The lowest node on a cycle, in time linear in nodes and edges where there is none: places in post-order fall along every
// edge then. Only where they do not, the nodes are tried upward, each by a queue over what it leads to.
#![tactic(auto)]

ghost use Rattle.std.specs.Prelude.{◌≡◌, ◌+◌, ◌<◌, ◌≤◌};
ghost use Rattle.store.specs.Table.{graph_in, edge_in, Stored};
ghost use Rattle.links.specs.Build.{Chains};
ghost use Rattle.labels.specs.Labels.{targets};
ghost use Rattle.links.specs.Queue.{Marked, lowest_node};
ghost use Rattle.cycles.specs.Cycles.{cycle_of};
ghost use Rattle.cycles.specs.Laws.Lowest.{Lowest, one_more};
ghost use Rattle.cycles.specs.Laws.Walks.{OnCycle, lit_in, Quick};

use store::{ChainWords, GraphWords, PerNode, Size};

// The source of edge e has a mark.
fn lit(g: &GraphWords, s: Size, w: &[u16; 256], e: usize) -> bool
    requires { (Stored g.now s) × (e < s.edges) }
    ensures { result ≡ lit_in w.now (edge_in g.now e).source }
{
    w[128 + store::source_at(g, e)] != 0
}

// An edge comes into n from a node with a mark.
fn comes_back(g: &GraphWords, s: Size, ls: &ChainWords, w: &[u16; 256], n: usize) -> bool
    requires chains { Chains g.now s ls.now }
    requires n_lt_nodes { n < s.nodes }
    requires marked { Marked g.now s n w.now }
    ensures { OnCycle (targets (graph_in g.now s)) n result }
{
    let mut e = links::first_in(ls, n);
    while 0 < e {
        if lit(g, s, w, e - 1) {
            return true;
        }
        e = links::next_in(ls, e - 1);
    }
    false
}

fn on_cycle(g: &GraphWords, s: Size, ls: &ChainWords, n: usize) -> bool
    requires chains { Chains g.now s ls.now }
    requires n_lt_nodes { n < s.nodes }
    ensures { OnCycle (targets (graph_in g.now s)) n result }
{
    let mut w = [0u16; 256];
    links::reach::mark(g, s, ls, &mut w, n);
    comes_back(g, s, ls, &w, n)
}

// The nodes upward.
fn lowest(g: &GraphWords, s: Size, ls: &ChainWords) -> Option<usize>
    requires { Chains g.now s ls.now }
    ensures { Lowest (targets (graph_in g.now s)) (one_more result) }
{
    for n in 0..s.nodes {
        if on_cycle(g, s, ls, n) {
            return Some(n);
        }
    }
    None
}

// Each node's place in post-order. Nothing is promised: `falls` looks at every edge.
fn place(order: &PerNode, count: usize, pos: &mut PerNode)
    requires { count ≤ 128 }
{
    for (i, x) in order[..count].iter().enumerate() {
        basis::put(pos, usize::from(*x), i as u16);
    }
}

// Every edge leads to a lower number.
fn falls(g: &GraphWords, s: Size, pos: &PerNode) -> bool
    requires { Stored g.now s }
    ensures { Quick g.now pos.now s.edges result }
{
    for i in 0..s.edges {
        if pos[store::source_at(g, i)] <= pos[store::target_at(g, i)] {
            return false;
        }
    }
    true
}

// The lowest node that leads back to itself.
pub fn lowest_on_cycle(g: &GraphWords, s: Size, ls: &ChainWords) -> Option<usize>
    requires { Chains g.now s ls.now }
    ensures { result ≡ lowest_node (cycle_of (graph_in g.now s)) }
{
    let mut seen = [0u16; 128];
    let mut order = [0u16; 128];
    let mut frames = [0u32; 128];
    let mut pos = [0u16; 128];
    let count = labels::order::post_order(g, s, ls, &mut seen, &mut order, &mut frames);
    place(&order, count, &mut pos);
    if falls(g, s, &pos) {
        return None;
    }
    lowest(g, s, ls)
}
