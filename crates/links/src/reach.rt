// Reachability from a node, and from the root (conflict.rs: the breadth-first walk behind "all nodes are reachable from root"), by
// an explicit queue over the chains of outgoing edges; where one pass over the edges in their order comes to every node, by that.
ghost use Rattle.std.specs.Prelude.{◌≡◌, ◌+◌, ◌<◌, ◌≤◌, replicate};
ghost use Rattle.store.specs.Graph.{unreached};
ghost use Rattle.store.specs.Table.{graph_in, edge_in, Stored};
ghost use Rattle.links.specs.Build.{Chains};
ghost use Rattle.basis.specs.Below.{all_below};
ghost use Rattle.links.specs.Sweep.{passed_on, passed_to, has_mark, swept_in};
ghost use Rattle.links.specs.Queue.{Seen, Marked, noted_in, noted_to, lowest_in, lowest_node};

use store::{ChainWords, GraphWords};

// Node x goes behind the t nodes of the queue if it has no mark yet; the number of nodes after it.
fn note(w: &mut [u16; 256], t: usize, x: usize) -> usize
    requires { (t ≤ 128) × (x < 128) }
    ensures { (w.new ≡ noted_in w.old t x) × (result ≡ noted_to w.old t x) }
{
    let at = 128 + x;
    if w[at] == 0 {
        w[at] = 1;
        w[t] = x as u16;
        return t + 1;
    }
    t
}

// The target of edge e.
fn look(g: &GraphWords, s: store::Size, w: &mut [u16; 256], t: usize, e: usize) -> usize
    requires { (Stored g.now s) × (e < s.edges) × (t ≤ 128) }
    ensures { (w.new ≡ noted_in w.old t (edge_in g.now e).target)
        × (result ≡ noted_to w.old t (edge_in g.now e).target) }
{
    let x = store::target_at(g, e);
    note(w, t, x)
}

// The targets of the node at place h of the queue that began with node a.
#[tactic(auto, using(crate::specs::Queue::spread_edge))]
fn visit(
    g: &GraphWords,
    s: store::Size,
    ls: &ChainWords,
    w: &mut [u16; 256],
    a: usize,
    h: usize,
    t: usize,
) -> usize
    requires chains { Chains g.now s ls.now }
    requires seen { Seen g.now s a w.old h t }
    requires h_lt_t { h < t }
    ensures { Seen g.now s a w.new (h + 1) result }
{
    let n = usize::from(w[h]);
    let mut e = crate::first_out(ls, n);
    let mut k: usize = t;
    while 0 < e {
        k = look(g, s, w, k, e - 1);
        e = crate::next_out(ls, e - 1);
    }
    k
}

// Marks node a and every node that a path reaches from it, node n at 128 + n.
// Kept: the new form is no plainer: a queue, whose end moves while its beginning is walked.
pub fn mark(g: &GraphWords, s: store::Size, ls: &ChainWords, w: &mut [u16; 256], a: usize)
    requires chains { Chains g.now s ls.now }
    requires a_lt_nodes { a < s.nodes }
    requires w_value { w.old ≡ replicate 256 0 }
    ensures { Marked g.now s a w.new }
{
    w[128 + a] = 1;
    w[0] = a as u16;
    let mut h: usize = 0;
    let mut t: usize = 1;
    while h < t {
        t = visit(g, s, ls, w, a, h, t);
        h += 1;
    }
}

// The lowest of k nodes that has no mark.
fn lowest(w: &[u16; 256], k: usize) -> Option<usize>
    requires { k ≤ 128 }
    ensures { result ≡ lowest_in w.now k }
{
    for i in 0..k {
        if w[128 + i] == 0 {
            return Some(i);
        }
    }
    None
}

// The target of edge i gets a mark if its source has one.
#[tactic(auto, using(crate::specs::Sweep::passes))]
fn pass_on(g: &GraphWords, w: &mut [u16; 256], i: usize)
    requires { i < 1024 }
    ensures { w.new ≡ passed_on g.now w.old i }
{
    let a = store::source_at(g, i);
    let b = store::target_at(g, i);
    if w[a] != 0 {
        w[b] = 1;
    }
}

// The first m edges, in their order.
fn sweep(g: &GraphWords, w: &mut [u16; 256], m: usize)
    requires { m ≤ 1024 }
    ensures { w.new ≡ passed_to g.now w.old m }
{
    for i in 0..m {
        pass_on(g, w, i);
    }
}

// The first n nodes have a mark.
fn marked(w: &[u16; 256], n: usize) -> bool
    requires { n ≤ 128 }
    ensures { result ≡ all_below (has_mark w.now) n }
{
    for i in 0..n {
        if w[i] == 0 {
            return false;
        }
    }
    true
}

// Every node has a mark after one pass over the edges, which asks for no chains: then each is reached. Where not, that is left open.
pub fn swept(g: &GraphWords, s: store::Size) -> bool
    requires { Stored g.now s }
    ensures { result ≡ swept_in g.now s }
{
    let mut w = [0u16; 256];
    w[0] = 1;
    sweep(g, &mut w, s.edges);
    marked(&w, s.nodes)
}

// The lowest node that is not reached.
pub fn lowest_unreached(g: &GraphWords, s: store::Size, ls: &ChainWords) -> Option<usize>
    requires { Chains g.now s ls.now }
    ensures { result ≡ lowest_node (unreached (graph_in g.now s)) }
{
    if swept(g, s) {
        return None;
    }
    let mut w = [0u16; 256];
    mark(g, s, ls, &mut w, 0);
    lowest(&w, s.nodes)
}
