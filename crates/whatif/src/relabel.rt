// The labels of the graph asked for, from those of the graph as it is (specs/Relabel.antt). Only `store_up` stores to the marks, and it
// requires that its node is the chosen one or that an edge leads from it to a node that was stored to.
ghost use Rattle.std.specs.Prelude.{◌≡◌, true, ◌<◌, set, replicate};
ghost use Rattle.store.specs.Table.{graph_in};
ghost use Rattle.links.specs.Build.{Chains};
ghost use Rattle.labels.specs.Labels.{order_of};
ghost use Rattle.labels.specs.Marks.{anew};
ghost use Rattle.labels.specs.Frames.{Posted};
ghost use Rattle.whatif.specs.Relabel.{touched, relabel, stored};
ghost use Rattle.whatif.specs.Laws.Again.{leads_up, MarkTurned};

use store::{ChainWords, GraphWords, PerNode, Size};

// An edge leads from n to a node with a 1.
#[tactic(auto, using(labels::specs::Passes::going_next, crate::specs::Laws::Again::up_on, crate::specs::Laws::Again::up_here, crate::specs::Laws::Again::up_is))]
fn leads_up(g: &GraphWords, s: Size, ls: &ChainWords, up: &PerNode, n: usize) -> bool
    requires chains { Chains g.now s ls.now }
    requires n_lt_nodes { n < s.nodes }
    ensures { result ≡ leads_up (graph_in g.now s) up.now n }
{
    let mut e = links::first_out(ls, n);
    while 0 < e {
        let i = e - 1;
        let t = store::target_at(g, i);
        if basis::get(up, t) == 1 {
            return true;
        }
        e = links::next_out(ls, i);
    }
    false
}

#[tactic(auto, using(crate::specs::Laws::Again::touched_own, crate::specs::Laws::Again::touched_on))]
fn is_touched(g: &GraphWords, s: Size, ls: &ChainWords, up: &PerNode, a: usize, n: usize) -> bool
    requires chains { Chains g.now s ls.now }
    requires n_lt_nodes { n < s.nodes }
    ensures { result ≡ touched (graph_in g.now s) a up.now n }
{
    n == a || leads_up(g, s, ls, up, n)
}

// The one store to the marks.
fn store_up(
    g: &GraphWords,
    s: Size,
    ls: &ChainWords,
    marks: &mut PerNode,
    up: &mut PerNode,
    a: usize,
    n: usize,
)
    requires chains { Chains g.now s ls.now }
    requires n_lt_nodes { n < s.nodes }
    requires n_value { touched (graph_in g.now s) a up.old n ≡ true }
    ensures marks_after { marks.new ≡ set marks.old n (anew (graph_in g.now s) marks.old n) }
    ensures up_after { up.new ≡ set up.old n 1 }
{
    let v = labels::passes::mark_again(g, s, ls, marks, n);
    basis::put(marks, n, v);
    basis::put(up, n, 1);
}

fn turn_to(
    g: &GraphWords,
    s: Size,
    ls: &ChainWords,
    marks: &mut PerNode,
    up: &mut PerNode,
    a: usize,
    n: usize,
)
    requires chains { Chains g.now s ls.now }
    requires n_lt_nodes { n < s.nodes }
    ensures { MarkTurned (graph_in g.now s) a n marks.old up.old marks.new up.new }
{
    if is_touched(g, s, ls, up, a, n) {
        store_up(g, s, ls, marks, up, a, n);
    }
}

// Along the post-order of the graph asked for; a is the chosen package's number, and `up` a table of zeros. Whatever the marks are, no
// other is stored to.
pub fn relabel(
    g: &GraphWords,
    s: Size,
    ls: &ChainWords,
    marks: &mut PerNode,
    up: &mut PerNode,
    order: &PerNode,
    count: usize,
    a: usize,
)
    requires posted { Posted g.now s ls.now order.now count }
    requires up_value { up.old ≡ replicate 128 0 }
    ensures marks_after { marks.new ≡ relabel (graph_in g.now s) a (order_of (graph_in g.now s)) marks.old }
    ensures up_after { up.new ≡ stored (graph_in g.now s) a (order_of (graph_in g.now s)) marks.old }
{
    for x in &order[..count] {
        turn_to(g, s, ls, marks, up, a, usize::from(*x));
    }
}
