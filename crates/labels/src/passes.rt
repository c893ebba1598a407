// Both labels, along the post-order (conflict.rs: `get_installable_set`, `get_missing_set`). A table of marks holds them while
// they are found: 1 for installable and 2 for missing.
ghost use Rattle.std.specs.Prelude.{◌≡◌, ◌&&◌, ◌||◌, cond, ◌<◌, set};
ghost use Rattle.basis.specs.Lists.{any};
ghost use Rattle.store.specs.Graph.{into};
ghost use Rattle.store.specs.Table.{graph_in, edge_in, Stored};
ghost use Rattle.links.specs.Build.{Chains};
ghost use Rattle.labels.specs.Labels.{order_of, excludes, has_unresolved};
ghost use Rattle.labels.specs.Scan.{step_of};
ghost use Rattle.labels.specs.Marks.{bits_of, inst_at, miss_at, node_mark, anew, marks_along};
ghost use Rattle.labels.specs.Frames.{Posted};
ghost use Rattle.labels.specs.Passes.{verdict_of, installing};

use store::{ChainWords, GraphWords, PerNode, Size};

// One pass along a node's outgoing edges. `key` is 1 + the requirement of the run that is open, 0 before the first.
// Kept: the new form is no plainer: four tests of one walk, and none of them says whether another value is there.
#[derive(Clone, Copy)]
struct Scan {
    key: u64,
    // a run before it has no installable target
    lost: bool,
    // it has none so far
    bare: bool,
    // in a run before it all targets are missing
    hit: bool,
    // in it all are, so far
    all: bool,
}

// Without an outgoing conflict: every run has an installable target; some run has only missing ones.
// Kept: the new form is no plainer: both are answers of their own, an outgoing conflict makes both false, and no third case is asked for.
#[derive(Clone, Copy)]
struct Verdict {
    every: bool,
    some: bool,
}

fn bits(installable: bool, missing: bool) -> u16
    ensures { result ≡ bits_of installable missing }
{
    u16::from(installable) + 2 * u16::from(missing)
}

fn inst_at(marks: &PerNode, t: usize) -> bool
    ensures { result ≡ inst_at marks.now t }
{
    basis::get(marks, t) % 2 == 1
}

fn miss_at(marks: &PerNode, t: usize) -> bool
    ensures { result ≡ miss_at marks.now t }
{
    1 < basis::get(marks, t)
}

fn step(o: Scan, k: u64, i: bool, m: bool) -> Scan
    ensures { result ≡ step_of o k i m }
{
    if o.key == k {
        return Scan {
            key: k,
            lost: o.lost,
            bare: o.bare && !i,
            hit: o.hit,
            all: o.all && m,
        };
    }
    Scan {
        key: k,
        lost: o.lost || o.bare,
        bare: !i,
        hit: o.hit || o.all,
        all: m,
    }
}

// The step that edge e makes, with key k.
fn step_at(g: &GraphWords, marks: &PerNode, o: Scan, k: u64, e: usize) -> Scan
    ensures { result ≡ step_of o k (inst_at marks.now (edge_in g.now e).target)
        (miss_at marks.now (edge_in g.now e).target) }
{
    let t = store::target_at(g, e);
    step(o, k, inst_at(marks, t), miss_at(marks, t))
}

fn scan_out(g: &GraphWords, s: Size, ls: &ChainWords, marks: &PerNode, n: usize) -> Verdict
    requires chains { Chains g.now s ls.now }
    requires n_lt_nodes { n < s.nodes }
    ensures { result ≡ verdict_of (graph_in g.now s) marks.now n }
{
    let mut e = links::first_out(ls, n);
    let mut o = Scan {
        key: 0,
        lost: false,
        bare: false,
        hit: false,
        all: false,
    };
    while 0 < e {
        let i = e - 1;
        let k = store::requires_at(g, i);
        if k == 0 {
            return Verdict {
                every: false,
                some: false,
            };
        }
        o = step_at(g, marks, o, k, i);
        e = links::next_out(ls, i);
    }
    Verdict {
        every: !(o.lost || o.bare),
        some: o.hit || o.all,
    }
}

// An Excluded edge leads to n.
fn excluded_into(g: &GraphWords, s: Size, ls: &ChainWords, n: usize) -> bool
    requires chains { Chains g.now s ls.now }
    requires n_lt_nodes { n < s.nodes }
    ensures { result ≡ any excludes (into (graph_in g.now s) n) }
{
    let mut e = links::first_in(ls, n);
    while 0 < e {
        let i = e - 1;
        if store::excluded_at(g, i) {
            return true;
        }
        e = links::next_in(ls, i);
    }
    false
}

fn can_install(g: &GraphWords, s: Size, ls: &ChainWords, n: usize, every: bool) -> bool
    requires chains { Chains g.now s ls.now }
    requires n_lt_nodes { n < s.nodes }
    ensures { result ≡ installing g.now s ls.now n every }
{
    every && !store::unresolved_at(g, n) && !excluded_into(g, s, ls, n)
}

// Node n's mark, from the marks so far.
fn node_mark(g: &GraphWords, s: Size, ls: &ChainWords, marks: &PerNode, n: usize) -> u16
    requires chains { Chains g.now s ls.now }
    requires n_lt_nodes { n < s.nodes }
    ensures { result ≡ node_mark (graph_in g.now s) marks.now n }
{
    let v = scan_out(g, s, ls, marks, n);
    let installable = can_install(g, s, ls, n, v.every) || inst_at(marks, n);
    let missing = v.some || miss_at(marks, n);
    bits(installable, missing)
}

// Node n's mark by the rules alone, whatever mark it has (order 10).
pub fn mark_again(g: &GraphWords, s: Size, ls: &ChainWords, marks: &PerNode, n: usize) -> u16
    requires chains { Chains g.now s ls.now }
    requires n_lt_nodes { n < s.nodes }
    ensures { result ≡ anew (graph_in g.now s) marks.now n }
{
    let v = scan_out(g, s, ls, marks, n);
    bits(can_install(g, s, ls, n, v.every), v.some)
}

// Before the pass: the unresolved node is missing, where there is one.
pub fn mark_start(g: &GraphWords, s: Size, marks: &mut PerNode)
    requires { Stored g.now s }
    ensures { marks.new ≡ cond (has_unresolved (graph_in g.now s)) (set marks.old 1 2) marks.old }
{
    if 1 < s.nodes && store::unresolved_at(g, 1) {
        marks[1] = 2;
    }
}

pub fn mark_all(
    g: &GraphWords,
    s: Size,
    ls: &ChainWords,
    marks: &mut PerNode,
    order: &PerNode,
    count: usize,
)
    requires { Posted g.now s ls.now order.now count }
    ensures { marks.new ≡ marks_along (graph_in g.now s) (order_of (graph_in g.now s)) marks.old }
{
    for x in &order[..count] {
        let n = usize::from(*x);
        marks[n] = node_mark(g, s, ls, marks, n);
    }
}
