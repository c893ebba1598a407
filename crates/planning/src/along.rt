// Along a run of a node's outgoing edges, newest first: where it ends, and its kids.
ghost use Rattle.std.specs.Prelude.{◌≡◌, ◌||◌, not, ◌<◌, ◌≤◌, length};
ghost use Rattle.store.specs.Table.{edge_in};
ghost use Rattle.links.specs.Walk.{out_left};
ghost use Rattle.plan.specs.Fields.{kids_from};
ghost use Rattle.planning.specs.Cut.{ends_run, target_of, targets_in};
ghost use Rattle.planning.specs.Kids.{marked_in, lead_at, merged_at, found, group_shown, takes};
ghost use Rattle.planning.specs.Along.{Way, Scanned, KidReady, KidStep, KidsReady, KidsDone};

use store::{ChainWords, GraphWords, PerNode};

// What was found along a run's targets, of which there is one at least: whether there are more, and an installable one.
#[derive(Clone, Copy)]
pub struct Found {
    pub many: bool,
    pub installable: bool,
}

// Where the edges go on behind a run, as a chain stores it, and what was found along the run.
#[derive(Clone, Copy)]
pub struct Cut {
    pub next: usize,
    pub found: Found,
}

#[tactic(auto, unfolding(crate::specs::Kids::marked_in))]
pub fn marked(marks: &PerNode, t: usize) -> bool
    ensures { result ≡ marked_in marks.now t }
{
    basis::get(marks, t) % 2 == 1
}

#[tactic(auto, unfolding(crate::specs::Kids::lead_at))]
pub fn lead_at(gr: &PerNode, t: usize) -> u16
    ensures { (result ≡ lead_at gr.now t) × (result < 128) }
{
    basis::get(gr, t) % 128
}

#[tactic(auto, unfolding(crate::specs::Kids::merged_at))]
pub fn merged_at(gr: &PerNode, t: usize) -> bool
    ensures { result ≡ merged_at gr.now t }
{
    basis::get(gr, t) / 128 % 2 == 1
}

// Edge i ends the run with key x: it requires something else. A conflict does not.
fn ends_run(g: &GraphWords, i: usize, x: u64) -> bool
    ensures { result ≡ ends_run x (edge_in g.now i) }
{
    let k = store::requires_at(g, i);
    if k == 0 {
        return false;
    }
    k != x
}

// With edge i's target, if it has a key.
pub fn find_edge(g: &GraphWords, marks: &PerNode, o: Found, i: usize) -> Found
    ensures { result ≡ found marks.now o (target_of (edge_in g.now i)) }
{
    let k = store::requires_at(g, i);
    if k == 0 {
        return o;
    }
    let t = store::target_at(g, i);
    let m = marked(marks, t);
    Found {
        many: true,
        installable: o.installable || m,
    }
}

// From edge e on (as a chain stores it), behind the first of a run with key x.
pub fn scan(
    g: &GraphWords,
    ls: &ChainWords,
    marks: &PerNode,
    n: usize,
    x: u64,
    e1: usize,
    o1: Found,
) -> Cut
    requires { Way g.now ls.now n e1 }
    ensures { Scanned g.now ls.now marks.now n x e1 o1 result.next result.found }
{
    let mut e = e1;
    let mut o = o1;
    while 0 < e {
        let i = e - 1;
        let b = ends_run(g, i, x);
        if b {
            return Cut { next: e, found: o };
        }
        o = find_edge(g, marks, o, i);
        e = links::next_out(ls, i);
    }
    Cut { next: e, found: o }
}

fn wanted(marks: &PerNode, t: usize, want: bool) -> bool
    ensures { result ≡ not want || marked_in marks.now t }
{
    !want || marked(marks, t)
}

// One of the kids from place c to the end is of the group of l.
fn shown(gr: &PerNode, k: &[u16; 1024], c: usize, end: usize, l: u16) -> bool
    ensures { result ≡ group_shown gr.now l (kids_from k.now c end) }
{
    for i in c..end {
        if lead_at(gr, plan::kid_at(k, i)) == l {
            return true;
        }
    }
    false
}

fn takes_kid(
    g: &GraphWords,
    marks: &PerNode,
    gr: &PerNode,
    k: &[u16; 1024],
    t: usize,
    want: bool,
    c: usize,
    end: usize,
) -> bool
    ensures { result ≡ takes g.now marks.now gr.now want (kids_from k.now c end) t }
{
    let a = store::solvable_at(g, t);
    if !a {
        return false;
    }
    let b = wanted(marks, t, want);
    if !b {
        return false;
    }
    let m = merged_at(gr, t);
    if !m {
        return true;
    }
    let l = lead_at(gr, t);
    let d = shown(gr, k, c, end, l);
    !d
}

// Edge i's target becomes a kid below place c, if it is one.
fn kid_edge(
    g: &GraphWords,
    marks: &PerNode,
    gr: &PerNode,
    k: &mut [u16; 1024],
    i: usize,
    want: bool,
    c: usize,
    end: usize,
) -> usize
    requires { KidReady g.now k.old i c end }
    ensures { KidStep g.now marks.now gr.now k.old k.new want
        (target_of (edge_in g.now i)) c result end }
{
    let key = store::requires_at(g, i);
    if key == 0 {
        return c;
    }
    let t = store::target_at(g, i);
    let b = takes_kid(g, marks, gr, k, t, want, c, end);
    if b {
        let d = c - 1;
        k[d] = t as u16;
        return d;
    }
    c
}

// The kids of the run with key x that begins at edge e1 (as a chain stores it), from the end downwards. Where they begin.
pub fn kids(
    g: &GraphWords,
    ls: &ChainWords,
    marks: &PerNode,
    gr: &PerNode,
    k: &mut [u16; 1024],
    n: usize,
    x: u64,
    want: bool,
    e1: usize,
    end: usize,
) -> usize
    requires { KidsReady g.now ls.now k.old n x e1 end }
    ensures { KidsDone g.now marks.now gr.now want (targets_in x (out_left g.now n e1)) k.old end
        k.new result }
{
    let mut e = e1;
    let mut c = end;
    while 0 < e {
        let i = e - 1;
        let b = ends_run(g, i, x);
        if b {
            return c;
        }
        c = kid_edge(g, marks, gr, k, i, want, c, end);
        e = links::next_out(ls, i);
    }
    c
}
