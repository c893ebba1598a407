// The kind of line of each package, by its outgoing edges, newest first (conflict.rs, lines 1087 to 1152). A walk along them
// starts at `e1`, one more than the newest edge, or 0.
ghost use Rattle.std.specs.Prelude.{◌≡◌, ◌<◌, ◌≤◌};
ghost use Rattle.store.specs.Table.{edge_in};
ghost use Rattle.links.specs.Walk.{out_left};
ghost use Rattle.plan.specs.Fields.{one_more};
ghost use Rattle.plan.specs.Plan.{is_forbid, sets_by};
ghost use Rattle.planning.specs.Along.{Way};
ghost use Rattle.planning.specs.EdgeMarks.{edge_mark, reasons_at, reasons_in, forbids_in};
ghost use Rattle.planning.specs.Sets.{is_head, sets_up, SetReady, SetStep, SetsReady, SetsDone};
ghost use Rattle.planning.specs.Line.{line_tag, line_reason, line_first, LineDone};

use store::{ChainWords, ConflictCause, ConflictEdge, ConflictNode, GraphWords};

// A package's line: excluded with its reason, or constraining with the first place of its sets.
#[derive(Clone, Copy)]
pub enum LineKind {
    Excluded(u16),
    Bare,
    Conflicting,
    Constraining(usize),
    Requiring,
}

impl LineKind {
    // The number of its kind, as the plan holds it.
    pub fn tag(self) -> u64
        ensures { result ≡ line_tag self }
    {
        match self {
            LineKind::Excluded(_) => 0,
            LineKind::Bare => 1,
            LineKind::Conflicting => 2,
            LineKind::Constraining(_) => 3,
            LineKind::Requiring => 4,
        }
    }

    // Its reason, or 0.
    pub fn reason(self) -> u16
        ensures { result ≡ line_reason self }
    {
        match self {
            LineKind::Excluded(r) => r,
            LineKind::Bare => 0,
            LineKind::Conflicting => 0,
            LineKind::Constraining(_) => 0,
            LineKind::Requiring => 0,
        }
    }

    // Where its sets begin, which end at `end`.
    pub fn sets_first(self, end: usize) -> usize
        ensures { result ≡ line_first end self }
    {
        match self {
            LineKind::Excluded(_) => end,
            LineKind::Bare => end,
            LineKind::Conflicting => end,
            LineKind::Constraining(c) => c,
            LineKind::Requiring => end,
        }
    }
}

// The reason, where edge i excludes.
fn reason_at(g: &GraphWords, i: usize) -> Option<u16>
    ensures { one_more result ≡ edge_mark (reasons_at g.now (edge_in g.now i)) }
{
    if !store::excluded_at(g, i) {
        return None;
    }
    let t = store::target_at(g, i);
    match store::node_at(g, t) {
        ConflictNode::Root => None,
        ConflictNode::Solvable(_) => None,
        ConflictNode::UnresolvedDependency => None,
        ConflictNode::Excluded(r) => Some(r),
    }
}

fn find_reason(g: &GraphWords, ls: &ChainWords, n: usize, e1: usize) -> Option<u16>
    requires { Way g.now ls.now n e1 }
    ensures { one_more result ≡ edge_mark (reasons_in g.now (out_left g.now n e1)) }
{
    let mut e = e1;
    while 0 < e {
        let i = e - 1;
        if let Some(r) = reason_at(g, i) {
            return Some(r);
        }
        e = links::next_out(ls, i);
    }
    None
}

fn forbid_at(g: &GraphWords, i: usize) -> bool
    ensures { result ≡ is_forbid (edge_in g.now i).weight }
{
    let e = store::edge_at(g, i);
    let w = e.weight;
    match w {
        ConflictEdge::Requires(_) => false,
        ConflictEdge::Conflict(c) => match c {
            ConflictCause::Locked(_) => false,
            ConflictCause::Constrains(_) => false,
            ConflictCause::ForbidMultipleInstances => true,
            ConflictCause::Excluded => false,
        },
    }
}

fn any_forbid(g: &GraphWords, ls: &ChainWords, n: usize, e1: usize) -> bool
    requires { Way g.now ls.now n e1 }
    ensures { result ≡ forbids_in (out_left g.now n e1) }
{
    let mut e = e1;
    while 0 < e {
        let i = e - 1;
        if forbid_at(g, i) {
            return true;
        }
        e = links::next_out(ls, i);
    }
    false
}

// The version set, where edge i constrains.
fn set_mark(g: &GraphWords, i: usize) -> Option<u16>
    ensures { one_more result ≡ edge_mark (sets_by (edge_in g.now i).weight) }
{
    let e = store::edge_at(g, i);
    let w = e.weight;
    match w {
        ConflictEdge::Requires(_) => None,
        ConflictEdge::Conflict(c) => match c {
            ConflictCause::Locked(_) => None,
            ConflictCause::Constrains(v) => Some(v),
            ConflictCause::ForbidMultipleInstances => None,
            ConflictCause::Excluded => None,
        },
    }
}

// The set written last is v.
fn is_last(k: &[u16; 1024], c: usize, end: usize, v: u16) -> bool
    ensures { result ≡ is_head v (sets_up k.now c end) }
{
    c < end && plan::set_at(k, c) == v
}

fn set_edge(g: &GraphWords, k: &mut [u16; 1024], i: usize, c: usize, end: usize) -> usize
    requires { SetReady g.now k.old i c end }
    ensures { SetStep k.old k.new (sets_by (edge_in g.now i).weight) c result end }
{
    let Some(v) = set_mark(g, i) else {
        return c;
    };
    if is_last(k, c, end, v) {
        return c;
    }
    let d = c - 1;
    k[d] = v;
    d
}

fn sets(
    g: &GraphWords,
    ls: &ChainWords,
    k: &mut [u16; 1024],
    n: usize,
    e1: usize,
    end: usize,
) -> usize
    requires { SetsReady g.now ls.now k.old n e1 end }
    ensures { SetsDone (out_left g.now n e1) k.old end k.new result }
{
    let mut e = e1;
    let mut c = end;
    while 0 < e {
        let i = e - 1;
        c = set_edge(g, k, i, c, end);
        e = links::next_out(ls, i);
    }
    c
}

// In this order: excluded, leaf, forbid, constrains, require. The sets are written below place kc.
pub fn line(
    g: &GraphWords,
    ls: &ChainWords,
    k: &mut [u16; 1024],
    n: usize,
    e1: usize,
    kc: usize,
) -> LineKind
    requires { SetsReady g.now ls.now k.old n e1 kc }
    ensures { LineDone g.now (out_left g.now n e1) k.old kc k.new (line_tag result) (line_reason result) (line_first kc result) }
{
    if let Some(r) = find_reason(g, ls, n, e1) {
        return LineKind::Excluded(r);
    }
    if e1 == 0 {
        return LineKind::Bare;
    }
    if any_forbid(g, ls, n, e1) {
        return LineKind::Conflicting;
    }
    let c = sets(g, ls, k, n, e1, kc);
    if c < kc {
        return LineKind::Constraining(c);
    }
    LineKind::Requiring
}
