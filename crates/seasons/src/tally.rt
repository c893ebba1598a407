// The counts of a graph that a season's report adds up (document 02, order 8), from the plan before an edition reads it and the labels' table.
ghost use Rattle.std.specs.Prelude.{◌≡◌, ◌≤◌, count_by};
ghost use Rattle.std.specs.List.{range_with_len};
ghost use Rattle.labels.specs.Marks.{miss_at};
ghost use Rattle.seasons.specs.Tally.{leads_in, counts_in, no_counts};

use basis::get;
use store::{PerNode, Scratch, Size};

// How many nodes, edges, groups and missing nodes.
#[derive(Clone, Copy)]
pub struct Counts {
    pub nodes: u64,
    pub edges: u64,
    pub groups: u64,
    pub missing: u64,
}

// Node i is labelled missing.
fn lacks(marks: &PerNode, i: usize) -> bool
    ensures { result ≡ miss_at marks.now i }
{
    1 < get(marks, i)
}

// Node i is the first member of a group.
fn leads(p: &Scratch, i: usize) -> bool
    ensures { result ≡ leads_in p.now i }
{
    plan::merged(p, i) && plan::lead(p, i) == i
}

// How many of the first n nodes are labelled missing.
fn count_missing(marks: &PerNode, n: usize) -> usize
    ensures { result ≡ count_by (miss_at marks.now) (range_with_len 0 n) }
{
    (0..n).filter(|i| lacks(marks, *i)).count()
}

// How many groups the first n nodes have.
fn count_groups(p: &Scratch, n: usize) -> usize
    ensures { result ≡ count_by (leads_in p.now) (range_with_len 0 n) }
{
    (0..n).filter(|i| leads(p, *i)).count()
}

// A file without a graph.
pub fn none() -> Counts
    ensures { result ≡ no_counts }
{
    Counts {
        nodes: 0,
        edges: 0,
        groups: 0,
        missing: 0,
    }
}

// The counts of the graph whose plan is p and whose labels are `marks`.
pub fn count(p: &Scratch, marks: &PerNode, s: Size) -> Counts
    requires { s.nodes ≤ 128 }
    ensures { result ≡ counts_in p.now marks.now s }
{
    let n = s.nodes;
    let g = count_groups(p, n);
    let m = count_missing(marks, n);
    Counts {
        nodes: n as u64,
        edges: s.edges as u64,
        groups: g as u64,
        missing: m as u64,
    }
}
