// "Refusals: 4 .., 8 .., 17 ..; in that order, graph unchanged": nothing here writes.
ghost use Rattle.std.specs.Prelude.{◌≡◌, cond, ◌+◌, ◌<◌, ◌≤◌, ltb, IfSome, IfNone};
ghost use Rattle.records.specs.Read.{tables_of};
ghost use Rattle.index.specs.Index.{Loaded};
ghost use Rattle.store.specs.Table.{graph_in, Stored};
ghost use Rattle.links.specs.Build.{Chains};
ghost use Rattle.graph.specs.Graphs.{graph_of, drawn};
ghost use Rattle.whatif.specs.Asked.{gone_count, fits_graph};
ghost use Rattle.whatif.specs.Laws.Tests.{chosen_of, graph_test, test_of};

use crate::counts;
use index::Slots;
use records::Refused;
use store::{ChainWords, ConflictNode, GraphWords, Size};

// A question that passes: the chosen package's node and the number of clauses.
#[derive(Clone, Copy)]
pub struct Question {
    pub node: usize,
    pub clause: u16,
}

fn refused(number: u64, place: u64) -> Refused
    ensures { result ≡ record { number = number; place = place } }
{
    Refused { number, place }
}

// 1 where unresolved has gone.
fn gone(g: &GraphWords, s: Size) -> usize
    requires { Stored g.now s }
    ensures { (result ≡ gone_count (graph_in g.now s)) × (result ≤ 1) }
{
    usize::from(!store::unresolved_at(g, 1))
}

// How many nodes there are, of n, with the one whose place is b.
fn with_one(n: usize, b: usize) -> usize
    requires { n ≤ 128 }
    ensures { (result ≡ cond (ltb b n) n (n + 1)) × (result ≤ 129) }
{
    if b < n { n } else { n + 1 }
}

// Node 129 and edge 1,025 would not be added, unresolved counted.
fn has_room(g: &GraphWords, s: Size, reason: u16) -> bool
    requires { Stored g.now s }
    ensures { result ≡ fits_graph (graph_in g.now s) reason }
{
    let b = store::behind::place_of(g, s, ConflictNode::Excluded(reason));
    with_one(s.nodes, b) + gone(g, s) <= 128 && s.edges < 1024
}

// The chosen package's node; none for an unknown solvable or reason, or a solvable without a node.
fn chosen(
    file: &[u8],
    ix: &Slots,
    g: &GraphWords,
    s: Size,
    solvable: u16,
    reason: u16,
) -> Option<usize>
    requires loaded { Loaded file.now ix.now }
    requires stored { Stored g.now s }
    requires file_value { graph_of (tables_of file.now) ≡ drawn (graph_in g.now s) }
    ensures none { IfNone result (s.nodes ≤ chosen_of (tables_of file.now) (graph_in g.now s) solvable reason) }
    ensures some { IfSome result
        (λ a. (a < s.nodes) × (a ≡ chosen_of (tables_of file.now) (graph_in g.now s) solvable reason)) }
{
    if !counts::is_reason(file, ix, usize::from(reason)) {
        return None;
    }
    let a = store::behind::place_of(g, s, ConflictNode::Solvable(solvable));
    if a < s.nodes { Some(a) } else { None }
}

// 8, then 17, for a package that has a node, at a.
fn tested_graph(
    file: &[u8],
    ix: &Slots,
    g: &GraphWords,
    s: Size,
    ls: &ChainWords,
    a: usize,
    reason: u16,
) -> Result<Question, Refused>
    requires loaded { Loaded file.now ix.now }
    requires chains { Chains g.now s ls.now }
    ensures { result ≡ graph_test (tables_of file.now) (graph_in g.now s) a reason }
{
    let n = counts::clauses(file, ix);
    if !has_room(g, s, reason) {
        return Err(refused(8, n as u64));
    }
    match cycles::lowest_on_cycle(g, s, ls) {
        Some(c) => Err(refused(17, c as u64)),
        None => Ok(Question {
            node: a,
            clause: n as u16,
        }),
    }
}

// 4, then 8 and 17.
pub fn tested(
    file: &[u8],
    ix: &Slots,
    g: &GraphWords,
    s: Size,
    ls: &ChainWords,
    solvable: u64,
    reason: u64,
) -> Result<Question, Refused>
    requires loaded { Loaded file.now ix.now }
    requires chains { Chains g.now s ls.now }
    requires file_value { graph_of (tables_of file.now) ≡ drawn (graph_in g.now s) }
    ensures { result ≡ test_of (tables_of file.now) (graph_in g.now s) solvable reason }
{
    if 65535 < solvable || 65535 < reason {
        return Err(refused(4, 0));
    }
    let y = reason as u16;
    match chosen(file, ix, g, s, solvable as u16, y) {
        Some(a) => tested_graph(file, ix, g, s, ls, a, y),
        None => Err(refused(4, 0)),
    }
}
