// The node list as numbers: kind, number, group, both labels and first clause of each node in one word, from the graph and the tables
// of `labels` and `groups`.
ghost use Rattle.std.specs.Prelude.{◌≡◌, ◌<◌, get_or};
ghost use Rattle.store.specs.Table.{graph_in, node_in, first_in, Stored};
ghost use Rattle.lists.specs.Listing.{node_part, node_word, entries_to};

use store::{ConflictNode, GraphWords, PerNode, Size};

// Kept: the new form is no plainer: a match on the four kinds of node, whose arms are what C reads.
fn node_part(x: ConflictNode) -> u64
    ensures { (result ≡ node_part x) × (result < 16777216) }
{
    match x {
        ConflictNode::Root => 0,
        ConflictNode::Solvable(s) => 1 + 256 * u64::from(s),
        ConflictNode::UnresolvedDependency => 2,
        ConflictNode::Excluded(r) => 3 + 256 * u64::from(r),
    }
}

fn entry(g: &GraphWords, marks: &PerNode, leads: &PerNode, n: usize) -> u64
    requires { n < 128 }
    ensures { result ≡ node_word (node_in g.now n) (get_or marks.now n 0) (get_or leads.now n 0) (first_in g.now n) }
{
    let p = node_part(store::node_at(g, n));
    let m = u64::from(marks[n]);
    let l = u64::from(leads[n]) % 256;
    let c = store::first_at(g, n);
    p + 16777216 * l
        + 4294967296 * (m % 2)
        + 1099511627776 * (m / 2 % 2)
        + 281474976710656 * u64::from(c)
}

// Each node's entry; words past the last node stay.
pub fn list(g: &GraphWords, s: Size, marks: &PerNode, leads: &PerNode, words: &mut [u64; 128])
    requires { Stored g.now s }
    ensures { words.new ≡ entries_to (graph_in g.now s) marks.now leads.now s.nodes words.old }
{
    for n in 0..s.nodes {
        words[n] = entry(g, marks, leads, n);
    }
}
