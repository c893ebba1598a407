// Each node's first member. A node is compared with the earlier nodes that are first members themselves, and its edges only
// where the fingerprints and the names are equal.
ghost use Rattle.std.specs.Prelude.{◌≡◌, ◌<◌, ◌≤◌, true, length};
ghost use Rattle.store.specs.Graph.{is_solvable};
ghost use Rattle.store.specs.Table.{graph_in, node_in};
ghost use Rattle.links.specs.Build.{Chains};
ghost use Rattle.groups.specs.Groups.{lead_by};
ghost use Rattle.groups.specs.Prints.{Printed};
ghost use Rattle.groups.specs.Leads.{title_in, leads_to, Ready, alike_of, fits_of};

use store::{ChainWords, GraphWords, PerNode, Size};

// What costs little: the same fingerprint, the same name, and m a first member.
fn alike(ids: &PerNode, prints: &[u32; 128], leads: &PerNode, m: usize, n: usize) -> bool
    requires { (m < n) × (n < 128) }
    ensures { result ≡ alike_of ids.now prints.now leads.now m n }
{
    prints[m] == prints[n] && ids[m] == ids[n] && usize::from(leads[m]) == m
}

// m is a first member, and merges with the later node n, a solvable.
fn fits(
    g: &GraphWords,
    s: Size,
    ls: &ChainWords,
    ids: &PerNode,
    prints: &[u32; 128],
    leads: &PerNode,
    m: usize,
    n: usize,
) -> bool
    requires ready { Ready g.now s ls.now ids.now prints.now leads.now n }
    requires m_lt_n { m < n }
    requires n_value { is_solvable (node_in g.now n) ≡ true }
    ensures { result ≡ fits_of (graph_in g.now s) ids.now leads.now m n }
{
    alike(ids, prints, leads, m, n)
        && store::solvable_at(g, m)
        && crate::keys::same_edges(g, s, ls, m, n)
}

// The first member of node n, a solvable, among the nodes before it.
// Kept: the new form is no plainer: one search for this and `first_named` takes an impl Fn, and its clauses are longer than both loops.
fn first_fit(
    g: &GraphWords,
    s: Size,
    ls: &ChainWords,
    ids: &PerNode,
    prints: &[u32; 128],
    leads: &PerNode,
    n: usize,
) -> usize
    requires ready { Ready g.now s ls.now ids.now prints.now leads.now n }
    requires n_value { is_solvable (node_in g.now n) ≡ true }
    ensures { (result ≡ lead_by (title_in ids.now) (graph_in g.now s) n) × (result ≤ n) }
{
    for m in 0..n {
        if fits(g, s, ls, ids, prints, leads, m, n) {
            return m;
        }
    }
    n
}

// Node n's first member: itself where no earlier node has its fingerprint.
fn lead_of(
    g: &GraphWords,
    s: Size,
    ls: &ChainWords,
    ids: &PerNode,
    prints: &[u32; 128],
    leads: &PerNode,
    n: usize,
) -> usize
    requires { Ready g.now s ls.now ids.now prints.now leads.now n }
    ensures { (result ≡ lead_by (title_in ids.now) (graph_in g.now s) n) × (result ≤ n) }
{
    if crate::prints::twins(prints, n) == 0 || !store::solvable_at(g, n) {
        return n;
    }
    first_fit(g, s, ls, ids, prints, leads, n)
}

// Kept: the new form is no plainer: what this shares with `number_all` is one `for` around a call of its own.
pub fn lead_all(
    g: &GraphWords,
    s: Size,
    ls: &ChainWords,
    ids: &PerNode,
    prints: &[u32; 128],
    leads: &mut PerNode,
)
    requires chains { Chains g.now s ls.now }
    requires printed { Printed (graph_in g.now s) prints.now }
    requires leads_len { length leads.old ≡ 128 }
    ensures { leads.new ≡ leads_to (title_in ids.now) (graph_in g.now s) s.nodes leads.old }
{
    for n in 0..s.nodes {
        leads[n] = lead_of(g, s, ls, ids, prints, leads, n) as u16;
    }
}
