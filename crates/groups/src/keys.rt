// A node's edges as keys (requirement or none, other end), outgoing where `d`, else incoming, and their comparison as sorted
// lists without sorting: equal beginnings are skipped, and each key that is left is counted on both sides.
ghost use Rattle.std.specs.Prelude.{◌≡◌, ◌<◌, ◌≤◌, length};
ghost use Rattle.store.specs.Table.{graph_in};
ghost use Rattle.links.specs.Build.{Chains};
ghost use Rattle.groups.specs.Multi.{count};
ghost use Rattle.groups.specs.Keys.{keys_in, first_key, next_key, key_at, Way, Skipped, even_left, same_in, same_edges};

use store::{ChainWords, GraphWords, Size};

// Where two chains go on past equal beginnings.
#[derive(Clone, Copy)]
struct Ends {
    left: usize,
    right: usize,
}

// Kept: the new form is no plainer: two reads of a chain, each of the side that `d` names, as `first_key` and `next_key` say.
fn first(ls: &ChainWords, d: bool, n: usize) -> usize
    ensures { (result ≡ first_key ls.now d n) × (result < 65536) }
{
    if d {
        links::first_out(ls, n)
    } else {
        links::first_in(ls, n)
    }
}

// Kept: the new form is no plainer: see `first`.
fn next(ls: &ChainWords, d: bool, e: usize) -> usize
    ensures { (result ≡ next_key ls.now d e) × (result < 65536) }
{
    if d {
        links::next_out(ls, e)
    } else {
        links::next_in(ls, e)
    }
}

pub fn key_at(g: &GraphWords, d: bool, e: usize) -> u64
    ensures { (result ≡ key_at g.now d e) × (result < 33554432) }
{
    let q = store::requires_at(g, e);
    if d {
        q * 256 + store::target_at(g, e) as u64
    } else {
        q * 256 + store::source_at(g, e) as u64
    }
}

// How often key k stands among n's.
fn count_of(g: &GraphWords, s: Size, ls: &ChainWords, d: bool, n: usize, k: u64) -> usize
    requires chains { Chains g.now s ls.now }
    requires n_lt_nodes { n < s.nodes }
    ensures { result ≡ count k (keys_in (graph_in g.now s) d n) }
{
    let mut e = first(ls, d, n);
    let mut c: usize = 0;
    while 0 < e {
        let i = e - 1;
        c += usize::from(k == key_at(g, d, i));
        e = next(ls, d, i);
    }
    c
}

// How many keys n has.
fn degree(g: &GraphWords, s: Size, ls: &ChainWords, d: bool, n: usize) -> usize
    requires chains { Chains g.now s ls.now }
    requires n_lt_nodes { n < s.nodes }
    ensures { (result ≡ length (keys_in (graph_in g.now s) d n)) × (result ≤ 1024) }
{
    let mut e = first(ls, d, n);
    let mut c: usize = 0;
    while 0 < e {
        let i = e - 1;
        c += 1;
        e = next(ls, d, i);
    }
    c
}

fn skip(g: &GraphWords, s: Size, ls: &ChainWords, d: bool, m: usize, n: usize) -> Ends
    requires chains { Chains g.now s ls.now }
    requires m_lt_nodes { (m < s.nodes) × (n < s.nodes) }
    ensures { Skipped g.now ls.now d m n (keys_in (graph_in g.now s) d m) (keys_in (graph_in g.now s) d n)
        result.left result.right }
{
    let mut a = first(ls, d, m);
    let mut b = first(ls, d, n);
    while 0 < a {
        if b == 0 {
            return Ends { left: a, right: b };
        }
        let i = a - 1;
        let j = b - 1;
        if key_at(g, d, i) != key_at(g, d, j) {
            return Ends { left: a, right: b };
        }
        a = next(ls, d, i);
        b = next(ls, d, j);
    }
    Ends { left: a, right: b }
}

// Every key of m's from a on stands as often among n's as among m's.
fn even_from(
    g: &GraphWords,
    s: Size,
    ls: &ChainWords,
    d: bool,
    m: usize,
    n: usize,
    a: usize,
) -> bool
    requires chains { Chains g.now s ls.now }
    requires m_lt_nodes { (m < s.nodes) × (n < s.nodes) }
    requires way { Way g.now ls.now d m a }
    ensures { result ≡ even_left g.now s d m n a }
{
    let mut e = a;
    while 0 < e {
        let i = e - 1;
        let k = key_at(g, d, i);
        if count_of(g, s, ls, d, m, k) != count_of(g, s, ls, d, n, k) {
            return false;
        }
        e = next(ls, d, i);
    }
    true
}

// m's and n's keys are equal as sorted lists.
fn same_keys(g: &GraphWords, s: Size, ls: &ChainWords, d: bool, m: usize, n: usize) -> bool
    requires chains { Chains g.now s ls.now }
    requires m_lt_nodes { (m < s.nodes) × (n < s.nodes) }
    ensures { result ≡ same_in (graph_in g.now s) d m n }
{
    let p = skip(g, s, ls, d, m, n);
    if p.left == 0 {
        return p.right == 0;
    }
    degree(g, s, ls, d, m) == degree(g, s, ls, d, n) && even_from(g, s, ls, d, m, n, p.left)
}

// The full comparison: m's and n's incoming and outgoing edges are equal as sorted lists.
pub fn same_edges(g: &GraphWords, s: Size, ls: &ChainWords, m: usize, n: usize) -> bool
    requires chains { Chains g.now s ls.now }
    requires m_lt_nodes { (m < s.nodes) × (n < s.nodes) }
    ensures { result ≡ same_edges (graph_in g.now s) m n }
{
    same_keys(g, s, ls, false, m, n) && same_keys(g, s, ls, true, m, n)
}
