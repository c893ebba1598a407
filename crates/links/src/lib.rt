// Chains of outgoing and incoming edges, built once over a settled graph, so that no later pass looks at all edges for the
// sake of one node. Three chains in one table: outgoing and incoming newest first, as petgraph reads edges, and outgoing oldest first.
#![tactic(auto)]

pub mod reach;

ghost use Rattle.std.specs.Prelude.{◌≡◌, ◌+◌, ◌<◌, ◌≤◌, length};
ghost use Rattle.basis.specs.Chains.{linked};
ghost use Rattle.store.specs.Table.{Stored};
ghost use Rattle.links.specs.Build.{part_at, out_lay, in_lay, old_lay, source_of, target_of, wiped, linked_up, linked_down, outs_of, intos_of, olds_of, chains_of, Chains};
ghost use Rattle.links.specs.Walk.{head_at, link_at, first_out, next_out, first_in, next_in, first_old, next_old};

use store::{ChainWords, GraphWords};

// Where the part of each chain begins: 1,024 links, then 128 heads.
const OUT: usize = 0;

const IN: usize = 1152;

const OLD: usize = 2304;

// The 128 places from `at` on become 0.
fn clear(ls: &mut ChainWords, at: usize)
    requires { at ≤ 3328 }
    ensures { ls.new ≡ wiped ls.old at 128 }
{
    for k in 0..128 {
        ls[at + k] = 0;
    }
}

// Edge i becomes the first of node n's chain, in the part of the table that begins at b.
fn link(ls: &mut ChainWords, b: usize, i: usize, n: usize)
    requires { (b ≤ 2304) × (i < 1024) × (n < 128) }
    ensures { ls.new ≡ linked (part_at b) ls.old i n }
{
    let at = b + 1024 + n;
    let h = ls[at];
    ls[b + i] = h;
    ls[at] = (i + 1) as u16;
}

// Outgoing, newest first.
// Kept: one function over a closure for the edge's end is no plainer. Each of the three is one loop of one line, and the last goes down.
fn fill_out(g: &GraphWords, s: store::Size, ls: &mut ChainWords)
    requires { Stored g.now s }
    ensures { ls.new ≡ linked_up out_lay (source_of g.now) ls.old s.edges }
{
    for i in 0..s.edges {
        link(ls, OUT, i, store::source_at(g, i));
    }
}

// Incoming, newest first.
fn fill_in(g: &GraphWords, s: store::Size, ls: &mut ChainWords)
    requires { Stored g.now s }
    ensures { ls.new ≡ linked_up in_lay (target_of g.now) ls.old s.edges }
{
    for i in 0..s.edges {
        link(ls, IN, i, store::target_at(g, i));
    }
}

// Outgoing, oldest first: put in from the last edge down.
fn fill_old(g: &GraphWords, s: store::Size, ls: &mut ChainWords)
    requires { Stored g.now s }
    ensures { ls.new ≡ linked_down old_lay (source_of g.now) ls.old s.edges s.edges }
{
    for i in (0..s.edges).rev() {
        link(ls, OLD, i, store::source_at(g, i));
    }
}

fn chain_out(g: &GraphWords, s: store::Size, ls: &mut ChainWords)
    requires { Stored g.now s }
    ensures { ls.new ≡ outs_of g.now s ls.old }
{
    clear(ls, OUT + 1024);
    fill_out(g, s, ls);
}

fn chain_in(g: &GraphWords, s: store::Size, ls: &mut ChainWords)
    requires { Stored g.now s }
    ensures { ls.new ≡ intos_of g.now s ls.old }
{
    clear(ls, IN + 1024);
    fill_in(g, s, ls);
}

fn chain_old(g: &GraphWords, s: store::Size, ls: &mut ChainWords)
    requires { Stored g.now s }
    ensures { ls.new ≡ olds_of g.now s ls.old }
{
    clear(ls, OLD + 1024);
    fill_old(g, s, ls);
}

// All three chains, whatever the table held.
pub fn chain(g: &GraphWords, s: store::Size, ls: &mut ChainWords)
    requires stored { Stored g.now s }
    requires ls_len { length ls.old ≡ 3456 }
    ensures ls_after { ls.new ≡ chains_of g.now s ls.old }
    ensures chains { Chains g.now s ls.new }
{
    chain_out(g, s, ls);
    chain_in(g, s, ls);
    chain_old(g, s, ls);
}

// What is stored for node n in the part that begins at b.
// Kept: the project's rule (fixed memory). The lent table holds one more than an edge, or 0, and the walks go along what it holds.
fn head(ls: &ChainWords, b: usize, n: usize) -> usize
    requires { b ≤ 2304 }
    ensures { (result ≡ head_at (part_at b) ls.now n) × (result < 65536) }
{
    if n < 128 {
        return usize::from(ls[b + 1024 + n]);
    }
    0
}

// What is stored for edge e there.
fn next(ls: &ChainWords, b: usize, e: usize) -> usize
    requires { b ≤ 2304 }
    ensures { (result ≡ link_at (part_at b) ls.now e) × (result < 65536) }
{
    if e < 1024 {
        return usize::from(ls[b + e]);
    }
    0
}

// One more than node n's newest outgoing edge, or 0.
pub fn first_out(ls: &ChainWords, n: usize) -> usize
    ensures { (result ≡ first_out ls.now n) × (result < 65536) }
{
    head(ls, OUT, n)
}

// One more than the edge of the same source before edge e, or 0.
pub fn next_out(ls: &ChainWords, e: usize) -> usize
    ensures { (result ≡ next_out ls.now e) × (result < 65536) }
{
    next(ls, OUT, e)
}

pub fn first_in(ls: &ChainWords, n: usize) -> usize
    ensures { (result ≡ first_in ls.now n) × (result < 65536) }
{
    head(ls, IN, n)
}

pub fn next_in(ls: &ChainWords, e: usize) -> usize
    ensures { (result ≡ next_in ls.now e) × (result < 65536) }
{
    next(ls, IN, e)
}

// One more than node n's oldest outgoing edge, or 0.
pub fn first_old(ls: &ChainWords, n: usize) -> usize
    ensures { (result ≡ first_old ls.now n) × (result < 65536) }
{
    head(ls, OLD, n)
}

pub fn next_old(ls: &ChainWords, e: usize) -> usize
    ensures { (result ≡ next_old ls.now e) × (result < 65536) }
{
    next(ls, OLD, e)
}
