// The nodes in their order, and the edges of each, newest first.
ghost use Rattle.std.specs.Prelude.{◌≡◌, ◌+◌, ◌<◌, get_or, set, eqb};
ghost use Rattle.records.specs.Read.{tables_of};
ghost use Rattle.store.specs.Table.{node_in, edge_in};
ghost use Rattle.index.specs.Index.{Loaded};
ghost use Rattle.drawing.specs.Draw.{drawn_at, edge_units, node_units, all_units};
ghost use Rattle.drawing.specs.Pen.{going, ended, Fine, Adds};
ghost use Rattle.drawing.specs.Stamps.{marked, Stamped, step_units};
ghost use Rattle.drawing.specs.Walk.{drawn_in, Edged, Ready};

use super::units::add_edge;
use super::{Full, Pen};
use index::Slots;
use store::{ChainWords, ConflictNode, GraphWords, PerNode, Size};

// Whether an edge of node n to the group of first member l was met before; it is met now.
fn stamp(w: &mut [u8; 128], l: usize, n: usize) -> bool
    requires { (l < 128) × (n < 128) }
    ensures value { result ≡ eqb (get_or w.old l 0) (n + 1) }
    ensures w_after { w.new ≡ set w.old l (n + 1) }
{
    let v = (n + 1) as u8;
    let old = w[l];
    w[l] = v;
    old == v
}

// Edge i of node n, unless its target's group was met before.
fn step(
    file: &[u8],
    ix: &Slots,
    g: &GraphWords,
    s: Size,
    m: &PerNode,
    w: &mut [u8; 128],
    n: usize,
    i: usize,
    out: &mut [u8],
    p: Pen,
) -> Result<Pen, Full>
    requires loaded { Loaded file.now ix.now }
    requires edged { Edged g.now s m.now n i }
    requires fine { Fine out.old (going p) }
    ensures adds { Adds (step_units (drawn_in (tables_of file.now) g.now s m.now) n w.old
        (edge_in g.now i)) out.old (going p) out.new (ended result) }
    ensures w_after { w.new ≡ marked w.old (get_or m.now (edge_in g.now i).target 0) n }
{
    let t = store::target_at(g, i);
    let k = usize::from(m[t]);
    if k == 0 {
        return add_edge(file, ix, g, n, t, i, out, p);
    }
    let l = k - 1;
    let old = stamp(w, l, n);
    if old {
        return Ok(p);
    }
    add_edge(file, ix, g, n, l, i, out, p)
}

fn add_edges(
    file: &[u8],
    ix: &Slots,
    g: &GraphWords,
    s: Size,
    ls: &ChainWords,
    m: &PerNode,
    w: &mut [u8; 128],
    n: usize,
    out: &mut [u8],
    p: Pen,
) -> Result<Pen, Full>
    requires loaded { Loaded file.now ix.now }
    requires ready { Ready g.now s ls.now m.now }
    requires n_lt_nodes { n < s.nodes }
    requires stamped { Stamped w.old n }
    requires fine { Fine out.old (going p) }
    ensures adds { Adds (edge_units (drawn_in (tables_of file.now) g.now s m.now) n) out.old (going p) out.new
        (ended result) }
    ensures stamped_2 { Stamped w.new (n + 1) }
{
    let mut e = links::first_out(ls, n);
    let mut q = p;
    while 0 < e {
        let i = e - 1;
        q = step(file, ix, g, s, m, w, n, i, out, q)?;
        e = links::next_out(ls, i);
    }
    Ok(q)
}

// Whether node n's edges are drawn: the root's and the solvables', of a merged group the first member's.
fn is_drawn(g: &GraphWords, m: &PerNode, n: usize) -> bool
    requires { n < 128 }
    ensures { result ≡ drawn_at m.now (node_in g.now n) n }
{
    let x = store::node_at(g, n);
    match x {
        ConflictNode::Root => true,
        ConflictNode::Solvable(_) => {
            let k = usize::from(m[n]);
            if k == 0 {
                return true;
            }
            k - 1 == n
        }
        ConflictNode::UnresolvedDependency => false,
        ConflictNode::Excluded(_) => false,
    }
}

fn add_node(
    file: &[u8],
    ix: &Slots,
    g: &GraphWords,
    s: Size,
    ls: &ChainWords,
    m: &PerNode,
    w: &mut [u8; 128],
    n: usize,
    out: &mut [u8],
    p: Pen,
) -> Result<Pen, Full>
    requires loaded { Loaded file.now ix.now }
    requires ready { Ready g.now s ls.now m.now }
    requires n_lt_nodes { n < s.nodes }
    requires stamped { Stamped w.old n }
    requires fine { Fine out.old (going p) }
    ensures adds { Adds (node_units (drawn_in (tables_of file.now) g.now s m.now) n) out.old (going p) out.new
        (ended result) }
    ensures stamped_2 { Stamped w.new (n + 1) }
{
    let d = is_drawn(g, m, n);
    if d {
        return add_edges(file, ix, g, s, ls, m, w, n, out, p);
    }
    Ok(p)
}

pub fn add_nodes(
    file: &[u8],
    ix: &Slots,
    g: &GraphWords,
    s: Size,
    ls: &ChainWords,
    m: &PerNode,
    w: &mut [u8; 128],
    out: &mut [u8],
    p: Pen,
) -> Result<Pen, Full>
    requires loaded { Loaded file.now ix.now }
    requires ready { Ready g.now s ls.now m.now }
    requires stamped { Stamped w.old 0 }
    requires fine { Fine out.old (going p) }
    ensures { Adds (all_units (drawn_in (tables_of file.now) g.now s m.now)) out.old (going p) out.new (ended result) }
{
    let mut q = p;
    for n in 0..s.nodes {
        q = add_node(file, ix, g, s, ls, m, w, n, out, q)?;
    }
    Ok(q)
}
