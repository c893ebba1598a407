// What a clause of the core links in the graph (conflict.rs: `Conflict::graph`), where the graph is all that it touches.
#![tactic(auto)]

ghost use Rattle.std.specs.Prelude.{◌≡◌, ◌∷◌, [], ◌<◌, ◌≤◌};
ghost use Rattle.records.specs.Read.{tables_of};
ghost use Rattle.index.specs.Index.{Loaded};
ghost use Rattle.store.specs.Table.{graph_in, Growing};
ghost use Rattle.views.specs.Walks.{candidates_from, gates_from};
ghost use Rattle.linking.specs.Links.{link, party_of, as_list, requires_of, requirers, gate_reason, excluded_links, lock_links, constrains_links};
ghost use Rattle.linking.specs.Working.{link_all_in, forbid_all_in, last_by};
ghost use Rattle.linking.specs.Growth.{Grew};
ghost use Rattle.linking.specs.Fan.{fan_all};
ghost use Rattle.linking.specs.Parties.{is_node, any_node};
ghost use Rattle.linking.specs.Requiring.{candidate_links, require_of, gate_links, gate_of};

use index::Slots;
use records::{Clause, Origin};
use store::{ConflictCause, ConflictEdge, ConflictNode, Full, GraphWords, Size};

fn link_one(
    g: &mut GraphWords,
    s: Size,
    x: ConflictNode,
    y: ConflictNode,
    w: ConflictEdge,
) -> Result<Size, Full>
    requires { Growing g.old s }
    ensures { Grew (link_all_in (link x y w ∷ []) (graph_in g.old s)) g.new result }
{
    let a = store::link(g, s, x, y, w)?;
    Ok(a.size)
}

// The node of solvable n, and the link from the one before it under its name: p is one more than that, or 0.
pub fn add_forbidden(g: &mut GraphWords, s: Size, p: u16, n: u16) -> Result<Size, Full>
    requires { Growing g.old s }
    ensures { Grew (forbid_all_in (graph_in g.old s) (last_by p) n) g.new result }
{
    let a = store::add_node(g, s, ConflictNode::Solvable(n))?;
    if p == 0 {
        return Ok(a.size);
    }
    let x = ConflictNode::Solvable(p - 1);
    let w = ConflictEdge::Conflict(ConflictCause::ForbidMultipleInstances);
    link_one(g, a.size, x, ConflictNode::Solvable(n), w)
}

// The node that variable v names (conflict.rs: `as_solvable_or_root`), if that is the root or a solvable.
pub fn named(file: &[u8], ix: &Slots, v: u16) -> Option<ConflictNode>
    requires { Loaded file.now ix.now }
    ensures { result ≡ party_of (tables_of file.now) v }
{
    let o = views::origin(file, ix, v);
    match o {
        Origin::Root => Some(ConflictNode::Root),
        Origin::Solvable(s) => Some(ConflictNode::Solvable(s)),
        Origin::ForbidMultiple(_) => None,
        Origin::RequiresGate => None,
        Origin::ConstrainsAuxiliary => None,
        Origin::Other => None,
    }
}

pub fn is_party(file: &[u8], ix: &Slots, v: u16) -> bool
    requires { Loaded file.now ix.now }
    ensures { result ≡ is_node (party_of (tables_of file.now) v) }
{
    named(file, ix, v).is_some()
}

// An edge per candidate from the stored value x on, from node `source`.
#[tactic(auto, using(crate::specs::Fan::fan_cut, crate::specs::Fan::fan_more))]
fn link_each(
    file: &[u8],
    ix: &Slots,
    g: &mut GraphWords,
    s: Size,
    source: u8,
    q: u16,
    x: usize,
) -> Result<Size, Full>
    requires loaded { Loaded file.now ix.now }
    requires growing { Growing g.old s }
    requires source_bound { source < 128 }
    ensures { Grew (fan_all q source (candidates_from (tables_of file.now) x) (graph_in g.old s)) g.new result }
{
    let mut y = x;
    let mut t = s;
    while 0 < y {
        let k = y - 1;
        let c = views::candidate(file, ix, k);
        let n = store::fan::link_from(g, t, source, c, q);
        let u = store::fan::size_after(t, n);
        if 2 <= n {
            return Err(Full { size: u });
        }
        t = u;
        y = views::next_candidate(file, ix, k);
    }
    Ok(t)
}

// An edge per candidate from the stored value x on, which is one: the requirer's node is found once.
fn link_some(
    file: &[u8],
    ix: &Slots,
    g: &mut GraphWords,
    s: Size,
    p: ConflictNode,
    q: u16,
    x: usize,
) -> Result<Size, Full>
    requires loaded { Loaded file.now ix.now }
    requires growing { Growing g.old s }
    requires x_nonzero { 0 < x }
    ensures { Grew (link_all_in (candidate_links (tables_of file.now) q p x) (graph_in g.old s)) g.new result }
{
    let a = store::add_node(g, s, p)?;
    link_each(file, ix, g, a.size, a.place as u8, q, x)
}

// An edge per candidate from the stored value x on.
fn link_candidates(
    file: &[u8],
    ix: &Slots,
    g: &mut GraphWords,
    s: Size,
    p: ConflictNode,
    q: u16,
    x: usize,
) -> Result<Size, Full>
    requires loaded { Loaded file.now ix.now }
    requires growing { Growing g.old s }
    ensures { Grew (link_all_in (candidate_links (tables_of file.now) q p x) (graph_in g.old s)) g.new result }
{
    if x == 0 {
        return Ok(s);
    }
    link_some(file, ix, g, s, p, q, x)
}

// All edges of one requirer.
fn require(
    file: &[u8],
    ix: &Slots,
    g: &mut GraphWords,
    s: Size,
    p: ConflictNode,
    q: u16,
) -> Result<Size, Full>
    requires loaded { Loaded file.now ix.now }
    requires growing { Growing g.old s }
    ensures { Grew (link_all_in (require_of (tables_of file.now) q p) (graph_in g.old s)) g.new result }
{
    let x = views::first_candidate(file, ix, q);
    if x == 0 {
        return link_one(
            g,
            s,
            p,
            ConflictNode::UnresolvedDependency,
            ConflictEdge::Requires(q),
        );
    }
    link_candidates(file, ix, g, s, p, q, x)
}

// All edges of a party, none where it names neither.
fn require_party(
    file: &[u8],
    ix: &Slots,
    g: &mut GraphWords,
    s: Size,
    r: Option<ConflictNode>,
    q: u16,
) -> Result<Size, Full>
    requires loaded { Loaded file.now ix.now }
    requires growing { Growing g.old s }
    ensures { Grew (link_all_in (requires_of (tables_of file.now) q (as_list r)) (graph_in g.old s)) g.new result }
{
    let Some(p) = r else {
        return Ok(s);
    };
    require(file, ix, g, s, p, q)
}

// Some partner of a gate, from the stored value x on, is the root or a solvable.
#[tactic(auto, using(crate::specs::Requiring::gates_kept, crate::specs::Requiring::gate_past, views::specs::Walks::gates_less))]
fn gate_kept(file: &[u8], ix: &Slots, x: usize) -> bool
    requires { Loaded file.now ix.now }
    ensures { result ≡ any_node (tables_of file.now) (gates_from (tables_of file.now) x) }
{
    let mut y = x;
    while 0 < y {
        let k = y - 1;
        let v = views::gate_partner(file, ix, k);
        if is_party(file, ix, v) {
            return true;
        }
        y = views::next_partner(file, ix, k);
    }
    false
}

// The edges of a gate's partners from the stored value x on.
fn link_gate(
    file: &[u8],
    ix: &Slots,
    g: &mut GraphWords,
    s: Size,
    q: u16,
    x: usize,
) -> Result<Size, Full>
    requires loaded { Loaded file.now ix.now }
    requires growing { Growing g.old s }
    ensures { Grew (link_all_in (gate_links (tables_of file.now) q x) (graph_in g.old s)) g.new result }
{
    let mut y = x;
    let mut t = s;
    while 0 < y {
        let k = y - 1;
        let v = views::gate_partner(file, ix, k);
        let r = named(file, ix, v);
        t = require_party(file, ix, g, t, r, q)?;
        y = views::next_partner(file, ix, k);
    }
    Ok(t)
}

// The b of the clause that assigned gate v, if that is AnyOf.
fn recover_gate(file: &[u8], ix: &Slots, v: u16) -> Option<ConflictNode>
    requires { Loaded file.now ix.now }
    ensures { result ≡ gate_reason (tables_of file.now) v }
{
    let i = views::assigned_by(file, ix, v);
    if i == 0 {
        return None;
    }
    let c = views::clause(file, ix, i - 1);
    let Clause::AnyOf(_, b) = c else {
        return None;
    };
    named(file, ix, b)
}

// The edges of all requirers of gate v.
fn expand_gate(
    file: &[u8],
    ix: &Slots,
    g: &mut GraphWords,
    s: Size,
    v: u16,
    q: u16,
) -> Result<Size, Full>
    requires loaded { Loaded file.now ix.now }
    requires growing { Growing g.old s }
    ensures { Grew (link_all_in (requires_of (tables_of file.now) q (gate_of (tables_of file.now) v)) (graph_in g.old s))
        g.new result }
{
    let x = views::first_gate(file, ix, v);
    if gate_kept(file, ix, x) {
        return link_gate(file, ix, g, s, q, x);
    }
    let r = recover_gate(file, ix, v);
    require_party(file, ix, g, s, r, q)
}

pub fn expand_requires(
    file: &[u8],
    ix: &Slots,
    g: &mut GraphWords,
    s: Size,
    a: u16,
    q: u16,
) -> Result<Size, Full>
    requires loaded { Loaded file.now ix.now }
    requires growing { Growing g.old s }
    ensures { Grew (link_all_in (requires_of (tables_of file.now) q (requirers (tables_of file.now) a)) (graph_in g.old s))
        g.new result }
{
    let o = views::origin(file, ix, a);
    match o {
        Origin::Root => require(file, ix, g, s, ConflictNode::Root, q),
        Origin::Solvable(n) => require(file, ix, g, s, ConflictNode::Solvable(n), q),
        Origin::ForbidMultiple(_) => Ok(s),
        Origin::RequiresGate => expand_gate(file, ix, g, s, a, q),
        Origin::ConstrainsAuxiliary => Ok(s),
        Origin::Other => Ok(s),
    }
}

pub fn expand_excluded(
    file: &[u8],
    ix: &Slots,
    g: &mut GraphWords,
    s: Size,
    a: u16,
    r: u16,
) -> Result<Size, Full>
    requires loaded { Loaded file.now ix.now }
    requires growing { Growing g.old s }
    ensures { Grew (link_all_in (excluded_links (tables_of file.now) a r) (graph_in g.old s)) g.new result }
{
    let o = views::origin(file, ix, a);
    let Origin::Solvable(n) = o else {
        return Ok(s);
    };
    let w = ConflictEdge::Conflict(ConflictCause::Excluded);
    link_one(
        g,
        s,
        ConflictNode::Solvable(n),
        ConflictNode::Excluded(r),
        w,
    )
}

pub fn expand_lock(
    file: &[u8],
    ix: &Slots,
    g: &mut GraphWords,
    s: Size,
    a: u16,
    b: u16,
) -> Result<Size, Full>
    requires loaded { Loaded file.now ix.now }
    requires growing { Growing g.old s }
    ensures { Grew (link_all_in (lock_links (tables_of file.now) a b) (graph_in g.old s)) g.new result }
{
    let o = views::origin(file, ix, a);
    let Origin::Solvable(locked) = o else {
        return Ok(s);
    };
    let p = views::origin(file, ix, b);
    let Origin::Solvable(forbidden) = p else {
        return Ok(s);
    };
    let w = ConflictEdge::Conflict(ConflictCause::Locked(locked));
    link_one(
        g,
        s,
        ConflictNode::Root,
        ConflictNode::Solvable(forbidden),
        w,
    )
}

// A direct Constrains neither looks at the triples nor adds to them.
pub fn expand_constrains(
    file: &[u8],
    ix: &Slots,
    g: &mut GraphWords,
    s: Size,
    a: u16,
    b: u16,
    v: u16,
) -> Result<Size, Full>
    requires loaded { Loaded file.now ix.now }
    requires growing { Growing g.old s }
    ensures { Grew (link_all_in (constrains_links (tables_of file.now) a b v) (graph_in g.old s)) g.new result }
{
    let x = named(file, ix, a);
    let Some(n) = x else {
        return Ok(s);
    };
    let y = named(file, ix, b);
    let Some(m) = y else {
        return Ok(s);
    };
    let w = ConflictEdge::Conflict(ConflictCause::Constrains(v));
    link_one(g, s, n, m, w)
}
