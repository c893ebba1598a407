// What each clause of the core adds (conflict.rs: `Conflict::graph`): links, and for clauses 21, 23 and 24 also what is
// remembered, the last solvable under a forbidden name and the triples made.
#![tactic(auto)]

mod triples;

ghost use Rattle.std.specs.Prelude.{◌≡◌, ◌<◌, ◌≤◌};
ghost use Rattle.records.specs.Read.{tables_of};
ghost use Rattle.index.specs.Index.{Loaded};
ghost use Rattle.views.specs.Walks.{aux_from};
ghost use Rattle.expansion.specs.Triple.{triple};
ghost use Rattle.expansion.specs.Hashed.{TripleWord, Triples, made_in};
ghost use Rattle.linking.specs.Links.{party_of, as_list};
ghost use Rattle.linking.specs.Parties.{any_node};
ghost use Rattle.expansion.specs.Expand.{triple_by, triples_of, others};
ghost use Rattle.expansion.specs.Working.{once_in, once_all_in, pair_in, forbid_clause_in, expand_in};
ghost use Rattle.expansion.specs.State.{build_in, Holds, Expanded};
ghost use Rattle.expansion.specs.Pairing.{triples_at, pairs_from, first_other, other_reason};
ghost use Rattle.expansion.specs.Skipping.{new_by, Skipped};
ghost use Rattle.expansion.specs.Forbidding.{widened};

use index::Slots;
use records::{Clause, Origin};
use store::{
    ChainWords, ConflictCause, ConflictEdge, ConflictNode, Full, GraphWords, Scratch, Size,
};

// The side of an auxiliary that a clause stands on: 23 holds a parent, 24 a candidate.
#[derive(Clone, Copy)]
pub enum Side {
    Parent,
    Candidate,
}

// How far building came: the graph's size and the number of triples made.
#[derive(Clone, Copy)]
pub struct Work {
    pub size: Size,
    pub triples: usize,
}

// The edge of a triple, unless it was made before.
fn make_once(
    g: &mut GraphWords,
    tr: &mut Scratch,
    ls: &mut ChainWords,
    k: Work,
    p: ConflictNode,
    d: ConflictNode,
    v: u16,
) -> Result<Work, Full>
    requires { Holds g.old tr.old ls.old k }
    ensures { Expanded (once_in (build_in g.old tr.old ls.old k) (triple p d v)) g.new tr.new
        ls.new result }
{
    let t = triples::pack(p, d, v);
    let n = k.triples;
    if triples::made(tr, ls, n, t) {
        return Ok(k);
    }
    let s = k.size;
    let w = ConflictEdge::Conflict(ConflictCause::Constrains(v));
    let a = store::link(g, s, p, d, w)?;
    triples::make(tr, ls, n, t);
    Ok(Work {
        size: a.size,
        triples: n + 1,
    })
}

// The triple of node n and party r of the other side, none where that names neither.
fn pair_party(
    g: &mut GraphWords,
    tr: &mut Scratch,
    ls: &mut ChainWords,
    k: Work,
    side: Side,
    n: ConflictNode,
    v: u16,
    r: Option<ConflictNode>,
) -> Result<Work, Full>
    requires { Holds g.old tr.old ls.old k }
    ensures { Expanded (once_all_in (triples_of side n v (as_list r)) (build_in g.old tr.old ls.old k)) g.new
        tr.new ls.new result }
{
    let Some(m) = r else {
        return Ok(k);
    };
    match side {
        Side::Parent => make_once(g, tr, ls, k, n, m, v),
        Side::Candidate => make_once(g, tr, ls, k, m, n, v),
    }
}

// Some partner of an auxiliary, from the stored value x on, is the root or a solvable.
fn aux_kept(file: &[u8], ix: &Slots, x: usize) -> bool
    requires { Loaded file.now ix.now }
    ensures { result ≡ any_node (tables_of file.now) (aux_from (tables_of file.now) x) }
{
    let mut y = x;
    while 0 < y {
        let i = y - 1;
        let v = views::aux_partner(file, ix, i);
        if linking::is_party(file, ix, v) {
            return true;
        }
        y = views::next_partner(file, ix, i);
    }
    false
}

// The triple of node n and the partner that clause i tells, none where that names neither.
fn pair_at(
    file: &[u8],
    ix: &Slots,
    g: &mut GraphWords,
    tr: &mut Scratch,
    ls: &mut ChainWords,
    k: Work,
    side: Side,
    n: ConflictNode,
    v: u16,
    i: usize,
) -> Result<Work, Full>
    requires loaded { Loaded file.now ix.now }
    requires holds { Holds g.old tr.old ls.old k }
    ensures { Expanded (once_all_in (triples_at (tables_of file.now) side n v i) (build_in g.old tr.old ls.old k))
        g.new tr.new ls.new result }
{
    let c = views::aux_partner(file, ix, i);
    let r = linking::named(file, ix, c);
    pair_party(g, tr, ls, k, side, n, v, r)
}

// The word of the triple of node n and node p of the other side.
fn word_by(side: Side, n: ConflictNode, v: u16, p: ConflictNode) -> u64
    ensures { TripleWord (triple_by side n v p) result }
{
    match side {
        Side::Parent => triples::pack(n, p, v),
        Side::Candidate => triples::pack(p, n, v),
    }
}

// Variable c names a node whose triple with node n is not among the first m.
fn is_new(
    file: &[u8],
    ix: &Slots,
    tr: &Scratch,
    ls: &ChainWords,
    m: usize,
    side: Side,
    n: ConflictNode,
    v: u16,
    c: u16,
) -> bool
    requires loaded { Loaded file.now ix.now }
    requires triples { Triples tr.now ls.now m }
    ensures { result ≡ new_by side n v (made_in tr.now m) (party_of (tables_of file.now) c) }
{
    let r = linking::named(file, ix, c);
    let Some(p) = r else {
        return false;
    };
    let t = word_by(side, n, v, p);
    !triples::made(tr, ls, m, t)
}

// Past the partners of an auxiliary, from the stored value x on, that add no triple to the first m: the stored value at which
// one does, or 0. Most were made before, and no `Work` is built for those.
fn first_new(
    file: &[u8],
    ix: &Slots,
    tr: &Scratch,
    ls: &ChainWords,
    m: usize,
    side: Side,
    n: ConflictNode,
    v: u16,
    x: usize,
) -> usize
    requires loaded { Loaded file.now ix.now }
    requires triples { Triples tr.now ls.now m }
    ensures { Skipped (tables_of file.now) side n v (made_in tr.now m) x result }
{
    let mut y = x;
    while 0 < y {
        let i = y - 1;
        let c = views::aux_partner(file, ix, i);
        if is_new(file, ix, tr, ls, m, side, n, v, c) {
            return y;
        }
        y = views::next_partner(file, ix, i);
    }
    y
}

// The triples of node n with an auxiliary's partners from the stored value x on.
fn pair_all(
    file: &[u8],
    ix: &Slots,
    g: &mut GraphWords,
    tr: &mut Scratch,
    ls: &mut ChainWords,
    k: Work,
    side: Side,
    n: ConflictNode,
    v: u16,
    x: usize,
) -> Result<Work, Full>
    requires loaded { Loaded file.now ix.now }
    requires holds { Holds g.old tr.old ls.old k }
    ensures { Expanded (once_all_in (pairs_from (tables_of file.now) side n v x) (build_in g.old tr.old ls.old k))
        g.new tr.new ls.new result }
{
    let made = k.triples;
    let mut y = first_new(file, ix, tr, ls, made, side, n, v, x);
    let mut m = k;
    while 0 < y {
        let i = y - 1;
        m = pair_at(file, ix, g, tr, ls, m, side, n, v, i)?;
        let j = m.triples;
        let e = views::next_partner(file, ix, i);
        y = first_new(file, ix, tr, ls, j, side, n, v, e);
    }
    Ok(m)
}

// The first partner of the other side.
fn first_other(file: &[u8], ix: &Slots, side: Side, v: u16) -> usize
    requires { Loaded file.now ix.now }
    ensures { result ≡ first_other (tables_of file.now) side v }
{
    match side {
        Side::Parent => views::first_excluded(file, ix, v),
        Side::Candidate => views::first_parent(file, ix, v),
    }
}

// The party of the other side that the clause which assigned auxiliary v tells, if that is of the other kind.
fn recover_other(file: &[u8], ix: &Slots, side: Side, v: u16) -> Option<ConflictNode>
    requires { Loaded file.now ix.now }
    ensures { result ≡ other_reason (tables_of file.now) side v }
{
    let i = views::assigned_by(file, ix, v);
    if i == 0 {
        return None;
    }
    let c = views::clause(file, ix, i - 1);
    match side {
        Side::Parent => {
            let Clause::ConstrainsExcluded(a, _, _) = c else {
                return None;
            };
            linking::named(file, ix, a)
        }
        Side::Candidate => {
            let Clause::ConstrainsParent(a, _, _) = c else {
                return None;
            };
            linking::named(file, ix, a)
        }
    }
}

// The triples of node n with the whole other side of auxiliary b.
fn pair_others(
    file: &[u8],
    ix: &Slots,
    g: &mut GraphWords,
    tr: &mut Scratch,
    ls: &mut ChainWords,
    k: Work,
    side: Side,
    n: ConflictNode,
    v: u16,
    b: u16,
) -> Result<Work, Full>
    requires loaded { Loaded file.now ix.now }
    requires holds { Holds g.old tr.old ls.old k }
    ensures { Expanded (once_all_in (triples_of side n v (others (tables_of file.now) side b))
        (build_in g.old tr.old ls.old k)) g.new tr.new ls.new result }
{
    let x = first_other(file, ix, side, b);
    if aux_kept(file, ix, x) {
        return pair_all(file, ix, g, tr, ls, k, side, n, v, x);
    }
    let r = recover_other(file, ix, side, b);
    pair_party(g, tr, ls, k, side, n, v, r)
}

// Clauses 23 and 24.
fn expand_pair(
    file: &[u8],
    ix: &Slots,
    g: &mut GraphWords,
    tr: &mut Scratch,
    ls: &mut ChainWords,
    k: Work,
    side: Side,
    a: u16,
    b: u16,
    v: u16,
) -> Result<Work, Full>
    requires loaded { Loaded file.now ix.now }
    requires holds { Holds g.old tr.old ls.old k }
    ensures { Expanded (pair_in (tables_of file.now) side a b v (build_in g.old tr.old ls.old k))
        g.new tr.new ls.new result }
{
    let r = linking::named(file, ix, a);
    let Some(n) = r else {
        return Ok(k);
    };
    pair_others(file, ix, g, tr, ls, k, side, n, v, b)
}

fn widen(k: Work, r: Result<Size, Full>) -> Result<Work, Full>
    ensures { result ≡ widened k r }
{
    let size = r?;
    Ok(Work {
        size,
        triples: k.triples,
    })
}

fn expand_forbid(
    file: &[u8],
    ix: &Slots,
    g: &mut GraphWords,
    tr: &Scratch,
    ls: &mut ChainWords,
    k: Work,
    a: u16,
    b: u16,
) -> Result<Work, Full>
    requires loaded { Loaded file.now ix.now }
    requires holds { Holds g.old tr.now ls.old k }
    ensures { Expanded (forbid_clause_in (tables_of file.now) a b (build_in g.old tr.now ls.old k))
        g.new tr.now ls.new result }
{
    let o = views::origin(file, ix, a);
    let Origin::Solvable(n) = o else {
        return Ok(k);
    };
    let u = views::origin(file, ix, b);
    let Origin::ForbidMultiple(m) = u else {
        return Ok(k);
    };
    let name = usize::from(m);
    let p = triples::last_under(ls, name);
    let s = k.size;
    let r = linking::add_forbidden(g, s, p, n);
    triples::note_last(ls, name, n);
    widen(k, r)
}

// One clause of the core.
pub fn expand(
    file: &[u8],
    ix: &Slots,
    g: &mut GraphWords,
    tr: &mut Scratch,
    ls: &mut ChainWords,
    k: Work,
    c: Clause,
) -> Result<Work, Full>
    requires loaded { Loaded file.now ix.now }
    requires holds { Holds g.old tr.old ls.old k }
    ensures { Expanded (expand_in (tables_of file.now) c (build_in g.old tr.old ls.old k)) g.new
        tr.new ls.new result }
{
    let s = k.size;
    match c {
        Clause::InstallRoot => Ok(k),
        Clause::Excluded(a, r) => {
            let u = linking::expand_excluded(file, ix, g, s, a, r);
            widen(k, u)
        }
        Clause::Learnt => Ok(k),
        Clause::Requires(a, q) => {
            let u = linking::expand_requires(file, ix, g, s, a, q);
            widen(k, u)
        }
        Clause::Lock(a, b) => {
            let u = linking::expand_lock(file, ix, g, s, a, b);
            widen(k, u)
        }
        Clause::ForbidMultipleInstances(a, b) => expand_forbid(file, ix, g, tr, ls, k, a, b),
        Clause::Constrains(a, b, v) => {
            let u = linking::expand_constrains(file, ix, g, s, a, b, v);
            widen(k, u)
        }
        Clause::ConstrainsParent(a, b, v) => expand_pair(
            file,
            ix,
            g,
            tr,
            ls,
            k,
            Side::Parent,
            a,
            b,
            v,
        ),
        Clause::ConstrainsExcluded(a, b, v) => expand_pair(
            file,
            ix,
            g,
            tr,
            ls,
            k,
            Side::Candidate,
            a,
            b,
            v,
        ),
        Clause::AnyOf(_, _) => Ok(k),
    }
}
