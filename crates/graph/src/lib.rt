// The conflict graph of a loaded file (conflict.rs: `Conflict::graph`): its core's clauses in file order, then the removal of
// `unresolved`, the chains and reachability; refusals 7, 8 and 9. Who goes along no chains gets the graph without them.
#![tactic(auto)]

ghost use Rattle.std.specs.Prelude.{◌≡◌, true, ◌<◌, ◌≤◌, length, replicate};
ghost use Rattle.records.specs.Read.{tables_of};
ghost use Rattle.index.specs.Index.{Loaded, Blank};
ghost use Rattle.store.specs.Graph.{settle};
ghost use Rattle.store.specs.Table.{graph_in, Stored, Growing};
ghost use Rattle.expansion.specs.State.{build_in, Holds};
ghost use Rattle.graph.specs.Graphs.{is_learnt, reached_all, graph_of};
ghost use Rattle.graph.specs.Working.{core_turn_in, turn_at_in, build_from_in, left_of};
ghost use Rattle.graph.specs.Drawing.{hand_work, Turns, Builds, Drew};
ghost use Rattle.graph.specs.declared.Refusal.TheVariants.{NoRoom};
ghost use Rattle.graph.specs.Files.{Makes, made_of, number_of};
ghost use Rattle.graph.specs.Checked.{Checks, MakesFor};

use expansion::Work;
use index::Slots;
use records::{Clause, Refused};
use store::{ChainWords, Full, GraphWords, Scratch, Size};

// Why a file that reads well has no graph (document 01, "Refusal numbers").
#[derive(Clone, Copy, PartialEq, Eq)]
pub enum Refusal {
    Learnt,
    NoRoom,
    Unreached,
}

impl Refusal {
    // Its number in document 01.
    pub fn number(self) -> u64
        ensures { result ≡ number_of self }
    {
        match self {
            Refusal::Learnt => 7,
            Refusal::NoRoom => 8,
            Refusal::Unreached => 9,
        }
    }
}

// Where a clause is refused: why, and how much the table holds.
#[derive(Clone, Copy)]
pub struct Halt {
    pub refusal: Refusal,
    pub size: Size,
}

impl From<Full> for Halt {
    ghost from_gives = { λ f h. h ≡ record { refusal = NoRoom; size = f.size } };

    fn from(f: Full) -> Halt {
        Halt {
            refusal: Refusal::NoRoom,
            size: f.size,
        }
    }
}

// Where drawing is refused: why, at which clause or node, and how much the table holds.
#[derive(Clone, Copy)]
pub struct Stop {
    pub refusal: Refusal,
    pub place: u64,
    pub size: Size,
}

fn is_learnt(c: Clause) -> bool
    ensures { result ≡ is_learnt c }
{
    match c {
        Clause::InstallRoot => false,
        Clause::Excluded(_, _) => false,
        Clause::Learnt => true,
        Clause::Requires(_, _) => false,
        Clause::Lock(_, _) => false,
        Clause::ForbidMultipleInstances(_, _) => false,
        Clause::Constrains(_, _, _) => false,
        Clause::ConstrainsParent(_, _, _) => false,
        Clause::ConstrainsExcluded(_, _, _) => false,
        Clause::AnyOf(_, _) => false,
    }
}

// A clause of the core: 7 for Learnt, 8 where there is no room.
fn core_turn(
    file: &[u8],
    ix: &Slots,
    g: &mut GraphWords,
    tr: &mut Scratch,
    ls: &mut ChainWords,
    k: Work,
    c: Clause,
) -> Result<Work, Halt>
    requires loaded { Loaded file.now ix.now }
    requires holds { Holds g.old tr.old ls.old k }
    ensures { Turns (core_turn_in (tables_of file.now) c (build_in g.old tr.old ls.old k)) g.new
        tr.new ls.new result }
{
    if is_learnt(c) {
        return Err(Halt {
            refusal: Refusal::Learnt,
            size: k.size,
        });
    }
    let m = expansion::expand(file, ix, g, tr, ls, k, c)?;
    Ok(m)
}

// A Requires of the core, by its links alone. The sizes are taken field by field: a copy of the whole would wait for its parts.
fn requires_turn(
    file: &[u8],
    ix: &Slots,
    g: &mut GraphWords,
    tr: &Scratch,
    ls: &ChainWords,
    k: Work,
    a: u16,
    q: u16,
) -> Result<Work, Halt>
    requires loaded { Loaded file.now ix.now }
    requires holds { Holds g.old tr.now ls.now k }
    ensures { Turns (core_turn_in (tables_of file.now) (Clause.Requires a q) (build_in g.old tr.now ls.now k))
        g.new tr.now ls.now result }
{
    let s = k.size;
    let n = k.triples;
    let t = linking::expand_requires(file, ix, g, s, a, q)?;
    Ok(Work {
        size: Size {
            nodes: t.nodes,
            edges: t.edges,
            hand: t.hand,
        },
        triples: n,
    })
}

// A clause of the core; most are Requires.
fn clause_turn(
    file: &[u8],
    ix: &Slots,
    g: &mut GraphWords,
    tr: &mut Scratch,
    ls: &mut ChainWords,
    k: Work,
    c: Clause,
) -> Result<Work, Halt>
    requires loaded { Loaded file.now ix.now }
    requires holds { Holds g.old tr.old ls.old k }
    ensures { Turns (core_turn_in (tables_of file.now) c (build_in g.old tr.old ls.old k)) g.new
        tr.new ls.new result }
{
    let Clause::Requires(a, q) = c else {
        return core_turn(file, ix, g, tr, ls, k, c);
    };
    requires_turn(file, ix, g, tr, ls, k, a, q)
}

// Clause i at hand: the nodes and edges that it adds keep its number.
fn at_hand(k: Work, i: usize) -> Work
    requires { i < 1024 }
    ensures { result ≡ hand_work k i }
{
    let s = k.size;
    let t = Size {
        nodes: s.nodes,
        edges: s.edges,
        hand: i as u16,
    };
    Work {
        size: t,
        triples: k.triples,
    }
}

// Clause i, which may be outside the core.
fn turn_at(
    file: &[u8],
    ix: &Slots,
    g: &mut GraphWords,
    tr: &mut Scratch,
    ls: &mut ChainWords,
    k: Work,
    i: usize,
) -> Result<Work, Halt>
    requires loaded { Loaded file.now ix.now }
    requires holds { Holds g.old tr.old ls.old k }
    requires i_bound { i < 1024 }
    ensures { Turns (turn_at_in (tables_of file.now) i (build_in g.old tr.old ls.old k)) g.new
        tr.new ls.new result }
{
    if views::in_core(file, ix, i) {
        let c = views::clause(file, ix, i);
        let m = at_hand(k, i);
        return clause_turn(file, ix, g, tr, ls, m, c);
    }
    Ok(k)
}

// The first n clauses.
fn build_core(
    file: &[u8],
    ix: &Slots,
    n: usize,
    g: &mut GraphWords,
    tr: &mut Scratch,
    ls: &mut ChainWords,
    k: Work,
) -> Result<Work, Stop>
    requires loaded { Loaded file.now ix.now }
    requires holds { Holds g.old tr.old ls.old k }
    requires n_bound { n ≤ 1024 }
    ensures { Builds (build_from_in n (tables_of file.now) 0 (build_in g.old tr.old ls.old k)) g.new
        tr.new ls.new result }
{
    let mut m = k;
    for i in 0..n {
        m = match turn_at(file, ix, g, tr, ls, m, i) {
            Ok(z) => z,
            Err(h) => {
                return Err(Stop {
                    refusal: h.refusal,
                    place: i as u64,
                    size: h.size,
                });
            }
        };
    }
    Ok(m)
}

// The chains, then 9.
fn by_chains(g: &GraphWords, ls: &mut ChainWords, t: Size) -> Result<Size, Stop>
    requires stored { Stored g.now t }
    requires ls_len { length ls.old ≡ 3456 }
    ensures { Drew true (reached_all (graph_in g.now t)) (graph_in g.now t) g.now ls.new result }
{
    links::chain(g, t, ls);
    match links::reach::lowest_unreached(g, t, ls) {
        None => Ok(t),
        Some(n) => Err(Stop {
            refusal: Refusal::Unreached,
            place: n as u64,
            size: t,
        }),
    }
}

// Unresolved may go, then 9. Where no chains are asked for, one pass over the edges does, or they are made for 9 alone.
fn finish(g: &mut GraphWords, ls: &mut ChainWords, s: Size, chains: bool) -> Result<Size, Stop>
    requires growing { Growing g.old s }
    requires ls_len { length ls.old ≡ 3456 }
    ensures { Drew chains (reached_all (settle (graph_in g.old s))) (settle (graph_in g.old s)) g.new ls.new result }
{
    let t = store::settle(g, s);
    if chains {
        return by_chains(g, ls, t);
    }
    if links::reach::swept(g, t) {
        return Ok(t);
    }
    by_chains(g, ls, t)
}

// The graph of a file with n clauses. The tables come as fresh arrays; ls holds the chains of a graph that is drawn, where they are asked for.
fn build(
    file: &[u8],
    ix: &Slots,
    n: usize,
    g: &mut GraphWords,
    tr: &mut Scratch,
    ls: &mut ChainWords,
    chains: bool,
) -> Result<Size, Stop>
    requires loaded { Loaded file.now ix.now }
    requires n_value { n ≡ length (tables_of file.now).clauses }
    requires g_value { g.old ≡ replicate 1152 0 }
    requires tr_len { length tr.old ≡ 1280 }
    requires ls_value { ls.old ≡ replicate 3456 0 }
    ensures { Drew chains (graph_of (tables_of file.now)) (left_of (tables_of file.now)) g.new ls.new result }
{
    let s = store::start(g);
    let k = Work {
        size: s,
        triples: 0,
    };
    let m = build_core(file, ix, n, g, tr, ls, k)?;
    finish(g, ls, m.size, chains)
}

fn made_of(d: Result<Size, Stop>) -> Result<Size, Refused>
    ensures { result ≡ made_of d }
{
    match d {
        Ok(s) => Ok(s),
        Err(e) => Err(Refused {
            number: e.refusal.number(),
            place: e.place,
        }),
    }
}

// What a file makes, with the chains where they are asked for.
fn make(
    file: &[u8],
    ix: &mut Slots,
    g: &mut GraphWords,
    tr: &mut Scratch,
    ls: &mut ChainWords,
    chains: bool,
) -> Result<Size, Refused>
    requires blank { Blank ix.old }
    requires g_value { g.old ≡ replicate 1152 0 }
    requires tr_len { length tr.old ≡ 1280 }
    requires ls_value { ls.old ≡ replicate 3456 0 }
    ensures { MakesFor chains file.now ix.new g.new ls.new result }
{
    let c = index::load(file, ix)?;
    let n = c.clauses;
    let d = build(file, ix, n, g, tr, ls, chains);
    made_of(d)
}

// From bytes to the graph: every call begins here, or at `check_file`. The tables come as fresh arrays; on a refusal they are of no use.
pub fn of_file(
    file: &[u8],
    ix: &mut Slots,
    g: &mut GraphWords,
    tr: &mut Scratch,
    ls: &mut ChainWords,
) -> Result<Size, Refused>
    requires blank { Blank ix.old }
    requires g_value { g.old ≡ replicate 1152 0 }
    requires tr_len { length tr.old ≡ 1280 }
    requires ls_value { ls.old ≡ replicate 3456 0 }
    ensures { Makes file.now ix.new g.new ls.new result }
{
    make(file, ix, g, tr, ls, true)
}

// The same for a caller that goes along no chains: of the tables only the graph's is of use after it.
pub fn check_file(
    file: &[u8],
    ix: &mut Slots,
    g: &mut GraphWords,
    tr: &mut Scratch,
    ls: &mut ChainWords,
) -> Result<Size, Refused>
    requires blank { Blank ix.old }
    requires g_value { g.old ≡ replicate 1152 0 }
    requires tr_len { length tr.old ≡ 1280 }
    requires ls_value { ls.old ≡ replicate 3456 0 }
    ensures { Checks file.now g.new result }
{
    make(file, ix, g, tr, ls, false)
}
