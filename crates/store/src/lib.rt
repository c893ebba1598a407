// The conflict graph as it is stored: nodes and edges in the order added, packed into words of a lent table, and the removal
// of `unresolved`. It knows nothing of records, and it alone knows the packing.
#![tactic(auto)]

pub mod behind;
pub mod fan;

ghost use Rattle.std.specs.Prelude.{◌≡◌, ◌+◌, ◌*◌, ◌-◌, ◌<◌, ◌≤◌, ◌/◌, ◌%◌, length, replicate};
ghost use Rattle.store.specs.Graph.{start_graph, renumber, settle, is_excluded};
ghost use Rattle.store.specs.Graph.{is_solvable, is_unresolved};
ghost use Rattle.store.specs.Working.{add_node_in, add_edge_in, add_link_in};
ghost use Rattle.store.specs.Words.{weight_of, by_kind, requirement_code, EdgeWord, CauseWord, WeightWord, NodeWord};
ghost use Rattle.basis.specs.Below.{all_below};
ghost use Rattle.store.specs.Settling.{spares, touches, renumber_word, renumber_at, renumber_to, removed};
ghost use Rattle.store.specs.Finding.{find_of};
ghost use Rattle.store.specs.Adding.{add_target};
ghost use Rattle.store.specs.Direct.{entry_in, entered, more, put_at};
ghost use Rattle.store.specs.Table.{graph_in, edge_in, node_in, first_in, Stored, Growing, added_in, size_of, place_of};

// A number for each node.
// Kept: the project's rule: no heap, fixed memory.
pub type PerNode = [u16; 128];

// Working words, lent to one pass after another; each says how many it takes.
// Kept: the project's rule: no heap, fixed memory.
pub type Scratch = [u64; 1280];

// Chains over a graph: of each node's edges; while it is built, of what building remembers.
// Kept: the project's rule: no heap, fixed memory; the chains are links by number in it.
pub type ChainWords = [u16; 3456];

// A graph: 128 words for its nodes, then one an edge.
// Kept: the project's rule: no heap, fixed memory.
pub type GraphWords = [u64; 1152];

// A node (conflict.rs: `ConflictNode`), with the number of the solvable or reason.
#[derive(Clone, Copy)]
pub enum ConflictNode {
    Root,
    Solvable(u16),
    UnresolvedDependency,
    Excluded(u16),
}

// Why an edge is a conflict (conflict.rs: `ConflictCause`), with the number that it names.
#[derive(Clone, Copy)]
pub enum ConflictCause {
    Locked(u16),
    Constrains(u16),
    ForbidMultipleInstances,
    Excluded,
}

// What an edge says (conflict.rs: `ConflictEdge`).
// Kept: the new form is no plainer: both variants are conflict.rs's own (`ConflictEdge`), and neither is an absence or an error.
#[derive(Clone, Copy)]
pub enum ConflictEdge {
    Requires(u16),
    Conflict(ConflictCause),
}

// An edge, with the number of the core clause that added it: its number among all clauses.
#[derive(Clone, Copy)]
pub struct Edge {
    pub source: u8,
    pub target: u8,
    pub weight: ConflictEdge,
    pub clause: u16,
}

// How many nodes and edges the table holds, and the clause at hand: what is added keeps its number.
#[derive(Clone, Copy)]
pub struct Size {
    pub nodes: usize,
    pub edges: usize,
    pub hand: u16,
}

// The number of the node or edge that was put in, and how much the table holds now.
#[derive(Clone, Copy)]
pub struct Put {
    pub place: usize,
    pub size: Size,
}

// No room for a node or an edge; how much the table holds.
#[derive(Clone, Copy)]
pub struct Full {
    pub size: Size,
}

fn cause_word(c: ConflictCause) -> u64
    ensures { CauseWord c result }
{
    match c {
        ConflictCause::Locked(s) => 1 + 256 * u64::from(s),
        ConflictCause::Constrains(v) => 2 + 256 * u64::from(v),
        ConflictCause::ForbidMultipleInstances => 3,
        ConflictCause::Excluded => 4,
    }
}

// Tag and number: 0 requires, 1 to 4 the causes.
fn weight_word(w: ConflictEdge) -> u64
    ensures { WeightWord w result }
{
    match w {
        ConflictEdge::Requires(q) => 256 * u64::from(q),
        ConflictEdge::Conflict(c) => cause_word(c),
    }
}

fn weight_of(tag: u64, number: u16) -> ConflictEdge
    ensures { result ≡ weight_of tag number }
{
    match tag {
        0 => ConflictEdge::Requires(number),
        1 => ConflictEdge::Conflict(ConflictCause::Locked(number)),
        2 => ConflictEdge::Conflict(ConflictCause::Constrains(number)),
        3 => ConflictEdge::Conflict(ConflictCause::ForbidMultipleInstances),
        _ => ConflictEdge::Conflict(ConflictCause::Excluded),
    }
}

fn edge_word(e: Edge) -> u64
    ensures { EdgeWord e result }
{
    let w = e.weight;
    let s = u64::from(e.source);
    let t = u64::from(e.target);
    let c = u64::from(e.clause);
    s + 256 * t + 65536 * (weight_word(w) + 16777216 * c)
}

// Edge e, with the default edge where the table holds none.
pub fn edge_at(g: &GraphWords, e: usize) -> Edge
    ensures { result ≡ edge_in g.now e }
{
    let w = basis::get(g, e);
    let k = weight_of(w / 65536 % 256, (w / 16777216 % 65536) as u16);
    Edge {
        source: (w % 256) as u8,
        target: (w / 256 % 256) as u8,
        weight: k,
        clause: (w / 1099511627776 % 65536) as u16,
    }
}

// The ends of edge e, as places.
pub fn source_at(g: &GraphWords, e: usize) -> usize
    ensures { (result ≡ (edge_in g.now e).source) × (result < 256) }
{
    (basis::get(g, e) % 256) as usize
}

pub fn target_at(g: &GraphWords, e: usize) -> usize
    ensures { (result ≡ (edge_in g.now e).target) × (result < 256) }
{
    (basis::get(g, e) / 256 % 256) as usize
}

// One more than the requirement's number, or 0 for a conflict: conflict.rs's `try_requires` as one number.
// Kept: an Option is no plainer here. Groups put this number into a key as it is.
pub fn requires_at(g: &GraphWords, e: usize) -> u64
    ensures { (result ≡ requirement_code (edge_in g.now e).weight) × (result ≤ 65536) }
{
    let w = basis::get(g, e);
    let t = w / 65536 % 256;
    let n = w / 16777216 % 65536;
    if t == 0 { n + 1 } else { 0 }
}

pub fn excluded_at(g: &GraphWords, e: usize) -> bool
    ensures { result ≡ is_excluded (edge_in g.now e).weight }
{
    let w = basis::get(g, e);
    3 < w / 65536 % 256
}

// The word that stands for a node, whatever its clause: what other tables may keep of it.
// Kept: the new form is no plainer: a match on the four kinds of node, whose arms are the packing.
pub fn node_word(x: ConflictNode) -> u64
    ensures { NodeWord x result }
{
    match x {
        ConflictNode::Root => 0,
        ConflictNode::Solvable(s) => 1 + 4 * u64::from(s),
        ConflictNode::UnresolvedDependency => 2,
        ConflictNode::Excluded(r) => 3 + 4 * u64::from(r),
    }
}

fn node_of(kind: u64, number: u16) -> ConflictNode
    ensures { result ≡ by_kind kind number }
{
    match kind {
        0 => ConflictNode::Root,
        1 => ConflictNode::Solvable(number),
        2 => ConflictNode::UnresolvedDependency,
        _ => ConflictNode::Excluded(number),
    }
}

// Node n; the root where the table has no place n.
pub fn node_at(g: &GraphWords, n: usize) -> ConflictNode
    ensures { result ≡ node_in g.now n }
{
    if n < 128 {
        let w = basis::get(g, 1024 + n);
        return node_of(w % 4, (w / 4 % 65536) as u16);
    }
    ConflictNode::Root
}

// Node n is a solvable.
// Kept: the new form is no plainer: a test of a node's tag, whose promise names another predicate than `unresolved_at`.
pub fn solvable_at(g: &GraphWords, n: usize) -> bool
    ensures { result ≡ is_solvable (node_in g.now n) }
{
    if n < 128 {
        let w = basis::get(g, 1024 + n);
        return w % 4 == 1;
    }
    false
}

// Node n is unresolved.
// Kept: the new form is no plainer: see `solvable_at`.
pub fn unresolved_at(g: &GraphWords, n: usize) -> bool
    ensures { result ≡ is_unresolved (node_in g.now n) }
{
    if n < 128 {
        let w = basis::get(g, 1024 + n);
        return w % 4 == 2;
    }
    false
}

// The clause that first added node n; 65,535 for the root, for unresolved, and where the table has no place n.
pub fn first_at(g: &GraphWords, n: usize) -> u16
    ensures { result ≡ first_in g.now n }
{
    if n < 128 {
        let w = basis::get(g, 1024 + n);
        return (w / 262144 % 65536) as u16;
    }
    65535
}

// Root is node 0, unresolved node 1, both with clause 65,535 (at 2^18), since none added them. The table is blank, as a caller's fresh
// array is.
pub fn start(g: &mut GraphWords) -> Size
    requires { g.old ≡ replicate 1152 0 }
    ensures { (graph_in g.new result ≡ start_graph) × Growing g.new result }
{
    g[1024] = 17179607040;
    g[1025] = 17179607042;
    Size {
        nodes: 2,
        edges: 0,
        hand: 65535,
    }
}

// The place of word w among the first k nodes, or k; a node's clause is not looked at.
// Kept: what may not change. `find_of`, on which the theorems of Finding.antt and of whatif rest, is this number.
fn find_node(g: &GraphWords, k: usize, w: u64) -> usize
    requires { (length g.now ≡ 1152) × (k ≤ 128) }
    ensures { result ≡ find_of g.now k w }
{
    for i in 0..k {
        if g[1024 + i] % 262144 == w {
            return i;
        }
    }
    k
}

// Entry k of the direct table.
fn entry_at(g: &GraphWords, k: usize) -> u64
    ensures { (result ≡ entry_in g.now k) × (result < 256) }
{
    basis::get(g, k) / 72057594037927936
}

// The place of word w among the nodes, or their count. Root is node 0 and unresolved node 1 while the graph grows; solvables and reasons
// below 512, which are all that a file can name, have an entry in the direct table.
fn find(g: &GraphWords, s: Size, w: u64) -> usize
    requires { Growing g.now s }
    ensures { result ≡ find_of g.now s.nodes w }
{
    let k = s.nodes;
    if w < 2048 {
        if w % 2 == 1 {
            let e = entry_at(g, (w / 2) as usize);
            if e == 0 {
                return k;
            }
            return (e - 1) as usize;
        }
        if w <= 2 {
            return (w / 2) as usize;
        }
    }
    find_node(g, k, w)
}

// The entry of word w in the direct table becomes n, where it has one.
fn enter(g: &mut GraphWords, w: u64, n: u64)
    requires { n < 256 }
    ensures { g.new ≡ entered g.old w n }
{
    if 2048 <= w || w % 2 == 0 {
        return;
    }
    let k = (w / 2) as usize;
    let v = g[k] % 72057594037927936;
    g[k] = v + 72057594037927936 * n;
}

// The node's number, a new one where it is not there yet; 128 where there is no room.
// Kept: tried, and it misses a bar of speed. It is a part of each link, see `fan::link_from`.
#[tactic(auto, using(crate::specs::Adding::node_none), unfolding(crate::specs::Direct::put_at))]
fn put_node(g: &mut GraphWords, s: Size, x: ConflictNode) -> usize
    requires { Growing g.old s }
    ensures result_after { added_in g.new (put_at s result) ≡ add_node_in (graph_in g.old s) x }
    ensures growing { Growing g.new (size_of (put_at s result)) × (place_of (put_at s result) < (size_of (put_at s result)).nodes) }
{
    let w = node_word(x);
    let k = s.nodes;
    let i = find(g, s, w);
    if i < k {
        return i;
    }
    if 128 <= k {
        return 128;
    }
    let c = u64::from(s.hand);
    g[1024 + k] = w + 262144 * c;
    enter(g, w, (k + 1) as u64);
    k
}

// How many nodes there are once node i is in.
fn more(k: usize, i: usize) -> usize
    requires { k ≤ 128 }
    ensures { result ≡ more k i }
{
    if i < k { k } else { k + 1 }
}

// The node's number, a new one where it is not there yet (conflict.rs: `add_node`).
pub fn add_node(g: &mut GraphWords, s: Size, x: ConflictNode) -> Result<Put, Full>
    requires { Growing g.old s }
    ensures result_after { added_in g.new result ≡ add_node_in (graph_in g.old s) x }
    ensures growing { Growing g.new (size_of result) × (place_of result < (size_of result).nodes) }
{
    let i = put_node(g, s, x);
    if 128 <= i {
        return Err(Full { size: s });
    }
    let n = more(s.nodes, i);
    Ok(Put {
        place: i,
        size: Size { nodes: n, ..s },
    })
}

#[tactic(auto, using(crate::specs::Adding::adds_edge))]
fn add_edge(g: &mut GraphWords, s: Size, e: Edge) -> Result<Put, Full>
    requires growing { Growing g.old s }
    requires source_bound { (e.source < 128) × (e.target < s.nodes) }
    ensures result_after { added_in g.new result ≡ add_edge_in (graph_in g.old s) e }
    ensures growing_2 { Growing g.new (size_of result) }
{
    let m = s.edges;
    if 1024 <= m {
        return Err(Full { size: s });
    }
    let w = edge_word(e);
    let k = entry_at(g, m);
    g[m] = w + 72057594037927936 * k;
    Ok(Put {
        place: m,
        size: Size { edges: m + 1, ..s },
    })
}

// The target, then the edge from node `source`.
fn link_to(
    g: &mut GraphWords,
    s: Size,
    source: u8,
    y: ConflictNode,
    w: ConflictEdge,
) -> Result<Put, Full>
    requires growing { Growing g.old s }
    requires source_bound { source < 128 }
    ensures result_after { added_in g.new result ≡ add_target (graph_in g.old s) source y w }
    ensures growing_2 { Growing g.new (size_of result) }
{
    let j = put_node(g, s, y);
    if 128 <= j {
        return Err(Full { size: s });
    }
    let n = more(s.nodes, j);
    let t = Size { nodes: n, ..s };
    let e = Edge {
        source,
        target: j as u8,
        weight: w,
        clause: s.hand,
    };
    add_edge(g, t, e)
}

// Both ends, the source first, then the edge.
pub fn link(
    g: &mut GraphWords,
    s: Size,
    x: ConflictNode,
    y: ConflictNode,
    w: ConflictEdge,
) -> Result<Put, Full>
    requires { Growing g.old s }
    ensures result_after { added_in g.new result ≡ add_link_in (graph_in g.old s) x y w }
    ensures growing { Growing g.new (size_of result) }
{
    let i = put_node(g, s, x);
    if 128 <= i {
        return Err(Full { size: s });
    }
    let n = more(s.nodes, i);
    let t = Size { nodes: n, ..s };
    link_to(g, t, i as u8, y, w)
}

// No edge leads to node 1.
fn spared(g: &GraphWords, m: usize) -> bool
    requires { m ≤ 1024 }
    ensures { result ≡ all_below (spares g.now) m }
{
    for i in 0..m {
        if g[i] / 256 % 256 == 1 {
            return false;
        }
    }
    true
}

fn renumbered(x: u64, last: u64) -> u64
    requires { x < 256 }
    ensures { (result ≡ renumber last x) × (result < 256) }
{
    if x == last { 1 } else { x }
}

// The edge's word with both ends renumbered.
fn renumbered_word(w: u64, last: u64) -> u64
    ensures { result ≡ renumber_word last w }
{
    let s = renumbered(w % 256, last);
    let t = renumbered(w / 256 % 256, last);
    s + 256 * t + 65536 * (w / 65536)
}

// An end of the edge is node `last`.
fn touches(w: u64, last: u64) -> bool
    ensures { result ≡ touches last w }
{
    w % 256 == last || w / 256 % 256 == last
}

// Edge i renumbered; most words stay as they are, and those are not stored again.
fn renumber_at(g: &mut GraphWords, i: usize, last: u64)
    requires { i < 1024 }
    ensures { g.new ≡ renumber_at last g.old i }
{
    let w = g[i];
    if touches(w, last) {
        g[i] = renumbered_word(w, last);
    }
}

fn renumber_all(g: &mut GraphWords, m: usize, last: u64)
    requires { m ≤ 1024 }
    ensures { g.new ≡ renumber_to last g.old m }
{
    for i in 0..m {
        renumber_at(g, i, last);
    }
}

// Node 1 goes, and node `last` takes its number, in the direct table and at the ends of the m edges too (petgraph: `remove_node`).
fn remove(g: &mut GraphWords, last: usize, m: usize)
    requires { (last < 128) × (m ≤ 1024) }
    ensures { g.new ≡ removed g.old last m }
{
    let w = g[1024 + last];
    g[1025] = w;
    g[1024 + last] = 0;
    enter(g, w % 262144, 2);
    renumber_all(g, m, last as u64);
}

// Unresolved goes if no edge leads to it, and the last node takes number 1.
pub fn settle(g: &mut GraphWords, s: Size) -> Size
    requires { Growing g.old s }
    ensures { (graph_in g.new result ≡ settle (graph_in g.old s)) × Stored g.new result }
{
    let m = s.edges;
    if !spared(g, m) {
        return s;
    }
    let last = s.nodes - 1;
    remove(g, last, m);
    Size { nodes: last, ..s }
}
