// The edges as plain numbers, five an edge, oldest first: source, target, kind, the number that it names, clause (document 02, order 3).
ghost use Rattle.std.specs.Prelude.{◌≡◌, ◌+◌, ◌*◌, ◌<◌, ◌≤◌, length};
ghost use Rattle.store.specs.Table.{graph_in, Stored};
ghost use Rattle.lists.specs.Edges.{cause_kind, edge_kind, cause_names, names_of, edges_over};
ghost use Rattle.lists.specs.Laws.Edges.{put};

use store::{ConflictCause, ConflictEdge, Edge, GraphWords, Size};

fn cause_kind(c: ConflictCause) -> u16
    ensures { result ≡ cause_kind c }
{
    match c {
        ConflictCause::Locked(_) => 1,
        ConflictCause::Constrains(_) => 2,
        ConflictCause::ForbidMultipleInstances => 3,
        ConflictCause::Excluded => 4,
    }
}

fn cause_number(c: ConflictCause) -> u16
    ensures { result ≡ cause_names c }
{
    match c {
        ConflictCause::Locked(s) => s,
        ConflictCause::Constrains(v) => v,
        ConflictCause::ForbidMultipleInstances | ConflictCause::Excluded => 0,
    }
}

// 0 requires, 1 locked, 2 constrains, 3 forbid-multiple, 4 excluded.
fn kind_of(w: ConflictEdge) -> u16
    ensures { result ≡ edge_kind w }
{
    match w {
        ConflictEdge::Requires(_) => 0,
        ConflictEdge::Conflict(c) => cause_kind(c),
    }
}

// The requirement, the locked solvable or the version set, else 0.
fn number_of(w: ConflictEdge) -> u16
    ensures { result ≡ names_of w }
{
    match w {
        ConflictEdge::Requires(q) => q,
        ConflictEdge::Conflict(c) => cause_number(c),
    }
}

// One edge's five numbers from place a on.
fn put_edge(list: &mut [u16], a: usize, e: Edge)
    requires { a + 4 < length list.old }
    ensures { list.new ≡ put list.old a e }
{
    let k = kind_of(e.weight);
    let n = number_of(e.weight);
    list[a] = u16::from(e.source);
    list[a + 1] = u16::from(e.target);
    list[a + 2] = k;
    list[a + 3] = n;
    list[a + 4] = e.clause;
}

// Five numbers an edge; numbers past the last edge stay.
pub fn put_edges(g: &GraphWords, s: Size, list: &mut [u16])
    requires stored { Stored g.now s }
    requires edges_in_bounds { 5 * s.edges ≤ length list.old }
    ensures { list.new ≡ edges_over (graph_in g.now s) list.old }
{
    for i in 0..s.edges {
        put_edge(list, 5 * i, store::edge_at(g, i));
    }
}
