// The table of kinds, and the counts of the nine tables.
ghost use Rattle.std.specs.Prelude.{◌≡◌, ◌+◌, Some};
ghost use Rattle.records.specs.Pass.{found_at, count_pass, limit_pass, with_pass, is_next, is_before, has_room, more_of};

use crate::{Allowed, Counts, First, Shape, Slot, Table};

// A row of the table.
fn row(table: Table, first: First, a: Slot, b: Slot, c: Slot) -> Option<Shape>
    ensures { result ≡ Some (record { table = table; first = first; a = a; b = b; c = c }) }
{
    Some(Shape {
        table,
        first,
        a,
        b,
        c,
    })
}

// A kind with an own number and a text.
fn texted(t: Table, b: Slot) -> Option<Shape>
    ensures { result ≡ Some (record { table = t; first = First.Length; a = Slot.Own; b = b; c = Slot.Unused }) }
{
    row(t, First::Length, Slot::Own, b, Slot::Unused)
}

// A kind with neither text nor flag.
fn plain(t: Table, a: Slot, b: Slot, c: Slot) -> Option<Shape>
    ensures { result ≡ Some (record { table = t; first = First.Unused; a = a; b = b; c = c }) }
{
    row(t, First::Unused, a, b, c)
}

// A kind of clause.
fn clause(a: Slot, b: Slot, c: Slot) -> Option<Shape>
    ensures { result ≡ Some (record { table = Table.Clauses; first = First.Flag; a = a; b = b; c = c }) }
{
    row(Table::Clauses, First::Flag, a, b, c)
}

// The shape of a kind: "Tables (limit)", "Clauses", "Origins allowed".
#[tactic(auto, using(crate::specs::Pass::at_kind, crate::specs::Pass::at_none), unfolding(crate::specs::Shapes::shape_of))]
pub fn shape_of(kind: u8) -> Option<Shape>
    ensures { result ≡ found_at kind }
{
    let none = Slot::Unused;
    let name = Slot::Names(Table::Names);
    let req = Slot::Names(Table::Requirements);
    let set = Slot::Names(Table::VersionSets);
    let solv = Slot::Variable(Allowed::Solvable);
    let parent = Slot::Variable(Allowed::SolvableOrRoot);
    let aux = Slot::Variable(Allowed::Auxiliary);
    let any = Slot::Variable(Allowed::Any);
    match kind {
        1 => texted(Table::Names, none),
        2 => texted(Table::Solvables, name),
        3 => texted(Table::VersionSets, name),
        4 => texted(Table::Requirements, none),
        5 => plain(Table::Candidates, req, Slot::Names(Table::Solvables), none),
        6 => texted(Table::Reasons, none),
        7 => plain(Table::Variables, Slot::Own, Slot::Origin, Slot::Named),
        8 => plain(
            Table::Assigned,
            Slot::Unassigned,
            Slot::Names(Table::Clauses),
            none,
        ),
        16 => clause(none, none, none),
        17 => clause(solv, Slot::Names(Table::Reasons), none),
        18 => clause(none, none, none),
        19 => clause(Slot::Variable(Allowed::Requirer), req, none),
        20 => clause(solv, solv, none),
        21 => clause(solv, Slot::Variable(Allowed::ForbidMultiple), none),
        22 => clause(parent, solv, set),
        23 => clause(parent, aux, set),
        24 => clause(solv, aux, set),
        25 => clause(any, any, none),
        _ => None,
    }
}

// "Tables (limit)"
#[tactic(auto, unfolding(crate::specs::Pass::limit_pass))]
fn limit_of(t: Table) -> usize
    ensures { result ≡ limit_pass t }
{
    match t {
        Table::Names => 128,
        Table::Solvables => 256,
        Table::VersionSets => 256,
        Table::Requirements => 256,
        Table::Candidates => 1024,
        Table::Reasons => 64,
        Table::Variables => 1024,
        Table::Assigned => 1024,
        Table::Clauses => 1024,
    }
}

// How many records a table has.
#[tactic(auto, unfolding(crate::specs::Pass::count_pass))]
fn count_of(t: Table, c: Counts) -> usize
    ensures { result ≡ count_pass t c }
{
    match t {
        Table::Names => c.names,
        Table::Solvables => c.solvables,
        Table::VersionSets => c.sets,
        Table::Requirements => c.requirements,
        Table::Candidates => c.candidates,
        Table::Reasons => c.reasons,
        Table::Variables => c.variables,
        Table::Assigned => c.assigned,
        Table::Clauses => c.clauses,
    }
}

// The counts with another number for one table.
#[tactic(auto, unfolding(crate::specs::Pass::with_pass))]
fn with_count(t: Table, c: Counts, n: usize) -> Counts
    ensures { result ≡ with_pass t c n }
{
    let mut d = c;
    match t {
        Table::Names => {
            d.names = n;
            return d;
        }
        Table::Solvables => {
            d.solvables = n;
            return d;
        }
        Table::VersionSets => {
            d.sets = n;
            return d;
        }
        Table::Requirements => {
            d.requirements = n;
            return d;
        }
        Table::Candidates => {
            d.candidates = n;
            return d;
        }
        Table::Reasons => {
            d.reasons = n;
            return d;
        }
        Table::Variables => {
            d.variables = n;
            return d;
        }
        Table::Assigned => {
            d.assigned = n;
            return d;
        }
        Table::Clauses => {
            d.clauses = n;
            return d;
        }
    }
}

// x is the next number of a table.
#[tactic(auto, using(crate::specs::Pass::next_is))]
pub fn is_next(t: Table, c: Counts, x: u16) -> bool
    ensures { result ≡ is_next t c x }
{
    usize::from(x) == count_of(t, c)
}

// x is the number of an earlier record of a table.
#[tactic(auto, using(crate::specs::Pass::before_is))]
pub fn is_before(t: Table, c: Counts, x: u16) -> bool
    ensures { result ≡ is_before t c x }
{
    usize::from(x) < count_of(t, c)
}

// A table is not full.
#[tactic(auto, using(crate::specs::Pass::room_is))]
pub fn has_room(t: Table, c: Counts) -> bool
    ensures { result ≡ has_room t c }
{
    count_of(t, c) < limit_of(t)
}

// One record more in a table. Where there is room the test never fails; it keeps the sum from wrapping.
#[tactic(auto, using(basis::specs::Laws::Guard::guards), unfolding(crate::specs::Pass::more_of))]
pub fn more(t: Table, c: Counts) -> Counts
    ensures { result ≡ more_of t c }
{
    let n = count_of(t, c);
    if 1024 <= n {
        return c;
    }
    with_count(t, c, n + 1)
}
