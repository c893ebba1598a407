// A good record by the arm of its kind: all that is asked of it at once, on plain numbers. Where an arm says no, `check` says why.
#![tactic(auto, using(basis::specs::Laws::Guard::guards))]

ghost use Rattle.std.specs.Prelude.{◌≡◌, ◌<◌};
ghost use Rattle.records.specs.Shapes.{records_of};
ghost use Rattle.records.specs.Tables.{at};
ghost use Rattle.arms.specs.Fits.{texted_fits, named_fits, candidate_fits, stands_fits, variable_fits, origin_fits, refers_fits, alone_fits, parties_fit};
ghost use Rattle.arms.specs.Fits.{pair_fits, bounded_fits, assigned_fits, Sure};

use records::check::mark_origin;
use records::fields::{a_at, b_at, c_at, kind_at};
use records::origins::{allowed, is_free, named_good, named_zero};
use records::text::{flagged, text_good, unmarked};
use records::{Allowed, Counts, Table};

// Number n of a table that holds l, with a text.
fn texted(file: &[u8], i: usize, n: usize, l: usize) -> bool
    ensures { result ≡ texted_fits (at (records_of file.now) i) n l }
{
    if l <= n {
        return false;
    }
    if usize::from(a_at(file, i)) != n {
        return false;
    }
    if b_at(file, i) != 0 {
        return false;
    }
    if c_at(file, i) != 0 {
        return false;
    }
    text_good(file, i)
}

// The same with one of k names.
fn named(file: &[u8], i: usize, n: usize, l: usize, k: usize) -> bool
    ensures { result ≡ named_fits (at (records_of file.now) i) n l k }
{
    if l <= n {
        return false;
    }
    if usize::from(a_at(file, i)) != n {
        return false;
    }
    if k <= usize::from(b_at(file, i)) {
        return false;
    }
    if c_at(file, i) != 0 {
        return false;
    }
    text_good(file, i)
}

// Candidate n, over k requirements and l solvables.
fn candidate(file: &[u8], i: usize, n: usize, k: usize, l: usize) -> bool
    ensures { result ≡ candidate_fits (at (records_of file.now) i) n k l }
{
    if 1024 <= n {
        return false;
    }
    if k <= usize::from(a_at(file, i)) {
        return false;
    }
    if l <= usize::from(b_at(file, i)) {
        return false;
    }
    if c_at(file, i) != 0 {
        return false;
    }
    unmarked(file, i)
}

// The origin of a variable, and what it names.
fn stands(file: &[u8], i: usize, c: Counts) -> bool
    ensures { result ≡ stands_fits c (at (records_of file.now) i) }
{
    let b = b_at(file, i);
    if 5 < b {
        return false;
    }
    let x = c_at(file, i);
    if !named_zero(b, x) {
        return false;
    }
    named_good(c, b, x)
}

// Variable n.
fn variable(file: &[u8], i: usize, c: Counts, n: usize) -> bool
    ensures { result ≡ variable_fits c (at (records_of file.now) i) n }
{
    if 1024 <= n {
        return false;
    }
    if usize::from(a_at(file, i)) != n {
        return false;
    }
    if !stands(file, i, c) {
        return false;
    }
    unmarked(file, i)
}

// One of v variables, of an origin that is allowed.
fn origin_fits(m: &[u16], v: usize, o: Allowed, x: u16) -> bool
    ensures { result ≡ origin_fits m.now v o x }
{
    if v <= usize::from(x) {
        return false;
    }
    let k = mark_origin(m, x);
    allowed(o, k)
}

// Clause n of one of v variables, and of one of k requirements or reasons.
fn refers(file: &[u8], i: usize, m: &[u16], n: usize, v: usize, k: usize, o: Allowed) -> bool
    ensures { result ≡ refers_fits m.now (at (records_of file.now) i) n v k o }
{
    if 1024 <= n {
        return false;
    }
    if k <= usize::from(b_at(file, i)) {
        return false;
    }
    if c_at(file, i) != 0 {
        return false;
    }
    if !flagged(file, i) {
        return false;
    }
    let a = a_at(file, i);
    origin_fits(m, v, o, a)
}

// Clause n that names nothing.
fn alone(file: &[u8], i: usize, n: usize) -> bool
    ensures { result ≡ alone_fits (at (records_of file.now) i) n }
{
    if 1024 <= n {
        return false;
    }
    if a_at(file, i) != 0 {
        return false;
    }
    if b_at(file, i) != 0 {
        return false;
    }
    if c_at(file, i) != 0 {
        return false;
    }
    flagged(file, i)
}

// Two of v variables, and a flag.
fn parties(file: &[u8], i: usize, m: &[u16], v: usize, o: Allowed, p: Allowed) -> bool
    ensures { result ≡ parties_fit m.now (at (records_of file.now) i) v o p }
{
    let a = a_at(file, i);
    if !origin_fits(m, v, o, a) {
        return false;
    }
    let b = b_at(file, i);
    if !origin_fits(m, v, p, b) {
        return false;
    }
    flagged(file, i)
}

// Clause n of two of v variables.
fn pair(file: &[u8], i: usize, m: &[u16], n: usize, v: usize, o: Allowed, p: Allowed) -> bool
    ensures { result ≡ pair_fits m.now (at (records_of file.now) i) n v o p }
{
    if 1024 <= n {
        return false;
    }
    if c_at(file, i) != 0 {
        return false;
    }
    parties(file, i, m, v, o, p)
}

// Clause n of two of v variables and one of k version sets.
fn bounded(
    file: &[u8],
    i: usize,
    m: &[u16],
    n: usize,
    v: usize,
    k: usize,
    o: Allowed,
    p: Allowed,
) -> bool
    ensures { result ≡ bounded_fits m.now (at (records_of file.now) i) n v k o p }
{
    if 1024 <= n {
        return false;
    }
    if k <= usize::from(c_at(file, i)) {
        return false;
    }
    parties(file, i, m, v, o, p)
}

// Record 8 number n, of one of k clauses.
fn assigned(file: &[u8], i: usize, c: Counts, m: &[u16], n: usize, k: usize) -> bool
    ensures { result ≡ assigned_fits c m.now (at (records_of file.now) i) n k }
{
    if 1024 <= n {
        return false;
    }
    let a = a_at(file, i);
    if !is_free(c, m, a) {
        return false;
    }
    if k <= usize::from(b_at(file, i)) {
        return false;
    }
    if c_at(file, i) != 0 {
        return false;
    }
    unmarked(file, i)
}

// Record i by the arm of its kind: the table that it goes into; nothing where the arm says no.
pub fn quick(file: &[u8], i: usize, c: Counts, m: &[u16]) -> Option<Table>
    ensures { Sure c m.now (at (records_of file.now) i) result }
{
    match kind_at(file, i) {
        1 => texted(file, i, c.names, 128).then_some(Table::Names),
        2 => named(file, i, c.solvables, 256, c.names).then_some(Table::Solvables),
        3 => named(file, i, c.sets, 256, c.names).then_some(Table::VersionSets),
        4 => texted(file, i, c.requirements, 256).then_some(Table::Requirements),
        5 => candidate(file, i, c.candidates, c.requirements, c.solvables).then_some(
            Table::Candidates,
        ),
        6 => texted(file, i, c.reasons, 64).then_some(Table::Reasons),
        7 => variable(file, i, c, c.variables).then_some(Table::Variables),
        8 => assigned(file, i, c, m, c.assigned, c.clauses).then_some(Table::Assigned),
        16 => alone(file, i, c.clauses).then_some(Table::Clauses),
        17 => refers(
            file,
            i,
            m,
            c.clauses,
            c.variables,
            c.reasons,
            Allowed::Solvable,
        )
        .then_some(Table::Clauses),
        18 => alone(file, i, c.clauses).then_some(Table::Clauses),
        19 => refers(
            file,
            i,
            m,
            c.clauses,
            c.variables,
            c.requirements,
            Allowed::Requirer,
        )
        .then_some(Table::Clauses),
        20 => pair(
            file,
            i,
            m,
            c.clauses,
            c.variables,
            Allowed::Solvable,
            Allowed::Solvable,
        )
        .then_some(Table::Clauses),
        21 => pair(
            file,
            i,
            m,
            c.clauses,
            c.variables,
            Allowed::Solvable,
            Allowed::ForbidMultiple,
        )
        .then_some(Table::Clauses),
        22 => bounded(
            file,
            i,
            m,
            c.clauses,
            c.variables,
            c.sets,
            Allowed::SolvableOrRoot,
            Allowed::Solvable,
        )
        .then_some(Table::Clauses),
        23 => bounded(
            file,
            i,
            m,
            c.clauses,
            c.variables,
            c.sets,
            Allowed::SolvableOrRoot,
            Allowed::Auxiliary,
        )
        .then_some(Table::Clauses),
        24 => bounded(
            file,
            i,
            m,
            c.clauses,
            c.variables,
            c.sets,
            Allowed::Solvable,
            Allowed::Auxiliary,
        )
        .then_some(Table::Clauses),
        25 => pair(
            file,
            i,
            m,
            c.clauses,
            c.variables,
            Allowed::Any,
            Allowed::Any,
        )
        .then_some(Table::Clauses),
        _ => None,
    }
}
