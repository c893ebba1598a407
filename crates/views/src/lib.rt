// What the crates above read of an accepted file, through its index. Every number gets an answer: past the end of a table it
// is what an empty record holds.
#![tactic(auto)]

ghost use Rattle.std.specs.Prelude.{◌≡◌, ◌≤◌};
ghost use Rattle.records.specs.Shapes.{records_of};
ghost use Rattle.records.specs.Tables.{at};
ghost use Rattle.records.specs.Read.{tables_of};
ghost use Rattle.records.specs.Views.{name_text, version_text, set_text, requirement_text, reason_text, solvable_name, set_name, origin_of, clause_in, clause_of, core_at};
ghost use Rattle.index.specs.Index.{Loaded};
ghost use Rattle.index.specs.Found.{assigned_mark};
ghost use Rattle.views.specs.Walks.{first_candidate, next_candidate, candidate_at, first_gate, first_parent, first_excluded, next_partner, gate_at, aux_at};

use index::{Slots, place, record_no, regions};
use records::fields::{a_at, b_at, c_at, first_at, kind_at, text_at};
use records::{Clause, Origin};

// The text of a name.
pub fn name_text<'a>(file: &'a [u8], ix: &Slots, n: u16) -> &'a [u8]
    requires { Loaded file.now ix.now }
    ensures { result.now ≡ name_text (tables_of file.now) n }
{
    let k = usize::from(n);
    let i = record_no(ix, regions::NAMES, regions::NAMES_MOST, k);
    text_at(file, i)
}

// The version of a solvable.
pub fn version_text<'a>(file: &'a [u8], ix: &Slots, s: u16) -> &'a [u8]
    requires { Loaded file.now ix.now }
    ensures { result.now ≡ version_text (tables_of file.now) s }
{
    let k = usize::from(s);
    let i = record_no(ix, regions::SOLVABLES, regions::SOLVABLES_MOST, k);
    text_at(file, i)
}

// The text of a version set.
pub fn set_text<'a>(file: &'a [u8], ix: &Slots, v: u16) -> &'a [u8]
    requires { Loaded file.now ix.now }
    ensures { result.now ≡ set_text (tables_of file.now) v }
{
    let k = usize::from(v);
    let i = record_no(ix, regions::SETS, regions::SETS_MOST, k);
    text_at(file, i)
}

// The text of a requirement.
pub fn requirement_text<'a>(file: &'a [u8], ix: &Slots, q: u16) -> &'a [u8]
    requires { Loaded file.now ix.now }
    ensures { result.now ≡ requirement_text (tables_of file.now) q }
{
    let k = usize::from(q);
    let i = record_no(ix, regions::REQUIREMENTS, regions::REQUIREMENTS_MOST, k);
    text_at(file, i)
}

// The text of a reason.
pub fn reason_text<'a>(file: &'a [u8], ix: &Slots, n: u16) -> &'a [u8]
    requires { Loaded file.now ix.now }
    ensures { result.now ≡ reason_text (tables_of file.now) n }
{
    let k = usize::from(n);
    let i = record_no(ix, regions::REASONS, regions::REASONS_MOST, k);
    text_at(file, i)
}

// The name of a solvable.
#[tactic(auto, using(index::specs::Found::solvable_name_lem))]
pub fn solvable_name(file: &[u8], ix: &Slots, s: u16) -> u16
    requires { Loaded file.now ix.now }
    ensures { result ≡ solvable_name (tables_of file.now) s }
{
    let k = usize::from(s);
    let i = record_no(ix, regions::SOLVABLES, regions::SOLVABLES_MOST, k);
    b_at(file, i)
}

// The name of a version set.
#[tactic(auto, using(index::specs::Found::set_name))]
pub fn set_name(file: &[u8], ix: &Slots, v: u16) -> u16
    requires { Loaded file.now ix.now }
    ensures { result ≡ set_name (tables_of file.now) v }
{
    let k = usize::from(v);
    let i = record_no(ix, regions::SETS, regions::SETS_MOST, k);
    b_at(file, i)
}

// What a variable stands for.
#[tactic(auto, using(crate::specs::Slots::origins))]
pub fn origin(file: &[u8], ix: &Slots, v: u16) -> Origin
    requires { Loaded file.now ix.now }
    ensures { result ≡ origin_of (tables_of file.now) v }
{
    let k = usize::from(v);
    let i = record_no(ix, regions::VARIABLES, regions::VARIABLES_MOST, k);
    let o = b_at(file, i);
    let c = c_at(file, i);
    match o {
        0 => Origin::Root,
        1 => Origin::Solvable(c),
        2 => Origin::ForbidMultiple(c),
        3 => Origin::RequiresGate,
        4 => Origin::ConstrainsAuxiliary,
        _ => Origin::Other,
    }
}

// The clause that record i is.
#[tactic(auto, using(crate::specs::Slots::clauses))]
fn clause_at(file: &[u8], i: usize) -> Clause
    ensures { result ≡ clause_in (at (records_of file.now) i) }
{
    let k = kind_at(file, i);
    let a = a_at(file, i);
    let b = b_at(file, i);
    let c = c_at(file, i);
    match k {
        16 => Clause::InstallRoot,
        17 => Clause::Excluded(a, b),
        19 => Clause::Requires(a, b),
        20 => Clause::Lock(a, b),
        21 => Clause::ForbidMultipleInstances(a, b),
        22 => Clause::Constrains(a, b, c),
        23 => Clause::ConstrainsParent(a, b, c),
        24 => Clause::ConstrainsExcluded(a, b, c),
        25 => Clause::AnyOf(a, b),
        _ => Clause::Learnt,
    }
}

// Clause i.
#[tactic(auto, using(crate::specs::Slots::clause_found_lem))]
pub fn clause(file: &[u8], ix: &Slots, i: usize) -> Clause
    requires { Loaded file.now ix.now }
    ensures { result ≡ clause_of (tables_of file.now) i }
{
    let j = record_no(ix, regions::CLAUSES, regions::CLAUSES_MOST, i);
    clause_at(file, j)
}

// Whether clause i is in the core.
#[tactic(auto, using(crate::specs::Slots::core_yes, crate::specs::Slots::core_no))]
pub fn in_core(file: &[u8], ix: &Slots, i: usize) -> bool
    requires { Loaded file.now ix.now }
    ensures { result ≡ core_at (tables_of file.now) i }
{
    let j = record_no(ix, regions::CLAUSES, regions::CLAUSES_MOST, i);
    if first_at(file, j) == 1 { true } else { false }
}

// The clause that assigned a variable, plus one, or 0.
#[tactic(auto, using(index::specs::Found::assigned_mark_lem, index::specs::Found::assigned_small))]
pub fn assigned_by(file: &[u8], ix: &Slots, v: u16) -> usize
    requires { Loaded file.now ix.now }
    ensures { (result ≡ assigned_mark (tables_of file.now) v) × (result ≤ 1024) }
{
    let k = usize::from(v);
    place(ix, regions::ASSIGNED, regions::ASSIGNED_MOST, k)
}

// The place, plus one, of the first candidate of a requirement, or 0.
#[tactic(auto, using(crate::specs::Slots::first_candidate_lem, crate::specs::Slots::candidate_head_small))]
pub fn first_candidate(file: &[u8], ix: &Slots, q: u16) -> usize
    requires { Loaded file.now ix.now }
    ensures { (result ≡ first_candidate (tables_of file.now) q) × (result ≤ 1024) }
{
    let k = usize::from(q);
    place(
        ix,
        regions::CANDIDATE_HEADS,
        regions::CANDIDATE_HEADS_MOST,
        k,
    )
}

// The same of the next candidate after the one at place k.
#[tactic(auto, using(crate::specs::Slots::next_candidate_lem, crate::specs::Slots::candidate_link_small))]
pub fn next_candidate(file: &[u8], ix: &Slots, k: usize) -> usize
    requires { Loaded file.now ix.now }
    ensures { (result ≡ next_candidate (tables_of file.now) k) × (result ≤ 1024) }
{
    place(
        ix,
        regions::CANDIDATE_LINKS,
        regions::CANDIDATE_LINKS_MOST,
        k,
    )
}

// The solvable of the candidate at place k.
#[tactic(auto, using(index::specs::Found::candidate_b))]
pub fn candidate(file: &[u8], ix: &Slots, k: usize) -> u16
    requires { Loaded file.now ix.now }
    ensures { result ≡ candidate_at (tables_of file.now) k }
{
    let i = record_no(ix, regions::CANDIDATES, regions::CANDIDATES_MOST, k);
    b_at(file, i)
}

// The first AnyOf of the core whose a is v: its number plus one, or 0.
#[tactic(auto, using(crate::specs::Slots::first_gate_lem, crate::specs::Slots::gate_small))]
pub fn first_gate(file: &[u8], ix: &Slots, v: u16) -> usize
    requires { Loaded file.now ix.now }
    ensures { (result ≡ first_gate (tables_of file.now) v) × (result ≤ 1024) }
{
    let k = usize::from(v);
    place(ix, regions::GATES, regions::GATES_MOST, k)
}

// The first ConstrainsParent of the core whose b is v.
#[tactic(auto, using(crate::specs::Slots::first_parent_lem, crate::specs::Slots::parent_small))]
pub fn first_parent(file: &[u8], ix: &Slots, v: u16) -> usize
    requires { Loaded file.now ix.now }
    ensures { (result ≡ first_parent (tables_of file.now) v) × (result ≤ 1024) }
{
    let k = usize::from(v);
    place(ix, regions::PARENTS, regions::PARENTS_MOST, k)
}

// The first ConstrainsExcluded of the core whose b is v.
#[tactic(auto, using(crate::specs::Slots::first_excluded_lem, crate::specs::Slots::excluded_small))]
pub fn first_excluded(file: &[u8], ix: &Slots, v: u16) -> usize
    requires { Loaded file.now ix.now }
    ensures { (result ≡ first_excluded (tables_of file.now) v) × (result ≤ 1024) }
{
    let k = usize::from(v);
    place(ix, regions::EXCLUDED, regions::EXCLUDED_MOST, k)
}

// The next clause of the core of the same kind and variable as clause i.
#[tactic(auto, using(crate::specs::Slots::next_partner_lem, crate::specs::Slots::partner_link_small))]
pub fn next_partner(file: &[u8], ix: &Slots, i: usize) -> usize
    requires { Loaded file.now ix.now }
    ensures { (result ≡ next_partner (tables_of file.now) i) × (result ≤ 1024) }
{
    place(ix, regions::PARTNER_LINKS, regions::PARTNER_LINKS_MOST, i)
}

// The partner that an AnyOf tells of its gate.
#[tactic(auto, using(index::specs::Found::clause_b))]
pub fn gate_partner(file: &[u8], ix: &Slots, i: usize) -> u16
    requires { Loaded file.now ix.now }
    ensures { result ≡ gate_at (tables_of file.now) i }
{
    let i = record_no(ix, regions::CLAUSES, regions::CLAUSES_MOST, i);
    b_at(file, i)
}

// The partner that a clause of kind 23 or 24 tells of its auxiliary.
#[tactic(auto, using(index::specs::Found::clause_a))]
pub fn aux_partner(file: &[u8], ix: &Slots, i: usize) -> u16
    requires { Loaded file.now ix.now }
    ensures { result ≡ aux_at (tables_of file.now) i }
{
    let i = record_no(ix, regions::CLAUSES, regions::CLAUSES_MOST, i);
    a_at(file, i)
}
