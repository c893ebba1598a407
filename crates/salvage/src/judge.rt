// Each record against the counts and marks of the repaired ones before it: 2 first; a clause past 1,024 is 6; then 3, 4, 5 and Learnt in
// the core are mended for clauses, and refused for kinds 1 to 8.
ghost use Rattle.std.specs.Prelude.{◌≡◌, ◌≤◌, ◌<◌, length};
ghost use Rattle.records.specs.Shapes.{records_of};
ghost use Rattle.records.specs.Tables.{at};
ghost use Rattle.salvage.specs.Pass.{learnt_pass, clause_kind, clause_by, other_by, verdict_pass};
ghost use Rattle.salvage.specs.Pass.{turn_pass, marks_pass, list_pass, judge_from, no_work};
ghost use Rattle.salvage.specs.Laws.Pass.{Few};

use crate::{Fate, Work};
use basis::put;
use records::check::check_record;
use records::fields::{first_at, kind_at};
use records::kinds::{has_room, more, shape_of};
use records::pass::note;
use records::{Counts, Refusal, Refused, Table};

// "each Learnt in the core"
#[tactic(auto, using(crate::specs::Laws::Pass::learnt_no, crate::specs::Laws::Pass::learnt_by))]
fn core_learnt(file: &[u8], i: usize) -> bool
    ensures { result ≡ learnt_pass (at (records_of file.now) i) }
{
    if kind_at(file, i) != 18 {
        return false;
    }
    first_at(file, i) == 1
}

// The kind of a clause.
#[tactic(auto, using(crate::specs::Laws::Pass::kind_by_lem, crate::specs::Laws::Pass::clauses_eq))]
fn is_clause(kind: u8) -> bool
    ensures { result ≡ clause_kind kind }
{
    let Some(s) = shape_of(kind) else {
        return false;
    };
    s.table == Table::Clauses
}

// A clause where there is room for one.
fn clause(file: &[u8], i: usize, s: Result<Table, Refusal>) -> Fate
    ensures { result ≡ clause_by s (at (records_of file.now) i) }
{
    match s {
        Err(_) => Fate::Replaced,
        Ok(t) => {
            if core_learnt(file, i) {
                return Fate::Replaced;
            }
            Fate::Stays(t)
        }
    }
}

// A record of kinds 1 to 8, or of an unknown one.
fn other(s: Result<Table, Refusal>) -> Result<Fate, Refusal>
    ensures { result ≡ other_by s }
{
    Ok(Fate::Stays(s?))
}

// Record i, or the refusal that stops the repair.
fn verdict(file: &[u8], i: usize, c: Counts, m: &[u16]) -> Result<Fate, Refusal>
    ensures { result ≡ verdict_pass c m.now (at (records_of file.now) i) }
{
    let s = check_record(file, i, c, m);
    let k = kind_at(file, i);
    if !is_clause(k) {
        return other(s);
    }
    if !has_room(Table::Clauses, c) {
        return Err(Refusal::TableFull);
    }
    Ok(clause(file, i, s))
}

// Record i, with its mark noted, or its number listed where it is replaced.
fn turn(file: &[u8], i: usize, w: Work, m: &mut [u16], list: &mut [u16]) -> Result<Work, Refused>
    requires { (i < 65536) × (w.replaced ≤ i) }
    ensures value { result ≡ turn_pass w m.old (at (records_of file.now) i) i }
    ensures m_after { m.new ≡ marks_pass w m.old (at (records_of file.now) i) }
    ensures list_after { list.new ≡ list_pass w m.old (at (records_of file.now) i) i list.old }
{
    let c = w.counts;
    let k = w.replaced;
    match verdict(file, i, c, m) {
        Err(e) => Err(Refused {
            number: e.number(),
            place: i as u64,
        }),
        Ok(Fate::Stays(t)) => {
            note(file, i, t, m);
            Ok(Work {
                counts: more(t, c),
                replaced: k,
            })
        }
        Ok(Fate::Replaced) => {
            put(list, k, i as u16);
            Ok(Work {
                counts: more(Table::Clauses, c),
                replaced: k + 1,
            })
        }
    }
}

// All records in their order, with a mark of 0 for each variable at first; the numbers of the replaced ones go into `list`.
pub fn judge(file: &[u8], m: &mut [u16], list: &mut [u16]) -> Result<Work, Refused>
    requires { (length file.now ≤ 65536) × (2048 ≤ length list.old) }
    ensures value { result ≡ (judge_from (records_of file.now) 0 no_work m.old list.old).turn }
    ensures list_after { list.new ≡ (judge_from (records_of file.now) 0 no_work m.old list.old).list }
    ensures few { Few result list.new }
{
    let mut w = Work {
        counts: Counts {
            names: 0,
            solvables: 0,
            sets: 0,
            requirements: 0,
            candidates: 0,
            reasons: 0,
            variables: 0,
            assigned: 0,
            clauses: 0,
        },
        replaced: 0,
    };
    for i in 0..file.len() / 32 {
        w = turn(file, i, w, m, list)?;
    }
    Ok(w)
}
