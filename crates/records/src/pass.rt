// One record of a file: the counts and the marks after it.
ghost use Rattle.std.specs.Prelude.{◌≡◌, ◌+◌, set};
ghost use Rattle.records.specs.Shapes.{records_of};
ghost use Rattle.records.specs.Tables.{at};
ghost use Rattle.records.specs.Pass.{mark_origin, noted, turn_pass, marks_pass};

use crate::check::{check_record, mark_origin};
use crate::fields::{a_at, b_at};
use crate::kinds::more;
use crate::{Counts, Refused, Table};
use basis::put;

// A variable: its mark is its origin.
fn note_variable(file: &[u8], i: usize, m: &mut [u16])
    ensures { m.new ≡ set m.old (at (records_of file.now) i).a (at (records_of file.now) i).b }
{
    let a = a_at(file, i);
    let b = b_at(file, i);
    let v = usize::from(a);
    put(m, v, b);
}

// A record 8: 8 more in the mark of its variable.
fn note_assigned(file: &[u8], i: usize, m: &mut [u16])
    ensures { m.new ≡ set m.old (at (records_of file.now) i).a
        (mark_origin m.old (at (records_of file.now) i).a + 8) }
{
    let a = a_at(file, i);
    let o = mark_origin(m, a);
    let v = usize::from(a);
    put(m, v, o + 8);
}

// What record i, of table t, does to the marks.
#[tactic(auto, unfolding(crate::specs::Pass::noted))]
pub fn note(file: &[u8], i: usize, t: Table, m: &mut [u16])
    ensures { m.new ≡ noted t (at (records_of file.now) i) m.old }
{
    match t {
        Table::Variables => {
            note_variable(file, i, m);
        }
        Table::Assigned => {
            note_assigned(file, i, m);
        }
        _ => {}
    }
}

// Record i: the counts after it, with its mark noted, or its refusal.
pub fn turn(file: &[u8], i: usize, c: Counts, m: &mut [u16]) -> Result<Counts, Refused>
    ensures value { result ≡ turn_pass c m.old (at (records_of file.now) i) i }
    ensures m_after { m.new ≡ marks_pass c m.old (at (records_of file.now) i) }
{
    match check_record(file, i, c, m) {
        Err(k) => Err(Refused {
            number: k.number(),
            place: i as u64,
        }),
        Ok(t) => {
            note(file, i, t, m);
            Ok(more(t, c))
        }
    }
}
