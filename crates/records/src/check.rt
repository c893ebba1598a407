// One record against the counts and marks of those before it: in the order 2, 3, 6, 4, 5 (document 01, "Refusal numbers").
ghost use Rattle.std.specs.Prelude.{◌≡◌, ◌<◌};
ghost use Rattle.records.specs.Shapes.{records_of};
ghost use Rattle.records.specs.Tables.{at};
ghost use Rattle.records.specs.Pass.{field_pass, shape_pass, number_pass, numbers_pass, mark_origin, origin_pass, origins_pass, admit_pass, check_pass};

use crate::fields::{a_at, b_at, c_at, kind_at};
use crate::kinds::{has_room, is_before, is_next, shape_of};
use crate::origins::{allowed, is_free, named_good, named_zero};
use crate::text::first_good;
use crate::{Counts, Refusal, Shape, Slot, Table};
use basis::get;

// A field by itself: "Unused fields are 0", origins are 0 to 5.
#[tactic(auto, using(crate::specs::Pass::field_named), unfolding(crate::specs::Pass::field_pass))]
fn field_good(file: &[u8], i: usize, s: Slot, x: u16) -> bool
    ensures { result ≡ field_pass s (at (records_of file.now) i) x }
{
    match s {
        Slot::Unused => x == 0,
        Slot::Own => true,
        Slot::Names(_) => true,
        Slot::Variable(_) => true,
        Slot::Origin => x <= 5,
        Slot::Named => {
            let b = b_at(file, i);
            named_zero(b, x)
        }
        Slot::Unassigned => true,
    }
}

// 3: byte 1, the text and each field by itself.
#[tactic(auto, using(basis::specs::Laws::Guard::guards), unfolding(crate::specs::Pass::shape_pass))]
fn shape_good(file: &[u8], i: usize, s: Shape) -> bool
    ensures { result ≡ shape_pass s (at (records_of file.now) i) }
{
    let f = s.first;
    if !first_good(file, i, f) {
        return false;
    }
    let sa = s.a;
    let a = a_at(file, i);
    if !field_good(file, i, sa, a) {
        return false;
    }
    let sb = s.b;
    let b = b_at(file, i);
    if !field_good(file, i, sb, b) {
        return false;
    }
    let sc = s.c;
    let c = c_at(file, i);
    field_good(file, i, sc, c)
}

// A field of a record of table t against the numbers given so far; b is the record's field b.
#[tactic(auto, unfolding(crate::specs::Pass::number_pass))]
fn number_good(c: Counts, m: &[u16], t: Table, s: Slot, b: u16, x: u16) -> bool
    ensures { result ≡ number_pass c m.now t s b x }
{
    match s {
        Slot::Unused => true,
        Slot::Own => is_next(t, c, x),
        Slot::Names(u) => is_before(u, c, x),
        Slot::Variable(_) => is_before(Table::Variables, c, x),
        Slot::Origin => true,
        Slot::Named => named_good(c, b, x),
        Slot::Unassigned => is_free(c, m, x),
    }
}

// 4: "own number not the next, undefined reference, second record 8".
#[tactic(auto, using(basis::specs::Laws::Guard::guards), unfolding(crate::specs::Pass::numbers_pass))]
fn numbers_good(file: &[u8], i: usize, c: Counts, m: &[u16], s: Shape) -> bool
    ensures { result ≡ numbers_pass c m.now s (at (records_of file.now) i) }
{
    let t = s.table;
    let b = b_at(file, i);
    let sa = s.a;
    let a = a_at(file, i);
    if !number_good(c, m, t, sa, b, a) {
        return false;
    }
    let sb = s.b;
    if !number_good(c, m, t, sb, b, b) {
        return false;
    }
    let sc = s.c;
    let x = c_at(file, i);
    number_good(c, m, t, sc, b, x)
}

// The origin in a variable's mark.
#[tactic(auto, unfolding(crate::specs::Pass::mark_origin))]
pub fn mark_origin(m: &[u16], x: u16) -> u16
    ensures { (result ≡ mark_origin m.now x) × (result < 8) }
{
    let v = usize::from(x);
    get(m, v) % 8
}

#[tactic(auto, unfolding(crate::specs::Pass::origin_pass))]
fn origin_good(m: &[u16], s: Slot, x: u16) -> bool
    ensures { result ≡ origin_pass m.now s x }
{
    match s {
        Slot::Unused => true,
        Slot::Own => true,
        Slot::Names(_) => true,
        Slot::Variable(o) => {
            let v = mark_origin(m, x);
            allowed(o, v)
        }
        Slot::Origin => true,
        Slot::Named => true,
        Slot::Unassigned => true,
    }
}

// 5: "origin not allowed in its slot".
#[tactic(auto, using(basis::specs::Laws::Guard::guards), unfolding(crate::specs::Pass::origins_pass))]
fn origins_good(file: &[u8], i: usize, m: &[u16], s: Shape) -> bool
    ensures { result ≡ origins_pass m.now s (at (records_of file.now) i) }
{
    let sa = s.a;
    let a = a_at(file, i);
    if !origin_good(m, sa, a) {
        return false;
    }
    let sb = s.b;
    let b = b_at(file, i);
    if !origin_good(m, sb, b) {
        return false;
    }
    let sc = s.c;
    let x = c_at(file, i);
    origin_good(m, sc, x)
}

// A record of a known kind.
#[tactic(auto, using(basis::specs::Laws::Guard::guards), unfolding(crate::specs::Pass::admit_pass))]
fn admit(file: &[u8], i: usize, c: Counts, m: &[u16], s: Shape) -> Result<Table, Refusal>
    ensures { result ≡ admit_pass c m.now s (at (records_of file.now) i) }
{
    let t = s.table;
    if !shape_good(file, i, s) {
        return Err(Refusal::BadShape);
    }
    if !has_room(t, c) {
        return Err(Refusal::TableFull);
    }
    if !numbers_good(file, i, c, m, s) {
        return Err(Refusal::BadNumber);
    }
    if !origins_good(file, i, m, s) {
        return Err(Refusal::BadOrigin);
    }
    Ok(t)
}

// Record i of the file: the table that it goes into, or its refusal.
#[tactic(auto, unfolding(crate::specs::Pass::check_pass))]
pub fn check_record(file: &[u8], i: usize, c: Counts, m: &[u16]) -> Result<Table, Refusal>
    ensures { result ≡ check_pass c m.now (at (records_of file.now) i) }
{
    let kind = kind_at(file, i);
    let Some(s) = shape_of(kind) else {
        return Err(Refusal::UnknownKind);
    };
    admit(file, i, c, m, s)
}
