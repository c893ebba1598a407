// What an origin asks: of the number that a variable names, and of the slot that a variable stands in; and which variables are free.
ghost use Rattle.std.specs.Prelude.{◌≡◌};
ghost use Rattle.records.specs.Pass.{named_zero, named_pass, free_pass, allows_pass};

use crate::kinds::is_before;
use crate::{Allowed, Counts, Table};
use basis::get;

// "c is 0 for 0, 3, 4, 5", b being the origin.
#[tactic(auto, using(crate::specs::Pass::zero_solvable, crate::specs::Pass::zero_name, crate::specs::Pass::zero_other))]
pub fn named_zero(b: u16, x: u16) -> bool
    ensures { result ≡ named_zero b x }
{
    if b == 1 {
        return true;
    }
    if b == 2 {
        return true;
    }
    x == 0
}

// What a variable of origin b names.
#[tactic(auto, using(crate::specs::Pass::named_solvable, crate::specs::Pass::named_name, crate::specs::Pass::named_none))]
pub fn named_good(c: Counts, b: u16, x: u16) -> bool
    ensures { result ≡ named_pass c b x }
{
    if b == 1 {
        return is_before(Table::Solvables, c, x);
    }
    if b == 2 {
        return is_before(Table::Names, c, x);
    }
    true
}

// A variable that no record 8 names yet.
#[tactic(auto, using(basis::specs::Laws::Guard::guards), unfolding(crate::specs::Pass::free_pass))]
pub fn is_free(c: Counts, m: &[u16], x: u16) -> bool
    ensures { result ≡ free_pass c m.now x }
{
    if !is_before(Table::Variables, c, x) {
        return false;
    }
    let v = usize::from(x);
    get(m, v) < 8
}

// "Origins allowed"
#[tactic(auto, using(crate::specs::Pass::allows_low, crate::specs::Pass::allows_gate), unfolding(crate::specs::Pass::allows_pass))]
pub fn allowed(o: Allowed, v: u16) -> bool
    ensures { result ≡ allows_pass o v }
{
    match o {
        Allowed::Solvable => v == 1,
        Allowed::SolvableOrRoot => v <= 1,
        Allowed::Requirer => {
            if v <= 1 {
                return true;
            }
            v == 3
        }
        Allowed::ForbidMultiple => v == 2,
        Allowed::Auxiliary => v == 4,
        Allowed::Any => true,
    }
}
