// The packed plan as an edition reads it (order 11).
ghost use Rattle.std.specs.Prelude.{◌≡◌};
ghost use Rattle.plan.specs.Marking.{marked, mark_to, read_as};

use store::Scratch;

// A head with its bit "merged" set.
#[tactic(auto, unfolding(crate::specs::Marking::marked))]
fn mark(w: u64) -> u64
    ensures { result ≡ marked w }
{
    if w / 33554432 % 2 == 1 {
        w
    } else {
        w + 33554432
    }
}

// Every package is reported.
fn report_all(p: &mut Scratch)
    ensures { p.new ≡ mark_to 128 p.old }
{
    for n in 0..128 {
        p[n] = mark(p[n]);
    }
}

// "In edition 2 every package, merged or not, is reported when first shown"; else the plan stays as it is.
#[tactic(auto, unfolding(crate::specs::Marking::read_as))]
pub fn read_as(p: &mut Scratch, every: bool)
    ensures { p.new ≡ read_as every p.old }
{
    if every {
        report_all(p);
    }
}
