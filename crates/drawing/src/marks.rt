// The merge marks of the nodes, from the first member of each.
ghost use Rattle.std.specs.Prelude.{◌≡◌, ◌<◌, ◌≤◌};
ghost use Rattle.drawing.specs.MergeMarks.{mark_one, marks_to};

use store::PerNode;

// Node n, if its first member is another, marks both.
fn mark_group(leads: &PerNode, m: &mut PerNode, n: usize)
    requires { n < 128 }
    ensures { m.new ≡ mark_one leads.now m.old n }
{
    let l = usize::from(leads[n]);
    if n <= l {
        return;
    }
    let v = (l + 1) as u16;
    m[l] = v;
    m[n] = v;
}

pub fn mark_groups(leads: &PerNode, k: usize, m: &mut PerNode)
    requires { k ≤ 128 }
    ensures { m.new ≡ marks_to leads.now k m.old }
{
    for n in 0..k {
        mark_group(leads, m, n);
    }
}
