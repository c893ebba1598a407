// The table of groups, from each node's lead (conflict.rs: `merged_candidates`): lead, whether there are two members or more,
// and the next member.
ghost use Rattle.std.specs.Prelude.{◌≡◌, ℕ, ◌<◌, ◌≤◌, length, get_or};
ghost use Rattle.planning.specs.Grouping.{GroupWord, LeadsOk, GroupsDone, Grouping};

use store::PerNode;

fn group_word(l: usize, i: usize, x: usize) -> usize
    requires { (l < 128) × (x ≤ 128) }
    ensures { GroupWord result l i x × (result < 65536) }
{
    if x == 0 && l == i {
        l
    } else {
        l + 128 + 256 * x
    }
}

// From the last node down; `last` holds the lowest member so far of each lead.
fn group_all(leads: &PerNode, gr: &mut PerNode, last: &mut PerNode, count: usize)
    requires { Grouping leads.now gr.old gr.old last.old count count }
    ensures { GroupsDone leads.now gr.old gr.new count }
{
    for i in (0..count).rev() {
        let l = usize::from(basis::get(leads, i));
        let x = usize::from(basis::get(last, l));
        let w = group_word(l, i, x);
        gr[i] = w as u16;
        last[l] = (i + 1) as u16;
    }
}

// Each of the first `count` nodes.
pub fn group_words(leads: &PerNode, gr: &mut PerNode, count: usize)
    requires leads_ok { LeadsOk leads.now count }
    requires gr_len { length gr.old ≡ 128 }
    ensures { GroupsDone leads.now gr.old gr.new count }
{
    let mut last = [0u16; 128];
    group_all(leads, gr, &mut last, count);
}
