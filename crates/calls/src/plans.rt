// The plan of a graph, and the walk over a plan: what an explanation and a season have in common.
ghost use Rattle.std.specs.Prelude.{◌≡◌, length};
ghost use Rattle.records.specs.Read.{tables_of};
ghost use Rattle.index.specs.Index.{Loaded};
ghost use Rattle.store.specs.Table.{graph_in};
ghost use Rattle.links.specs.Build.{Chains};
ghost use Rattle.labels.specs.Marks.{label_bits};
ghost use Rattle.plan.specs.Plan.{shown_of};
ghost use Rattle.plan.specs.Planned.{Planned};
ghost use Rattle.planning.specs.Building.{FreshPlan};
ghost use Rattle.explanation.specs.Walk.{Ready};
ghost use Rattle.calls.specs.Plans.{PlanFrom};
ghost use Rattle.calls.specs.Says.{Walked};

use crate::Answer;
use index::Slots;
use store::{ChainWords, GraphWords, PerNode, Scratch, Size};

// Groups, then the plan, where the labels are known.
pub fn plan_of(
    file: &[u8],
    ix: &Slots,
    g: &GraphWords,
    s: Size,
    ls: &ChainWords,
    marks: &PerNode,
    p: &mut Scratch,
    k: &mut [u16; 1024],
)
    requires loaded { Loaded file.now ix.now }
    requires chains { Chains g.now s ls.now }
    requires marks_value { marks.now ≡ label_bits (graph_in g.now s) }
    requires fresh_plan { FreshPlan p.old k.old }
    ensures planned { Planned (shown_of (tables_of file.now) (graph_in g.now s)) p.new k.new }
    ensures p_len { length p.new ≡ 1280 }
    ensures plan_from { PlanFrom (tables_of file.now) g.now s ls.now marks.now p.old k.old
        p.new k.new }
{
    let mut leads = [0u16; 128];
    groups::naming::group_named(file, ix, g, s, ls, &mut leads);
    let mut gr = [0u16; 128];
    planning::build_plan(file, ix, g, s, ls, marks, &leads, &mut gr, p, k);
}

// The walk over a plan, as an answer.
pub fn walk_plan(
    file: &[u8],
    ix: &Slots,
    p: &Scratch,
    k: &[u16; 1024],
    top: bool,
    room: &mut [u8],
) -> Answer
    requires loaded { Loaded file.now ix.now }
    requires ready { Ready (tables_of file.now) p.now k.now }
    ensures { Walked (tables_of file.now) p.now k.now top room.old room.new result }
{
    Answer::from(explanation::walk::explain_plan(file, ix, p, k, room, top))
}
