// The explanation of a file.
ghost use Rattle.std.specs.Prelude.{◌≡◌};
ghost use Rattle.records.specs.Read.{tables_of};
ghost use Rattle.index.specs.Index.{Loaded};
ghost use Rattle.store.specs.Table.{graph_in};
ghost use Rattle.links.specs.Build.{Chains};
ghost use Rattle.labels.specs.Marks.{label_bits};
ghost use Rattle.shape.specs.Graphed.{Graphed};
ghost use Rattle.graph.specs.Graphs.{graph_of, drawn};
ghost use Rattle.plan.specs.Plan.{shown_of};
ghost use Rattle.planning.specs.Building.{FreshPlan};
ghost use Rattle.drawing.specs.Same.{option_of};
ghost use Rattle.calls.specs.Says.{Says, Shows, PlannedAs, edition_of};

use crate::Answer;
use crate::answers::refusal;
use crate::plans::{plan_of, walk_plan};
use index::Slots;
use store::{ChainWords, GraphWords, PerNode, Scratch, Size};

// The plan as the edition reads it (order 11).
fn plan_as(
    file: &[u8],
    ix: &Slots,
    g: &GraphWords,
    s: Size,
    ls: &ChainWords,
    marks: &PerNode,
    p: &mut Scratch,
    k: &mut [u16; 1024],
    every: bool,
)
    requires loaded { Loaded file.now ix.now }
    requires chains { Chains g.now s ls.now }
    requires marks_value { marks.now ≡ label_bits (graph_in g.now s) }
    requires fresh_plan { FreshPlan p.old k.old }
    ensures { PlannedAs every (shown_of (tables_of file.now) (graph_in g.now s)) p.new k.new }
{
    plan_of(file, ix, g, s, ls, marks, p, k);
    plan::reading::read_as(p, every);
}

// What is shown of a graph whose labels are known. The table that held the triples is cleared and holds the plan.
pub fn explain_marked(
    file: &[u8],
    ix: &Slots,
    g: &GraphWords,
    s: Size,
    ls: &ChainWords,
    marks: &PerNode,
    p: &mut Scratch,
    top: bool,
    every: bool,
    room: &mut [u8],
) -> Answer
    requires loaded { Loaded file.now ix.now }
    requires chains { Chains g.now s ls.now }
    requires marks_value { marks.now ≡ label_bits (graph_in g.now s) }
    requires graphed { Graphed (tables_of file.now) (graph_in g.now s) }
    ensures { Shows (edition_of every) (tables_of file.now) (graph_in g.now s) (option_of top) room.old room.new
        result }
{
    *p = [0u64; 1280];
    let mut k = [0u16; 1024];
    plan_as(file, ix, g, s, ls, marks, p, &mut k, every);
    walk_plan(file, ix, p, &k, top, room)
}

// A graph that is drawn whole: its labels, then what is shown of it.
pub fn explain_whole(
    file: &[u8],
    ix: &Slots,
    g: &GraphWords,
    s: Size,
    ls: &ChainWords,
    p: &mut Scratch,
    top: bool,
    every: bool,
    room: &mut [u8],
) -> Answer
    requires loaded { Loaded file.now ix.now }
    requires chains { Chains g.now s ls.now }
    requires file_value { graph_of (tables_of file.now) ≡ drawn (graph_in g.now s) }
    ensures { Says (edition_of every) file.now (option_of top) room.old room.new result }
{
    let mut marks = [0u16; 128];
    labels::label(g, s, ls, &mut marks);
    explain_marked(file, ix, g, s, ls, &marks, p, top, every, room)
}

pub fn explain_of(file: &[u8], top: bool, every: bool, room: &mut [u8]) -> Answer
    ensures { Says (edition_of every) file.now (option_of top) room.old room.new result }
{
    let mut ix = [0u16; 10432];
    let mut g = [0u64; 1152];
    let mut tr = [0u64; 1280];
    let mut ls = [0u16; 3456];
    match graph::of_file(file, &mut ix, &mut g, &mut tr, &mut ls) {
        Err(e) => refusal(e.number, e.place),
        Ok(s) => explain_whole(file, &ix, &g, s, &ls, &mut tr, top, every, room),
    }
}
