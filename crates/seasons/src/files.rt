// One file of a season (order 8), over lent working arrays: the explanation and the counts of the same graph, added to a report.
ghost use Rattle.std.specs.Prelude.{◌≡◌, length, replicate};
ghost use Rattle.records.specs.Read.{tables_of};
ghost use Rattle.index.specs.Index.{Loaded, Blank};
ghost use Rattle.store.specs.Table.{graph_in};
ghost use Rattle.links.specs.Build.{Chains};
ghost use Rattle.labels.specs.Marks.{label_bits};
ghost use Rattle.graph.specs.Graphs.{graph_of, drawn};
ghost use Rattle.planning.specs.Building.{FreshPlan};
ghost use Rattle.explanation.specs.Walk.{Ready};
ghost use Rattle.drawing.specs.Same.{option_of};
ghost use Rattle.seasons.specs.Tally.{no_counts};
ghost use Rattle.calls.specs.Answers.{refusal_of};
ghost use Rattle.calls.specs.Says.{edition_of};
ghost use Rattle.seasons.specs.Season.{own_of, Enters, Entered};
ghost use Rattle.seasons.specs.Laws.SeasonWays.{CountedAs, CountedFile, Tells};

use crate::tally::Counts;
use calls::Answer;
use calls::answers::refusal;
use calls::plans::{plan_of, walk_plan};
use index::Slots;
use season::Own;
use store::{ChainWords, GraphWords, PerNode, Scratch, Size};

// What a file adds: its own answer and the counts of its graph.
fn own(a: Answer, c: Counts) -> Own
    ensures { result ≡ own_of a c }
{
    Own {
        number: a.number,
        nodes: c.nodes,
        edges: c.edges,
        groups: c.groups,
        missing: c.missing,
        lines: a.units,
        depth: a.depth,
    }
}

// Adds a file to the report: its own answer, or the refusal of the joining.
fn enter(report: &mut [u64], a: Answer, c: Counts) -> Answer
    ensures { Enters report.old a c report.new result }
{
    match season::add(report, own(a, c)) {
        Ok(()) => a,
        Err(e) => refusal(e.number(), 0),
    }
}

// Adds a file without a graph.
fn enter_refused(report: &mut [u64], number: u64, place: u64) -> Answer
    ensures { Enters report.old (refusal_of number place) no_counts report.new result }
{
    let a = refusal(number, place);
    let c = crate::tally::none();
    enter(report, a, c)
}

// The plan as the edition reads it, and the counts of its graph, taken before.
fn plan_counted(
    file: &[u8],
    ix: &Slots,
    g: &GraphWords,
    s: Size,
    ls: &ChainWords,
    marks: &PerNode,
    p: &mut Scratch,
    k: &mut [u16; 1024],
    every: bool,
) -> Counts
    requires loaded { Loaded file.now ix.now }
    requires chains { Chains g.now s ls.now }
    requires marks_value { marks.now ≡ label_bits (graph_in g.now s) }
    requires fresh_plan { FreshPlan p.old k.old }
    ensures { CountedAs every (tables_of file.now) (graph_in g.now s) p.new k.new result }
{
    plan_of(file, ix, g, s, ls, marks, p, k);
    let c = crate::tally::count(p, marks, s);
    plan::reading::read_as(p, every);
    c
}

// The same of the graph that a file draws.
fn plan_file(
    file: &[u8],
    ix: &Slots,
    g: &GraphWords,
    s: Size,
    ls: &ChainWords,
    marks: &PerNode,
    p: &mut Scratch,
    k: &mut [u16; 1024],
    every: bool,
) -> Counts
    requires loaded { Loaded file.now ix.now }
    requires chains { Chains g.now s ls.now }
    requires marks_value { marks.now ≡ label_bits (graph_in g.now s) }
    requires file_value { graph_of (tables_of file.now) ≡ drawn (graph_in g.now s) }
    requires fresh_plan { FreshPlan p.old k.old }
    ensures { CountedFile every file.now p.new k.new result }
{
    plan_counted(file, ix, g, s, ls, marks, p, k, every)
}

// The walk over a plan, and its answer with the counts c added to the report.
fn tell(
    file: &[u8],
    ix: &Slots,
    p: &Scratch,
    k: &[u16; 1024],
    c: Counts,
    top: bool,
    report: &mut [u64],
    room: &mut [u8],
) -> Answer
    requires loaded { Loaded file.now ix.now }
    requires ready { Ready (tables_of file.now) p.now k.now }
    ensures { Tells (tables_of file.now) p.now k.now c top report.old report.new room.old
        room.new result }
{
    let a = walk_plan(file, ix, p, k, top, room);
    enter(report, a, c)
}

// A file whose graph is drawn whole and labelled. The table that held the triples is cleared and holds the plan.
fn season_marked(
    file: &[u8],
    ix: &Slots,
    g: &GraphWords,
    s: Size,
    ls: &ChainWords,
    marks: &PerNode,
    p: &mut Scratch,
    top: bool,
    every: bool,
    report: &mut [u64],
    room: &mut [u8],
) -> Answer
    requires loaded { Loaded file.now ix.now }
    requires chains { Chains g.now s ls.now }
    requires marks_value { marks.now ≡ label_bits (graph_in g.now s) }
    requires file_value { graph_of (tables_of file.now) ≡ drawn (graph_in g.now s) }
    ensures { Entered (edition_of every) file.now (option_of top) report.old report.new room.old
        room.new result }
{
    *p = [0u64; 1280];
    let mut k = [0u16; 1024];
    let c = plan_file(file, ix, g, s, ls, marks, p, &mut k, every);
    tell(file, ix, p, &k, c, top, report, room)
}

// A file whose graph is drawn whole: its labels first.
fn season_whole(
    file: &[u8],
    ix: &Slots,
    g: &GraphWords,
    s: Size,
    ls: &ChainWords,
    p: &mut Scratch,
    top: bool,
    every: bool,
    report: &mut [u64],
    room: &mut [u8],
) -> Answer
    requires loaded { Loaded file.now ix.now }
    requires chains { Chains g.now s ls.now }
    requires file_value { graph_of (tables_of file.now) ≡ drawn (graph_in g.now s) }
    ensures { Entered (edition_of every) file.now (option_of top) report.old report.new room.old
        room.new result }
{
    let mut marks = [0u16; 128];
    labels::label(g, s, ls, &mut marks);
    season_marked(file, ix, g, s, ls, &marks, p, top, every, report, room)
}

fn season_in(
    report: &mut [u64],
    file: &[u8],
    top: bool,
    every: bool,
    ix: &mut Slots,
    g: &mut GraphWords,
    tr: &mut Scratch,
    ls: &mut ChainWords,
    room: &mut [u8],
) -> Answer
    requires blank { Blank ix.old }
    requires g_value { g.old ≡ replicate 1152 0 }
    requires tr_len { length tr.old ≡ 1280 }
    requires ls_value { ls.old ≡ replicate 3456 0 }
    ensures { Entered (edition_of every) file.now (option_of top) report.old report.new room.old
        room.new result }
{
    let m = graph::of_file(file, ix, g, tr, ls);
    match m {
        Err(e) => enter_refused(report, e.number, e.place),
        Ok(s) => season_whole(file, ix, g, s, ls, tr, top, every, report, room),
    }
}

// A bad edition or option is 12, and the report counts it.
pub fn season_of(
    report: &mut [u64],
    file: &[u8],
    edition: u64,
    option: u64,
    ix: &mut Slots,
    g: &mut GraphWords,
    tr: &mut Scratch,
    ls: &mut ChainWords,
    room: &mut [u8],
) -> Answer
    requires blank { Blank ix.old }
    requires g_value { g.old ≡ replicate 1152 0 }
    requires tr_len { length tr.old ≡ 1280 }
    requires ls_value { ls.old ≡ replicate 3456 0 }
    ensures { Entered edition file.now option report.old report.new room.old room.new result }
{
    if edition == 0 {
        return enter_refused(report, 12, 0);
    }
    if 2 < edition {
        return enter_refused(report, 12, 0);
    }
    if 1 < option {
        return enter_refused(report, 12, 0);
    }
    season_in(report, file, option == 1, edition == 2, ix, g, tr, ls, room)
}
