// The explanation of the graph asked for (order 10).
ghost use Rattle.std.specs.Prelude.{◌≡◌};
ghost use Rattle.records.specs.Read.{tables_of};
ghost use Rattle.index.specs.Index.{Loaded};
ghost use Rattle.store.specs.Table.{graph_in};
ghost use Rattle.links.specs.Build.{Chains};
ghost use Rattle.labels.specs.Marks.{label_bits};
ghost use Rattle.graph.specs.Graphs.{graph_of, drawn};
ghost use Rattle.shape.specs.Graphed.{Graphed};
ghost use Rattle.whatif.specs.Asked.{ask_tables};
ghost use Rattle.drawing.specs.Same.{option_of};
ghost use Rattle.calls.specs.WhatIf.{SaysWhatIf};

use crate::Answer;
use crate::answers::refusal;
use crate::explains::explain_marked;
use index::Slots;
use store::{ChainWords, GraphWords, PerNode, Scratch, Size};

// What is shown of the graph asked for.
fn show_asked(
    file: &[u8],
    ix: &Slots,
    g: &GraphWords,
    s: Size,
    ls: &ChainWords,
    marks: &PerNode,
    tr: &mut Scratch,
    solvable: u64,
    reason: u64,
    top: bool,
    room: &mut [u8],
) -> Answer
    requires loaded { Loaded file.now ix.now }
    requires chains { Chains g.now s ls.now }
    requires marks_value { marks.now ≡ label_bits (graph_in g.now s) }
    requires graphed { Graphed (tables_of file.now) (graph_in g.now s) }
    requires reason_value { ask_tables (tables_of file.now) solvable reason ≡ drawn (graph_in g.now s) }
    ensures { SaysWhatIf file.now solvable reason (option_of top) room.old room.new result }
{
    explain_marked(file, ix, g, s, ls, marks, tr, top, false, room)
}

// A graph that is drawn whole: 4, 8, 17, then what is shown of the graph asked for.
fn ask_whole(
    file: &[u8],
    ix: &Slots,
    g: &mut GraphWords,
    s: Size,
    ls: &mut ChainWords,
    tr: &mut Scratch,
    solvable: u64,
    reason: u64,
    top: bool,
    room: &mut [u8],
) -> Answer
    requires loaded { Loaded file.now ix.now }
    requires chains { Chains g.old s ls.old }
    requires file_value { graph_of (tables_of file.now) ≡ drawn (graph_in g.old s) }
    ensures { SaysWhatIf file.now solvable reason (option_of top) room.old room.new result }
{
    let mut marks = [0u16; 128];
    let m = whatif::ask(file, ix, g, s, ls, &mut marks, solvable, reason);
    match m {
        Err(e) => refusal(e.number, e.place),
        Ok(t) => show_asked(file, ix, g, t, ls, &marks, tr, solvable, reason, top, room),
    }
}

pub fn ask_of(file: &[u8], solvable: u64, reason: u64, top: bool, room: &mut [u8]) -> Answer
    ensures { SaysWhatIf file.now solvable reason (option_of top) room.old room.new result }
{
    let mut ix = [0u16; 10432];
    let mut g = [0u64; 1152];
    let mut tr = [0u64; 1280];
    let mut ls = [0u16; 3456];
    match graph::of_file(file, &mut ix, &mut g, &mut tr, &mut ls) {
        Err(e) => refusal(e.number, e.place),
        Ok(s) => ask_whole(
            file, &ix, &mut g, s, &mut ls, &mut tr, solvable, reason, top, room,
        ),
    }
}
