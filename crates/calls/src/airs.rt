// The explanation inside the air profile (order 9).
ghost use Rattle.std.specs.Prelude.{◌≡◌};
ghost use Rattle.records.specs.Read.{tables_of};
ghost use Rattle.index.specs.Index.{Loaded};
ghost use Rattle.store.specs.Table.{graph_in};
ghost use Rattle.links.specs.Build.{Chains};
ghost use Rattle.graph.specs.Graphs.{graph_of, drawn};
ghost use Rattle.drawing.specs.Same.{option_of};
ghost use Rattle.calls.specs.Air.{SaysAir};

use crate::Answer;
use crate::answers::refusal;
use crate::explains::explain_whole;
use air::Profile;
use index::Slots;
use store::{ChainWords, GraphWords, Scratch, Size};

// A graph that is drawn whole: 15, 16, 17, then the explanation by edition 1.
fn air_whole(
    file: &[u8],
    ix: &Slots,
    g: &GraphWords,
    s: Size,
    ls: &ChainWords,
    tr: &mut Scratch,
    top: bool,
    room: &mut [u8],
) -> Answer
    requires loaded { Loaded file.now ix.now }
    requires chains { Chains g.now s ls.now }
    requires file_value { graph_of (tables_of file.now) ≡ drawn (graph_in g.now s) }
    ensures { SaysAir file.now (option_of top) room.old room.new result }
{
    let x = air::within(file, ix, g, s, ls);
    match x {
        Profile::Refused(k, p) => refusal(k, p),
        Profile::Passed => explain_whole(file, ix, g, s, ls, tr, top, false, room),
    }
}

pub fn air_of(file: &[u8], top: bool, room: &mut [u8]) -> Answer
    ensures { SaysAir file.now (option_of top) room.old room.new result }
{
    let mut ix = [0u16; 10432];
    let mut g = [0u64; 1152];
    let mut tr = [0u64; 1280];
    let mut ls = [0u16; 3456];
    match graph::of_file(file, &mut ix, &mut g, &mut tr, &mut ls) {
        Err(e) => refusal(e.number, e.place),
        Ok(s) => air_whole(file, &ix, &g, s, &ls, &mut tr, top, room),
    }
}
