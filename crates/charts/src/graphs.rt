// The graph text of a file.
ghost use Rattle.std.specs.Prelude.{◌≡◌, length};
ghost use Rattle.texts.specs.Wrote.{over};
ghost use Rattle.records.specs.Read.{tables_of};
ghost use Rattle.index.specs.Index.{Loaded};
ghost use Rattle.store.specs.Table.{graph_in};
ghost use Rattle.links.specs.Build.{Chains};
ghost use Rattle.drawing.specs.Draw.{drawn_of};
ghost use Rattle.drawing.specs.Graphviz.{draw_shown};
ghost use Rattle.drawing.specs.Same.{Given, option_of};
ghost use Rattle.charts.specs.Draws.{result_answer, draw_bytes};

use calls::Answer;
use calls::answers::refusal;
use index::Slots;
use store::{ChainWords, GraphWords, PerNode, Size};

// The groups' first members, where they are asked for.
fn lead_if(
    file: &[u8],
    ix: &Slots,
    g: &GraphWords,
    s: Size,
    ls: &ChainWords,
    simplify: bool,
    leads: &mut PerNode,
)
    requires loaded { Loaded file.now ix.now }
    requires chains { Chains g.now s ls.now }
    requires leads_len { length leads.old ≡ 128 }
    ensures { Given simplify (tables_of file.now) (graph_in g.now s) leads.new }
{
    if simplify {
        groups::naming::group_named(file, ix, g, s, ls, leads);
        return;
    }
}

// A graph that is drawn whole.
fn draw_whole(
    file: &[u8],
    ix: &Slots,
    g: &GraphWords,
    s: Size,
    ls: &ChainWords,
    simplify: bool,
    room: &mut [u8],
) -> Answer
    requires loaded { Loaded file.now ix.now }
    requires chains { Chains g.now s ls.now }
    ensures value { result ≡ result_answer (draw_shown (drawn_of (option_of simplify) (tables_of file.now) (graph_in g.now s))
        (length room.old)) }
    ensures room_after { room.new ≡ over (draw_shown (drawn_of (option_of simplify) (tables_of file.now) (graph_in g.now s))
        (length room.old)).text room.old }
{
    let mut leads = [0u16; 128];
    lead_if(file, ix, g, s, ls, simplify, &mut leads);
    Answer::from(drawing::draw(file, ix, g, s, ls, &leads, simplify, room))
}

// Kept: the new form is no plainer: each call has its own arrays and hands them to one function, its own.
pub fn draw_of(file: &[u8], simplify: bool, room: &mut [u8]) -> Answer
    ensures value { result ≡ result_answer (draw_bytes (option_of simplify) (length room.old) file.now) }
    ensures room_after { room.new ≡ over (draw_bytes (option_of simplify) (length room.old) file.now).text room.old }
{
    let mut ix = [0u16; 10432];
    let mut g = [0u64; 1152];
    let mut tr = [0u64; 1280];
    let mut ls = [0u16; 3456];
    match graph::of_file(file, &mut ix, &mut g, &mut tr, &mut ls) {
        Err(e) => refusal(e.number, e.place),
        Ok(s) => draw_whole(file, &ix, &g, s, &ls, simplify, room),
    }
}
