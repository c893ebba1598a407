// The text of the wall display of a file.
ghost use Rattle.std.specs.Prelude.{◌≡◌, length};
ghost use Rattle.texts.specs.Wrote.{over};
ghost use Rattle.records.specs.Read.{tables_of};
ghost use Rattle.index.specs.Index.{Loaded};
ghost use Rattle.store.specs.Table.{graph_in, Stored};
ghost use Rattle.wall.specs.Export.{export_shown};
ghost use Rattle.charts.specs.Draws.{result_answer};
ghost use Rattle.charts.specs.Wall.{export_file};

use calls::Answer;
use calls::answers::refusal;
use index::Slots;
use store::{GraphWords, Size};

// A graph that is drawn whole.
fn export_whole(file: &[u8], ix: &Slots, g: &GraphWords, s: Size, room: &mut [u8]) -> Answer
    requires loaded { Loaded file.now ix.now }
    requires stored { Stored g.now s }
    ensures value { result ≡ result_answer (export_shown (tables_of file.now) (graph_in g.now s) (length room.old)) }
    ensures room_after { room.new ≡ over (export_shown (tables_of file.now) (graph_in g.now s) (length room.old)).text
        room.old }
{
    Answer::from(wall::export(file, ix, g, s, room))
}

pub fn export_of(file: &[u8], room: &mut [u8]) -> Answer
    ensures value { result ≡ result_answer (export_file file.now (length room.old)) }
    ensures room_after { room.new ≡ over (export_file file.now (length room.old)).text room.old }
{
    let mut ix = [0u16; 10432];
    let mut g = [0u64; 1152];
    let mut tr = [0u64; 1280];
    let mut ls = [0u16; 3456];
    match graph::of_file(file, &mut ix, &mut g, &mut tr, &mut ls) {
        Err(e) => refusal(e.number, e.place),
        Ok(s) => export_whole(file, &ix, &g, s, room),
    }
}
