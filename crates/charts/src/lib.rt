// The calls that show the graph itself: its text (conflict.rs: `graphviz`), its edges as numbers (order 3), the text of the wall display
// (order 14). Each owns its working arrays, takes any bytes, any room and any option, and has no `requires`. The crate `urzulempa` exports them.
#![tactic(auto)]

mod edges;
mod graphs;
mod walls;

ghost use Rattle.std.specs.Prelude.{◌≡◌, length};
ghost use Rattle.texts.specs.Wrote.{over};
ghost use Rattle.charts.specs.Draws.{result_answer, draw_file};
ghost use Rattle.charts.specs.Edges.{edges_answer, edges_left};
ghost use Rattle.charts.specs.Wall.{export_file};

use calls::Answer;

// The graph in the DOT language; option 1 simplifies.
pub fn draw(file: &[u8], option: u64, room: &mut [u8]) -> Answer
    ensures value { result ≡ result_answer (draw_file file.now option (length room.old)) }
    ensures room_after { room.new ≡ over (draw_file file.now option (length room.old)).text room.old }
{
    if 1 < option {
        return calls::answers::refusal(12, 0);
    }
    graphs::draw_of(file, option == 1, room)
}

// Five numbers an edge, oldest first: source, target, kind, the number that it names, clause. Refusals 1 to 9, 10 where the list is
// short; numbers past the last edge stay.
pub fn list_edges(file: &[u8], list: &mut [u16]) -> Answer
    ensures value { result ≡ edges_answer file.now (length list.old) }
    ensures list_after { list.new ≡ edges_left file.now list.old }
{
    edges::edges_of(file, list)
}

// The graph for the wall display in Trivial Graph Format (order 14): a line a node, a line with #, a line an edge. 1 to 9, then 10,
// which leaves whole lines.
pub fn export(file: &[u8], room: &mut [u8]) -> Answer
    ensures value { result ≡ result_answer (export_file file.now (length room.old)) }
    ensures room_after { room.new ≡ over (export_file file.now (length room.old)).text room.old }
{
    walls::export_of(file, room)
}
