// Writing a record file from rows (document 02, order 1). First every row is judged, in the order of the file, by the public step of the
// reader over the records before it, and goes into a file of the call's own; only then the lent room is written.
#![tactic(auto)]

mod eights;
mod finish;
mod pass;
mod rows;

ghost use Rattle.std.specs.Prelude.{◌≡◌, ◌%◌, length, replicate};
ghost use Rattle.writing.specs.Pass.{Gives, judge_rows, Fresh};
ghost use Rattle.writing.specs.Write.{refusal_of, write_answer, write_room, Leaves};

use finish::conclude;
use pass::phases;
use records::{Counts, Refused};

// What the records so far come to: the sizes of the tables, and the place of the next one.
#[derive(Clone, Copy)]
pub struct Work {
    pub counts: Counts,
    pub place: usize,
}

// 0 means done: the file's length, and how many records it has. On a refusal these are 0.
// Kept: what may not change: `written_answer` (calls/specs) and the laws of specs/ say what was written by these four numbers.
#[derive(Clone, Copy)]
pub struct Written {
    pub number: u64,
    pub place: u64,
    pub bytes: u64,
    pub units: u64,
}

pub fn refusal(n: u64, p: u64) -> Written
    ensures { result ≡ refusal_of n p }
{
    Written {
        number: n,
        place: p,
        bytes: 0,
        units: 0,
    }
}

// All rows: kinds 1 to 7 and the clauses, a scan each; then kind 8 by variable.
fn judge(
    rows: &[u8],
    m: &mut [u16],
    firsts: &mut [u64],
    seconds: &mut [u64],
    out: &mut [u8],
) -> Result<Work, Refused>
    requires { (firsts.old ≡ replicate 1024 0) × (seconds.old ≡ replicate 1024 0) }
    ensures { Gives (judge_rows rows.now m.old out.old) result m.new out.new }
{
    let w = phases(rows, m, out)?;
    let least = eights::pick_all(rows, firsts, seconds);
    eights::eights(rows, firsts, seconds, least, w, m, out)
}

// The file that whole rows make, over working memory that is all zero.
fn write_in(
    rows: &[u8],
    m: &mut [u16],
    firsts: &mut [u64],
    seconds: &mut [u64],
    out: &mut [u8],
    room: &mut [u8],
) -> Written
    requires { (length rows.now % 32 ≡ 0) × Fresh m.old firsts.old seconds.old out.old }
    ensures { Leaves rows.now room.old result room.new }
{
    let t = judge(rows, m, firsts, seconds, out);
    conclude(t, out, room)
}

// Writes the file that the rows make into `room`; on a refusal the room is as before.
pub fn write(rows: &[u8], room: &mut [u8]) -> Written
    ensures value { result ≡ write_answer rows.now (length room.old) }
    ensures room_after { room.new ≡ write_room rows.now room.old }
{
    if rows.len() % 32 != 0 {
        return refusal(1, 0);
    }
    let mut marks = [0u16; 1024];
    let mut firsts = [0u64; 1024];
    let mut seconds = [0u64; 1024];
    let mut out = [0u8; 65536];
    write_in(rows, &mut marks, &mut firsts, &mut seconds, &mut out, room)
}
