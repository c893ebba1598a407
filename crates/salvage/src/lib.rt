// Salvage of a record file into a second buffer (document 02, order 7). First each record is judged by the public step of the reader
// over the repaired records before it, and nothing that was lent is written; then the file is copied and the replaced records are blanked.
#![tactic(auto)]

mod judge;
mod repair;

ghost use Rattle.std.specs.Prelude.{◌≡◌, length};
ghost use Rattle.salvage.specs.Lent.{refusal_of, salvage_answer, salvage_room, salvage_list};

use judge::judge;
use records::{Counts, Table};
use repair::repair;

// What becomes of a record: it stays, in its table, or the blank clause stands for it.
// Kept: the new form is no plainer: None would not say that the record is replaced.
#[derive(Clone, Copy)]
pub enum Fate {
    Stays(Table),
    Replaced,
}

// What the records so far come to: the sizes of the tables, and how many records were replaced.
#[derive(Clone, Copy)]
pub struct Work {
    pub counts: Counts,
    pub replaced: usize,
}

// 0 means done: the repaired file's length, how many numbers the list got, and the bytes dropped. "On a refusal these are 0."
// Kept: the C interface: the five numbers of a mended file's answer.
#[repr(C)]
#[derive(Clone, Copy)]
pub struct Salvaged {
    pub number: u64,
    pub place: u64,
    pub bytes: u64,
    pub replaced: u64,
    pub dropped: u64,
}

pub fn refusal(n: u64, p: u64) -> Salvaged
    ensures { result ≡ refusal_of n p }
{
    Salvaged {
        number: n,
        place: p,
        bytes: 0,
        replaced: 0,
        dropped: 0,
    }
}

// Repairs a file into `room` and lists the replaced records; on a refusal both are as before.
#[tactic(auto, using(crate::specs::Laws::Lent::long_answer, crate::specs::Laws::Lent::long_room, crate::specs::Laws::Lent::long_list))]
pub fn salvage(file: &[u8], room: &mut [u8], list: &mut [u16]) -> Salvaged
    ensures value { result ≡ salvage_answer file.now (length room.old) (length list.old) }
    ensures room_after { room.new ≡ salvage_room file.now room.old (length list.old) }
    ensures list_after { list.new ≡ salvage_list file.now (length room.old) list.old }
{
    let len = file.len();
    if 65536 < len {
        return refusal(1, 0);
    }
    let mut marks = [0u16; 1024];
    let mut found = [0u16; 2048];
    match judge(file, &mut marks, &mut found) {
        Err(e) => refusal(e.number, e.place),
        Ok(w) => repair(file, &found, w.replaced, room, list),
    }
}
