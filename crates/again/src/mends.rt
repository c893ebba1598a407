// A recorded repair, made again: what the room shows, or what the list of replaced records does.
ghost use Rattle.std.specs.Prelude.{◌≡◌, ◌≤◌};
ghost use Rattle.again.specs.Mends.{mended_as, mended_in, replaced_in, mends_in};
ghost use Rattle.again.specs.Seen.{blank, blank_numbers};

use crate::sums::sum;
use crate::{Seen, joined, no_call};
use calls::Answer;
use salvage::Salvaged;
use urzulempa::urzulempa_salvage;

// Kept: no plainer: both types are of other crates, so that no `From` can stand here.
fn mended(s: Salvaged) -> Answer
    ensures { result ≡ mended_as s }
{
    Answer {
        number: s.number,
        place: s.place,
        bytes: s.bytes,
        units: s.replaced,
        depth: s.dropped,
    }
}

fn mend_room(file: &[u8], room: &mut [u8], list: &mut [u16]) -> Seen
    ensures { result ≡ mended_in file.now room.old list.old }
{
    let s = urzulempa_salvage(file, room, list);
    joined(mended(s), sum(room))
}

pub fn mend(file: &[u8], n: usize) -> Seen
    requires { n ≤ 65536 }
    ensures { result ≡ mended_in file.now (blank n) (blank_numbers 8192) }
{
    let mut list = [42405u16; 8192];
    let mut room = [165u8; 65536];
    mend_room(file, &mut room[..n], &mut list)
}

// Kept: no plainer: this differs from `mend_room` in what is summed, and a closure for that is as long as either.
fn mend_list(file: &[u8], room: &mut [u8], list: &mut [u16]) -> Seen
    ensures { result ≡ replaced_in file.now room.old list.old }
{
    let s = urzulempa_salvage(file, room, list);
    joined(mended(s), sum(list))
}

fn replaced(file: &[u8], n: usize) -> Seen
    requires { n ≤ 8192 }
    ensures { result ≡ replaced_in file.now (blank 65536) (blank_numbers n) }
{
    let mut room = [165u8; 65536];
    let mut list = [42405u16; 8192];
    mend_list(file, &mut room, &mut list[..n])
}

// Kept: the new form is no plainer: a test of the limit of this call alone, before its own arrays are made.
pub fn replaced_in(file: &[u8], n: usize) -> Seen
    ensures { result ≡ mends_in file.now n }
{
    if n > 8192 {
        return no_call();
    }
    replaced(file, n)
}
