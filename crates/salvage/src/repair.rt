// The repaired file and the list of the replaced records, written once everything is known.
ghost use Rattle.std.specs.Prelude.{◌≡◌, ◌+◌, ◌≤◌, ◌<◌, length, take};
ghost use Rattle.salvage.specs.Writing.{blank_at, blanks, SalvageLaid};

use crate::{Salvaged, refusal};
use reader::pieces::paste;

// "kind 16 with flag 0 and all else zero", over record l.
fn blank_at(room: &mut [u8], l: usize)
    requires { l < 65536 }
    ensures { room.new ≡ blank_at room.old l }
{
    let at = 32 * l;
    if room.len() < at + 32 {
        return;
    }
    let mut b = [0u8; 32];
    b[0] = 16;
    paste(room, at, &b, 32);
}

// Over each of the first k records that are listed.
fn blank_all(room: &mut [u8], list: &[u16], k: usize)
    requires { k ≤ length list.now }
    ensures { room.new ≡ blanks (take k list.now) room.old }
{
    for l in &list[..k] {
        blank_at(room, usize::from(*l));
    }
}

// The file with the first k records of `found` replaced, if both lent places are long enough.
pub fn repair(file: &[u8], found: &[u16], k: usize, room: &mut [u8], list: &mut [u16]) -> Salvaged
    requires { k ≤ length found.now }
    ensures { SalvageLaid file.now found.now k room.old list.old result room.new list.new }
{
    let len = file.len();
    let bytes = 32 * (len / 32);
    if room.len() < bytes {
        return refusal(10, 0);
    }
    if list.len() < k {
        return refusal(10, 0);
    }
    paste(room, 0, file, bytes);
    blank_all(room, found, k);
    paste(list, 0, found, k);
    Salvaged {
        number: 0,
        place: 0,
        bytes: bytes as u64,
        replaced: k as u64,
        dropped: (len - bytes) as u64,
    }
}
