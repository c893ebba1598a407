// The file that was made, into the lent room.
ghost use Rattle.std.specs.Prelude.{◌≡◌, length};
ghost use Rattle.writing.specs.Pass.{FileLaid, Concluded};

use crate::{Work, Written, refusal};
use reader::pieces::paste;
use records::Refused;

// The records of `out` that w counts: "1 when the file would pass 65,536 bytes, then 10 when it doesn't fit".
fn finish(w: Work, out: &[u8], room: &mut [u8]) -> Written
    requires { length out.now ≡ 65536 }
    ensures { FileLaid w.place out.now room.old result room.new }
{
    let p = w.place;
    if 2048 < p {
        return refusal(1, 0);
    }
    let bytes = 32 * p;
    if room.len() < bytes {
        return refusal(10, 0);
    }
    paste(room, 0, out, bytes);
    Written {
        number: 0,
        place: 0,
        bytes: bytes as u64,
        units: p as u64,
    }
}

// The pass over the rows ended with t.
pub fn conclude(t: Result<Work, Refused>, out: &[u8], room: &mut [u8]) -> Written
    requires { length out.now ≡ 65536 }
    ensures { Concluded t out.now room.old result room.new }
{
    match t {
        Err(e) => refusal(e.number, e.place),
        Ok(w) => finish(w, out, room),
    }
}
