// A recorded call from 10 to 12, made again, as those below 10 are.
ghost use Rattle.std.specs.Prelude.{◌≤◌};
ghost use Rattle.remade.specs.Later.{FromTen};

use crate::rooms::{RoomCall, shown};
use again::changes::{changed_in, read};
use again::{Seen, no_call};

// Kept: what may not change: `Replayed` names a call by its number, as the recorded list does.
// The call with number `later` + 10 (host/oracle/src/record.rs), on a room of n bytes.
pub fn from_ten(file: &[u8], later: u64, option: u64, first: u64, second: u64, n: usize) -> Seen
    requires { n ≤ 65536 }
    ensures { FromTen file.now later option first second n result }
{
    match later {
        0 => read(file, option),
        1 => changed_in(file, option, first, second, n),
        2 => shown(file, RoomCall::Write, n),
        _ => no_call(),
    }
}
