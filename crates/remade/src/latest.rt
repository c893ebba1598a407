// A recorded call from 13 to 17, made again, as those below are.
ghost use Rattle.std.specs.Prelude.{◌≤◌};
ghost use Rattle.remade.specs.Latest.{FromThirteen};

use crate::asked::asked;
use crate::rooms::{RoomCall, shown};
use again::walls::{read_edges, read_nodes};
use again::{Seen, no_call};

// Kept: what may not change: `Replayed` names a call by its number, as the recorded list does.
// The call with number `latest` + 13 (host/oracle/src/record.rs), on a room of n bytes, a list of n entries or one of n numbers.
pub fn from_thirteen(
    file: &[u8],
    latest: u64,
    option: u64,
    first: u64,
    second: u64,
    n: usize,
) -> Seen
    requires { n ≤ 65536 }
    ensures { FromThirteen file.now latest option first second n result }
{
    match latest {
        0 => asked(file, first, second, n),
        1 => shown(file, RoomCall::WhatIf(first, second, option), n),
        2 => shown(file, RoomCall::Wall, n),
        3 => read_nodes(file, n),
        4 => read_edges(file, n),
        _ => no_call(),
    }
}
