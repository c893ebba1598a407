// What a recorded call shows when it is made again: the answer, and the checksum of the whole room or list that it was lent. The calls that
// need no graph stand here, the others in `remade`; host/oracle/src/record.rs makes the records and tells their form.
#![tactic(auto)]

pub mod changes;
pub mod heads;
pub mod joins;
pub mod mends;
pub mod sums;
pub mod walls;

ghost use Rattle.std.specs.Prelude.{◌≡◌};
ghost use Rattle.again.specs.Seen.{seen_of, no_call};

use calls::Answer;

// Kept: what may not change: a recorded answer's six numbers, as the recorded lists have them.
#[derive(Clone, Copy, PartialEq, Eq)]
pub struct Seen {
    pub number: u64,
    pub place: u64,
    pub bytes: u64,
    pub units: u64,
    pub depth: u64,
    pub sum: u64,
}

pub fn joined(a: Answer, sum: u64) -> Seen
    ensures { result ≡ seen_of a sum }
{
    Seen {
        number: a.number,
        place: a.place,
        bytes: a.bytes,
        units: a.units,
        depth: a.depth,
        sum,
    }
}

// Kept: what may not change: `Replayed` answers an unknown call with this number, and `replay` compares and shows it.
pub fn no_call() -> Seen
    ensures { result ≡ no_call }
{
    Seen {
        number: 13,
        place: 0,
        bytes: 0,
        units: 0,
        depth: 0,
        sum: 0,
    }
}
