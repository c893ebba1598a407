// The check and the calls that explain: each owns its working arrays, takes any bytes, any room and any option, and has no `requires`.
// What other calls share with them is in `answers` and `plans`. The crate `urzulempa` exports them, and the calls that other crates do.
#![tactic(auto)]

mod airs;
pub mod answers;
mod asks;
mod checks;
mod explains;
pub mod plans;

// "An answer holds number, place, bytes, units, depth" (document 01, "Refusal numbers").
// Kept: the C interface: a host reads these five words.
#[repr(C)]
#[derive(Clone, Copy)]
pub struct Answer {
    pub number: u64,
    pub place: u64,
    pub bytes: u64,
    pub units: u64,
    pub depth: u64,
}

ghost use Rattle.std.specs.Prelude.{◌≡◌};
ghost use Rattle.calls.specs.Air.{SaysAir};
ghost use Rattle.calls.specs.Answers.{check_of};
ghost use Rattle.calls.specs.Says.{Says};
ghost use Rattle.calls.specs.WhatIf.{SaysWhatIf};

// Refusals 1 to 9, and no text.
pub fn check(file: &[u8]) -> Answer
    ensures { result ≡ check_of file.now }
{
    checks::check_of(file)
}

// The explanation by the reading rules of an edition (order 11): 1 is the Rust's, in 2 every package is reported when first shown.
// Option 1 indents the top level.
#[tactic(auto, using(crate::specs::Laws::Says::says_later))]
pub fn explain(file: &[u8], edition: u64, option: u64, room: &mut [u8]) -> Answer
    ensures { Says edition file.now option room.old room.new result }
{
    if edition == 0 {
        return answers::refusal(12, 0);
    }
    if 2 < edition {
        return answers::refusal(12, 0);
    }
    if 1 < option {
        return answers::refusal(12, 0);
    }
    explains::explain_of(file, option == 1, edition == 2, room)
}

// The explanation by edition 1 of a file that the air profile takes (order 9): 15 for a Lock in the core, 16 for more than 64 nodes,
// 17 for a cycle, after 9. Option 1 indents the top level.
pub fn explain_air(file: &[u8], option: u64, room: &mut [u8]) -> Answer
    ensures { SaysAir file.now option room.old room.new result }
{
    if 1 < option {
        return answers::refusal(12, 0);
    }
    airs::air_of(file, option == 1, room)
}

// The explanation by edition 1 of the graph with one more exclusion (order 10): 4 for a solvable or reason that can't be asked about, 8 where
// the exclusion has no room, 17 for a cycle, after 9. Option 1 indents the top level.
pub fn explain_what_if(
    file: &[u8],
    solvable: u64,
    reason: u64,
    option: u64,
    room: &mut [u8],
) -> Answer
    ensures { SaysWhatIf file.now solvable reason option room.old room.new result }
{
    if 1 < option {
        return answers::refusal(12, 0);
    }
    asks::ask_of(file, solvable, reason, option == 1, room)
}
