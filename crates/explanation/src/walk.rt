// The whole walk (conflict.rs, lines 893 to 1186).
ghost use Rattle.std.specs.Prelude.{◌≡◌, [], length, Err};
ghost use Rattle.std.proofs.Math.Option.{some};
ghost use Rattle.records.specs.Read.{tables_of};
ghost use Rattle.index.specs.Index.{Loaded};
ghost use Rattle.explanation.specs.Ends.{answer_at, told_of};
ghost use Rattle.explanation.specs.Judge.{Flags};
ghost use Rattle.explanation.specs.Walk.{Ready, Answered};

use super::frames::{Frames, Top};
use super::turns::{End, level, turn};
use index::Slots;
use store::Scratch;

// "An answer holds number, place, bytes, units, depth".
// Kept: what may not change: `result_by`, `told_of` and `Answered` say a walk's answer by these five numbers.
#[derive(Clone, Copy)]
pub struct WalkAnswer {
    pub number: u64,
    pub place: usize,
    pub bytes: usize,
    pub units: usize,
    pub depth: usize,
}

// The answer from where the walk stands.
fn answer(number: u64, place: usize, t: Top) -> WalkAnswer
    ensures { result ≡ answer_at number place t }
{
    WalkAnswer {
        number,
        place,
        bytes: t.at,
        units: t.units,
        depth: t.depth,
    }
}

// The walk ends in the turn that began at t.
fn ended(p: &Scratch, e: End, t: Top) -> WalkAnswer
    ensures { told_of p.now (Err e) t ≡ some result }
{
    match e {
        End::Done => answer(0, 0, t),
        End::Loops(n) => answer(11, usize::from(plan::solvable(p, n)), t),
        End::Full(u) => answer(10, u.units, u),
    }
}

// The walk over lent frames, flags and marks.
fn walk_plan(
    file: &[u8],
    ix: &Slots,
    p: &Scratch,
    k: &[u16; 1024],
    fr: &mut Frames,
    seen: &mut [u8; 128],
    levels: &mut [u64; 65],
    out: &mut [u8],
    top: bool,
) -> WalkAnswer
    requires loaded { Loaded file.now ix.now }
    requires ready { Ready (tables_of file.now) p.now k.now }
    requires fr_len { (length fr.old ≡ 2080) × ((length seen.old ≡ 128) × (length levels.old ≡ 65)) }
    requires flags { Flags seen.old [] }
    ensures { Answered (tables_of file.now) p.now k.now top out.old out.new result }
{
    let mut count: usize = 0;
    let mut t = Top {
        r: plan::run_first(p, 0),
        re: plan::run_end(p, 0),
        k: 0,
        ke: 0,
        d: 0,
        at: 0,
        units: 0,
        depth: 0,
    };
    loop {
        count = level(levels, count, top, t);
        let at = t.at;
        match turn(
            file,
            ix,
            p,
            k,
            fr,
            seen,
            &mut out[at..],
            levels,
            count,
            top,
            t,
        ) {
            Ok(u) => {
                t = u;
            }
            Err(e) => {
                return ended(p, e, t);
            }
        }
    }
}

// The explanation of a packed plan: its text at the start of the room, and the answer.
pub fn explain_plan(
    file: &[u8],
    ix: &Slots,
    p: &Scratch,
    k: &[u16; 1024],
    out: &mut [u8],
    top: bool,
) -> WalkAnswer
    requires loaded { Loaded file.now ix.now }
    requires ready { Ready (tables_of file.now) p.now k.now }
    ensures { Answered (tables_of file.now) p.now k.now top out.old out.new result }
{
    let mut fr = [0u32; 2080];
    let mut seen = [0u8; 128];
    let mut levels = [0u64; 65];
    walk_plan(file, ix, p, k, &mut fr, &mut seen, &mut levels, out, top)
}
