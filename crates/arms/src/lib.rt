// The record file as a whole, with the check that says why a record is refused: it is read without writing, and the answer is the size
// of each table or a refusal from 1 to 6. A good record goes by the arm of its kind (`fits`), which asks all at once.
#![tactic(auto)]

pub mod fits;

ghost use Rattle.std.specs.Prelude.{◌≡◌};
ghost use Rattle.records.specs.Read.{read_of, answer_of};
ghost use Rattle.records.specs.Pass.{left_pass};

use records::pass::turn;
use records::{Counts, Refused};

// All records, with the counts and marks that they begin with.
fn rest(file: &[u8], m: &mut [u16], c: Counts) -> Result<Counts, Refused>
    ensures { result ≡ left_pass file.now 0 c m.old }
{
    let mut d = c;
    for i in 0..file.len() / 32 {
        d = turn(file, i, d, m)?;
    }
    Ok(d)
}

// Reads a file of records: how many each table has, or the first refusal (1 to 6) with its place.
pub fn read(file: &[u8]) -> Result<Counts, Refused>
    ensures { result ≡ answer_of (read_of file.now) }
{
    let len = file.len();
    if 65536 < len || len % 32 != 0 {
        return Err(Refused {
            number: 1,
            place: 0,
        });
    }
    let mut marks = [0u16; 1024];
    let c = Counts {
        names: 0,
        solvables: 0,
        sets: 0,
        requirements: 0,
        candidates: 0,
        reasons: 0,
        variables: 0,
        assigned: 0,
        clauses: 0,
    };
    rest(file, &mut marks, c)
}
