// From bytes to the graph: refusals 1 to 9.
ghost use Rattle.std.specs.Prelude.{◌≡◌};
ghost use Rattle.calls.specs.Answers.{check_of};

use crate::Answer;
use crate::answers::refusal;

// A graph that is drawn is done.
pub fn check_of(file: &[u8]) -> Answer
    ensures { result ≡ check_of file.now }
{
    let mut ix = [0u16; 10432];
    let mut g = [0u64; 1152];
    let mut tr = [0u64; 1280];
    let mut ls = [0u16; 3456];
    match graph::check_file(file, &mut ix, &mut g, &mut tr, &mut ls) {
        Err(e) => refusal(e.number, e.place),
        Ok(_) => refusal(0, 0),
    }
}
