// The recorded calls, made again: those that need a graph here, the others in `again`; host/oracle/src/record.rs makes the records and tells
// their form.
#![tactic(auto)]

mod asked;
mod early;
mod later;
mod latest;
mod reports;
mod rooms;

ghost use Rattle.std.specs.Prelude.{◌≤◌};
ghost use Rattle.remade.specs.Again.{Replayed};

use again::Seen;

// Kept: what may not change: `Replayed` and the public `replayed` take a head's words one by one.
// The call with that number, with what else it takes.
pub fn replayed(file: &[u8], call: u64, option: u64, first: u64, second: u64, n: usize) -> Seen
    requires { n ≤ 65536 }
    ensures { Replayed file.now call option first second n result }
{
    if call < 10 {
        return early::to_nine(file, call, option, n);
    }
    if call < 13 {
        return later::from_ten(file, call - 10, option, first, second, n);
    }
    if call < 18 {
        return latest::from_thirteen(file, call - 13, option, first, second, n);
    }
    reports::from_eighteen(file, call - 18, option, first, second, n)
}
