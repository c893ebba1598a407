// The lines of an entry of `fmt_graph`: each is measured, and written whole or not at all.
#![tactic(auto)]

mod package;
pub mod run;
pub mod sets;

ghost use Rattle.std.specs.Prelude.{◌≡◌, ◌+◌, leb};

// Whether so many bytes and so many more are within the room; the sum is not formed where it could be too large.
fn fits(room: usize, fixed: usize, more: usize) -> bool
    ensures { result ≡ leb (fixed + more) room }
{
    fixed <= room && more <= room - fixed
}
