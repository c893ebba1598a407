// What a call shows now, against what is recorded of it.
ghost use Rattle.std.specs.Prelude.{◌↔◌, ◌<◌, IfSome, IsNone};
ghost use Rattle.again.specs.Head.{call_in, option_in, first_in, second_in, room_in};
ghost use Rattle.remade.specs.Again.{Replayed};
ghost use Rattle.replay.specs.Compared.{Agrees};

use again::Seen;
use again::heads::{recorded, word};
use remade::replayed;

// What the call that the head describes shows now; none where its room is larger than the program's.
pub fn shown_now(file: &[u8], head: &[u8]) -> Option<Seen>
    ensures some { IfSome result (λ seen. Replayed file.now (call_in head.now) (option_in head.now) (first_in head.now)
        (second_in head.now) (room_in head.now) seen) }
    ensures none { IsNone result ↔ 65536 < room_in head.now }
{
    let n = word(head, 24);
    if n > 65536 {
        return None;
    }
    let call = word(head, 8);
    let option = word(head, 16);
    let first = word(head, 80);
    let second = word(head, 88);
    Some(replayed(file, call, option, first, second, n as usize))
}

// Whether the call that the head describes gives what the head records.
pub fn agrees(file: &[u8], head: &[u8]) -> bool
    ensures { Agrees file.now head.now result }
{
    match shown_now(file, head) {
        Some(now) => now == recorded(head),
        None => false,
    }
}
