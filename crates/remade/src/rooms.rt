// A recorded call that is lent a room alone, made again on one that holds 165 in every byte.
ghost use Rattle.std.specs.Prelude.{◌≤◌};
ghost use Rattle.again.specs.Seen.{blank};
ghost use Rattle.remade.specs.Room.{RoomAnswers, RoomShown};

use again::sums::sum;
use again::{Seen, joined};
use calls::Answer;
use urzulempa::{
    urzulempa_explain, urzulempa_explain_air, urzulempa_explain_edition, urzulempa_explain_plain,
    urzulempa_graphviz, urzulempa_tgf, urzulempa_what_if_explain, urzulempa_write,
};

// Such a call, with what else it takes.
#[derive(Clone, Copy)]
pub enum RoomCall {
    Explain(u64),
    Plain,
    Second(u64),
    Air(u64),
    WhatIf(u64, u64, u64),
    Graph(u64),
    Wall,
    Write,
}

fn answered(file: &[u8], call: RoomCall, room: &mut [u8]) -> Answer
    ensures { RoomAnswers file.now call room.old room.new result }
{
    match call {
        RoomCall::Explain(option) => urzulempa_explain(file, option, room),
        RoomCall::Plain => urzulempa_explain_plain(file, room),
        RoomCall::Second(option) => urzulempa_explain_edition(file, 2, option, room),
        RoomCall::Air(option) => urzulempa_explain_air(file, option, room),
        RoomCall::WhatIf(solvable, reason, option) => {
            urzulempa_what_if_explain(file, solvable, reason, option, room)
        }
        RoomCall::Graph(option) => urzulempa_graphviz(file, option, room),
        RoomCall::Wall => urzulempa_tgf(file, room),
        RoomCall::Write => urzulempa_write(file, room),
    }
}

fn shown_in(file: &[u8], call: RoomCall, room: &mut [u8]) -> Seen
    ensures { RoomShown (RoomAnswers file.now call) room.old result }
{
    let a = answered(file, call, room);
    joined(a, sum(room))
}

// The same on a room of n bytes.
pub fn shown(file: &[u8], call: RoomCall, n: usize) -> Seen
    requires { n ≤ 65536 }
    ensures { RoomShown (RoomAnswers file.now call) (blank n) result }
{
    let mut room = [165u8; 65536];
    shown_in(file, call, &mut room[..n])
}
