// A head of the recorded list: twelve 64-bit numbers, lowest byte first (host/oracle/src/record.rs tells the whole form).
ghost use Rattle.std.specs.Prelude.{◌≡◌, ◌<◌};
ghost use Rattle.again.specs.Head.{word_at, recorded_in};

use crate::Seen;
use basis::get;

// The number whose lowest byte stands at `at`; bytes past the end are 0.
pub fn word(s: &[u8], at: usize) -> u64
    requires { at < 1024 }
    ensures { result ≡ word_at s.now at }
{
    u64::from_le_bytes([
        get(s, at),
        get(s, at + 1),
        get(s, at + 2),
        get(s, at + 3),
        get(s, at + 4),
        get(s, at + 5),
        get(s, at + 6),
        get(s, at + 7),
    ])
}

// What a call's head records of its answer.
pub fn recorded(head: &[u8]) -> Seen
    ensures { result ≡ recorded_in head.now }
{
    Seen {
        number: word(head, 32),
        place: word(head, 40),
        bytes: word(head, 48),
        units: word(head, 56),
        depth: word(head, 64),
        sum: word(head, 72),
    }
}
