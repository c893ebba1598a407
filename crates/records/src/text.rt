// What byte 1 and the text of a record may be (3: "bad length, flag, text byte .. or nonzero unused byte").
ghost use Rattle.std.specs.Prelude.{◌≡◌, ◌+◌, ◌<◌, ◌≤◌, length};
ghost use Rattle.records.specs.Shapes.{records_of};
ghost use Rattle.records.specs.Tables.{at};
ghost use Rattle.records.specs.Text.{all_text, all_zero, eight_at, rest_zero, text_pass, first_pass};

use crate::First;
use crate::fields::{first_at, rest_at, text_at};

// Each byte is from 32 to 126.
fn all_text(s: &[u8]) -> bool
    ensures { result ≡ all_text s.now }
{
    s.iter().all(|b| 32 <= *b && *b <= 126)
}

// The eight bytes from `at` on as one number, the lowest byte first: the compiler makes one load of it.
fn eight(s: &[u8], at: usize) -> u64
    requires { at + 8 ≤ length s.now }
    ensures { result ≡ eight_at s.now at }
{
    u64::from_le_bytes([
        s[at],
        s[at + 1],
        s[at + 2],
        s[at + 3],
        s[at + 4],
        s[at + 5],
        s[at + 6],
        s[at + 7],
    ])
}

// Each byte is 0: eight at a time, the rest by the last eight, or one by one where there are fewer.
fn all_zero(s: &[u8]) -> bool
    ensures { result ≡ all_zero s.now }
{
    let (eights, rest) = s.as_chunks::<8>();
    if !eights.iter().all(|w| u64::from_le_bytes(*w) == 0) {
        return false;
    }
    if 8 <= s.len() {
        return eight(s, s.len() - 8) == 0;
    }
    rest.iter().all(|b| *b == 0)
}

// Each byte of a whole text is 0.
#[tactic(auto, using(crate::specs::Text::first_used, crate::specs::Text::second_used, crate::specs::Text::third_used))]
fn none_used(s: &[u8]) -> bool
    ensures { result ≡ all_zero s.now }
{
    if s.len() != 24 {
        return all_zero(s);
    }
    let u = eight(s, 0);
    if 0 < u {
        return false;
    }
    let v = eight(s, 8);
    if 0 < v {
        return false;
    }
    let w = eight(s, 16);
    w < 1
}

// No byte of the text is used.
#[tactic(auto, using(crate::specs::Text::rest_zero_is))]
fn blank(file: &[u8], i: usize) -> bool
    ensures { result ≡ rest_zero (at (records_of file.now) i) 0 }
{
    let s = rest_at(file, i, 0);
    none_used(s)
}

// No byte of the text is used from byte b on.
#[tactic(auto, using(crate::specs::Text::rest_zero_is))]
fn rest_zero(file: &[u8], i: usize, b: u8) -> bool
    requires { b ≤ 24 }
    ensures { result ≡ rest_zero (at (records_of file.now) i) b }
{
    let s = rest_at(file, i, b);
    all_zero(s)
}

// "Text is 1 to 24 bytes, each from 32 to 126", "zero beyond its length".
#[tactic(auto, using(basis::specs::Laws::Guard::guards, crate::specs::Text::low_no, crate::specs::Text::low_yes), unfolding(crate::specs::Text::text_pass))]
pub fn text_good(file: &[u8], i: usize) -> bool
    ensures { result ≡ text_pass (at (records_of file.now) i) }
{
    let b = first_at(file, i);
    if b < 1 {
        return false;
    }
    if 24 < b {
        return false;
    }
    let s = text_at(file, i);
    if !all_text(s) {
        return false;
    }
    rest_zero(file, i, b)
}

// A flag and no text.
#[tactic(auto, using(basis::specs::Laws::Guard::guards), unfolding(crate::specs::Text::first_pass))]
pub fn flagged(file: &[u8], i: usize) -> bool
    ensures { result ≡ first_pass First.Flag (at (records_of file.now) i) }
{
    if 1 < first_at(file, i) {
        return false;
    }
    blank(file, i)
}

// Neither flag nor text.
#[tactic(auto, using(basis::specs::Laws::Guard::guards), unfolding(crate::specs::Text::first_pass))]
pub fn unmarked(file: &[u8], i: usize) -> bool
    ensures { result ≡ first_pass First.Unused (at (records_of file.now) i) }
{
    if first_at(file, i) != 0 {
        return false;
    }
    blank(file, i)
}

// Byte 1 and the text are what the kind asks for.
#[tactic(auto, unfolding(crate::specs::Text::first_pass))]
pub fn first_good(file: &[u8], i: usize, f: First) -> bool
    ensures { result ≡ first_pass f (at (records_of file.now) i) }
{
    match f {
        First::Length => text_good(file, i),
        First::Flag => flagged(file, i),
        First::Unused => unmarked(file, i),
    }
}
