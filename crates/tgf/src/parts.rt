// Numbers and labels at a place of the text, with the place behind them.
ghost use Rattle.std.specs.Prelude.{◌≡◌, ◌+◌, ◌*◌, ◌^◌, ◌<◌, ◌≤◌, length, slice_get, IfSome};
ghost use Rattle.tgf.specs.Read.{number_on, number_at, label_in, label_at};
ghost use Rattle.tgf.specs.Steps.{rest, number_out, label_out};

use crate::Part;

// The byte at a place, if the text is that long.
fn byte_at(text: &[u8], at: usize) -> Option<u8>
    ensures { result ≡ slice_get text.now at }
{
    text.get(at).copied()
}

// The space behind the number n, or up to k more digits before it.
fn number_on(text: &[u8], at: usize, n: usize, k: usize) -> Option<Part>
    requires at_bound { at ≤ length text.now }
    requires k_bound { k ≤ 2 }
    requires n_bound { n * 10 ^ k < 1000 }
    ensures result_value { number_out text.now result ≡ number_on k n (rest at text.now) }
    ensures in_bounds { IfSome result (λ p. (p.next ≤ length text.now) × (p.next ≤ at + k + 1) × (p.value < 1000)) }
{
    let mut v = n;
    for i in 0..k {
        let c = byte_at(text, at + i)?;
        if c == 32 {
            return Some(Part {
                value: v,
                next: at + i + 1,
            });
        }
        if c < 48 {
            return None;
        }
        if 57 < c {
            return None;
        }
        let w = usize::from(c);
        v = 10 * v + (w - 48);
    }
    let z = byte_at(text, at + k)?;
    if z != 32 {
        return None;
    }
    Some(Part {
        value: v,
        next: at + k + 1,
    })
}

// A number and the space behind it.
#[tactic(auto, using(crate::proofs::Bytes::number_none, crate::proofs::Bytes::first_low, crate::proofs::Bytes::first_zero))]
pub fn number_at(text: &[u8], at: usize) -> Option<Part>
    ensures result_value { number_out text.now result ≡ number_at (rest at text.now) }
    ensures in_bounds { IfSome result (λ p. (p.next ≤ length text.now) × (p.next ≤ at + 4) × (p.value < 1000)) }
{
    let c = byte_at(text, at)?;
    if c < 48 {
        return None;
    }
    if 57 < c {
        return None;
    }
    if c == 48 {
        return number_on(text, at + 1, 0, 0);
    }
    let w = usize::from(c);
    number_on(text, at + 1, w - 48, 2)
}

// A label of 49 bytes at most and the newline behind it.
#[tactic(auto, using(crate::specs::Laws::Ways::left_start, crate::specs::Laws::Ways::left_next, crate::specs::Laws::Ways::left_out, crate::specs::Laws::Ways::left_end, crate::proofs::Bytes::byte_low, crate::proofs::Bytes::byte_high))]
fn label_in(text: &[u8], at: usize) -> Option<Part>
    requires { at ≤ length text.now }
    ensures result_value { label_out text.now at result ≡ label_in 49 (rest at text.now) }
    ensures in_bounds { IfSome result (λ p. (p.next ≤ length text.now) × (p.next ≡ at + p.value + 1) × (p.value ≤ 49)) }
{
    let end = (text.len() - at).min(49);
    for n in 0..end {
        let c = text[at + n];
        if c == 10 {
            return Some(Part {
                value: n,
                next: at + n + 1,
            });
        }
        if c < 32 {
            return None;
        }
        if 126 < c {
            return None;
        }
    }
    let z = byte_at(text, at + 49)?;
    if z != 10 {
        return None;
    }
    Some(Part {
        value: 49,
        next: at + 50,
    })
}

// A label of a byte or more.
pub fn label_at(text: &[u8], at: usize) -> Option<Part>
    ensures result_value { label_out text.now at result ≡ label_at (rest at text.now) }
    ensures in_bounds { IfSome result (λ p. (p.next ≤ length text.now) × (p.next ≡ at + p.value + 1) × (p.value ≤ 49)) }
{
    let c = byte_at(text, at)?;
    if c < 32 {
        return None;
    }
    if 126 < c {
        return None;
    }
    label_in(text, at)
}
