// Numbers as decimals without leading zeros.
ghost use Rattle.std.specs.Prelude.{◌≡◌, ◌++◌, ◌+◌, ◌<◌, ◌≤◌, length};
ghost use Rattle.basis.specs.Quote.{utf8};
ghost use Rattle.texts.specs.Wrote.{Wrote};
ghost use Rattle.tgf.specs.Lines.{decimal};

use texts::wordings;
use texts::writers::put;

// How many digits.
pub fn number_size(n: usize) -> usize
    ensures { (result ≡ length (decimal n)) × (result ≤ 3) }
{
    match n {
        0..=9 => 1,
        10..=99 => 2,
        _ => 3,
    }
}

fn put_number(out: &mut [u8], n: usize) -> usize
    requires n_bound { n < 1000 }
    requires n_in_bounds { length (decimal n) ≤ length out.old }
    ensures value { result ≡ length (decimal n) }
    ensures wrote { Wrote (decimal n) out.old out.new result }
{
    if n < 10 {
        let a = [(48 + n) as u8];
        return put(out, &a);
    }
    if n < 100 {
        let b = [(48 + n / 10) as u8, (48 + n % 10) as u8];
        return put(out, &b);
    }
    let c = [
        (48 + n / 100) as u8,
        (48 + n / 10 % 10) as u8,
        (48 + n % 10) as u8,
    ];
    put(out, &c)
}

// A number and a space.
pub fn put_spaced(out: &mut [u8], n: usize) -> usize
    requires n_bound { n < 1000 }
    requires n_in_bounds { length (decimal n) + 1 ≤ length out.old }
    ensures value { result ≡ length (decimal n) + 1 }
    ensures wrote { Wrote (decimal n ++ utf8 " ") out.old out.new result }
{
    let a = put_number(out, n);
    a + put(&mut out[a..], wordings::SPACE)
}

// Both ends of an edge, a space behind each.
pub fn put_ends(out: &mut [u8], a: usize, b: usize) -> usize
    requires a_bound { (a < 1000) × (b < 1000) }
    requires b_in_bounds { length (decimal a) + length (decimal b) + 2 ≤ length out.old }
    ensures value { result ≡ length (decimal a) + length (decimal b) + 2 }
    ensures wrote { Wrote (decimal a ++ utf8 " " ++ decimal b ++ utf8 " ") out.old out.new result }
{
    let d = put_spaced(out, a);
    let e = d + put_number(&mut out[d..], b);
    e + put(&mut out[e..], wordings::SPACE)
}
