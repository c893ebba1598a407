// Texts between quotes (order 5): a backslash before each quote in them.
ghost use Rattle.std.specs.Prelude.{◌≡◌, ◌≤◌, length};
ghost use Rattle.basis.specs.Quote.{utf8};
ghost use Rattle.texts.specs.Wrote.{Wrote};
ghost use Rattle.display.specs.Quoted.{escaped, quoted};

use texts::writers::put;

// A quote as it stands in a quoted text.
fn put_mark(out: &mut [u8]) -> usize
    requires { 2 ≤ length out.old }
    ensures value { result ≡ 2 }
    ensures wrote { Wrote (utf8 "\\\"") out.old out.new result }
{
    put(out, b"\\\"")
}

// One byte of a text, with a backslash before it where it is a quote.
fn put_escaped(out: &mut [u8], c: u8) -> usize
    requires { length (escaped c) ≤ length out.old }
    ensures value { result ≡ length (escaped c) }
    ensures wrote { Wrote (escaped c) out.old out.new result }
{
    if c == 34 {
        return put_mark(out);
    }
    out[0] = c;
    1
}

fn width(c: u8) -> usize
    ensures { (result ≡ length (escaped c)) × (result ≤ 2) }
{
    if c == 34 { 2 } else { 1 }
}

// How many bytes a text takes between quotes.
pub fn quoted_size(text: &[u8]) -> usize
    requires { length text.now ≤ 24 }
    ensures { (result ≡ length (quoted text.now)) × (result ≤ 48) }
{
    let mut n: usize = 0;
    for c in text {
        n += width(*c);
    }
    n
}

// The text as it stands between quotes.
pub fn put_quoted(out: &mut [u8], text: &[u8]) -> usize
    requires { length (quoted text.now) ≤ length out.old }
    ensures value { result ≡ length (quoted text.now) }
    ensures wrote { Wrote (quoted text.now) out.old out.new result }
{
    let mut at: usize = 0;
    for c in text {
        at += put_escaped(&mut out[at..], *c);
    }
    at
}
