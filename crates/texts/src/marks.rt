// The marks of the levels as bits of words: level i, from 0 at the top, is digit i % 64 of word i / 64.
ghost use Rattle.std.specs.Prelude.{◌≡◌, ◌%◌, ◌^◌, ◌<◌, ◌≤◌, length};
ghost use Rattle.std.specs.Int.Count.{ones};
ghost use Rattle.texts.specs.MarkBits.{bit, marked, marks_at, pushed, upper, kept_of, level_count, level_words};
ghost use Rattle.texts.specs.Length.{last_count};

// The mark of level i.
pub fn mark(levels: &[u64; 65], i: usize) -> bool
    requires { i < 4160 }
    ensures { result ≡ bit levels.now i }
{
    (levels[i / 64] >> (i % 64)) % 2 == 1
}

// Digit b's weight.
pub fn power(b: usize) -> u64
    requires { b < 64 }
    ensures { (result ≡ 2 ^ b) × (0 < result) × (result ≤ 9223372036854775808) }
{
    1 << b
}

// The word w with a mark as its digit b, and nothing above it.
pub fn marked_word(w: u64, b: usize, last: bool) -> u64
    requires { b < 64 }
    ensures { result ≡ marked w b last }
{
    let p = power(b);
    if last {
        return w % p + p;
    }
    w % p
}

// How many bits of w are set.
pub fn set_bits(w: u64) -> usize
    ensures { (result ≡ ones (w % 18446744073709551616)) × (result ≤ 64) }
{
    u64::count_ones(w) as usize
}

// How many of the n upper levels are last.
pub fn lasts(levels: &[u64; 65], n: usize) -> usize
    requires { n < 4160 }
    ensures { (result ≡ last_count (marks_at levels.now n)) × (result ≤ 4224) }
{
    let words = n / 64;
    let mut s: usize = 0;
    for k in 0..words {
        s += set_bits(levels[k]);
    }
    s + set_bits(levels[words] % power(n % 64))
}

// How many levels are left of `count` where only `level` are kept.
pub fn kept(count: usize, level: usize) -> usize
    ensures { (result ≡ kept_of count level) × (result ≤ count) }
{
    level.min(count)
}

// Back to the `level` upper levels of lent marks, and one more pushed: the entry of a level's next sibling. The answer is how many are held
// then; with 4,160 held, none is pushed. It is for a loop that would copy the indenter at every line.
pub fn put_level(levels: &mut [u64; 65], count: usize, level: usize, last: bool) -> usize
    requires { (count ≤ 4160) × (length levels.old ≡ 65) }
    ensures value { (result ≡ level_count count level) × (levels.new ≡ level_words levels.old count level last) }
    ensures result_after { (marks_at levels.new result ≡ pushed last (upper level (marks_at levels.old count))) × (result ≤ 4160)
        × (length levels.new ≡ 65) }
{
    let n = kept(count, level);
    if 4160 <= n {
        return count;
    }
    let k = n / 64;
    levels[k] = marked_word(levels[k], n % 64, last);
    n + 1
}
