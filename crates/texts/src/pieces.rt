// The pieces of `get_indent`. The levels above a line's own go eight a step, two to a store, without a branch on their marks: ten bytes
// are stored, six to ten of them count, and what is stored beyond them is written over by what comes next.
ghost use Rattle.std.specs.Prelude.{◌≡◌, true, false, List, [], ◌∷◌, ◌++◌, ◌+◌, ◌<◌, ◌≤◌, length};
ghost use Rattle.texts.specs.Wrote.{Wrote};
ghost use Rattle.texts.specs.Indent.{older, deepest, indent};
ghost use Rattle.texts.specs.MarkBits.{bit, marks_at};
ghost use Rattle.texts.specs.Pieces.{bytes_of, corner_of, pair_word, pair_bytes, BytesLaid, Near};
ghost use Rattle.texts.specs.Shown.{shown_first, above_text, levels_from};
ghost use Rattle.texts.specs.Fours.{pair_words, pair_widths, pair_text, four_text, byte_text, code_in, byte_in, few_of, evened_of, step_of};

use super::marks::{lasts, mark};
use super::writers::put;

// Two levels by the number of their marks: the word that is stored first, and how many bytes count.
const WORDS: [u64; 4] = [
    0x8294E220208294E2,
    0x20208294E2202020,
    0x20202020208294E2,
    0x2020202020202020,
];

const WIDTHS: [usize; 4] = [10, 8, 8, 6];

// The first level that is shown: the top one is skipped without the option.
fn first(top: bool) -> usize
    ensures { (result ≡ shown_first top) × (result ≤ 1) }
{
    if top { 0 } else { 1 }
}

// The byte by which "└" and "├" differ.
fn corner(last: bool) -> u8
    ensures { result ≡ corner_of last }
{
    if last { 148 } else { 156 }
}

// The line's own level.
fn put_deepest(out: &mut [u8], last: bool) -> usize
    requires { 7 ≤ length out.old }
    ensures value { result ≡ 7 }
    ensures wrote { Wrote (deepest last) out.old out.new result }
{
    let c = corner(last);
    let bytes = [226u8, 148, c, 226, 148, 128, 32];
    put(out, &bytes)
}

// The eight bytes of a word, the lowest first.
fn put_eight(out: &mut [u8], w: u64) -> usize
    requires { 8 ≤ length out.old }
    ensures value { result ≡ 8 }
    ensures wrote { Wrote (bytes_of 8 w) out.old out.new result }
{
    put(out, &w.to_le_bytes())
}

// Eight of the ten bytes of two levels.
fn pair_word(a: bool, b: bool) -> u64
    ensures { result ≡ pair_word a b }
{
    if a {
        if b {
            return 0x2020202020202020;
        }
        return 0x20208294E2202020;
    }
    if b {
        return 0x20202020208294E2;
    }
    0x8294E220208294E2
}

fn put_pair(out: &mut [u8], a: bool, b: bool) -> usize
    requires { 10 ≤ length out.old }
    ensures { Wrote (pair_bytes a b) out.old out.new result }
{
    let at = put_eight(out, pair_word(a, b));
    at + put(&mut out[at..], b"  ")
}

// How many bytes a level above takes.
fn width(last: bool) -> usize
    ensures { (result ≡ length (older last)) × (result ≤ 5) }
{
    if last { 3 } else { 5 }
}

// Levels i and i + 1.
fn put_two(out: &mut [u8], levels: &[u64; 65], i: usize) -> usize
    requires i_bound { i + 1 < 4160 }
    requires in_bounds { 10 ≤ length out.old }
    ensures bytes_laid { BytesLaid (older (bit levels.now i)
        ++ older (bit levels.now (i + 1))) (pair_bytes (bit levels.now i) (bit levels.now (i + 1))) out.old
        out.new result }
    ensures upper_bound { result ≤ 10 }
{
    let a = mark(levels, i);
    let b = mark(levels, i + 1);
    put_pair(out, a, b);
    width(a) + width(b)
}

// Level i, as if a level without a line stood behind it.
fn put_one(out: &mut [u8], levels: &[u64; 65], i: usize) -> usize
    requires i_bound { i < 4160 }
    requires in_bounds { 10 ≤ length out.old }
    ensures bytes_laid { BytesLaid (older (bit levels.now i)) (pair_bytes (bit levels.now i) true) out.old out.new result }
    ensures upper_bound { result ≤ 5 }
{
    let a = mark(levels, i);
    put_pair(out, a, true);
    width(a)
}

// Two levels by the number of their marks.
fn put_code(out: &mut [u8], c: usize) -> usize
    requires c_bound { c < 4 }
    requires in_bounds { 10 ≤ length out.old }
    ensures near { Near (pair_text c) out.old out.new result }
    ensures upper_bound { result ≤ 10 }
{
    let at = put_eight(out, WORDS[c]);
    put(&mut out[at..], b"  ");
    WIDTHS[c]
}

// Four levels by the number of their marks.
fn put_four(out: &mut [u8], c: usize) -> usize
    requires c_bound { c < 16 }
    requires c_in_bounds { length (four_text c) + 7 ≤ length out.old }
    ensures near { Near (four_text c) out.old out.new result }
    ensures upper_bound { result ≤ 20 }
{
    let a = put_code(out, c % 4);
    a + put_code(&mut out[a..], c / 4)
}

// Eight levels by the number of their marks.
fn put_byte(out: &mut [u8], c: usize) -> usize
    requires c_bound { c < 256 }
    requires c_in_bounds { length (byte_text c) + 7 ≤ length out.old }
    ensures near { Near (byte_text c) out.old out.new result }
    ensures upper_bound { result ≤ 40 }
{
    let a = put_four(out, c % 16);
    a + put_four(&mut out[a..], c / 16)
}

// The marks of the four levels from i on as a number, of k levels that are left; 16 where they are fewer or stand in two words.
// Kept: the new form is no plainer: 16 is behind all codes of four levels, as `code_in` says, and an Option would be taken apart at each level.
fn code_at(levels: &[u64; 65], i: usize, k: usize) -> usize
    requires { i < 4160 }
    ensures { result ≡ code_in levels.now i k }
{
    if k < 4 {
        return 16;
    }
    if 60 < i % 64 {
        return 16;
    }
    ((levels[i / 64] >> (i % 64)) % 16) as usize
}

// The same of eight levels, with 256 for none.
// Kept: the new form is no plainer: 256 is behind all codes of eight levels, as `byte_in` says, and with one size for both the shifts would be products.
#[tactic(auto, using(crate::specs::Fours::byte_few, crate::specs::Fours::byte_edge, crate::specs::Fours::byte_eight))]
fn byte_at(levels: &[u64; 65], i: usize, k: usize) -> usize
    requires { i < 4160 }
    ensures { result ≡ byte_in levels.now i k }
{
    if k < 8 {
        return 256;
    }
    if 56 < i % 64 {
        return 256;
    }
    ((levels[i / 64] >> (i % 64)) % 256) as usize
}

// The next levels, of k that are left: one, two, or four by their number c.
fn put_few(out: &mut [u8], levels: &[u64; 65], i: usize, k: usize, c: usize) -> usize
    requires k_nonzero { (0 < k) × (i + k ≤ 4160) }
    requires c_value { c ≡ code_in levels.now i k }
    requires c_in_bounds { length (levels_from levels.now i (few_of k c)) + 7 ≤ length out.old }
    ensures near { Near (levels_from levels.now i (few_of k c)) out.old out.new result }
    ensures upper_bound { result ≤ 20 }
{
    if k < 2 {
        return put_one(out, levels, i);
    }
    if k < 4 {
        return put_two(out, levels, i);
    }
    if c < 16 {
        return put_four(out, c);
    }
    put_two(out, levels, i)
}

// How many levels that is.
// Kept: the new form is no plainer: it answers how many levels, a number.
fn few(k: usize, c: usize) -> usize
    requires { 0 < k }
    ensures { (result ≡ few_of k c) × (0 < result) × (result ≤ k) }
{
    if k < 2 {
        return 1;
    }
    if k < 4 {
        return 2;
    }
    if c < 16 {
        return 4;
    }
    2
}

// Of k levels that are left, how many are looked at where eight do not stand in one word: one from an odd level, so that from the
// first word's end on all others begin with their word.
fn evened(i: usize, k: usize) -> usize
    requires { 0 < k }
    ensures { (result ≡ evened_of i k) × (0 < result) × (result ≤ k) }
{
    if i % 2 == 1 {
        return 1;
    }
    k
}

// The next levels: eight by their number b, or fewer.
fn put_step(out: &mut [u8], levels: &[u64; 65], i: usize, k: usize, b: usize) -> usize
    requires k_nonzero { (0 < k) × (i + k ≤ 4160) }
    requires b_value { b ≡ byte_in levels.now i k }
    requires b_in_bounds { length (levels_from levels.now i (step_of levels.now i k b)) + 7 ≤ length out.old }
    ensures near { Near (levels_from levels.now i (step_of levels.now i k b)) out.old out.new result }
    ensures upper_bound { result ≤ 40 }
{
    if b < 256 {
        return put_byte(out, b);
    }
    let j = evened(i, k);
    let c = code_at(levels, i, j);
    put_few(out, levels, i, j, c)
}

// How many levels that is.
fn step(levels: &[u64; 65], i: usize, k: usize, b: usize) -> usize
    requires k_nonzero { (0 < k) × (i + k ≤ 4160) }
    requires b_value { b ≡ byte_in levels.now i k }
    ensures { (result ≡ step_of levels.now i k b) × (0 < result) × (result ≤ k) }
{
    if b < 256 {
        return 8;
    }
    let j = evened(i, k);
    let c = code_at(levels, i, j);
    few(j, c)
}

// The levels above, and up to seven bytes more that are not the room's own.
fn put_above(out: &mut [u8], levels: &[u64; 65], top: bool, n: usize) -> usize
    requires top_bound { (shown_first top ≤ n) × (n < 4160) }
    requires n_in_bounds { length (above_text top levels.now n) + 7 ≤ length out.old }
    ensures { Near (above_text top levels.now n) out.old out.new result }
{
    let mut i = first(top);
    let mut at: usize = 0;
    // Kept: the new form is no plainer: a turn takes one, two, four or eight levels, and `step` says how many.
    while i < n {
        let k = n - i;
        let b = byte_at(levels, i, k);
        let s = step(levels, i, k, b);
        at += put_step(&mut out[at..], levels, i, k, b);
        i += s;
    }
    at
}

// The levels above, and the line's own: `get_indent` over lent marks, for a loop that would copy the indenter.
pub fn put_indent(out: &mut [u8], levels: &[u64; 65], count: usize, top: bool) -> usize
    requires count_bound { count ≤ 4160 }
    requires count_in_bounds { length (indent top (marks_at levels.now count)) ≤ length out.old }
    ensures { Wrote (indent top (marks_at levels.now count)) out.old out.new result }
{
    if count <= first(top) {
        return 0;
    }
    let own = count - 1;
    let last = mark(levels, own);
    let at = put_above(out, levels, top, own);
    at + put_deepest(&mut out[at..], last)
}

// How many bytes that is: 5 a level above, 2 fewer for each that is last, and 7.
pub fn length_of(levels: &[u64; 65], count: usize, top: bool) -> usize
    requires { count ≤ 4160 }
    ensures { (result ≡ length (indent top (marks_at levels.now count))) × (result ≤ 20802) }
{
    let from = first(top);
    if count <= from {
        return 0;
    }
    let own = count - 1;
    let all = lasts(levels, own);
    let skipped = lasts(levels, from);
    5 * (own - from) + 7 + 2 * skipped - 2 * all
}
