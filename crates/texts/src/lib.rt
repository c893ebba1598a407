// The indenter by value, and line writers over the rest of the lent room.
#![tactic(auto)]

pub mod graphviz;
pub mod marks;
pub mod pieces;
pub mod wordings;
pub mod writers;

ghost use Rattle.std.specs.Prelude.{◌≡◌, false, ◌≤◌, length};
ghost use Rattle.texts.specs.Wrote.{Wrote};
ghost use Rattle.texts.specs.Indent.{indent};
ghost use Rattle.texts.specs.MarkBits.{marks_in, pushed, last_set, put_at, last_at};

use marks::marked_word;
use pieces::{length_of, put_indent};

// The levels above a line, as `Indenter` of conflict.rs: a bit a level, set for `ChildOrder::Last`; `top` is its
// `top_level_indent`. Pushing hands back a new one, and the old stays usable.
// Kept: the project's rule (fixed memory): the marks of 4,160 levels with their count; `top` is an option of the text, not of another field.
#[derive(Clone, Copy)]
pub struct Indenter {
    pub levels: [u64; 65],
    pub count: usize,
    pub top: bool,
}

impl Indenter {
    pub fn push_level(self) -> Indenter
        requires { self.count ≤ 4160 }
        ensures result_value { (marks_in result ≡ pushed false (marks_in self)) × (result.top ≡ self.top) × (result.count ≤ 4160) }
        ensures value { result ≡ put_at self self.count false }
    {
        self.push_level_with_order(false)
    }

    // With 4,160 levels held, none is pushed: the deepest text takes 4,159.
    pub fn push_level_with_order(self, last: bool) -> Indenter
        requires { self.count ≤ 4160 }
        ensures result_value { (marks_in result ≡ pushed last (marks_in self)) × (result.top ≡ self.top) × (result.count ≤ 4160) }
        ensures value { result ≡ put_at self self.count last }
    {
        let n = self.count;
        if 4160 <= n {
            return self;
        }
        let k = n / 64;
        let mut next = self;
        next.levels[k] = marked_word(self.levels[k], n % 64, last);
        next.count = n + 1;
        next
    }

    // Without a level, which conflict.rs never meets, nothing is changed.
    pub fn set_last(self) -> Indenter
        requires { self.count ≤ 4160 }
        ensures result_value { (marks_in result ≡ last_set (marks_in self)) × (result.top ≡ self.top) × (result.count ≡ self.count) }
        ensures value { result ≡ last_at self }
    {
        let n = self.count;
        if n == 0 {
            return self;
        }
        let i = n - 1;
        let k = i / 64;
        let mut next = self;
        next.levels[k] = marked_word(self.levels[k], i % 64, true);
        next
    }

    // How many bytes `get_indent` writes.
    pub fn indent_length(self) -> usize
        requires { self.count ≤ 4160 }
        ensures { (result ≡ length (indent self.top (marks_in self))) × (result ≤ 20802) }
    {
        length_of(&self.levels, self.count, self.top)
    }

    // The text before a line, at the start of the room.
    pub fn get_indent(self, out: &mut [u8]) -> usize
        requires count_bound { self.count ≤ 4160 }
        requires self_in_bounds { length (indent self.top (marks_in self)) ≤ length out.old }
        ensures { Wrote (indent self.top (marks_in self)) out.old out.new result }
    {
        put_indent(out, &self.levels, self.count, self.top)
    }
}
