// Total accessors: no index out of range, and no `requires` that every caller would have to carry. Past the end a read
// gives 0 and a store does nothing, so that each contract is one equation.
#![tactic(auto)]

ghost use Rattle.std.specs.Prelude.{◌≡◌, get_or, set};

// A number of a table, with what a read past the table's end gives.
pub trait Number: Copy {
    ghost blank: { Self };

    fn blank() -> Self
        ensures { result ≡ blank };
}

impl Number for u8 {
    ghost blank = { 0 };

    fn blank() -> u8 {
        0
    }
}

impl Number for u16 {
    ghost blank = { 0 };

    fn blank() -> u16 {
        0
    }
}

impl Number for u32 {
    ghost blank = { 0 };

    fn blank() -> u32 {
        0
    }
}

impl Number for u64 {
    ghost blank = { 0 };

    fn blank() -> u64 {
        0
    }
}

// The number at `at`.
pub fn get<T: Number>(s: &[T], at: usize) -> T
    ensures { result ≡ get_or s.now at T.blank }
{
    if at < s.len() { s[at] } else { T::blank() }
}

// Stores a number.
pub fn put<T: Number>(t: &mut [T], at: usize, v: T)
    ensures { t.new ≡ set t.old at v }
{
    if at < t.len() {
        t[at] = v;
    }
}
