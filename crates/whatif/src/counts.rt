// What the question asks the index: how many clauses the file has, and whether a reason is one of its own.
ghost use Rattle.std.specs.Prelude.{◌≡◌, ◌≤◌, length, ltb};
ghost use Rattle.records.specs.Read.{tables_of};
ghost use Rattle.index.specs.Index.{Loaded};

use index::Slots;

// The number of clauses, which is the number that one more would get.
pub fn clauses(file: &[u8], ix: &Slots) -> usize
    requires { Loaded file.now ix.now }
    ensures { (result ≡ length (tables_of file.now).clauses) × (result ≤ 1024) }
{
    for i in 0..1024 {
        if index::place(ix, 4032, 1024, i) == 0 {
            return i;
        }
    }
    1024
}

pub fn is_reason(file: &[u8], ix: &Slots, r: usize) -> bool
    requires { Loaded file.now ix.now }
    ensures { result ≡ ltb r (length (tables_of file.now).reasons) }
{
    index::place(ix, 1920, 64, r) != 0
}
