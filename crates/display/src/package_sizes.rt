// The length of a package's text, by the same walk that writes it.
// Kept: the new form is no plainer: one walk for sizes and bytes would take a sink, and its law the room at each step, which a size has not.
ghost use Rattle.std.specs.Prelude.{◌≡◌, ◌+◌, ◌<◌, ◌≤◌, length};
ghost use Rattle.records.specs.Read.{tables_of};
ghost use Rattle.records.specs.Views.{name_text, version_text};
ghost use Rattle.index.specs.Index.{Loaded};
ghost use Rattle.plan.specs.Fields.{one_more, mates_from};
ghost use Rattle.plan.specs.Texts.{versions_in, further_in};
ghost use Rattle.display.specs.PackageLengths.{size_in};

use index::Slots;
use store::Scratch;

fn version_length(file: &[u8], ix: &Slots, s: u16) -> usize
    requires { Loaded file.now ix.now }
    ensures { (result ≡ length (version_text (tables_of file.now) s)) × (result ≤ 24) }
{
    views::version_text(file, ix, s).len()
}

fn name_length(file: &[u8], ix: &Slots, n: u16) -> usize
    requires { Loaded file.now ix.now }
    ensures { (result ≡ length (name_text (tables_of file.now) n)) × (result ≤ 24) }
{
    views::name_text(file, ix, n).len()
}

// The members from x1 on, each behind " | ".
fn behind_length(file: &[u8], ix: &Slots, p: &Scratch, x1: Option<usize>) -> usize
    requires loaded { Loaded file.now ix.now }
    requires x1_bound { one_more x1 < 256 }
    ensures { (result ≡ length (versions_in (tables_of file.now) p.now (mates_from p.now (one_more x1)))) × (result ≤ 6912) }
{
    let mut x = x1;
    let mut c: usize = 0;
    while let Some(m) = x {
        let s = plan::solvable(p, m);
        let v = version_length(file, ix, s);
        c = c + (3 + v);
        x = plan::next_mate(p, m);
    }
    c
}

// What stands behind the first version: the other members, or where they are more than five two of them, dots and the last.
fn further_length(file: &[u8], ix: &Slots, p: &Scratch, x: Option<usize>) -> usize
    requires loaded { Loaded file.now ix.now }
    requires x_bound { one_more x < 256 }
    ensures { (result ≡ length (further_in (tables_of file.now) p.now (mates_from p.now (one_more x)))) × (result ≤ 6912) }
{
    let Some(last) = plan::last_of_many(p, x) else {
        return behind_length(file, ix, p, x);
    };
    let second = x.unwrap();
    let third = plan::next_mate(p, second).unwrap();
    let a = version_length(file, ix, plan::solvable(p, second));
    let b = version_length(file, ix, plan::solvable(p, third));
    let c = version_length(file, ix, plan::solvable(p, last));
    15 + a + b + c
}

// The length of package n's text.
pub fn size_of(file: &[u8], ix: &Slots, p: &Scratch, n: usize) -> usize
    requires { Loaded file.now ix.now }
    ensures { (result ≡ size_in (tables_of file.now) p.now n) × (result < 65536) }
{
    let l = plan::lead(p, n);
    let s = plan::solvable(p, n);
    let m = views::solvable_name(file, ix, s);
    let a = name_length(file, ix, m);
    let t = plan::solvable(p, l);
    let v = version_length(file, ix, t);
    let x = plan::next_mate(p, l);
    let r = further_length(file, ix, p, x);
    a + (1 + (v + r))
}
