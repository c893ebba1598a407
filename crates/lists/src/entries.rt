// The node list that a host lends: "one entry a node, holding its kind, both labels and its group" (document 01, "Graph rules"), and
// "the clause that first added it" (document 02, order 3).
// The work is done in packed words, one a node; `fill` hands them out as entries.
ghost use Rattle.std.specs.Prelude.{◌≡◌, ◌<◌, ◌≤◌, length};
ghost use Rattle.lists.specs.Entry.{entry_in, fill_to};

// One node as a host sees it, laid out as the C header's `urzulempa_node`.
// Kept: the C interface: a node's entry as C reads it.
#[repr(C)]
#[derive(Clone, Copy)]
pub struct NodeEntry {
    pub kind: u16,
    pub number: u16,
    pub group: u16,
    pub installable: u8,
    pub missing: u8,
    pub clause: u16,
}

// The entry of word i, from the low end: kind of 8 bits, number of 16, group and both labels of 8 each, clause of 16.
pub fn entry_at(words: &[u64; 128], i: usize) -> NodeEntry
    requires { i < 128 }
    ensures { result ≡ entry_in words.now i }
{
    let w = words[i];
    NodeEntry {
        kind: (w % 256) as u16,
        number: (w / 256 % 65536) as u16,
        group: (w / 16777216 % 256) as u16,
        installable: (w / 4294967296 % 256) as u8,
        missing: (w / 1099511627776 % 256) as u8,
        clause: (w / 281474976710656 % 65536) as u16,
    }
}

// The first n entries of the lent list; "entries past the last node stay as they were".
pub fn fill(list: &mut [NodeEntry], words: &[u64; 128], n: usize)
    requires { (n ≤ length list.old) × (n ≤ 128) }
    ensures { list.new ≡ fill_to words.now n list.old }
{
    for i in 0..n {
        list[i] = entry_at(words, i);
    }
}
