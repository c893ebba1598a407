// The wordings of `graphviz`.

pub const DIGRAPH: &[u8] = b"digraph {";

pub const QUOTE: &[u8] = b"\"";

pub const ARROW: &[u8] = b"\" -> \"";

pub const BLACK: &[u8] = b"\"[color=black, label=\"";

pub const RED: &[u8] = b"\"[color=red, label=\"";

pub const EDGE_END: &[u8] = b"\"];";

pub const BRACE: &[u8] = b"}";

pub const ALREADY_INSTALLED: &[u8] = b"already installed";

pub const EXCLUDED: &[u8] = b"excluded";

pub const UNRESOLVED: &[u8] = b"unresolved";

pub const REASON: &[u8] = b"reason: ";
