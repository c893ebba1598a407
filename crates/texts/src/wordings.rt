// The wordings of `fmt_graph`, in the order in which its text names them.

pub const NO_VIABLE: &[u8] = b" cannot be installed because there are no viable options:\n";

pub const WHICH_NO_VIABLE: &[u8] =
    b", which cannot be installed because there are no viable options:\n";

pub const OPTIONS: &[u8] = b" can be installed with any of the following options:\n";

pub const WHICH_OPTIONS: &[u8] = b", which can be installed with any of the following options:\n";

pub const NONE_FOUND: &[u8] = b"No candidates were found for ";

pub const STOP: &[u8] = b".\n";

pub const WHICH_NONE_FOUND: &[u8] = b", for which no candidates were found.\n";

pub const EXCLUDED: &[u8] = b" is excluded because ";

pub const NEWLINE: &[u8] = b"\n";

pub const CONFLICTS: &[u8] = b", which conflicts with the versions reported above.\n";

pub const WOULD_CONSTRAIN: &[u8] = b" would constrain\n";

pub const CONFLICTS_ANY: &[u8] =
    b", which conflicts with any installable versions previously reported\n";

pub const WOULD_REQUIRE: &[u8] = b" would require\n";

pub const BAR: &[u8] = b" | ";

pub const DOTS: &[u8] = b" | ...";

pub const SPACE: &[u8] = b" ";

pub const ROOT: &[u8] = b"<root>";
