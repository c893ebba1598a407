// The regions of the index: where each begins, and how many places it has.

// The place of the record of each number, by table.
pub const NAMES: usize = 0;

pub const NAMES_MOST: usize = 128;

pub const SOLVABLES: usize = 128;

pub const SOLVABLES_MOST: usize = 256;

pub const SETS: usize = 384;

pub const SETS_MOST: usize = 256;

pub const REQUIREMENTS: usize = 640;

pub const REQUIREMENTS_MOST: usize = 256;

pub const CANDIDATES: usize = 896;

pub const CANDIDATES_MOST: usize = 1024;

pub const REASONS: usize = 1920;

pub const REASONS_MOST: usize = 64;

pub const VARIABLES: usize = 1984;

pub const VARIABLES_MOST: usize = 1024;

// By variable: one more than the clause that assigned it.
pub const ASSIGNED: usize = 3008;

pub const ASSIGNED_MOST: usize = 1024;

// The place of each clause.
pub const CLAUSES: usize = 4032;

pub const CLAUSES_MOST: usize = 1024;

// By requirement: its first candidate; by candidate: the next one.
pub const CANDIDATE_HEADS: usize = 5056;

pub const CANDIDATE_HEADS_MOST: usize = 256;

pub const CANDIDATE_LINKS: usize = 5312;

pub const CANDIDATE_LINKS_MOST: usize = 1024;

// By variable: the first of the core's clauses of a gate, of an auxiliary's parents, of its candidates.
pub const GATES: usize = 6336;

pub const GATES_MOST: usize = 1024;

pub const PARENTS: usize = 7360;

pub const PARENTS_MOST: usize = 1024;

pub const EXCLUDED: usize = 8384;

pub const EXCLUDED_MOST: usize = 1024;

// By clause: the next one of the same chain.
pub const PARTNER_LINKS: usize = 9408;

pub const PARTNER_LINKS_MOST: usize = 1024;
