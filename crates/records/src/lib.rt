// The record file (document 01, "The record file", "Refusal numbers"): the shapes of the records, and one record. `fields` reads it, and
// the step over the tables before it is public: `check` answers it, a table or a refusal from 2 to 6, `pass` also notes its mark,
// specs/Laws/Step.antt says what it is. The whole file is read in `arms`.
#![tactic(auto)]

pub mod check;
pub mod fields;
pub mod kinds;
pub mod origins;
pub mod pass;
pub mod text;

ghost use Rattle.std.specs.Prelude.{◌≡◌};
ghost use Rattle.records.specs.Pass.{number_of};

// The nine tables.
#[derive(Clone, Copy, PartialEq, Eq)]
pub enum Table {
    Names,
    Solvables,
    VersionSets,
    Requirements,
    Candidates,
    Reasons,
    Variables,
    Assigned,
    Clauses,
}

// What byte 1 of a record is: the length of its text, the core flag, or unused.
#[derive(Clone, Copy)]
pub enum First {
    Length,
    Flag,
    Unused,
}

// The origins that a slot allows.
#[derive(Clone, Copy)]
pub enum Allowed {
    Solvable,
    SolvableOrRoot,
    Requirer,
    ForbidMultiple,
    Auxiliary,
    Any,
}

// What a field of a record is.
#[derive(Clone, Copy)]
pub enum Slot {
    Unused,
    Own,
    Names(Table),
    Variable(Allowed),
    Origin,
    Named,
    Unassigned,
}

// A row of the table of kinds.
#[derive(Clone, Copy)]
pub struct Shape {
    pub table: Table,
    pub first: First,
    pub a: Slot,
    pub b: Slot,
    pub c: Slot,
}

// How many records each table has.
#[derive(Clone, Copy)]
pub struct Counts {
    pub names: usize,
    pub solvables: usize,
    pub sets: usize,
    pub requirements: usize,
    pub candidates: usize,
    pub reasons: usize,
    pub variables: usize,
    pub assigned: usize,
    pub clauses: usize,
}

// Why a record is refused (document 01, "Refusal numbers").
#[derive(Clone, Copy, PartialEq, Eq)]
pub enum Refusal {
    UnknownKind,
    BadShape,
    BadNumber,
    BadOrigin,
    TableFull,
}

impl Refusal {
    // Its number in document 01.
    pub fn number(self) -> u64
        ensures { result ≡ number_of self }
    {
        match self {
            Refusal::UnknownKind => 2,
            Refusal::BadShape => 3,
            Refusal::BadNumber => 4,
            Refusal::BadOrigin => 5,
            Refusal::TableFull => 6,
        }
    }
}

// A refusal of document 01 by its number, with its place.
// Kept: what may not change: `answer_of`, `bad` and every definition of a refusal have document 01's number; `Refusal` gives it.
#[derive(Clone, Copy)]
pub struct Refused {
    pub number: u64,
    pub place: u64,
}

// What a variable stands for (conflict.rs: `VariableOrigin`), with the number that it names.
#[derive(Clone, Copy)]
pub enum Origin {
    Root,
    Solvable(u16),
    ForbidMultiple(u16),
    RequiresGate,
    ConstrainsAuxiliary,
    Other,
}

// A clause as conflict.rs has it (`Clause`): variables, and the number of a reason, requirement or version set.
#[derive(Clone, Copy)]
pub enum Clause {
    InstallRoot,
    Excluded(u16, u16),
    Learnt,
    Requires(u16, u16),
    Lock(u16, u16),
    ForbidMultipleInstances(u16, u16),
    Constrains(u16, u16, u16),
    ConstrainsParent(u16, u16, u16),
    ConstrainsExcluded(u16, u16, u16),
    AnyOf(u16, u16),
}
