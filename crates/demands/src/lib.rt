// The demands on the port as one statement over the contracts of the public calls: specs/Demands.antt. What the clauses' numbers of order 3
// say, and that groups, labels and both texts do not look at them: specs/Noted.antt and Other.antt. Document 01's cases P1 to P11 as one table
// under one statement: specs/Cases/Table.antt. No code of its own.
#![tactic(auto)]
