// The loop of `fmt_graph` without its wording, and demand 3 of the port: mathematics only, all of it in `specs/`.
// To read beside conflict.rs and document 01: Machine (the loop), Units (what fits a room), Explained (the contract).
// What is proved of them: Told and Demand. For the code that walks the machine: Turns, Frames, Cases, Tally, Writes.
#![tactic(auto)]
