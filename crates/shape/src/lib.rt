// What holds of every graph that is drawn: specs/Graphed.antt states it and proves it once, for the crates above.
#![tactic(auto)]
