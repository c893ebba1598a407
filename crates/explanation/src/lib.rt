// The loop of `fmt_graph` (conflict.rs, lines 893 to 1184) over a packed plan: one frame an opened package, the marks of one indenter
// that are kept in step, and every line written behind the earlier ones in the lent room.
#![tactic(auto)]

mod frames;
mod turns;
pub mod walk;
