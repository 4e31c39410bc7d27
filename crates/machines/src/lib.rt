//! What any machine has: a table of refusals, histories of calls, and chains of calls that were
//! made. Definitions and theorems, no code. Nothing here knows of memories.
#![tactic(auto)]
