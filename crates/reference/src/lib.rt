//! The plain array, the image, the steps on any tables and the histories: definitions and theorems,
//! no code.
#![tactic(auto)]
