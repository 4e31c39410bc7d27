//! The indicators over any cover: which rows the entry of each address covers. Image and change of
//! rows, definitions and theorems, no code. Nothing here knows what an entry is.
#![tactic(auto)]
