// Where row data end, by the shapes of their schema: the quick way, which says an end or nothing.
#![tactic(auto)]

pub mod ends;
mod steps;
