// Maps of bits as numbers.
#![tactic(auto)]

pub mod maps;
