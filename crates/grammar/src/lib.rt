// The grammar of a row section, its reader as a definition, and the theorem that they agree. There is no code here: crate `section` reads.
#![tactic(auto)]
