// A row section that arrives in fragments: what is answered, a state that reads it piece by piece, and the theorem that the two agree. There is
// no code here: crate `incremental` reads.
#![tactic(auto)]
