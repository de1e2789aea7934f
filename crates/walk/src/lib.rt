// What a row over the columns of one schema is: presence, the walk, look-up, ends; update data; the current value of a changed row; and their
// laws. There is no code here: crates `row` and `update` read.
#![tactic(auto)]
