// The demands on the whole reader, as theorems over the definitions that the public contracts cite. There is no code here.
#![tactic(auto)]
