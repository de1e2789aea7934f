// What a schema file (document 01's column sheet) is: its tree, its reader as a definition, its schemas, the table that code keeps of it, and
// the theorems that these agree. There is no code here: crate `schema` reads.
#![tactic(auto)]
