// Row sections: the elements of a section one after the other, and the table of rows that they make.
// Where row data end is asked of the shapes of their schema, and where these say nothing, of their columns.
// Of a part of a section the whole elements can be passed, as far as the shapes say where they end.
#![tactic(auto)]

pub mod check;
mod children;
mod elements;
mod ends;
mod fill;
pub mod heads;
pub mod list;
mod notes;
pub mod pass;
mod read;
mod runs;
mod sheet;
mod table;
