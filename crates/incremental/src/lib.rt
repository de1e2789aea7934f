// A row section read as it arrives: fed fragments, then told that the input is over. What is remembered between calls is one record of the
// caller's. It has no rule of its own: a piece that is whole is judged by the functions of the layers below.
#![tactic(auto)]

pub mod feed;
pub mod fields;
pub mod lent;
pub mod pieces;
pub mod record;
pub mod sheet;
pub mod take;
