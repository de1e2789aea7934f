// The look-up through a plan, which jumps from stop to stop, and row handles.
#![tactic(auto)]

pub mod handle;
pub mod look;
