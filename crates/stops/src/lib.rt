// Stops in one number: made from columns, and read again. Plans and the section reader go from stop to stop by them.
#![tactic(auto)]

pub mod stop;
