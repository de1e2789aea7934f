// The handler options of a tablegram, read and written.
// Every call takes any bytes and any values. Bytes after the options are left to the caller.
#![tactic(auto)]

pub mod options;
