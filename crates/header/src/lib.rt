// The header of a tablegram, read and written.
// Every call takes any bytes and any values. Bytes after the header are left to the caller.
#![tactic(auto)]

pub mod header;
