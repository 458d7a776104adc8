// Every function for C (include/baguymo.h), thin over the crates that do the work: the module's calls on a lent state, and the reports. This is the one
// place where C's widths are met: numbers come as `usize`, and what is wider than its part is refused by the number of that part.
#![tactic(auto)]

pub mod calls;
pub mod reports;
mod widths;
