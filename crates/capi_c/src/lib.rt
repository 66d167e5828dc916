// The calls of crate `capi` under their C names, as a static library: each export states its clauses again and calls it.
#![tactic(auto)]

pub mod calls;
pub mod marks;
pub mod ports;
