// The public calls for C, and for Rust across C, as a library: crate `capi_c` exports them. The caller keeps the board's record, the port's and the lent memory; a call takes the record by value and hands it back in its answer. Whatever
// bytes the record holds, the call ends with its answer: the refusals are those of the calls inside. Only numbers cross: a flag is 0 or 1 (a byte above 1 that comes in is STATE), an answer that
// may be none has a flag beside it, an action is a word as `script::word_of` packs it (every word is an action: kinds 6 and 7 are read as Pressure), a script is 512 words.
#![tactic(auto)]

pub mod calls;
pub mod marks;
pub mod ports;
