//! The definitions of chunks, `chunk`, and of the dataset of any length that shows what they do, `demo`. Each says in `specs/` what
//! a call has to give.
#![tactic(auto)]
