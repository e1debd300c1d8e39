//! The definitions of calls that relate labels: new labels for dimensions, times, and values aligned with one another. Each says
//! in `specs/` what a call has to give.
#![tactic(auto)]
