//! The definitions of runs: what each call of a script gives, the value of an expression, and what a statement does.
#![tactic(auto)]
