//! Worked examples of the public definitions: each is a row that was reckoned by hand or by another program, computed by the
//! check from the definitions. They stand here, above all other crates, so that a definition's change leaves them to the end.
#![tactic(auto)]
