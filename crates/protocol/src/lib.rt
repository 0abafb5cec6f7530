//! What is proved of the protocol, of a view of a floor with its history. It has no code.
#![tactic(auto)]
