//! The order in which frames are handed out: definitions of events and runs that keep this order, and proofs that each step of a lane does. It has no code.
#![tactic(auto)]
