//! Plain, slow programs that answer what the rules of a receiver and of its requests say: they keep every packet and every
//! request, and make each test over all of them. Tests compare the programs that run with them.
#![tactic(auto)]

pub mod receiver;
pub mod requests;
