// The whole claim in one place. specs/Lib.antt is the index of the statements, which speak of promises. That these are what the functions promise is said
// here: each function calls another and promises by name what the statements take. None has a proof file, so each goes by the contract of the function
// that it calls alone, and is refused where that promises less or asks for more.

#![tactic(auto)]

pub mod calls; // the twelve exported calls
pub mod steps; // the matcher's functions, of which demand 3's page speaks
