// The chained matcher: all matches of a record's runs, found along chains in lent work memory, are those of the plain rule.

#![tactic(auto)]

pub mod closers; // one closer, and all
