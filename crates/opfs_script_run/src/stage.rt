//! The stage on which the agents of a script run: with what it begins, and what one history of them is. Definitions
//! alone, which the crates that run, try, judge and make scripts share.
