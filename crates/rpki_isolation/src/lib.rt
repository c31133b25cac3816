//! Isolation: the part of a walk's verdicts that files of strangers can't change (RFC 6487 7.2).
//! Below a path on which no CA has a key of theirs, walks through a directory with and without
//! these files report the same.
#![tactic(auto)]

pub mod laws;
