//! Tests of certificates and of the crates below them that no line of questions and answers can
//! ask: calls with a caller's signer, verifier, closure or iterator, several calls of one value,
//! what stands after a refusal, and contents of many octets.

mod signing;
mod texts;
mod timestamps;
mod verifying;
mod writing;
