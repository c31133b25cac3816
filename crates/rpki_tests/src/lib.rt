//! Tests that no line of questions and answers can ask: calls with a caller's signer, verifier,
//! reader or writer, several calls of one value, what stands after a refusal, and the texts of all
//! errors. Those of certificates and of the crates below them stand in `certificates`; what tests
//! are made of in `samples`, which the programs of test vectors use too.
#![tactic(auto)]

#[cfg(test)]
mod anchors;
#[cfg(test)]
mod certificates;
#[cfg(test)]
mod checks;
#[cfg(test)]
mod counting;
#[cfg(test)]
mod decoding;
#[cfg(test)]
mod devices;
#[cfg(test)]
mod errors;
#[cfg(test)]
mod faults;
#[cfg(test)]
mod folder;
#[cfg(test)]
mod given_lists;
#[cfg(test)]
mod issuing;
#[cfg(test)]
mod lists;
#[cfg(test)]
mod located;
#[cfg(test)]
mod name_texts;
pub mod samples;
#[cfg(test)]
mod signers;
#[cfg(test)]
mod texts;
