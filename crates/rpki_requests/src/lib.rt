//! Certificates and CRLs whose keys are elsewhere: the requests to prepare them for signing, or to
//! complete them with a signature, and the results.
#![tactic(auto)]

mod expected;
mod fulfilling;
mod issuers;
mod keys;
mod lists;
mod refusals;
mod values;
mod words;

pub use fulfilling::{Inputs, Made, fulfil};
pub use refusals::{Refusal, ToldRefusal, words_about};
pub use values::named_moment;
pub use words::{
    Demand, Errand, Given, Misuse, Order, Setting, Switch, asks_help, demand_of, is_request,
    read_request,
};
