//! Certificates, CRLs and paths for C: functions on bytes, which write into the caller's memory and
//! keep nothing. What an export promises is the contract of the function below it; `include/rpki.h`
//! describes the caller's part.
#![tactic(auto)]

ghost use Rattle.std.specs.Prelude.{◌≡◌};

mod asking;
mod certificates;
mod completing;
mod copying;
mod faults;
mod folder_lines;
mod folder_question;
mod folders;
mod issuer;
mod issuing;
mod judging;
mod keys;
mod limits;
mod list_completing;
mod list_preparing;
mod lists;
mod locators;
mod moments;
mod names;
mod paths;
mod places;
mod preparing;
mod question;
mod ranges;
mod refusal;
mod sorting;
mod stops;
mod strings;
mod tables;
mod telling;
mod unissued;
mod values;
mod version;
mod walking;
mod wanted;
mod wanted_list;

/// Returns the number of this interface. It grows with each change that a caller has to follow.
#[unsafe(no_mangle)]
pub extern "C" fn rpki_abi_version() -> u32
    ensures { result ≡ 5 }
{
    5
}
