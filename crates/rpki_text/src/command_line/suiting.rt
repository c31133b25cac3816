//! Whether a request suits its task.
ghost use Rattle.std.specs.Prelude.{◌≡◌, ◌≢◌, ◌↔◌, [], false, map, IsTrue, IfSome, IfNone, MatchOption};
ghost use Rattle.rpki_text.specs.CommandLines.{AsksNoPath, AsksNoTree, AsksSearch, AsksTree, LeavesNothingOut, NamesInput, ReadsInput, SaysAnchor, SaysLists, Suits, SuitsFolders};
ghost use Rattle.rpki_text.specs.CommandLines.Views.{fields_of};
ghost use Rattle.rpki_text.specs.Misuses.{IsExtra, IsLeftOutBy, IsOfTree, IsReason};

use crate::command_line::arguments::{Misuse, Request, Task};
use crate::command_line::parts::is;

// The option that leaves out TALs or CRLs, if one is given.
fn left_out(request: &Request<'_>) -> Option<&'static [u8]>
    ensures { let r = fields_of request.now in
        MatchOption result (LeavesNothingOut r) (λ name. IsLeftOutBy name.now r) }
{
    if request.trust_first {
        return Some(b"--trust-first".as_slice());
    }
    if request.no_crl {
        return Some(b"--no-crl".as_slice());
    }
    None
}

// An option that only `tree` accepts, if one is given.
fn only_of_tree(request: &Request<'_>) -> Option<&'static [u8]>
    ensures { let r = fields_of request.now in
        MatchOption result (AsksNoTree r) (λ name. IsOfTree name.now r) }
{
    if request.strict_exit {
        return Some(b"--strict-exit".as_slice());
    }
    if request.only_rejected {
        return Some(b"--only".as_slice());
    }
    None
}

// An option that `show` doesn't accept and validating does, if one is given.
fn only_validating(request: &Request<'_>) -> Option<&'static [u8]>
    ensures { let r = fields_of request.now in
        MatchOption result (AsksNoPath r) (λ name. IsExtra Task.Show name.now r) }
{
    if !request.lists.is_empty() {
        Some(b"--crl".as_slice())
    } else if !request.locators.is_empty() {
        Some(b"--tal".as_slice())
    } else if !request.folders.is_empty() {
        Some(b"--in".as_slice())
    } else if !request.names {
        Some(b"--no-names".as_slice())
    } else if let Some(name) = left_out(request) {
        Some(name)
    } else if request.depth.is_some() {
        Some(b"--depth".as_slice())
    } else if request.steps.is_some() {
        Some(b"--steps".as_slice())
    } else {
        None
    }
}

// The error of a request for `tree`: an option that it doesn't accept, or no TAL.
fn misuse_of_tree(request: &Request<'_>) -> Option<Misuse<'static>>
    ensures { let r = fields_of request.now in
        MatchOption result (AsksTree r) (λ misuse. IsReason misuse Task.Tree r) }
{
    if !request.lists.is_empty() {
        Some(Misuse::Unknown(b"--crl".as_slice()))
    } else if !request.folders.is_empty() {
        Some(Misuse::Unknown(b"--in".as_slice()))
    } else if request.all {
        Some(Misuse::Unknown(b"--all".as_slice()))
    } else if let Some(name) = left_out(request) {
        Some(Misuse::Unknown(name))
    } else if request.locators.is_empty() {
        Some(Misuse::NoLocator)
    } else {
        None
    }
}

// Whether one of the names is that of standard input.
fn names_input(names: &[&[u8]]) -> bool
    ensures { IsTrue result ↔ NamesInput (map (λ name. name.now) names.now) }
{
    for name in names {
        if is(*name, "-") {
            return true;
        }
    }
    false
}

// Whether a file, a directory or a TAL is standard input.
fn reads_input(request: &Request<'_>) -> bool
    ensures { IsTrue result ↔ ReadsInput (fields_of request.now) }
{
    if names_input(&request.files) {
        return true;
    }
    if names_input(&request.folders) {
        return true;
    }
    names_input(&request.locators)
}

// The error of a search for a path: not exactly one file, a CRL, no TAL, or standard input.
fn misuse_of_search(request: &Request<'_>) -> Option<Misuse<'static>>
    ensures { let r = fields_of request.now in MatchOption result (AsksSearch r)
        (λ misuse. r.folders ≢ [] → IsReason misuse Task.Validate r) }
{
    if request.files.len() != 1 {
        Some(Misuse::OneFile)
    } else if !request.lists.is_empty() {
        Some(Misuse::ListsIn)
    } else if request.locators.is_empty() {
        Some(Misuse::NoLocatorIn)
    } else if reads_input(request) {
        Some(Misuse::InputIn)
    } else {
        None
    }
}

// The error of a search in directories, or of its limits without directories.
fn misuse_of_folders(request: &Request<'_>) -> Option<Misuse<'static>>
    ensures { let r = fields_of request.now in
        MatchOption result (SuitsFolders r.folders r) (λ misuse. IsReason misuse Task.Validate r) }
{
    if !request.folders.is_empty() {
        return misuse_of_search(request);
    }
    if request.depth.is_some() || request.steps.is_some() {
        return Some(Misuse::BoundsIn);
    }
    None
}

// The error of neither or both options for the trust anchor.
fn misuse_of_anchor(request: &Request<'_>) -> Option<Misuse<'static>>
    ensures { let r = fields_of request.now in
        MatchOption result (SaysAnchor r) (λ misuse. IsReason misuse Task.Validate r) }
{
    match (request.locators.is_empty(), request.trust_first) {
        (true, false) => Some(Misuse::NoAnchor),
        (false, true) => Some(Misuse::BothAnchors),
        _ => None,
    }
}

// That it isn't said once which CRLs are checked.
fn misuse_of_lists(request: &Request<'_>) -> Option<Misuse<'static>>
    ensures { let r = fields_of request.now in
        MatchOption result (SaysLists r) (λ misuse. IsReason misuse Task.Validate r) }
{
    let gives_none = request.lists.is_empty() && request.folders.is_empty();
    match (gives_none, request.no_crl) {
        (true, false) => Some(Misuse::NoLists),
        (false, true) => Some(Misuse::BothLists),
        _ => None,
    }
}

// The error of a request to validate.
fn misuse_of_path(request: &Request<'_>) -> Option<Misuse<'static>>
    ensures { let r = fields_of request.now in MatchOption result
        ((r.all_entries ≡ false) × SuitsFolders r.folders r × SaysAnchor r × SaysLists r
        × AsksNoTree r)
        (λ misuse. IsReason misuse Task.Validate r) }
{
    if request.all {
        Some(Misuse::Unknown(b"--all".as_slice()))
    } else if let Some(misuse) = misuse_of_folders(request) {
        Some(misuse)
    } else if let Some(misuse) = misuse_of_anchor(request) {
        Some(misuse)
    } else if let Some(misuse) = misuse_of_lists(request) {
        Some(misuse)
    } else if let Some(name) = only_of_tree(request) {
        Some(Misuse::Unknown(name))
    } else {
        None
    }
}

// The error of a request: an option that its command doesn't accept, or no file.
pub(crate) fn misuse_of(request: &Request<'_>) -> Option<Misuse<'static>>
    ensures suits { IfNone result (Suits request.now.task (fields_of request.now)) }
    ensures told { IfSome result
        (λ misuse. IsReason misuse request.now.task (fields_of request.now)) }
{
    if request.task == Task::Show {
        if let Some(option) = only_validating(request) {
            return Some(Misuse::Unknown(option));
        }
        if let Some(option) = only_of_tree(request) {
            return Some(Misuse::Unknown(option));
        }
    }
    if request.task == Task::Tree {
        if let Some(misuse) = misuse_of_tree(request) {
            return Some(misuse);
        }
    }
    if request.task == Task::Validate {
        if let Some(misuse) = misuse_of_path(request) {
            return Some(misuse);
        }
    }
    let wants_none = request.task == Task::Help || request.task == Task::Version;
    if !wants_none && request.files.is_empty() {
        return Some(Misuse::NoFile);
    }
    None
}
