//! The files of a request that prepares or completes a certificate or a CRL.
ghost use Rattle.std.specs.Prelude.{◌≡◌, ◌≢◌, ◌∷◌, [], ◌++◌, List, ℕ, map, IfErr, IfOk, OnOk};
ghost use Rattle.rpki_files.specs.Files.{contents};
ghost use Rattle.rpki_requests.specs.RequestWords.{given_values};
ghost use Rattle.rpki_requests.specs.RequestWords.Views.{asked_fields};
ghost use Rattle.rpki_command.specs.RequestRuns.{AreInputs, AreObjectsNamed, IsObjectNamed, IsUnreadInput, IsUnreadOf};
ghost use Rattle.rpki_command.specs.RequestRuns.Views.{input_fields};
ghost use Rattle.rpki_command.specs.UnreadFiles.{IsWhyUnread};
ghost use Rattle.rpki_text.specs.CommandLines.{usual_size};

use crate::files::{FileSource, Unread};
use crate::reading::octets_by;
use rpki_files::{Object, read_object};
use rpki_requests::{Inputs, Order, Setting};
use std::alloc::{AllocError, Global};

// How many octets a file may have.
const MOST: u64 = 67_108_864;

/// A file that can't be read, by its name, and the reason.
#[derive(Drop)]
pub struct Unreadable<'a> {
    pub name: &'a [u8],
    pub why: Unread,
}

/// The objects of a request's files.
#[derive(Drop)]
pub struct Objects<'a> {
    pub issuers: Vec<Object<'a>>,
    pub lists: Vec<Object<'a>>,
    pub keys: Vec<Object<'a>>,
    pub previous: Vec<Object<'a>>,
    pub revoked: Vec<Object<'a>>,
    pub files: Vec<Object<'a>>,
}

impl<'a> Objects<'a> {
    /// Borrows the objects, as the inputs of a request.
    pub fn as_inputs(&self) -> Inputs<'_, 'a>
        ensures { result ≡ input_fields self.now }
    {
        Inputs {
            issuers: &self.issuers,
            lists: &self.lists,
            keys: &self.keys,
            previous: &self.previous,
            revoked: &self.revoked,
            files: &self.files,
        }
    }
}

// That memory ran out.
fn no_memory<'a>() -> Unreadable<'a>
    ensures { result.why ≡ Unread.Memory }
{
    Unreadable {
        name: &[],
        why: Unread::Memory,
    }
}

// The object of the file of this name.
fn object_named<'a, F: FileSource>(
    alloc: Global,
    files: &F,
    name: &'a [u8],
) -> Result<Object<'a>, Unread>
    ensures object { IfOk result (λ object.
        IsObjectNamed (F.reads files.now) name.now object.octets) }
    ensures unread { IfErr result (IsWhyUnread (F.reads files.now) usual_size name.now) }
{
    match octets_by(alloc, files, name, MOST) {
        Ok((text, octets)) => match read_object(alloc, text, octets) {
            Ok(object) => Ok(object),
            Err(_) => Err(Unread::Memory),
        },
        Err(Unread::TooLong(most)) => Err(Unread::AboveLimit(most)),
        Err(why) => Err(why),
    }
}

// Pushes an object.
fn push<'a>(all: &mut Vec<Object<'a>>, object: Object<'a>) -> Result<(), AllocError>
    ensures { OnOk result (all.new.items ≡ all.old.items ++ object.entry ∷ []) }
{
    all.push(object)?;
    Ok(())
}

// Reads the file of this name and pushes its object.
fn push_named<'a, F: FileSource>(
    alloc: Global,
    files: &F,
    all: &mut Vec<Object<'a>>,
    name: &'a [u8],
) -> Result<(), Unreadable<'a>>
    ensures read { OnOk result ((octets : List ℕ)
        × IsObjectNamed (F.reads files.now) name.now octets
        × (contents all.new.items ≡ contents all.old.items ++ octets ∷ [])) }
    ensures unread { IfErr result (λ e. e.why ≢ Unread.Memory
        → (e.name.now ≡ name.now) × IsWhyUnread (F.reads files.now) usual_size name.now e.why) }
{
    match object_named(alloc, files, name) {
        Ok(object) => match push(all, object) {
            Ok(()) => Ok(()),
            Err(_) => Err(no_memory()),
        },
        Err(why) => Err(Unreadable { name, why }),
    }
}

// The objects of the files of these names.
fn objects_named<'a, F: FileSource>(
    alloc: Global,
    files: &F,
    names: &[&'a [u8]],
) -> Result<Vec<Object<'a>>, Unreadable<'a>>
    ensures objects { let names = map (λ name. name.now) names.now in IfOk result (λ all.
        AreObjectsNamed (F.reads files.now) names (contents all.items)) }
    ensures unread { let names = map (λ name. name.now) names.now in IfErr result (λ e.
        e.why ≢ Unread.Memory → IsUnreadOf (F.reads files.now) names e) }
{
    let mut all = Vec::new(alloc);
    for name in names {
        push_named(alloc, files, &mut all, *name)?;
    }
    Ok(all)
}

// The objects of the files that an option names.
fn objects_of<'a, F: FileSource>(
    alloc: Global,
    files: &F,
    order: &Order<'a>,
    setting: Setting,
) -> Result<Vec<Object<'a>>, Unreadable<'a>>
    ensures objects { let names = given_values setting (asked_fields order.now).given in
        IfOk result (λ all. AreObjectsNamed (F.reads files.now) names (contents all.items)) }
    ensures unread { let names = given_values setting (asked_fields order.now).given in
        IfErr result (λ e. e.why ≢ Unread.Memory → IsUnreadOf (F.reads files.now) names e) }
{
    let Ok(names) = order.values_of(alloc, setting) else {
        return Err(no_memory());
    };
    let all = objects_named(alloc, files, &names);
    drop(names);
    all
}

/// Reads the files of a request, each of at most the default size.
///
/// # Errors
///
/// Returns the first file that can't be read, or that memory ran out.
pub fn read_inputs<'a, F: FileSource>(
    alloc: Global,
    files: &F,
    order: &Order<'a>,
) -> Result<Objects<'a>, Unreadable<'a>>
    ensures inputs { IfOk result (λ objects.
        AreInputs (F.reads files.now) (asked_fields order.now) (input_fields objects)) }
    ensures unread { IfErr result (λ e. e.why ≢ Unread.Memory
        → IsUnreadInput (F.reads files.now) (asked_fields order.now) e) }
{
    let issuers = objects_of(alloc, files, order, Setting::Issuer)?;
    let lists = objects_of(alloc, files, order, Setting::Crl)?;
    let keys = objects_of(alloc, files, order, Setting::Key)?;
    let previous = objects_of(alloc, files, order, Setting::Previous)?;
    let revoked = objects_of(alloc, files, order, Setting::Revoke)?;
    let others = objects_named(alloc, files, &order.files)?;
    Ok(Objects {
        issuers,
        lists,
        keys,
        previous,
        revoked,
        files: others,
    })
}
