//! Name chaining: whether the names of a path chain (RFC 5280 6.1.3 (a) (4)).
ghost use Rattle.std.specs.Prelude.{◌≡◌, ◌↔◌, ◌<◌, Ok, Err, IsTrue, OnOk, IfOk, IfErr, IfSome, map};
ghost use Rattle.rpki_cert.specs.declared.inspect.Kind.TheVariants.{Authority};
ghost use Rattle.rpki_path.specs.GivenPaths.{path_strings, string_count};
ghost use Rattle.rpki_path.specs.NameChains.{IsNamedBelow, IsSelfNamed, strings_below, TellsNames};
ghost use Rattle.rpki_path.specs.NameChains.Steps.{BeginChainedTo, BeginsSelfNamed, BeginsNamed, IsNameStop, IsStopAtAnchor, IsStopBelow, IsStopped};
ghost use Rattle.rpki_path.specs.Paths.{candidate};

use crate::given::{GivenPath, Last};
use crate::members::Member;
use crate::path_fault::{PathError, PathFault};
use rpki_cert::{Cert, ResourceCert};
use rpki_parts::Name;
use std::alloc::{AllocError, Global};

// Why a walk over names stops at a certificate.
#[derive(Drop)]
enum Stop {
    // Its issuer isn't the subject of the one above it.
    Unchained,
    // The string doesn't start with a certificate, or memory ran out.
    Unread(PathFault),
}

impl From<PathFault> for Stop {
    ghost use Rattle.rpki_path.specs.declared.names.Stop.TheVariants.{Unread};

    ghost from_gives = { λ fault stop. stop ≡ Unread fault };

    fn from(fault: PathFault) -> Stop {
        Stop::Unread(fault)
    }
}

// Where it stops, and why.
#[derive(Drop)]
struct Stopped {
    place: usize,
    why: Stop,
}

// The result of a step at this path index.
fn step_at(place: usize, step: Result<Name, Stop>) -> Result<Name, Stopped>
    ensures ok { IfOk result (λ name. step ≡ Ok name) }
    ensures place { IfErr result (λ s. s.place ≡ place) }
    ensures why { IfErr result (λ s. step ≡ Err s.why) }
{
    match step {
        Ok(name) => Ok(name),
        Err(why) => Err(Stopped { place, why }),
    }
}

// Whether the certificate's issuer is this name.
fn is_issued_as(cert: &Cert, above: &Name) -> bool
    ensures { IsTrue result ↔ cert.now.fields.issuer ≡ above.now }
{
    cert.as_tbs().issuer().as_bytes() == above.as_bytes()
}

/// Returns whether the certificate's issuer is the subject of the one above it (RFC 6487 7.2, RFC
/// 5280 6.1.3 (a) (4)).
///
/// Names are compared byte by byte (own): two that differ in the case of letters, in spaces or in
/// the type of a string are two names, though RFC 5280 7.1 treats them as one.
pub fn names_chain(issuer: &ResourceCert, cert: &Cert) -> bool
    ensures { IsTrue result ↔ IsNamedBelow issuer.now.cert cert.now }
{
    is_issued_as(cert, issuer.as_cert().as_tbs().subject())
}

/// Returns whether the certificate's issuer is its own subject, as a trust anchor's has to be (RFC
/// 8630 2.3, RFC 5280 3.2). Names are compared as by [`names_chain`].
pub fn is_self_named(cert: &Cert) -> bool
    ensures { IsTrue result ↔ IsSelfNamed cert.now }
{
    is_issued_as(cert, cert.as_tbs().subject())
}

// The subject of a certificate whose issuer is the name above.
fn subject_below(alloc: Global, above: &Name, cert: &Cert) -> Result<Name, Stop>
    ensures issuer { OnOk result (cert.now.fields.issuer ≡ above.now) }
    ensures subject { IfOk result (λ name. name ≡ cert.now.fields.subject) }
    ensures stop { IfErr result (IsNameStop above.now cert.now) }
{
    if !is_issued_as(cert, above) {
        return Err(Stop::Unchained);
    }
    let subject = cert.as_tbs().subject().try_clone(alloc);
    Ok(subject.map_err(PathFault::from)?)
}

// The one name of the trust anchor.
fn anchor_subject(alloc: Global, anchor: &Member<'_>) -> Result<Name, Stop>
    ensures ok { IfOk result (BeginsSelfNamed anchor.now) }
    ensures stop { IfErr result (IsStopAtAnchor anchor.now) }
{
    match anchor.cert() {
        Some(cert) => subject_below(alloc, cert.as_tbs().subject(), cert),
        None => {
            let cert = anchor.decoded(alloc)?;
            let subject = subject_below(alloc, cert.as_tbs().subject(), &cert);
            drop(cert);
            subject
        }
    }
}

// The subject of the next certificate, below this name.
fn member_subject(alloc: Global, above: &Name, member: &Member<'_>) -> Result<Name, Stop>
    ensures ok { IfOk result (BeginsNamed above.now member.now) }
    ensures stop { IfErr result (IsStopBelow above.now member.now) }
{
    match member.cert() {
        Some(cert) => subject_below(alloc, above, cert),
        None => {
            let cert = member.decoded(alloc)?;
            let subject = subject_below(alloc, above, &cert);
            drop(cert);
            subject
        }
    }
}

// The subject of the certificate at this path index, in place of the one above it.
fn next(alloc: Global, above: Name, place: usize, member: &Member<'_>) -> Result<Name, Stopped>
    ensures ok { IfOk result (BeginsNamed above member.now) }
    ensures place { IfErr result (λ s. s.place ≡ place) }
    ensures why { IfErr result (λ s. IsStopBelow above member.now s.why) }
{
    let subject = member_subject(alloc, &above, member);
    drop(above);
    step_at(place, subject)
}

// The subject of the last of the CAs below the trust anchor, or its own.
fn authority_subject(
    alloc: Global,
    anchor: &Member<'_>,
    cas: &[Member<'_>],
) -> Result<Name, Stopped>
    ensures ok { IfOk result (BeginChainedTo anchor.now (map (candidate Authority) cas.now)) }
    ensures stopped { IfErr result (IsStopped anchor.now (map (candidate Authority) cas.now)) }
{
    let mut above = step_at(0, anchor_subject(alloc, anchor))?;
    for (i, ca) in cas.iter().enumerate() {
        above = next(alloc, above, i + 1, ca)?;
    }
    Ok(above)
}

// The subject of the last certificate of all.
fn last_subject(
    alloc: Global,
    anchor: &Member<'_>,
    cas: &[Member<'_>],
    last: Option<Last<'_, '_>>,
) -> Result<Name, Stopped>
    ensures ok { let g = path_strings anchor.now cas.now last.entry in
        IfOk result (BeginChainedTo g.anchor (strings_below g)) }
    ensures stopped { let g = path_strings anchor.now cas.now last.entry in
        IfErr result (IsStopped g.anchor (strings_below g)) }
{
    let above = authority_subject(alloc, anchor, cas)?;
    let place = cas.len() + 1;
    match last {
        None => Ok(above),
        Some(Last::Ee(end)) => next(alloc, above, place, end),
        Some(Last::DetachedEe(end)) => next(alloc, above, place, end),
        Some(Last::Router(end)) => next(alloc, above, place, end),
    }
}

/// Finds the first certificate of a path whose names don't chain.
///
/// That is the trust anchor, at index 0, if its own two names differ ([`is_self_named`]), or one
/// whose issuer isn't the subject of the certificate above ([`names_chain`]). A router is compared
/// as any other. Returns `None` if all chain. A certificate that was read before isn't read again.
///
/// # Errors
///
/// Returns the path index of the first string that doesn't start with a certificate, if the names
/// above it chain (`Decode`), or at which memory ran out.
///
/// # Not checked
///
/// Everything else: [`crate::judge`] validates a path.
pub fn first_unchained(alloc: Global, path: &GivenPath<'_, '_>) -> Result<Option<usize>, PathError>
    // That names chain, the first path index at which they don't, or the first at which no
    // certificate is read.
    ensures names { TellsNames path.now result }
    // Both indexes are those of a string.
    ensures place { IfOk result (λ found. IfSome found (λ place. place < string_count path.now)) }
    ensures index { IfErr result (λ e. e.index < string_count path.now) }
{
    match last_subject(alloc, path.anchor, path.cas, path.last) {
        Ok(subject) => {
            drop(subject);
            Ok(None)
        }
        Err(
            Stopped {
                place,
                why: Stop::Unchained,
            },
        ) => Ok(Some(place)),
        Err(
            Stopped {
                place,
                why: Stop::Unread(fault),
            },
        ) => Err(PathError {
            index: place,
            fault,
        }),
    }
}
