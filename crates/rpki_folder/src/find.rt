//! Searching for the path to one certificate of a folder.
ghost use Rattle.std.specs.Prelude.{◌≡◌, [], IfOk, IfErr};
ghost use Rattle.rpki_folder.specs.Searches.{IsSought, IsFound};
ghost use Rattle.rpki_folder.specs.Walks.{IsValidAnchor, IsWhyNone};
ghost use Rattle.rpki_folder.specs.WalkViews.{walk_view};

use crate::admission::Admission;
use crate::bounds::Ended;
use crate::visitor::{Accepted, Visitor};
use crate::walk::Walk;
use crate::walk_error::WalkError;
use rpki_ext::beside;
use rpki_keys::tal::Tal;
use rpki_parts::Verifier;
use rpki_path::{Judged, Member, PathFault};
use std::alloc::{AllocError, Global};

/// A valid path to a certificate of a folder. The certificate was validated as a certificate of the
/// kind that it says ([`crate::Filed::said`]).
#[derive(Drop)]
pub struct FoundPath {
    /// The places of the CAs above the certificate, from the top down, without the trust anchor.
    pub above: Vec<usize>,
    /// The certificate with the resources that it holds; for a router's certificate, the CA above
    /// it with its resources, and the router's certificate.
    pub judged: Judged,
}

/// The result of a search for one certificate.
#[derive(Drop)]
pub enum Found {
    /// A valid path leads to the certificate.
    Valid(FoundPath),
    /// No valid path to the certificate was found. How the walk ended says what that means:
    ///
    /// - [`Ended::Whole`]: no valid path of admitted certificates exists in the folder.
    /// - [`Ended::TooDeep`]: no valid path exists within the depth.
    /// - [`Ended::OutOfSteps`]: no valid path was found before the limit of steps was reached.
    NotFound(Ended),
}

// The result of the search for the certificate at a place.
#[derive(Drop)]
struct Sought {
    alloc: Global,
    place: usize,
    found: Option<FoundPath>,
}

impl<'w> Accepted<'w> {
    // The answer, owned.
    fn judged(&self, alloc: Global) -> Result<Judged, AllocError>
        ensures { IfOk result (λ j. j ≡ self.now) }
    {
        let holder = self.holder.try_clone(alloc)?;
        let router = match self.router {
            Some(cert) => Some(cert.try_clone(alloc)),
            None => None,
        };
        match router {
            Some(copy) => {
                let (holder, cert) = beside(holder, copy)?;
                let router = Some(cert);
                Ok(Judged { holder, router })
            }
            None => Ok(Judged {
                holder,
                router: None,
            }),
        }
    }
}

/// Makes the path to a certificate that was accepted below the CAs at these places.
pub(crate) fn path_of(
    alloc: Global,
    above: &[usize],
    accepted: &Accepted<'_>,
) -> Result<FoundPath, AllocError>
    ensures above { IfOk result (λ path. path.above.items ≡ above.now) }
    ensures judged { IfOk result (λ path. path.judged ≡ accepted.now) }
{
    let mut places = Vec::new(alloc);
    places.extend_from_slice(above)?;
    let judged = accepted.judged(alloc)?;
    Ok(FoundPath {
        above: places,
        judged,
    })
}

impl Visitor for Sought {
    ghost use Rattle.std.specs.Prelude.{◌≡◌, refl, None};
    ghost use Rattle.rpki_folder.specs.Searches.{IsSought, sought_begins};

    ghost became = { λ s ts later. (later.place ≡ s.place)
        × (s.found ≡ None → IsSought s.place ts later.found) };

    fn tell(
        &mut self,
        above: &[usize],
        place: usize,
        verdict: Result<Accepted<'_>, PathFault>,
    ) -> Result<(), AllocError> {
        let Ok(accepted) = verdict else {
            return Ok(());
        };
        if place != self.place || self.found.is_some() {
            return Ok(());
        }
        let path = path_of(self.alloc, above, &accepted)?;
        self.found = Some(path);
        Ok(())
    }

    ghost begins = { λ s. (refl, λ none. sought_begins s.place s.found none) };
}

impl Sought {
    // The result.
    fn into_found(self) -> Option<FoundPath>
        ensures { result ≡ self.found }
    {
        self.found
    }
}

impl<'w, A: Admission, V: Verifier> Walk<'w, A, V> {
    /// Searches for a valid path from the trust anchor of a TAL to the certificate at a place, by a
    /// walk ([`Walk::from_anchor`]). Returns the first path that the walk finds, or
    /// [`Found::NotFound`] with how the walk ended.
    ///
    /// # Errors
    ///
    /// Returns [`WalkError::Anchor`] or [`WalkError::OtherName`] if the trust anchor isn't valid,
    /// and [`WalkError::Memory`] if memory runs out.
    ///
    /// # Not checked
    ///
    /// Whether the folder has all certificates and CRLs of the repository, and whether manifests
    /// list them ([`Admission`] can restrict the walk to those that are listed).
    pub fn find(&self, tal: &Tal, anchor: &Member<'_>, place: usize) -> Result<Found, WalkError>
        ensures found { let w = walk_view V.verifies A.admits self.now in
            IfOk result (IsFound w.context w.asked w.names w.admits tal.now anchor.now
            w.folder.certs w.bounds.depth w.bounds.steps place) }
        ensures anchor { let w = walk_view V.verifies A.admits self.now in
            IfOk result (λ _. IsValidAnchor w.context w.asked w.names tal.now anchor.now) }
        ensures fault { let w = walk_view V.verifies A.admits self.now in
            IfErr result (IsWhyNone w.context w.asked w.names tal.now anchor.now) }
    {
        let mut sought = Sought {
            alloc: self.alloc,
            place,
            found: None,
        };
        let walked = self.from_anchor(tal, anchor, &mut sought)?;
        let ended = walked.ended;
        drop(walked);
        match sought.into_found() {
            Some(path) => Ok(Found::Valid(path)),
            None => Ok(Found::NotFound(ended)),
        }
    }
}
