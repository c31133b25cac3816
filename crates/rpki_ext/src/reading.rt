//! The extensions of a certificate, read in one pass, in any order.
ghost use Rattle.std.specs.Prelude.{◌≡◌, ◌⊎◌, true, false, OnOk, OnErr, IfErr, Some, unwrap_or, bytes_eq};
ghost use Rattle.std.specs.List.{list_any};
ghost use Rattle.rpki_der.specs.Place.{remaining, MeansOrMemory, Rejects};
ghost use Rattle.rpki_der.specs.Place.Reading.{ReturnsOrMemory, ReturnsOrMemoryBy};
ghost use Rattle.rpki_der.specs.Extensions.{extension_format};
ghost use Rattle.rpki_der.specs.Extensions.Views.{extension_view};
ghost use Rattle.rpki_der.specs.Folding.{over};
ghost use Rattle.rpki_ext.specs.CertificateExtensions.{AreExtensions, no_access, wanted, HasFlag, field_of, all_kinds, state_of, is_seen, extensions_of};
ghost use Rattle.rpki_ext.specs.CertificateExtensions.Views.{access_with};
ghost use Rattle.rpki_ext.specs.ExtensionKinds.{known};

use crate::extensions::{Extensions, Named, ReadExtensions};
use crate::subject_access::Sia;
use bytes::Bytes;
use rpki_der::{Cursor, DecodeError, Oid, take_extension};
use rpki_parts::{Https, Rsync};
use std::alloc::Global;

// Passes over an extension of no known kind where it isn't critical, else rejects it (RFC 5280
// 4.2).
fn pass_over(alloc: Global, identifier: &[u8], critical: bool) -> Result<(), DecodeError>
    ensures ok { OnOk result (critical ≡ false) }
    ensures err { IfErr result (λ e. Rejects e (critical ≡ true)) }
{
    if !critical {
        return Ok(());
    }
    let identifier = Bytes::copy_from_slice(alloc, identifier)?;
    Err(DecodeError::UnexpectedCritical(Oid::new(identifier)?))
}

/// Whether an identifier is this one. Nearly all that aren't differ in the last byte. A comparison
/// that stands here alone is proved faster.
#[inline(always)]
pub(crate) fn is(identifier: &[u8], known: &[u8]) -> bool
    ensures { result ≡ bytes_eq identifier.now known.now }
{
    identifier.last() == known.last() && identifier == known
}

/// Returns whether readers of certificates know the kind of extension with this identifier, the
/// content of an OBJECT IDENTIFIER (RFC 6487 4.8, RFC 8360 4.2).
pub fn is_known(identifier: &[u8]) -> bool
    ensures { result ≡ list_any (bytes_eq identifier.now) known }
{
    Named::of(identifier).is_some()
}

/// Whether an extension could be taken.
pub(crate) type Taken = Result<(), DecodeError>;

// Keeps a value; what was kept before is let go.
pub(crate) fn keep<T: Drop>(kept: &mut Option<T>, value: T)
    ensures { kept.new ≡ Some value }
{
    *kept = Some(value);
}

// The URIs of Subject Information Access; none where it isn't there.
pub(crate) fn uris(
    access: Option<Sia>,
) -> (Option<Rsync>, Option<Rsync>, Option<Rsync>, Option<Https>)
    ensures { access_with result ≡ unwrap_or access no_access }
{
    match access {
        Some(access) => access.into_uris(),
        None => (None, None, None, None),
    }
}

impl ReadExtensions {
    // Rejects a second extension of a kind, and one with another flag than its kind's, each under
    // the kind's name.
    fn check(&self, kind: Named, critical: bool) -> Result<(), DecodeError>
        ensures first { OnOk result (is_seen self.now kind ≡ false) }
        ensures flag { OnOk result (HasFlag (wanted kind) critical) }
        ensures rejected { OnErr result
            ((is_seen self.now kind ≡ true) ⊎ (HasFlag (wanted kind) critical → ⊥)) }
        ensures second { is_seen self.now kind ≡ true
            → IfErr result (λ e. e ≡ DecodeError.Duplicate (field_of kind)) }
        ensures unflagged { is_seen self.now kind ≡ false → critical ≡ false
            → IfErr result (λ e. e ≡ DecodeError.NotCritical (field_of kind)) }
        ensures flagged { is_seen self.now kind ≡ false → critical ≡ true
            → IfErr result (λ e. e ≡ DecodeError.Critical (field_of kind)) }
    {
        if self.has(kind) {
            return Err(DecodeError::Duplicate(kind.field()));
        }
        match kind.must_be_critical() {
            Some(true) if !critical => Err(DecodeError::NotCritical(kind.field())),
            Some(false) if critical => Err(DecodeError::Critical(kind.field())),
            _ => Ok(()),
        }
    }

    // One extension more.
    fn put(&mut self, alloc: Global, extension: (&[u8], bool, Cursor<'_>)) -> Taken
        ensures { ReturnsOrMemoryBy (λ _. state_of self.new) result
            (all_kinds.step (state_of self.old) (extension_view extension.entry)) }
    {
        let (identifier, critical, mut content) = extension;
        let Some(kind) = Named::of(identifier) else {
            return pass_over(alloc, identifier, critical);
        };
        if let Err(error) = self.check(kind, critical) {
            return Err(error);
        }
        self.take(alloc, kind, &mut content)
    }

    // A sequence of extensions, one after the other.
    fn from_row(alloc: Global, elements: &Cursor<'_>) -> Result<ReadExtensions, DecodeError>
        ensures { ReturnsOrMemoryBy state_of result
            (over extension_format.read all_kinds.step all_kinds.start (remaining elements.now)) }
    {
        let mut rest = elements.fork();
        let mut seen = ReadExtensions::nothing();
        while !rest.is_empty() {
            let extension = match take_extension(&mut rest) {
                Ok(extension) => extension,
                Err(error) => {
                    drop(seen);
                    return Err(error);
                }
            };
            match seen.put(alloc, extension) {
                Ok(()) => {}
                Err(error) => {
                    drop(seen);
                    return Err(error);
                }
            }
        }
        Ok(seen)
    }
}

impl Extensions {
    // Reads as `from_row` does, by the reading function.
    #[tactic(auto, unfolding(crate::specs::CertificateExtensions::extensions_of))]
    fn read(alloc: Global, elements: &Cursor<'_>) -> Result<Extensions, DecodeError>
        ensures { ReturnsOrMemory result (extensions_of (remaining elements.now)) }
    {
        match ReadExtensions::from_row(alloc, elements) {
            Ok(seen) => Extensions::complete(seen),
            Err(error) => Err(error),
        }
    }

    /// Reads all extensions of a certificate, in any order, and returns what they give (RFC 6487
    /// 4.8).
    ///
    /// # Errors
    ///
    /// Returns an error if one of these applies, and any of them if several do:
    ///
    /// - an extension isn't of the form of its kind;
    /// - a kind is there twice (`Duplicate`);
    /// - a kind has another flag than it must have (`Critical`, `NotCritical`);
    /// - an unknown extension is critical (`UnexpectedCritical`);
    /// - a kind that each certificate has is missing (`Missing`);
    /// - the resources aren't under the identifiers of the policy (`WrongResources`);
    /// - memory ran out (`Memory`).
    ///
    /// # Not checked
    ///
    /// The profile of the certificate's kind ([`crate::InspectionError`]), and whether an unknown
    /// extension that isn't critical is there twice (own).
    #[tactic(auto, using(crate::proofs::CertificateExtensions::sequence_means))]
    pub fn from_row(alloc: Global, elements: &Cursor<'_>) -> Result<Extensions, DecodeError>
        ensures means { MeansOrMemory AreExtensions result (remaining elements.now) }
        ensures reads { ReturnsOrMemory result (extensions_of (remaining elements.now)) }
    {
        // Called for what it ensures alone.
        let _octets = elements.rest();
        Extensions::read(alloc, elements)
    }
}
