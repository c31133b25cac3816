//! Makes CRLs: fields go in, bytes come out.
ghost use Rattle.std.specs.Prelude.{◌≡◌, ◌^◌, ◌<◌, length, Ok, IfOk, IfErr, OnOk, false};
ghost use Rattle.std.specs.Iterator.{IsFinite};
ghost use Rattle.rpki_der.specs.declared.error.EncodeError.TheVariants.{Memory};
ghost use Rattle.rpki_parts.specs.SignedDatas.{signed_content};
ghost use Rattle.rpki_parts.specs.Signing.{IsRefusal};
ghost use Rattle.rpki_crl.specs.Lists.{ListFits, list_content, list_encoding};
ghost use Rattle.rpki_crl.specs.ListMaking.{AreGiven, with_entries, IsListRefusal};

use crate::crl::Crl;
use crate::entry::CrlEntry;
use crate::revoked::RevokedCertificates;
use crate::tbs::TbsCertList;
use bytes::Bytes;
use rpki_der::EncodeError;
use rpki_parts::{SignedData, Signer, SigningError};
use std::alloc::{AllocError, Global};

impl TbsCertList<RevokedCertificates> {
    // The bytes that `encode_ref` writes, with the signer's signature.
    #[tactic(auto, unfolding(crate::specs::Lists::list_format))]
    fn sign<S: Signer>(
        &self,
        alloc: Global,
        signer: &S,
        key: &S::KeyId,
    ) -> Result<SignedData, SigningError<S::Error>>
        ensures fields { OnOk result (ListFits self.now) }
        ensures message { IfOk result (λ s. s.message ≡ list_encoding self.now) }
        ensures signed { IfOk result
            (λ s. S.signs signer.now key.now self.now.algorithm (list_encoding self.now)
            (Ok s.signature)) }
        ensures fits { IfOk result (λ s. length (signed_content s) < 2 ^ 32) }
        ensures rejected { IfErr result (IsRefusal (list_content self.now)
            (S.signs signer.now key.now self.now.algorithm (list_encoding self.now))) }
    {
        let mut octets = Vec::new(alloc);
        self.encode_ref(alloc, &mut octets)?;
        let octets = Bytes::from_vec(octets).map_err(AllocError::from)?;
        SignedData::sign(alloc, signer, key, self.signature(), octets)
    }

    // The CRL with these fields and this signature.
    fn signed_by<S: Signer>(
        self,
        alloc: Global,
        signer: &S,
        key: &S::KeyId,
    ) -> Result<Crl, SigningError<S::Error>>
        ensures fields { IfOk result (λ c. c.list.fields ≡ self) }
        ensures written { OnOk result (ListFits self) }
        ensures uncached { IfOk result (λ c. c.is_cached ≡ false) }
        ensures message { IfOk result (λ c. c.list.signed_data.message ≡ list_encoding self) }
        ensures signed { IfOk result
            (λ c. S.signs signer.now key.now self.algorithm (list_encoding self)
            (Ok c.list.signed_data.signature)) }
        ensures fits { IfOk result
            (λ c. length (signed_content c.list.signed_data) < 2 ^ 32) }
        ensures rejected { IfErr result (IsRefusal (list_content self)
            (S.signs signer.now key.now self.algorithm (list_encoding self))) }
    {
        match self.sign(alloc, signer, key) {
            Ok(signed_data) => Ok(Crl::from_parts(self, signed_data)),
            Err(refusal) => Err(refusal),
        }
    }
}

impl<C: IntoIterator<Item = CrlEntry>> TbsCertList<C> {
    /// Encodes the entries, in their order, and keeps the other fields.
    ///
    /// # Errors
    ///
    /// Returns `Memory` only.
    pub fn to_revoked(self, alloc: Global) -> Result<TbsCertList<RevokedCertificates>, EncodeError>
        requires { (it : C.IntoIter) → C.into_iter_gives self.revoked it →
            C.IntoIter.can_next it × IsFinite (C.IntoIter.remaining it) }
        ensures entries { IfOk result (λ t.
            AreGiven C.into_iter_gives C.IntoIter.next_gives self.revoked t.revoked.entries) }
        ensures fields { IfOk result (λ t. t ≡ with_entries self t.revoked.entries) }
        ensures memory { IfErr result (λ e. e ≡ Memory) }
    {
        let TbsCertList {
            signature,
            issuer,
            this_update,
            next_update,
            revoked_certs,
            extensions,
        } = self;
        let entries: Vec<CrlEntry> = Vec::from_iter(alloc, revoked_certs)?;
        let revoked_certs = RevokedCertificates::from_entries(alloc, &entries)?;
        Ok(TbsCertList {
            signature,
            issuer,
            this_update,
            next_update,
            revoked_certs,
            extensions,
        })
    }

    /// Makes the CRL with these fields (RFC 5280 5.1, RFC 6487 5). The signer signs exactly the
    /// bytes that are kept, with the key that `key` names. The entries are those of the iterator,
    /// in their order.
    ///
    /// # Errors
    ///
    /// Returns the signer's error if it fails, `TooLong` if the content of the TBSCertList or of
    /// the CRL would have 2^32 bytes or more, and `Memory`.
    pub fn into_crl<S: Signer>(
        self,
        alloc: Global,
        signer: &S,
        key: &S::KeyId,
    ) -> Result<Crl, SigningError<S::Error>>
        requires { (it : C.IntoIter) → C.into_iter_gives self.revoked it →
            C.IntoIter.can_next it × IsFinite (C.IntoIter.remaining it) }
        ensures entries { IfOk result (λ c. AreGiven C.into_iter_gives C.IntoIter.next_gives
            self.revoked c.list.fields.revoked.entries) }
        ensures fields { IfOk result
            (λ c. c.list.fields ≡ with_entries self c.list.fields.revoked.entries) }
        ensures written { IfOk result (λ c. ListFits c.list.fields) }
        ensures uncached { IfOk result (λ c. c.is_cached ≡ false) }
        ensures message { IfOk result
            (λ c. c.list.signed_data.message ≡ list_encoding c.list.fields) }
        ensures signed { IfOk result
            (λ c. S.signs signer.now key.now self.algorithm (list_encoding c.list.fields)
            (Ok c.list.signed_data.signature)) }
        ensures fits { IfOk result
            (λ c. length (signed_content c.list.signed_data) < 2 ^ 32) }
        ensures rejected { IfErr result (IsListRefusal self
            (AreGiven C.into_iter_gives C.IntoIter.next_gives self.revoked)
            (S.signs signer.now key.now self.algorithm)) }
    {
        match self.to_revoked(alloc) {
            Ok(list) => list.signed_by(alloc, signer, key),
            Err(_) => Err(SigningError::Memory),
        }
    }
}
