//! Where the children and the CRLs of an issuer are looked for.
ghost use Rattle.std.specs.Prelude.{◌≡◌, ◌↔◌, ◌+◌, ◌++◌, ◌<◌, ℕ, List, length, slice_index_or, Result, Ok, IfOk, IfSome, OnOk, IsTrue, option_map};
ghost use Rattle.std.specs.List.{AllByRecursion};
ghost use Rattle.rpki_cert.specs.Certificates.{CertFields};
ghost use Rattle.rpki_cert.specs.Verification.{IsSignedBy, context};
ghost use Rattle.rpki_folder.specs.Folders.{string_at, ArePlacesOf, NamesSigner};
ghost use Rattle.rpki_folder.specs.IssuerLists.{AreIssuerLists, ArePicked};
ghost use Rattle.rpki_folder.specs.Walks.{Told, told_at, StandsAt};
ghost use Rattle.rpki_folder.specs.Walks.Steps.{ClaimIs, IsChildAdded, IsClaim, IsOther, IsToldOf};
ghost use Rattle.rpki_folder.specs.IssuerTables.{AreAllChildren, AreIssuersKept, IsKeptOf};
ghost use Rattle.rpki_folder.specs.NameTables.{ArePlacesUnder, IsOfKey};
ghost use Rattle.rpki_folder.specs.WalkViews.{walk_view};
ghost use Rattle.rpki_folder.specs.declared.issuers.Issuer.{Issuer as Kept};

use crate::admission::Admission;
use crate::issuer_lists::{IssuerLists, has_signed};
use crate::issuers::{Issuer, Issuers, NamedKey};
use crate::names::NameTable;
use crate::visitor::Visitor;
use crate::walk::Walk;
use rpki_cert::{Cert, ResourceCert, laws};
use rpki_ext::beside;
use rpki_parts::Verifier;
use rpki_path::names_chain;
use std::alloc::AllocError;

// What a certificate that names an issuer's key is to the issuer.
#[derive(Drop)]
enum Claim {
    // Names are checked, and its issuer isn't the issuer's subject.
    OtherName,
    // It is a child of the issuer.
    Child,
    // It isn't, and this is whether the issuer's key signed it.
    Other(bool),
}

// What a certificate that names the issuer's key is to the issuer.
fn claim_of<V: Verifier>(
    issuer: &ResourceCert,
    cert: &Cert,
    names: bool,
    strict: bool,
    verifier: &V,
) -> Claim
    ensures { ClaimIs names (V.verifies verifier.now) issuer.now.cert cert.now result }
{
    if names && !names_chain(issuer, cert) {
        return Claim::OtherName;
    }
    let is_signed = cert
        .verify_signature(issuer.as_cert(), strict, verifier)
        .is_ok();
    let is_one = cert.as_tbs().signature() == *cert.signed_data().signature().algorithm();
    if is_signed && is_one {
        return Claim::Child;
    }
    Claim::Other(is_signed)
}

// Whether the key signed a CRL that names it, if that is known.
fn known_of(key: Option<&NamedKey>) -> Option<bool>
    ensures { result ≡ option_map (λ kept. kept.now.has_signed) key.entry }
{
    match key {
        Some(kept) => Some(kept.has_signed),
        None => None,
    }
}

impl<'w, A, V: Verifier> Walk<'w, A, V> {
    // What is to be kept of the issuer's key, which certificates at these places name.
    fn named_key(&self, issuer: &ResourceCert, places: &[usize]) -> Result<NamedKey, AllocError>
        requires { let key = issuer.now.cert.fields.extensions.subject_key_identifier in
            ArePlacesOf self.now.folder.now.certs key places.now }
        ensures { let w = self.now in let verifies = V.verifies w.verifier.now in
            IfOk result (λ kept. IsOfKey verifies w.folder.now kept.cert kept) }
    {
        let certs = NameTable::by_issuer(self.alloc, self.folder, places)?;
        let (certs, cert) = beside(certs, issuer.as_cert().try_clone(self.alloc))?;
        let key = issuer.as_cert().as_tbs().subject_key_identifier();
        let lists = self.folder.lists_of(&key);
        let has_signed = has_signed(self.folder.lists(), lists, issuer, self.verifier);
        Ok(NamedKey {
            cert,
            certs,
            has_signed,
        })
    }

    /// Keeps what names have in common that are names of the issuer's key, if names are checked and
    /// the table has another one. The first name of a key looks at all certificates that name the key.
    fn enter_key(
        &self,
        issuer: &ResourceCert,
        places: &[usize],
        issuers: &mut Issuers<'w>,
    ) -> Result<(), AllocError>
        requires places { let key = issuer.now.cert.fields.extensions.subject_key_identifier in
            ArePlacesOf self.now.folder.now.certs key places.now }
        requires kept { let w = self.now in
            let x = context (V.verifies w.verifier.now) w.at w.strict in
            AreIssuersKept w.names x w.folder.now issuers.old }
        ensures { let w = self.now in
            let x = context (V.verifies w.verifier.now) w.at w.strict in
            OnOk result (AreIssuersKept w.names x w.folder.now issuers.new) }
    {
        let key = issuer.as_cert().as_tbs().subject_key_identifier();
        if !self.names || issuers.by_key.get(&key).is_empty() {
            return Ok(());
        }
        if issuers.key_of(issuer.as_cert()).is_some() {
            return Ok(());
        }
        issuers.add_key(self.named_key(issuer, places)?)
    }

    /// Returns the places at which children of the issuer may be, of these, which name its key: all,
    /// or those with its name, if names are checked and it is known which these are.
    fn named_places<'p>(
        &self,
        issuer: &ResourceCert,
        places: &'p [usize],
        key: Option<&'p NamedKey>,
    ) -> Result<&'p [usize], AllocError>
        requires places { let key = issuer.now.cert.fields.extensions.subject_key_identifier in
            ArePlacesOf self.now.folder.now.certs key places.now }
        requires key { let w = self.now in let verifies = V.verifies w.verifier.now in
            IfSome key (λ kept. IsOfKey verifies w.folder.now issuer.now.cert kept.now) }
        ensures { let w = self.now in IfOk result (λ those.
            ArePlacesUnder w.names issuer.now.cert w.folder.now.certs those.now) }
    {
        match key {
            Some(kept) if self.names => {
                let name = issuer.as_cert().as_tbs().subject();
                kept.certs.named(self.alloc, name)
            }
            _ => Ok(places),
        }
    }

    /// Returns the CRLs of the folder that are searched below an issuer.
    fn lists_of(
        &self,
        issuer: &ResourceCert,
        key: Option<&NamedKey>,
    ) -> Result<IssuerLists<'w>, AllocError>
        requires { let w = self.now in let verifies = V.verifies w.verifier.now in
            IfSome key (λ kept. IsOfKey verifies w.folder.now issuer.now.cert kept.now) }
        ensures { let w = self.now in
            let x = context (V.verifies w.verifier.now) w.at w.strict in
            IfOk result (AreIssuerLists w.names x w.folder.now.lists issuer.now.cert.fields) }
    {
        let identifier = issuer.as_cert().as_tbs().subject_key_identifier();
        let (lists, places) = (self.folder.lists(), self.folder.lists_of(&identifier));
        let known = known_of(key);
        let (alloc, names, now) = (self.alloc, self.names, self.at);
        IssuerLists::new(
            alloc,
            lists,
            places,
            issuer,
            names,
            now,
            known,
            self.verifier,
        )
    }
}

impl<'w, A: Admission, V: Verifier> Walk<'w, A, V> {
    // What the certificate at a place, which names the issuer's key, is to the issuer.
    fn claim(&self, issuer: &ResourceCert, place: usize) -> Result<Claim, AllocError>
        requires place { place < length self.now.folder.now.certs }
        requires names { let key = issuer.now.cert.fields.extensions.subject_key_identifier in
            NamesSigner key (string_at self.now.folder.now.certs place) }
        ensures { let w = walk_view V.verifies A.admits self.now in
            IfOk result (IsClaim w.names w.context.verifies issuer.now.cert w.folder.certs place) }
    {
        laws::unambiguous();
        let cert = self.folder.certs()[place].cert(self.alloc)?;
        let claim = claim_of(issuer, &cert, self.names, self.strict, self.verifier);
        drop(cert);
        Ok(claim)
    }

    // Tells what is wrong with the certificate at a place, if it is admitted: it names the issuer's
    // key, but is no child of the issuer.
    fn tell_other<W: Visitor>(
        &self,
        issuer: &ResourceCert,
        lists: &IssuerLists<'_>,
        above: &[usize],
        place: usize,
        is_signed: bool,
        visitor: &mut W,
    ) -> Result<(), AllocError>
        requires place { place < length self.now.folder.now.certs }
        requires kept { let w = walk_view V.verifies A.admits self.now in
            AreIssuerLists w.names w.context w.folder.lists issuer.now.cert.fields lists.now }
        requires signed { let w = walk_view V.verifies A.admits self.now in
            (c : CertFields) → StandsAt w.folder.certs place c → IsTrue is_signed
            ↔ IsSignedBy w.context.verifies issuer.now.cert.fields.key c.signed_data }
        ensures { let w = walk_view V.verifies A.admits self.now in
            let here = λ (p : ℕ). (p ≡ place) × w.admits above.now p in
            (v : W) (ts : List Told) → W.became v ts visitor.old
            → (more : List Told) × W.became v (ts ++ more) visitor.new
            × AllByRecursion (IsToldOf w.context w.asked issuer.now w.folder.certs above.now here)
            more }
    {
        if !self.admission.is_admitted(above, place) {
            return Ok(());
        }
        drop(self.judge(issuer, lists, above, place, is_signed, visitor)?);
        Ok(())
    }

    // Adds the place of a certificate that names the issuer's key to those of the issuer's children,
    // if it is a child. If it has the issuer's name and isn't, what is wrong with it is told.
    fn add_child<W: Visitor>(
        &self,
        issuer: &ResourceCert,
        lists: &IssuerLists<'_>,
        above: &[usize],
        place: usize,
        children: &mut Vec<usize>,
        visitor: &mut W,
    ) -> Result<(), AllocError>
        requires place { place < length self.now.folder.now.certs }
        requires names { let key = issuer.now.cert.fields.extensions.subject_key_identifier in
            NamesSigner key (string_at self.now.folder.now.certs place) }
        requires kept { let w = walk_view V.verifies A.admits self.now in
            AreIssuerLists w.names w.context w.folder.lists issuer.now.cert.fields lists.now }
        ensures told { let w = walk_view V.verifies A.admits self.now in
            let certs = w.folder.certs in
            let others = IsOther w.context.verifies w.names w.admits issuer.now.cert certs
            above.now in
            (v : W) (ts : List Told) → W.became v ts visitor.old
            → (more : List Told) × W.became v (ts ++ more) visitor.new
            × AllByRecursion (IsToldOf w.context w.asked issuer.now certs above.now others) more }
        ensures children { let w = walk_view V.verifies A.admits self.now in
            OnOk result (IsChildAdded w.names w.context.verifies issuer.now.cert w.folder.certs
            place children.old.items children.new.items) }
    {
        laws::unambiguous();
        match self.claim(issuer, place)? {
            Claim::OtherName => Ok(()),
            Claim::Child => {
                children.push(place)?;
                Ok(())
            }
            Claim::Other(is_signed) => {
                self.tell_other(issuer, lists, above, place, is_signed, visitor)
            }
        }
    }

    // The places of the issuer's children among these, which name its key. What is wrong with the
    // others is told: they take no step.
    fn children<W: Visitor>(
        &self,
        issuer: &ResourceCert,
        lists: &IssuerLists<'_>,
        above: &[usize],
        places: &[usize],
        visitor: &mut W,
    ) -> Result<Vec<usize>, AllocError>
        requires kept { let w = walk_view V.verifies A.admits self.now in
            AreIssuerLists w.names w.context w.folder.lists issuer.now.cert.fields lists.now }
        requires places { let w = walk_view V.verifies A.admits self.now in
            ArePlacesUnder w.names issuer.now.cert w.folder.certs places.now }
        ensures told { let w = walk_view V.verifies A.admits self.now in
            let certs = w.folder.certs in
            let others = IsOther w.context.verifies w.names w.admits issuer.now.cert certs
            above.now in
            (v : W) (ts : List Told) → W.became v ts visitor.old
            → (more : List Told) × W.became v (ts ++ more) visitor.new
            × AllByRecursion (IsToldOf w.context w.asked issuer.now certs above.now others) more }
        ensures children { let w = walk_view V.verifies A.admits self.now in
            IfOk result (λ children. AreAllChildren w.names w.context.verifies issuer.now.cert
            w.folder.certs children.items) }
    {
        laws::unambiguous();
        let mut children = Vec::new(self.alloc);
        for &place in places {
            self.add_child(issuer, lists, above, place, &mut children, visitor)?;
        }
        Ok(children)
    }

    /// The index of an issuer in the table. If the table doesn't have it yet, its children and its
    /// CRLs are found first.
    pub(crate) fn enter<W: Visitor>(
        &self,
        issuer: &ResourceCert,
        above: &[usize],
        places: &[usize],
        issuers: &mut Issuers<'w>,
        visitor: &mut W,
    ) -> Result<usize, AllocError>
        requires places { let key = issuer.now.cert.fields.extensions.subject_key_identifier in
            ArePlacesOf self.now.folder.now.certs key places.now }
        requires kept { let w = walk_view V.verifies A.admits self.now in
            AreIssuersKept w.names w.context w.folder issuers.old }
        ensures told { let w = walk_view V.verifies A.admits self.now in
            let certs = w.folder.certs in
            let others = IsOther w.context.verifies w.names w.admits issuer.now.cert certs
            above.now in
            (v : W) (ts : List Told) → W.became v ts visitor.old
            → (more : List Told) × W.became v (ts ++ more) visitor.new
            × AllByRecursion (IsToldOf w.context w.asked issuer.now certs above.now others) more }
        ensures kept { let w = walk_view V.verifies A.admits self.now in
            OnOk result (AreIssuersKept w.names w.context w.folder issuers.new) }
        ensures found { let w = walk_view V.verifies A.admits self.now in
            IfOk result (λ at. (at < length issuers.new.kept.items) × ((d : Kept)
            → IsKeptOf w.names w.context w.folder issuer.now.cert
            (slice_index_or issuers.new.kept.items at d))) }
    {
        if let Some(at) = issuers.find(self.alloc, issuer.as_cert(), self.names)? {
            return Ok(at);
        }
        self.enter_key(issuer, places, issuers)?;
        let key = issuers.key_of(issuer.as_cert());
        let named = self.named_places(issuer, places, key)?;
        let lists = self.lists_of(issuer, key)?;
        let children = self.children(issuer, &lists, above, named, visitor)?;
        let cert = issuer.as_cert().try_clone(self.alloc)?;
        let issuer = Issuer {
            cert,
            children,
            lists,
        };
        issuers.add(self.alloc, issuer, self.names)
    }

    /// Those of these places that are admitted below the CAs at the places above.
    pub(crate) fn admitted(
        &self,
        above: &[usize],
        places: &[usize],
    ) -> Result<Vec<usize>, AllocError>
        ensures { let w = walk_view V.verifies A.admits self.now in
            IfOk result (λ those. ArePicked (w.admits above.now) places.now those.items) }
    {
        let mut those = Vec::new(self.alloc);
        for &place in places {
            if !self.admission.is_admitted(above, place) {
                continue;
            }
            those.push(place)?;
        }
        Ok(those)
    }
}
