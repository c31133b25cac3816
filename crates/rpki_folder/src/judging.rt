//! Judges a certificate below an issuer, and reports the verdict.
ghost use Rattle.std.specs.Prelude.{◌≢◌, ◌↔◌, ◌+◌, ◌++◌, ◌∷◌, [], ◌<◌, List, length, Result, Ok, Err, IfOk, IfErr, OnOk, OnErr, IsTrue};
ghost use Rattle.rpki_ext.specs.Kinds.{Means};
ghost use Rattle.rpki_cert.specs.Certificates.{CertFields, IsCertificate};
ghost use Rattle.rpki_cert.specs.declared.inspect.Kind.TheVariants.{Router};
ghost use Rattle.rpki_path.specs.declared.judging.Judged.{Judged};
ghost use Rattle.rpki_path.specs.declared.path_fault.PathFault.{PathFault as Fault};
ghost use Rattle.rpki_path.specs.declared.path_fault.PathFault.TheVariants.{Memory};
ghost use Rattle.rpki_cert.specs.Verification.{IsSignedBy};
ghost use Rattle.rpki_path.specs.Asking.{nobody};
ghost use Rattle.rpki_path.specs.Paths.{Finds};
ghost use Rattle.rpki_path.specs.Paths.Steps.{kind_of, IsIssuedBy, demand_under};
ghost use Rattle.rpki_path.specs.Routers.{IsRouterUnder, router_demand};
ghost use Rattle.rpki_folder.specs.Folders.{string_at};
ghost use Rattle.rpki_folder.specs.IssuerLists.{AreIssuerLists};
ghost use Rattle.rpki_folder.specs.Walks.{Told, told_at, StandsAt};
ghost use Rattle.rpki_folder.specs.Walks.Steps.{IsAnswer, IsOutcome, Hands};
ghost use Rattle.rpki_folder.specs.WalkViews.{walk_view};

use crate::admission::Admission;
use crate::issuer_lists::IssuerLists;
use crate::known::Known;
use crate::visitor::{Accepted, Visitor};
use crate::walk::Walk;
use rpki_cert::{Cert, Kind, ResourceCert};
use rpki_ext::beside;
use rpki_parts::Verifier;
use rpki_path::revocation::NobodyAsked;
use rpki_path::{PathFault, Role, Validator};
use std::alloc::AllocError;

// The error of a certificate, unless memory ran out.
fn reject<W: Visitor>(
    above: &[usize],
    place: usize,
    fault: PathFault,
    visitor: &mut W,
) -> Result<(), AllocError>
    ensures ok { (v : W) (ts : List Told) → W.became v ts visitor.old
        → OnOk result (W.became v (ts ++ told_at above.now place (Err fault) ∷ []) visitor.new) }
    ensures no_memory { OnOk result (fault ≢ Memory) }
    ensures err { (v : W) (ts : List Told) → W.became v ts visitor.old
        → OnErr result (W.became v ts visitor.new) }
{
    if fault.is_memory() {
        drop(fault);
        return Err(AllocError);
    }
    visitor.tell(above, place, Err(fault))
}

impl<'w, A: Admission, V: Verifier> Walk<'w, A, V> {
    // The certificate at a place, validated in this role below an issuer, without revocation.
    fn unasked_member(
        &self,
        issuer: &ResourceCert,
        place: usize,
        role: Role,
    ) -> Result<ResourceCert, PathFault>
        requires { place < length self.now.folder.now.certs }
        ensures ok { let w = walk_view V.verifies A.admits self.now in
            let octets = string_at w.folder.certs place in
            IfOk result (IsIssuedBy w.context nobody issuer.now (kind_of role) octets) }
        ensures fault { let w = walk_view V.verifies A.admits self.now in
            let octets = string_at w.folder.certs place in
            IfErr result (Finds w.context (demand_under w.context nobody issuer.now (kind_of role))
            octets) }
    {
        let validator = Validator {
            alloc: self.alloc,
            asked: &NobodyAsked,
            strict: self.strict,
            at: self.at,
            verifier: self.verifier,
        };
        validator.member(issuer, &self.folder.certs()[place].member(), role)
    }

    // Judges a certificate that isn't a router's, by the issuer's CRLs.
    fn member(
        &self,
        issuer: &ResourceCert,
        lists: &IssuerLists<'_>,
        place: usize,
        role: Role,
    ) -> Result<ResourceCert, PathFault>
        requires place { place < length self.now.folder.now.certs }
        requires kept { let w = walk_view V.verifies A.admits self.now in
            AreIssuerLists w.names w.context w.folder.lists issuer.now.cert.fields lists.now }
        ensures ok { let w = walk_view V.verifies A.admits self.now in
            IfOk result (IsIssuedBy w.context w.asked issuer.now (kind_of role)
            (string_at w.folder.certs place)) }
        ensures fault { let w = walk_view V.verifies A.admits self.now in
            IfErr result (Finds w.context (demand_under w.context w.asked issuer.now (kind_of role))
            (string_at w.folder.certs place)) }
    {
        let member = self.unasked_member(issuer, place, role)?;
        let test = lists.ask(member.as_cert(), self.at);
        let (member, ()) = beside(member, test)?;
        Ok(member)
    }

    // The certificate at a place, validated as a router's below an issuer, without revocation.
    fn unasked_router(&self, issuer: &ResourceCert, place: usize) -> Result<Cert, PathFault>
        requires { place < length self.now.folder.now.certs }
        ensures begins { let w = walk_view V.verifies A.admits self.now in
            IfOk result (λ c. Means IsCertificate c (string_at w.folder.certs place)) }
        ensures ok { let w = walk_view V.verifies A.admits self.now in
            IfOk result (IsRouterUnder w.context nobody issuer.now) }
        ensures fault { let w = walk_view V.verifies A.admits self.now in
            let octets = string_at w.folder.certs place in
            IfErr result (Finds w.context (router_demand w.context nobody issuer.now) octets) }
    {
        let validator = Validator {
            alloc: self.alloc,
            asked: &NobodyAsked,
            strict: self.strict,
            at: self.at,
            verifier: self.verifier,
        };
        validator.router(&self.folder.certs()[place].member(), issuer)
    }

    // Judges a router's certificate, by the issuer's CRLs.
    fn router(
        &self,
        issuer: &ResourceCert,
        lists: &IssuerLists<'_>,
        place: usize,
    ) -> Result<Cert, PathFault>
        requires place { place < length self.now.folder.now.certs }
        requires kept { let w = walk_view V.verifies A.admits self.now in
            AreIssuerLists w.names w.context w.folder.lists issuer.now.cert.fields lists.now }
        ensures begins { let w = walk_view V.verifies A.admits self.now in
            IfOk result (λ c. Means IsCertificate c (string_at w.folder.certs place)) }
        ensures ok { let w = walk_view V.verifies A.admits self.now in
            IfOk result (IsRouterUnder w.context w.asked issuer.now) }
        ensures fault { let w = walk_view V.verifies A.admits self.now in
            IfErr result (Finds w.context (router_demand w.context w.asked issuer.now)
            (string_at w.folder.certs place)) }
    {
        let cert = self.unasked_router(issuer, place)?;
        let test = lists.ask(&cert, self.at);
        let (cert, ()) = beside(cert, test)?;
        Ok(cert)
    }

    // Calls the visitor with the verdict on the certificate at a place, which isn't a router's, and
    // returns the certificate if it is accepted.
    fn tell_member<W: Visitor>(
        &self,
        issuer: &ResourceCert,
        lists: &IssuerLists<'_>,
        above: &[usize],
        place: usize,
        role: Role,
        visitor: &mut W,
    ) -> Result<Option<ResourceCert>, AllocError>
        requires place { place < length self.now.folder.now.certs }
        requires kept { let w = walk_view V.verifies A.admits self.now in
            AreIssuerLists w.names w.context w.folder.lists issuer.now.cert.fields lists.now }
        ensures ok { let w = walk_view V.verifies A.admits self.now in
            let octets = string_at w.folder.certs place in
            (v : W) (ts : List Told) → W.became v ts visitor.old → IfOk result (λ member.
            (verdict : Result Judged Fault)
            × W.became v (ts ++ told_at above.now place verdict ∷ []) visitor.new
            × IsAnswer w.context w.asked issuer.now octets (kind_of role) verdict × Hands verdict
            member) }
        ensures err { (v : W) (ts : List Told) → W.became v ts visitor.old
            → OnErr result (W.became v ts visitor.new) }
    {
        match self.member(issuer, lists, place, role) {
            Ok(member) => {
                let test = visitor.tell(above, place, Ok(Accepted::member(&member)));
                let (member, ()) = beside(member, test)?;
                Ok(Some(member))
            }
            Err(fault) => {
                reject(above, place, fault, visitor)?;
                Ok(None)
            }
        }
    }

    // Calls the visitor with the verdict on the router's certificate at a place.
    fn tell_router<W: Visitor>(
        &self,
        issuer: &ResourceCert,
        lists: &IssuerLists<'_>,
        above: &[usize],
        place: usize,
        visitor: &mut W,
    ) -> Result<(), AllocError>
        requires place { place < length self.now.folder.now.certs }
        requires kept { let w = walk_view V.verifies A.admits self.now in
            AreIssuerLists w.names w.context w.folder.lists issuer.now.cert.fields lists.now }
        ensures ok { let w = walk_view V.verifies A.admits self.now in
            let octets = string_at w.folder.certs place in
            (v : W) (ts : List Told) → W.became v ts visitor.old → OnOk result (
            (verdict : Result Judged Fault)
            × W.became v (ts ++ told_at above.now place verdict ∷ []) visitor.new
            × IsAnswer w.context w.asked issuer.now octets Router verdict) }
        ensures err { (v : W) (ts : List Told) → W.became v ts visitor.old
            → OnErr result (W.became v ts visitor.new) }
    {
        match self.router(issuer, lists, place) {
            Ok(cert) => {
                let test = visitor.tell(above, place, Ok(Accepted::router(issuer, &cert)));
                drop(cert);
                test
            }
            Err(fault) => reject(above, place, fault, visitor),
        }
    }

    // Judges the certificate at a place below an issuer as the kind that it says, calls the visitor
    // with the verdict, and returns the CA below which the walk goes on.
    fn look_at<W: Visitor>(
        &self,
        issuer: &ResourceCert,
        lists: &IssuerLists<'_>,
        above: &[usize],
        place: usize,
        visitor: &mut W,
    ) -> Result<Option<ResourceCert>, AllocError>
        requires place { place < length self.now.folder.now.certs }
        requires kept { let w = walk_view V.verifies A.admits self.now in
            AreIssuerLists w.names w.context w.folder.lists issuer.now.cert.fields lists.now }
        ensures ok { let w = walk_view V.verifies A.admits self.now in
            let octets = string_at w.folder.certs place in
            (v : W) (ts : List Told) → W.became v ts visitor.old → IfOk result (λ next.
            (verdict : Result Judged Fault)
            × W.became v (ts ++ told_at above.now place verdict ∷ []) visitor.new
            × IsOutcome w.context w.asked issuer.now octets verdict next) }
        ensures err { (v : W) (ts : List Told) → W.became v ts visitor.old
            → OnErr result (W.became v ts visitor.new) }
    {
        match self.folder.certs()[place].said().kind {
            Kind::Authority => self.tell_member(
                issuer,
                lists,
                above,
                place,
                Role::Authority,
                visitor,
            ),
            Kind::EndEntity => {
                drop(self.tell_member(issuer, lists, above, place, Role::EndEntity, visitor)?);
                Ok(None)
            }
            Kind::Detached => {
                drop(self.tell_member(issuer, lists, above, place, Role::Detached, visitor)?);
                Ok(None)
            }
            Kind::Router => {
                self.tell_router(issuer, lists, above, place, visitor)?;
                Ok(None)
            }
            Kind::Anchor => unreachable!(),
        }
    }

    /// Judges the certificate at a place below an issuer, as `look_at` does, if it is known whether
    /// the issuer's key signed it: its signature isn't verified again.
    pub(crate) fn judge<W: Visitor>(
        &self,
        issuer: &ResourceCert,
        lists: &IssuerLists<'_>,
        above: &[usize],
        place: usize,
        is_signed: bool,
        visitor: &mut W,
    ) -> Result<Option<ResourceCert>, AllocError>
        requires place { place < length self.now.folder.now.certs }
        requires kept { let w = walk_view V.verifies A.admits self.now in
            AreIssuerLists w.names w.context w.folder.lists issuer.now.cert.fields lists.now }
        requires signed { let w = walk_view V.verifies A.admits self.now in
            (c : CertFields) → StandsAt w.folder.certs place c → IsTrue is_signed
            ↔ IsSignedBy w.context.verifies issuer.now.cert.fields.key c.signed_data }
        ensures ok { let w = walk_view V.verifies A.admits self.now in
            let octets = string_at w.folder.certs place in
            (v : W) (ts : List Told) → W.became v ts visitor.old → IfOk result (λ next.
            (verdict : Result Judged Fault)
            × W.became v (ts ++ told_at above.now place verdict ∷ []) visitor.new
            × IsOutcome w.context w.asked issuer.now octets verdict next) }
        ensures err { (v : W) (ts : List Told) → W.became v ts visitor.old
            → OnErr result (W.became v ts visitor.new) }
    {
        let cert = self.folder.certs()[place].cert(self.alloc)?;
        let key = issuer.as_cert().as_tbs().subject_public_key_info();
        let known = Known::new(self.verifier, key, cert.signed_data(), is_signed);
        let walk = Walk {
            alloc: self.alloc,
            folder: self.folder,
            admission: self.admission,
            bounds: self.bounds,
            names: self.names,
            strict: self.strict,
            at: self.at,
            verifier: &known,
        };
        let next = walk.look_at(issuer, lists, above, place, visitor);
        drop(cert);
        next
    }
}
