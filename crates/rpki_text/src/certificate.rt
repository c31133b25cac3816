//! Findings on a certificate beyond its fields.
ghost use Rattle.std.specs.Prelude.{◌≡◌};
ghost use Rattle.rpki_text.specs.CertificateTexts.{AreAnswers, AreFindings, answer_for};

use crate::keys::{self, KeyAnswer};
use rpki_cert::{Cert, InspectionError, Kind, kind_of};

/// The results of inspection for each kind: nothing if the profile is met, else the first error.
#[derive(Clone, Copy)]
pub struct Answers {
    pub anchor: Option<InspectionError>,
    pub authority: Option<InspectionError>,
    pub end_entity: Option<InspectionError>,
    pub detached: Option<InspectionError>,
    pub router: Option<InspectionError>,
}

/// Inspects a certificate as each kind.
pub fn answers_of(cert: &Cert, strict: bool) -> Answers
    ensures { AreAnswers strict cert.now result }
{
    Answers {
        anchor: cert.inspect_ta(strict).err(),
        authority: cert.inspect_ca(strict).err(),
        end_entity: cert.inspect_ee(strict).err(),
        detached: cert.inspect_detached_ee(strict).err(),
        router: cert.inspect_router(strict).err(),
    }
}

impl Answers {
    /// Returns the result of a kind's profile.
    pub fn of(&self, kind: Kind) -> Option<InspectionError>
        ensures { result ≡ answer_for kind self.now }
    {
        match kind {
            Kind::Anchor => self.anchor,
            Kind::Authority => self.authority,
            Kind::EndEntity => self.end_entity,
            Kind::Detached => self.detached,
            Kind::Router => self.router,
        }
    }
}

/// Findings on a certificate: its kind, the result of inspection for each kind, and the form of its
/// key.
#[derive(Clone, Copy)]
pub struct Findings {
    pub kind: Kind,
    pub answers: Answers,
    pub key: KeyAnswer,
}

/// Returns the findings on a certificate.
pub fn findings_of(cert: &Cert, strict: bool) -> Findings
    ensures { AreFindings strict cert.now result }
{
    Findings {
        kind: kind_of(cert, strict),
        answers: answers_of(cert, strict),
        key: keys::answer_of(cert.as_tbs().subject_public_key_info()),
    }
}
