//! The verdict on a path, for each kind of last certificate and each source of revocation.
ghost use Rattle.std.specs.Prelude.{◌≡◌, ◌<◌, [], IfOk, IfErr};
ghost use Rattle.std.proofs.Common.{rc_value};
ghost use Rattle.rpki_cert.specs.Verification.{context};
ghost use Rattle.rpki_path.specs.GivenPaths.{string_count};
ghost use Rattle.rpki_path.specs.Judging.{Judges};
ghost use Rattle.rpki_path.specs.Validators.{validator_view};
ghost use Rattle.rpki_path.specs.declared.path_fault.PathFault.TheVariants.{Memory};

use crate::given::{GivenPath, Last};
use crate::path_fault::{PathError, PathFault};
use crate::revocation::RevocationSource;
use crate::validator::{Validator, placed};
use rpki_cert::{Cert, ResourceCert, laws};
use rpki_der::Time;
use rpki_ext::beside;
use rpki_parts::{PublicKey, TalInfo, Verifier};
use std::alloc::Global;
use std::rc::Rc;

/// The result of [`judge`]: the last certificate of a valid path with the resources that it holds
/// (above a router, the CA), and the router's certificate, if the last is a router's.
#[derive(Drop)]
pub struct Judged {
    pub holder: ResourceCert,
    pub router: Option<Cert>,
}

impl Judged {
    ghost use Rattle.std.specs.Prelude.{◌≡◌};
    ghost use Rattle.rpki_path.specs.Judging.{last_key};

    /// Returns the key of the path's last certificate.
    pub fn last_key(&self) -> &PublicKey
        ensures { result.now ≡ last_key self.now }
    {
        match &self.router {
            Some(router) => router.as_tbs().subject_public_key_info(),
            None => self.holder.as_cert().as_tbs().subject_public_key_info(),
        }
    }
}

// A TAL without a name.
fn nameless(alloc: Global) -> Result<Rc<TalInfo>, PathFault>
    ensures ok { IfOk result (λ tal. rc_value tal ≡ []) }
    ensures memory { IfErr result (λ e. e ≡ Memory) }
{
    Ok(TalInfo::from_name(String::new(alloc)).into_rc(alloc)?)
}

// The verdict on the path, whose TAL has no name.
fn verdict<R: RevocationSource, V: Verifier>(
    path: &GivenPath<'_, '_>,
    tal: Rc<TalInfo>,
    validator: &Validator<'_, '_, R, V>,
) -> Result<Judged, PathError>
    requires { rc_value tal ≡ [] }
    ensures judges { let v = validator_view V.verifies R.asks validator.now in
        Judges v.context v.asked path.now result }
    ensures place { IfErr result (λ e. e.index < string_count path.now) }
{
    laws::unambiguous();
    let holder = validator.members(path.anchor, path.cas, path.last, tal)?;
    match path.last {
        Some(Last::Router(end)) => {
            let found = placed(path.cas.len() + 1, validator.router(end, &holder));
            let (holder, cert) = beside(holder, found)?;
            Ok(Judged {
                holder,
                router: Some(cert),
            })
        }
        _ => Ok(Judged {
            holder,
            router: None,
        }),
    }
}

/// Validates a path that ends in a CA, an end entity or a router.
///
/// Certificates are validated as [`crate::validate_path`] does, a router as
/// [`crate::validate_router`] does. Revocation is checked by the source, for each certificate below
/// the trust anchor, once it is verified. What was read before isn't read again. Returns what the
/// last certificate holds (above a router, the CA), with a TAL without a name, and the router's
/// certificate.
///
/// # Errors
///
/// Returns the path index of the first wrong certificate, and what is wrong with it.
///
/// # Not checked
///
/// Name chaining ([`crate::first_unchained`]), whether the trust anchor has a TAL's key
/// ([`crate::has_locator_key`]), and manifests (own).
pub fn judge<R: RevocationSource, V: Verifier>(
    alloc: Global,
    path: &GivenPath<'_, '_>,
    asked: &R,
    strict: bool,
    now: Time,
    verifier: &V,
) -> Result<Judged, PathError>
    // Ok if and only if the path is valid, with what its last certificate holds. An error says what
    // is wrong with the string at its index, if those before it are a valid path.
    ensures judges { let x = context (V.verifies verifier.now) now strict in
        Judges x (R.asks asked.now x) path.now result }
    // The index is that of a string.
    ensures place { IfErr result (λ e. e.index < string_count path.now) }
{
    let tal = placed(0, nameless(alloc))?;
    let validator = Validator {
        alloc,
        asked,
        strict,
        at: now,
        verifier,
    };
    verdict(path, tal, &validator)
}
