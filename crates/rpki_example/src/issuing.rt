//! Issues the certificate of a CA, with a signer for its issuer.
ghost use Rattle.std.specs.Prelude.{Ok, IfOk};
ghost use Rattle.rpki.specs.Certificates.{encoding};

use rpki::crypto::{PublicKey, Signer, SigningError};
use rpki::repository::cert::{Cert, KeyUsage, Overclaim, TbsCert};
use rpki::repository::x509::{Serial, Validity};
use rpki::uri::Rsync;
use std::alloc::Global;

/// The URIs of a CA's issuer, and those of the CA.
#[derive(Drop)]
pub struct Places {
    pub issuer: Rsync,
    pub issuer_list: Rsync,
    pub repository: Rsync,
    pub manifest: Rsync,
}

// Sets the fields of a CA's certificate below this issuer, whose resources it inherits.
fn set_authority(tbs: &mut TbsCert, issuer: &Cert, places: Places) {
    tbs.set_basic_ca(Some(true));
    tbs.set_authority_key_identifier(Some(issuer.as_tbs().subject_key_identifier()));
    tbs.set_ca_issuer(Some(places.issuer));
    tbs.set_crl_uri(Some(places.issuer_list));
    tbs.set_ca_repository(Some(places.repository));
    tbs.set_rpki_manifest(Some(places.manifest));
    tbs.set_v4_resources_inherit();
    tbs.set_v6_resources_inherit();
    tbs.set_as_resources_inherit();
}

/// Issues the certificate of a CA with this key, below an issuer. The signer has the issuer's key,
/// which `signing_key` names, and signs exactly the fields of the certificate.
///
/// # Errors
///
/// Returns the signer's error, or that memory ran out or a content is too long.
pub fn issue<S: Signer>(
    alloc: Global,
    issuer: &Cert,
    signer: &S,
    signing_key: &S::KeyId,
    key: PublicKey,
    serial: Serial,
    validity: Validity,
    places: Places,
) -> Result<Cert, SigningError<S::Error>>
    ensures signed { IfOk result
        (λ c. S.signs signer.now signing_key.now c.fields.algorithm (encoding c.fields)
        (Ok c.signed_data.signature)) }
{
    let name = issuer.as_tbs().subject().try_clone(alloc)?;
    let usage = KeyUsage::Ca;
    let overclaim = Overclaim::Refuse;
    let mut tbs = TbsCert::new(alloc, serial, name, validity, None, key, usage, overclaim)?;
    set_authority(&mut tbs, issuer, places);
    match tbs.into_cert(alloc, signer, signing_key) {
        Ok(cert) => Ok(cert),
        Err(refusal) => Err(refusal),
    }
}
