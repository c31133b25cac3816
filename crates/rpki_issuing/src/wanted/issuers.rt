//! The fields and the name of an issuer, and whether a CRL is its own.
ghost use Rattle.std.specs.Prelude.{◌≡◌, ◌↔◌, option_map, IsTrue};
ghost use Rattle.rpki_issuing.specs.AskedFields.{issuer_name};
ghost use Rattle.rpki_issuing.specs.Issuers.{HasIssuerName, IsOwnList, fields_above};

use rpki_cert::{ResourceCert, TbsCert};
use rpki_crl::Crl;
use rpki_keys::RsaVerifier;
use rpki_parts::Name;

/// Returns the fields of the issuer's certificate, if there is an issuer.
pub fn above<'i>(issuer: Option<&'i ResourceCert>) -> Option<&'i TbsCert>
    ensures { option_map (λ f. f.now) result
        ≡ fields_above (option_map (λ r. r.now) issuer.entry) }
{
    match issuer {
        Some(issuer) => Some(issuer.as_cert().as_tbs()),
        None => None,
    }
}

// The name of who issues: the subject itself where there is no issuer.
fn name_above<'a>(tbs: &'a TbsCert, issuer: Option<&'a ResourceCert>) -> &'a Name
    ensures { let above = fields_above (option_map (λ r. r.now) issuer.entry) in
        result.now ≡ issuer_name above tbs.now.subject }
{
    match issuer {
        Some(issuer) => issuer.as_cert().as_tbs().subject(),
        None => tbs.subject(),
    }
}

/// Returns whether the certificate's issuer name is the issuer's subject, or its own subject if
/// there is no issuer (RFC 6487 4.4).
pub fn is_named(tbs: &TbsCert, issuer: Option<&ResourceCert>) -> bool
    ensures { IsTrue result ↔ HasIssuerName (option_map (λ r. r.now) issuer.entry) tbs.now }
{
    let name = name_above(tbs, issuer);
    tbs.issuer().as_bytes() == name.as_bytes()
}

/// Returns whether the CRL is one of the issuer: it names the issuer's key, and that key signed it
/// (RSA, RFC 7935).
///
/// # Not checked
///
/// The times: the CRL may be stale.
pub fn is_own(list: &Crl, issuer: &ResourceCert, strict: bool) -> bool
    ensures { IsTrue result ↔ IsOwnList issuer.now.cert.fields list.now.list }
{
    let key = issuer.as_cert().as_tbs().subject_public_key_info();
    list.verify_issuer_claim(issuer, strict).is_ok()
        && list.verify_signature(key, &RsaVerifier).is_ok()
}
