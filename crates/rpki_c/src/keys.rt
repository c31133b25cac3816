//! The keys of a path: those of its certificates, and those that these name as their issuers'.
ghost use Rattle.std.specs.Prelude.{◌≡◌, ◌++◌, ◌∷◌, [], ℕ, List, IfOk, OnOk};
ghost use Rattle.rpki_c.specs.PathKeys.{AreKeysOf, keys_in};

use bytes::Bytes;
use rpki_cert::{Cert, laws};
use rpki_parts::KeyIdentifier;
use rpki_path::Member;
use std::alloc::{AllocError, Global};

// Adds the key of a certificate, and the one that it names as its issuer's.
fn push_keys(keys: &mut Vec<KeyIdentifier>, cert: &Cert) -> Result<(), AllocError>
    ensures { OnOk result (keys.new.items ≡ keys.old.items ++ keys_in cert.now) }
{
    let fields = cert.as_tbs();
    keys.push(fields.subject_key_identifier())?;
    if let Some(issuer) = fields.authority_key_identifier() {
        keys.push(issuer)?;
    }
    Ok(())
}

// Adds the keys of the certificate that the octets begin with, if there is one.
fn add_keys(alloc: Global, keys: &mut Vec<KeyIdentifier>, octets: &Bytes) -> Result<(), AllocError>
    ensures { (strings : List (List ℕ)) → AreKeysOf strings keys.old.items
        → OnOk result (AreKeysOf (strings ++ octets.now ∷ []) keys.new.items) }
{
    // Called for what it ensures alone.
    laws::unambiguous();
    match Cert::decode_shared(alloc, octets.clone()?) {
        Ok(cert) => {
            let pushed = push_keys(keys, &cert);
            drop(cert);
            pushed
        }
        Err(error) => {
            let is_memory = error.is_memory();
            drop(error);
            if is_memory { Err(AllocError) } else { Ok(()) }
        }
    }
}

// Adds the keys of each of the certificates.
fn add_all(
    alloc: Global,
    keys: &mut Vec<KeyIdentifier>,
    members: &[Member<'_>],
) -> Result<(), AllocError>
    ensures { (strings : List (List ℕ)) → AreKeysOf strings keys.old.items
        → OnOk result (AreKeysOf (strings ++ members.now) keys.new.items) }
{
    for member in members {
        add_keys(alloc, keys, member.octets())?;
    }
    Ok(())
}

/// Returns the keys of the certificates that these strings begin with.
pub(crate) fn keys_among(alloc: Global, strings: &[Bytes]) -> Result<Vec<KeyIdentifier>, AllocError>
    ensures { IfOk result (λ keys. AreKeysOf strings.now keys.items) }
{
    let members = Member::of_each(alloc, strings)?;
    let mut keys = Vec::new(alloc);
    let added = add_all(alloc, &mut keys, &members);
    drop(members);
    added?;
    Ok(keys)
}
