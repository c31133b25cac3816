//! Copies of what may be left out of extensions, and what it keeps.
ghost use Rattle.std.specs.Prelude.{◌≡◌, IfOk, IfSome};
ghost use Rattle.std.specs.Fn.{FnOnceReturnsAt};
ghost use Rattle.rpki_parts.specs.Uris.{IsRsync, IsHttps};
ghost use Rattle.rpki_ext.specs.ExtensionKinds.{HasTwentyOctets, ArePurposes};

use crate::extended_key_usage::ExtendedKeyUsage;
use rpki_parts::{Https, KeyIdentifier, Rsync};
use std::alloc::AllocError;

/// Copies what is there.
pub(crate) fn copied<T: Drop, F: FnOnce(&T) -> Result<T, AllocError>>(
    value: &Option<T>,
    copy: F,
) -> Result<Option<T>, AllocError>
    requires callable { F.IsAlwaysCallable copy }
    requires same { (x : _) (r : _) → FnOnceReturnsAt F.FnOnce copy x r → IfOk r (λ y. y ≡ x) }
    ensures { IfOk result (λ copy. copy ≡ value.now) }
{
    match value {
        Some(value) => Ok(Some(copy(value)?)),
        None => Ok(None),
    }
}

// What a URI, purposes and an identifier keep, where they are there: called for what they ensure.

pub(crate) fn known_rsync(uri: &Option<Rsync>)
    ensures { IfSome uri.now IsRsync }
{
    if let Some(uri) = uri {
        let _octets = uri.as_bytes();
    }
}

pub(crate) fn known_https(uri: &Option<Https>)
    ensures { IfSome uri.now IsHttps }
{
    if let Some(uri) = uri {
        let _octets = uri.as_bytes();
    }
}

pub(crate) fn known_usage(usage: &Option<ExtendedKeyUsage>)
    ensures { IfSome usage.now ArePurposes }
{
    if let Some(usage) = usage {
        let _octets = usage.as_bytes();
    }
}

pub(crate) fn known_identifier(identifier: &Option<KeyIdentifier>)
    ensures { IfSome identifier.now HasTwentyOctets }
{
    if let Some(identifier) = identifier {
        let _octets = identifier.as_octets();
    }
}
