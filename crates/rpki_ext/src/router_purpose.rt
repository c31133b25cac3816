//! The purposes of a router's key are inspected (RFC 8209 3.1.3.2).
ghost use Rattle.std.specs.Prelude.{◌≡◌, ◌↔◌, ◌||◌, IsOk, IfErr, false};
ghost use Rattle.rpki_der.specs.Folding.{over};
ghost use Rattle.rpki_der.specs.Place.{remaining};
ghost use Rattle.rpki_der.specs.Primitives.Reading.{oid_at};
ghost use Rattle.rpki_ext.specs.RouterPurposes.{HasRouterPurpose, is_router_purpose, or_router};
ghost use Rattle.rpki_ext.specs.declared.inspection.InspectionError.TheVariants.{MissingRouterPurpose};

use crate::extended_key_usage::ExtendedKeyUsage;
use crate::inspection::InspectionError;
use rpki_der::{Cursor, oid};

// Whether it was found before, or is this identifier.
fn or_router(found: bool, id: &[u8]) -> bool
    ensures { result ≡ (found || is_router_purpose id.now) }
{
    found || id == oid::KP_BGPSEC_ROUTER
}

// Whether the router's purpose is among these identifiers; `None` where they aren't identifiers.
fn find_router(identifiers: &Cursor<'_>) -> Option<bool>
    ensures { result ≡ over oid_at or_router false (remaining identifiers.now) }
{
    let mut rest = identifiers.fork();
    let mut found = false;
    while !rest.is_empty() {
        let id = match rest.take_oid() {
            Ok(id) => id,
            Err(_) => return None,
        };
        found = or_router(found, id);
    }
    Some(found)
}

impl ExtendedKeyUsage {
    /// Checks that id-kp-bgpsec-router is among the purposes (RFC 8209 3.1.3.2). Takes no memory.
    ///
    /// # Errors
    ///
    /// Returns `MissingRouterPurpose` if it isn't.
    pub fn inspect_router(&self) -> Result<(), InspectionError>
        ensures ok { IsOk result ↔ HasRouterPurpose self.now }
        ensures missing { IfErr result (λ e. e ≡ MissingRouterPurpose) }
    {
        match find_router(&self.identifiers.cursor()) {
            Some(found) if found => Ok(()),
            _ => Err(InspectionError::MissingRouterPurpose),
        }
    }
}
