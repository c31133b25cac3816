//! Whether a certificate may list more than its issuer has.
ghost use Rattle.std.specs.Prelude.{◌≡◌, Some};
ghost use Rattle.rpki_der.specs.Primitives.{IsOid};
ghost use Rattle.rpki_blocks.specs.Overclaims.{ip_identifier, as_identifier, policy_identifier, IsNamed};
ghost use Rattle.rpki_blocks.specs.ResourceTexts.{overclaim_text};
ghost use Rattle.rpki_blocks.specs.Overclaims.Reading.{which, mode_of};

use rpki_der::oid;
use std::fmt;

/// The mode for a certificate that lists resources which its issuer does not have.
#[derive(Debug, Clone, Copy, PartialEq, Eq, Hash)]
pub enum Overclaim {
    /// The certificate is rejected (RFC 6487 7.2).
    Refuse,
    /// The resources of the certificate are trimmed to those of its issuer (RFC 8360 4.2).
    Trim,
}

impl Overclaim {
    /// Returns the content of the OBJECT IDENTIFIER of the certificate policy (RFC 6484 1.2, RFC
    /// 8360 4.2.1).
    pub fn policy_id(self) -> &'static [u8]
        ensures identifier { result.now ≡ policy_identifier self }
        ensures valid { IsOid result.now }
    {
        match self {
            Overclaim::Refuse => oid::CP_IPADDR_ASNUMBER,
            Overclaim::Trim => oid::CP_IPADDR_ASNUMBER_V2,
        }
    }

    /// Returns the content of the OBJECT IDENTIFIER of the extension with IP resources (RFC 3779
    /// 2.2.1, RFC 8360 4.2.2.1).
    pub fn ip_res_id(self) -> &'static [u8]
        ensures identifier { result.now ≡ ip_identifier self }
        ensures valid { IsOid result.now }
    {
        match self {
            Overclaim::Refuse => oid::PE_IP_ADDR_BLOCK,
            Overclaim::Trim => oid::PE_IP_ADDR_BLOCK_V2,
        }
    }

    /// Returns the content of the OBJECT IDENTIFIER of the extension with AS resources (RFC 3779
    /// 3.2.1, RFC 8360 4.2.2.3).
    pub fn as_res_id(self) -> &'static [u8]
        ensures identifier { result.now ≡ as_identifier self }
        ensures valid { IsOid result.now }
    {
        match self {
            Overclaim::Refuse => oid::PE_AUTONOMOUS_SYS_IDS,
            Overclaim::Trim => oid::PE_AUTONOMOUS_SYS_IDS_V2,
        }
    }

    /// Returns the mode whose [`Overclaim::policy_id`] the identifier is, or `None` if it is of no
    /// mode.
    pub fn from_policy(identifier: &[u8]) -> Option<Overclaim>
        ensures named { IsNamed policy_identifier identifier.now result }
        ensures reads { result ≡ mode_of policy_identifier identifier.now }
    {
        which(
            identifier,
            oid::CP_IPADDR_ASNUMBER,
            oid::CP_IPADDR_ASNUMBER_V2,
        )
    }

    /// Returns the mode whose [`Overclaim::ip_res_id`] the identifier is, or `None` if it is of no
    /// mode.
    pub fn from_ip_res(identifier: &[u8]) -> Option<Overclaim>
        ensures named { IsNamed ip_identifier identifier.now result }
        ensures reads { result ≡ mode_of ip_identifier identifier.now }
    {
        which(identifier, oid::PE_IP_ADDR_BLOCK, oid::PE_IP_ADDR_BLOCK_V2)
    }

    /// Returns the mode whose [`Overclaim::as_res_id`] the identifier is, or `None` if it is of no
    /// mode.
    pub fn from_as_res(identifier: &[u8]) -> Option<Overclaim>
        ensures named { IsNamed as_identifier identifier.now result }
        ensures reads { result ≡ mode_of as_identifier identifier.now }
    {
        which(
            identifier,
            oid::PE_AUTONOMOUS_SYS_IDS,
            oid::PE_AUTONOMOUS_SYS_IDS_V2,
        )
    }
}

/// Prints `refuse` or `trim`.
impl fmt::Display for Overclaim {
    ghost output = { λ it. Some (overclaim_text it) };

    fn fmt<W: fmt::Write>(&self, f: &mut fmt::Formatter<W>) -> fmt::Result {
        f.write_str(match self {
            Overclaim::Refuse => "refuse",
            Overclaim::Trim => "trim",
        })
    }
}

// Which of the two an identifier is.
fn which(identifier: &[u8], refuse: &[u8], trim: &[u8]) -> Option<Overclaim>
    ensures { result ≡ which identifier.now refuse.now trim.now }
{
    if identifier == refuse {
        Some(Overclaim::Refuse)
    } else if identifier == trim {
        Some(Overclaim::Trim)
    } else {
        None
    }
}
