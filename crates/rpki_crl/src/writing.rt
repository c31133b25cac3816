//! Writes the TBSCertList of a CRL.
ghost use Rattle.std.specs.Prelude.{◌≡◌, ◌^◌, ◌++◌, ◌<◌, length, take, OnErr, OnOk};
ghost use Rattle.rpki_der.specs.Writers.{SaysLong, Writes};
ghost use Rattle.rpki_der.specs.Times.{IsMoment};
ghost use Rattle.rpki_parts.specs.Names.{IsName};
ghost use Rattle.rpki_ext.specs.ExtensionKinds.{HasTwentyOctets};
ghost use Rattle.rpki_crl.specs.RevokedEntries.{AreEntries};
ghost use Rattle.rpki_crl.specs.ListExtensions.{list_sequence};
ghost use Rattle.rpki_crl.specs.ListExtensions.Views.{extensions_view};
ghost use Rattle.rpki_crl.specs.Lists.{ListFits, list_content, list_part, tagged_list_extensions};

use crate::extensions::CrlExtensions;
use crate::revoked::RevokedCertificates;
use crate::tbs::TbsCertList;
use rpki_der::{EncodeError, enclose, end_extension, end_value, oid, tag};
use rpki_ext::encode_authority_key_identifier;
use std::alloc::Global;

// The INTEGER 1, which is version 2.
const VERSION_2: [u8; 3] = [tag::INTEGER, 0x01, 0x01];

impl CrlExtensions {
    // Appends both extensions, one after the other, or a part of them if it fails.
    fn append_sequence(&self, alloc: Global, out: &mut Vec<u8>) -> Result<(), EncodeError>
        ensures ok { OnOk result
            (out.new.items ≡ out.old.items ++ list_sequence (extensions_view self.now)) }
        ensures err { OnErr result (take (length out.old.items) out.new.items ≡ out.old.items) }
        ensures number { OnOk result (self.now.crl_number < 2 ^ 160) }
        ensures too_long { SaysLong result (list_sequence (extensions_view self.now)) }
    {
        encode_authority_key_identifier(alloc, out, self.authority_key_identifier)?;
        let start = out.len();
        let number = self.crl_number.encode(alloc, out);
        end_extension(out, start, oid::CE_CRL_NUMBER, false, number)
    }

    // Appends them inside their two tags, or a part of them if it fails.
    fn append_tagged(&self, alloc: Global, out: &mut Vec<u8>) -> Result<(), EncodeError>
        ensures ok { OnOk result
            (out.new.items ≡ out.old.items ++ tagged_list_extensions (extensions_view self.now)) }
        ensures err { OnErr result (take (length out.old.items) out.new.items ≡ out.old.items) }
        ensures number { OnOk result (self.now.crl_number < 2 ^ 160) }
        ensures too_long { SaysLong result (tagged_list_extensions (extensions_view self.now)) }
    {
        let start = out.len();
        self.append_sequence(alloc, out)?;
        enclose(out, start, tag::SEQUENCE)?;
        enclose(out, start, tag::CONTEXT_CONSTRUCTED)
    }
}

impl TbsCertList<RevokedCertificates> {
    // What is kept can be written. Called for what it ensures alone.
    fn known(&self)
        ensures issuer { IsName self.now.issuer self.now.issuer }
        ensures this_update { IsMoment self.now.this_update }
        ensures next_update { IsMoment self.now.next_update }
        ensures entries { AreEntries self.now.revoked.entries self.now.revoked.octets }
        ensures identifier { HasTwentyOctets self.now.extensions.authority_key_identifier }
    {
        let _issuer = self.issuer.as_bytes();
        self.this_update.known();
        self.next_update.known();
        let _entries = self.revoked_certs.iter();
        let _identifier = self.extensions.authority_key_identifier.as_octets();
    }

    // Appends the content of the SEQUENCE, or a part of it if it fails.
    #[tactic(auto, unfolding(crate::specs::Lists::list_content_format))]
    fn append_content(&self, alloc: Global, out: &mut Vec<u8>) -> Result<(), EncodeError>
        ensures ok { OnOk result (out.new.items ≡ out.old.items ++ list_content self.now) }
        ensures err { OnErr result (take (length out.old.items) out.new.items ≡ out.old.items) }
        ensures number { OnOk result (self.now.extensions.crl_number < 2 ^ 160) }
        ensures too_long { SaysLong result (list_content self.now) }
    {
        out.extend_from_slice(&VERSION_2)?;
        self.signature.x509_encode(alloc, out)?;
        self.issuer.encode_ref(alloc, out)?;
        self.this_update.encode_varied(alloc, out)?;
        self.next_update.encode_varied(alloc, out)?;
        self.revoked_certs.encode_ref(alloc, out)?;
        self.extensions.append_tagged(alloc, out)
    }

    /// Appends the TBSCertList with these fields (RFC 5280 5.1.2, RFC 6487 5): the entries as they
    /// are kept, and both extensions in one fixed order, without flags.
    ///
    /// # Errors
    ///
    /// Returns `TooLong` if the content would have 2^32 bytes or more, and `Memory`.
    #[tactic(auto, unfolding(crate::specs::Lists::list_format))]
    pub fn encode_ref(&self, alloc: Global, out: &mut Vec<u8>) -> Result<(), EncodeError>
        ensures writes { Writes (list_part self.now) out.old.items result out.new.items }
        ensures fits { OnOk result (ListFits self.now) }
    {
        self.known();
        let start = out.len();
        let content = self.append_content(alloc, out);
        end_value(out, start, tag::SEQUENCE, content)
    }
}
