//! Laws about the definitions. Each is the contract of a function with no parameters and an empty
//! body.
ghost use Rattle.std.specs.Prelude.{◌≡◌, ℕ, ◌≤◌, List};
ghost use Rattle.std.specs.List.{AllByRecursion};
ghost use Rattle.rpki_der.specs.Encoding.{Begins, BeginsOrAbsent};
ghost use Rattle.rpki_der.specs.Tags.{SEQUENCE};
ghost use Rattle.rpki_der.specs.Values.{IsUnambiguous};
ghost use Rattle.rpki_parts.specs.SignedDatas.{signed_data};
ghost use Rattle.rpki_crl.specs.ListHeads.{NamesKey};
ghost use Rattle.rpki_crl.specs.Lists.{CrlFields, ListFields, ListFits, IsMadeList, IsTbsCertList, IsCertificateList, IsCertificateListWithin, list_encoding};
ghost use Rattle.rpki_crl.specs.RevokedEntries.{Entry, Revoked, AreEntries, IsRevokedCertificates, FitsEntry, entries};

/// States that a string of bytes starts with at most one CRL, with its fields and entries, and
/// that no CRL's bytes are a proper prefix of another's. This also holds for the TBSCertList, and
/// for the revokedCertificates, present or absent.
pub fn unambiguous()
    ensures list { IsUnambiguous IsCertificateList }
    ensures data { IsUnambiguous IsTbsCertList }
    ensures revoked { (r s : Revoked) (b rest tail : List ℕ)
        → BeginsOrAbsent SEQUENCE IsRevokedCertificates b r rest
        → BeginsOrAbsent SEQUENCE IsRevokedCertificates b s tail → (r ≡ s) × (rest ≡ tail) }
{}

/// States that a sequence of bytes is at most one sequence of entries.
pub fn one_row()
    ensures { (ds es : List Entry) (b : List ℕ) → AreEntries ds b → AreEntries es b → ds ≡ es }
{}

/// States that a CRL's bytes are the SEQUENCE of its TBSCertList, its algorithm and its signature
/// as they are kept. A CRL that was read is therefore written as the bytes that were read.
pub fn octets_are_kept()
    ensures { (r : CrlFields) (b : List ℕ) → IsCertificateList r b → b ≡ signed_data r.signed_data }
{}

/// States that fields which have an encoding are written as a TBSCertList of these fields, with
/// every form of length. A CRL whose signed bytes are that encoding is read from its own bytes, if
/// its signature names the requested algorithm and its length fits. Entries are read as they were
/// written, if their serial numbers are below 2^160 and their times exist. Such fields exist.
pub fn written_is_read()
    ensures data { (f : ListFields Revoked) → ListFits f → IsTbsCertList f (list_encoding f) }
    ensures list { (r : CrlFields) → IsMadeList r
        → IsCertificateList r (signed_data r.signed_data) }
    ensures elements { (es : List Entry) → AllByRecursion FitsEntry es → AreEntries es (entries es) }
    ensures premises { (f : ListFields Revoked) × ListFits f }
{}

/// States that a CRL under one bound of depth is a CRL under a greater bound, with the same bytes,
/// fields and entries: the bound concerns its issuer's name alone. A CRL that was read with a bound
/// of 16 is therefore read with today's 32, at the start of any bytes, with the same rest.
pub fn still_read()
    ensures general { (d e : ℕ) (r : CrlFields) (b : List ℕ) → d ≤ e
        → IsCertificateListWithin d r b → IsCertificateListWithin e r b }
    ensures to_32 { (r : CrlFields) (octets rest : List ℕ)
        → Begins (IsCertificateListWithin 16) octets r rest
        → Begins IsCertificateList octets r rest }
{}

/// States that a CRL's bytes name the key of its authority key identifier, without a look at its
/// entries, and that no bytes name two keys ([`crate::named_key`]).
pub fn names_one_key()
    ensures own { (r : CrlFields) (b : List ℕ) → IsCertificateList r b
        → NamesKey r.fields.extensions.authority_key_identifier b }
    ensures one { (k j b : List ℕ) → NamesKey k b → NamesKey j b → k ≡ j }
{}
