//! The parts at which reading may stop, and what is expected there.
ghost use Rattle.std.specs.Prelude.{◌≡◌};
ghost use Rattle.rpki_files.specs.PartTexts.{field_text, part_description};

use crate::kinds::Kind;

/// A field that is read as a whole.
#[derive(Clone, Copy)]
pub enum Field {
    /// The version of a certificate.
    Version,
    /// The version of a CRL.
    ListVersion,
    Serial,
    /// The signature algorithm inside the to-be-signed part.
    Algorithm,
    Issuer,
    Validity,
    Subject,
    Key,
    ThisUpdate,
    NextUpdate,
    /// The signature algorithm beside the signature.
    SignatureAlgorithm,
}

/// A part of a certificate or of a CRL at which reading may stop.
#[derive(Clone, Copy)]
pub enum Part {
    /// The outer SEQUENCE.
    Outer,
    /// The SEQUENCE of the to-be-signed part (TBSCertificate, TBSCertList).
    Signed,
    Field(Field),
    /// The SEQUENCE of the revoked certificates.
    Entries,
    /// One of the revoked certificates.
    Entry,
    /// The extensions inside their tags, and all of them together.
    Extensions,
    /// An extension that isn't well formed.
    Extension,
    /// An extension of this kind whose flag or content isn't the one that its kind has.
    Kind(Kind),
    /// A second extension of this kind.
    Second(Kind),
    /// A value after the extensions or after the to-be-signed part, which have to end here.
    Behind,
    /// The algorithm beside the signature of a CRL, if it isn't the one inside.
    OtherAlgorithm,
    Signature,
}

impl Field {
    fn name(self) -> &'static str
        ensures { result.now ≡ (field_text self).name }
    {
        match self {
            Field::Version => "the version",
            Field::ListVersion => "the version",
            Field::Serial => "the serial number",
            Field::Algorithm => "the signature algorithm",
            Field::Issuer => "the issuer",
            Field::Validity => "the validity",
            Field::Subject => "the subject",
            Field::Key => "the public key",
            Field::ThisUpdate => "this update",
            Field::NextUpdate => "next update",
            Field::SignatureAlgorithm => "the algorithm of the signature",
        }
    }

    fn wanted(self) -> &'static str
        ensures { result.now ≡ (field_text self).wanted }
    {
        match self {
            Field::Version =>
                "version 3: the INTEGER 2 in [0], and nothing after it (RFC 6487 4.1)",
            Field::ListVersion => "version 2: the INTEGER 1 (RFC 6487 5)",
            Field::Serial => {
                "an INTEGER that isn't negative, of at most 20 bytes (RFC 5280 4.1.2.2)"
            }
            Field::Algorithm => "sha256WithRSAEncryption (RFC 7935 2)",
            Field::Issuer => "a Name (RFC 5280 4.1.2.4)",
            Field::Validity => "two times to the second, UTCTime before 2050 (RFC 5280 4.1.2.5)",
            Field::Subject => "a Name (RFC 5280 4.1.2.6)",
            Field::Key => "an RSA key or one on the curve P-256 (RFC 7935 3, RFC 8608 3.1)",
            Field::ThisUpdate => "a time to the second, UTCTime before 2050 (RFC 5280 5.1.2.4)",
            Field::NextUpdate => "a time to the second, UTCTime before 2050 (RFC 5280 5.1.2.5)",
            Field::SignatureAlgorithm => "sha256WithRSAEncryption (RFC 7935 2)",
        }
    }
}

impl Part {
    /// Returns the name of the part.
    pub fn name(self) -> &'static str
        ensures { result.now ≡ (part_description self).name }
    {
        match self {
            Part::Outer => "the outer SEQUENCE",
            Part::Signed => "the to-be-signed part",
            Part::Field(field) => field.name(),
            Part::Entries => "the revoked certificates",
            Part::Entry => "a revoked certificate",
            Part::Extensions => "the extensions",
            Part::Extension => "an extension",
            Part::Kind(kind) | Part::Second(kind) => kind.name(),
            Part::Behind => "what follows the extensions",
            Part::OtherAlgorithm => "the algorithm of the signature",
            Part::Signature => "the signature",
        }
    }

    /// Returns what is expected of the part, with the section that requires it.
    pub fn wanted(self) -> &'static str
        ensures { result.now ≡ (part_description self).wanted }
    {
        match self {
            Part::Outer => "a SEQUENCE that ends within the file (RFC 5280 4.1, 5.1)",
            Part::Signed => "a SEQUENCE (RFC 5280 4.1, 5.1)",
            Part::Field(field) => field.wanted(),
            Part::Entries => "a SEQUENCE (RFC 5280 5.1.2.6)",
            Part::Entry => "a serial number and a time, and nothing after them (RFC 6487 5)",
            Part::Extensions => "a SEQUENCE of all that must be there (RFC 6487 4.8, 5)",
            Part::Extension => {
                "an identifier, TRUE if it is critical, and an OCTET STRING (RFC 5280 4.1)"
            }
            Part::Kind(kind) | Part::Second(kind) => kind.wanted(),
            Part::Behind => "nothing (RFC 5280 4.1, 5.1)",
            Part::OtherAlgorithm => "the one in the to-be-signed part (RFC 5280 5.1.1.2)",
            Part::Signature => {
                "a BIT STRING of whole bytes, and nothing after it (RFC 5280 4.1.1.3, 5.1.1.3)"
            }
        }
    }
}
