//! The sorts of files that are often given in place of certificates or CRLs, with their texts.
ghost use Rattle.std.specs.Prelude.{◌≡◌, ◌↔◌, option_map, IfOk, IsTrue};
ghost use Rattle.rpki_der.specs.Place.{remaining};
ghost use Rattle.rpki_files.specs.FileSorts.{BeginSo, IsOfSort, IsSortOf, type_octets};
ghost use Rattle.rpki_files.specs.FileSorts.Reading.{turned};
ghost use Rattle.rpki_files.specs.SortTexts.{sort_description};

use crate::files::{is_bare_base64, is_damaged_pem, is_several_pem, is_unended_pem};
use crate::locators::looks_like_locator;
use crate::policies::{content, is_other_certificate};
use bytes::Bytes;
use rpki_der::{Cursor, tag};
use std::alloc::{AllocError, Global};

/// A sort of file that is neither a certificate of the RPKI nor a CRL.
#[derive(Clone, Copy)]
pub enum Sort {
    Empty,
    /// Base64 without the lines of PEM around it.
    Base64,
    /// PEM in which several objects start.
    SeveralPem,
    /// PEM whose object has no end.
    UnendedPem,
    /// PEM whose object isn't base64.
    DamagedPem,
    /// A TAL, or a file that looks like one.
    Locator,
    /// A signed object that is a route origin authorization.
    Roa,
    /// A signed object that is a manifest.
    Manifest,
    /// A signed object that is a Ghostbusters record.
    Ghostbusters,
    /// Signed data of CMS, of another content type.
    SignedData,
    /// A private key of PKCS #8.
    PrivateKey,
    /// A private key of RSA, of PKCS #1.
    RsaPrivateKey,
    /// A private key on a curve.
    CurvePrivateKey,
    /// A SubjectPublicKeyInfo.
    PublicKey,
    /// A certification request of PKCS #10.
    Request,
    /// A certificate of version 1, which has no version field.
    Version1,
    /// A certificate with extensions, but without resources and without the RPKI's policy.
    OtherCertificate,
}

// Every sort, in the order in which they are looked for.
const SORTS: [Sort; 17] = [
    Sort::Empty,
    Sort::Base64,
    Sort::SeveralPem,
    Sort::UnendedPem,
    Sort::DamagedPem,
    Sort::Locator,
    Sort::Roa,
    Sort::Manifest,
    Sort::Ghostbusters,
    Sort::SignedData,
    Sort::PrivateKey,
    Sort::RsaPrivateKey,
    Sort::CurvePrivateKey,
    Sort::PublicKey,
    Sort::Request,
    Sort::Version1,
    Sort::OtherCertificate,
];

// A type of what CMS holds (RFC 5652 3, 5.2).
#[derive(Clone, Copy)]
enum ContentType {
    SignedData,
    Roa,
    Manifest,
    Ghostbusters,
}

impl ContentType {
    // The content of its OBJECT IDENTIFIER.
    fn octets(self) -> &'static [u8]
        ensures { result.now ≡ type_octets self }
    {
        match self {
            ContentType::SignedData => &[0x2a, 0x86, 0x48, 0x86, 0xf7, 0x0d, 0x01, 0x07, 0x02],
            ContentType::Roa => &[
                0x2a, 0x86, 0x48, 0x86, 0xf7, 0x0d, 0x01, 0x09, 0x10, 0x01, 0x18,
            ],
            ContentType::Manifest => &[
                0x2a, 0x86, 0x48, 0x86, 0xf7, 0x0d, 0x01, 0x09, 0x10, 0x01, 0x1a,
            ],
            ContentType::Ghostbusters => &[
                0x2a, 0x86, 0x48, 0x86, 0xf7, 0x0d, 0x01, 0x09, 0x10, 0x01, 0x23,
            ],
        }
    }
}

// A turn at a value of DER with this identifier octet.
#[derive(Clone, Copy)]
enum Turn {
    // Over the value, whatever it holds.
    Over(u8),
    // Into it.
    Into(u8),
    // Over an OBJECT IDENTIFIER that is this one.
    Named(ContentType),
}

// What stands behind a turn, at the values that stand here, if it can be taken.
#[tactic(auto, unfolding(crate::specs::FileSorts::Reading::turned))]
fn turned<'a>(here: &Cursor<'a>, turn: &Turn) -> Option<Cursor<'a>>
    ensures { option_map remaining result ≡ turned turn.now (remaining here.now) }
{
    let mut at = here.fork();
    match *turn {
        Turn::Over(tag) => {
            let _inside = content(&mut at, tag)?;
            Some(at)
        }
        Turn::Into(tag) => content(&mut at, tag),
        Turn::Named(named) => {
            let identifier = content(&mut at, tag::OBJECT_IDENTIFIER)?;
            if identifier.rest() == named.octets() {
                Some(at)
            } else {
                None
            }
        }
    }
}

// Whether octets begin with values at which these turns can be taken.
fn begin_so(octets: &Bytes, turns: &[Turn]) -> bool
    ensures { IsTrue result ↔ BeginSo turns.now octets.now }
{
    // For the proof only: what is read are octets.
    let _octets = Cursor::new(octets).rest();
    let mut at = Cursor::new(octets);
    for turn in turns {
        match turned(&at, turn) {
            Some(next) => at = next,
            None => return false,
        }
    }
    true
}

// The turns of signed data, down to the type of what is signed, and this one there.
macro_rules! signed_data {
    ($turn:expr) => {
        &[
            Turn::Into(tag::SEQUENCE),
            Turn::Named(ContentType::SignedData),
            Turn::Into(0xa0),
            Turn::Into(tag::SEQUENCE),
            Turn::Over(tag::INTEGER),
            Turn::Over(tag::SET),
            Turn::Into(tag::SEQUENCE),
            $turn,
        ]
    };
}

const ROA: &[Turn] = signed_data!(Turn::Named(ContentType::Roa));

const MANIFEST: &[Turn] = signed_data!(Turn::Named(ContentType::Manifest));

const GHOSTBUSTERS: &[Turn] = signed_data!(Turn::Named(ContentType::Ghostbusters));

const SIGNED_DATA: &[Turn] = signed_data!(Turn::Over(tag::OBJECT_IDENTIFIER));

const PRIVATE_KEY: &[Turn] = &[
    Turn::Into(tag::SEQUENCE),
    Turn::Over(tag::INTEGER),
    Turn::Over(tag::SEQUENCE),
    Turn::Over(tag::OCTET_STRING),
];

const RSA_PRIVATE_KEY: &[Turn] = &[
    Turn::Into(tag::SEQUENCE),
    Turn::Over(tag::INTEGER),
    Turn::Over(tag::INTEGER),
    Turn::Over(tag::INTEGER),
    Turn::Over(tag::INTEGER),
    Turn::Over(tag::INTEGER),
    Turn::Over(tag::INTEGER),
    Turn::Over(tag::INTEGER),
    Turn::Over(tag::INTEGER),
    Turn::Over(tag::INTEGER),
];

const CURVE_PRIVATE_KEY: &[Turn] = &[
    Turn::Into(tag::SEQUENCE),
    Turn::Over(tag::INTEGER),
    Turn::Over(tag::OCTET_STRING),
];

const PUBLIC_KEY: &[Turn] = &[
    Turn::Into(tag::SEQUENCE),
    Turn::Over(tag::SEQUENCE),
    Turn::Over(tag::BIT_STRING),
];

const REQUEST: &[Turn] = &[
    Turn::Into(tag::SEQUENCE),
    Turn::Into(tag::SEQUENCE),
    Turn::Over(tag::INTEGER),
    Turn::Over(tag::SEQUENCE),
    Turn::Over(tag::SEQUENCE),
    Turn::Over(0xa0),
];

const VERSION_1: &[Turn] = &[
    Turn::Into(tag::SEQUENCE),
    Turn::Into(tag::SEQUENCE),
    Turn::Over(tag::INTEGER),
    Turn::Over(tag::SEQUENCE),
    Turn::Over(tag::SEQUENCE),
    Turn::Over(tag::SEQUENCE),
    Turn::Over(tag::SEQUENCE),
    Turn::Over(tag::SEQUENCE),
];

// Whether octets are of this sort.
fn is_of_sort(alloc: Global, octets: &Bytes, sort: Sort) -> Result<bool, AllocError>
    ensures { IfOk result (λ is. IsTrue is ↔ IsOfSort sort octets.now) }
{
    match sort {
        Sort::Empty => Ok(octets.as_slice().is_empty()),
        Sort::Base64 => is_bare_base64(alloc, octets.as_slice()),
        Sort::SeveralPem => Ok(is_several_pem(octets.as_slice())),
        Sort::UnendedPem => is_unended_pem(alloc, octets.as_slice()),
        Sort::DamagedPem => is_damaged_pem(alloc, octets.as_slice()),
        Sort::Locator => Ok(looks_like_locator(octets.as_slice())),
        Sort::Roa => Ok(begin_so(octets, ROA)),
        Sort::Manifest => Ok(begin_so(octets, MANIFEST)),
        Sort::Ghostbusters => Ok(begin_so(octets, GHOSTBUSTERS)),
        Sort::SignedData => Ok(begin_so(octets, SIGNED_DATA)),
        Sort::PrivateKey => Ok(begin_so(octets, PRIVATE_KEY)),
        Sort::RsaPrivateKey => Ok(begin_so(octets, RSA_PRIVATE_KEY)),
        Sort::CurvePrivateKey => Ok(begin_so(octets, CURVE_PRIVATE_KEY)),
        Sort::PublicKey => Ok(begin_so(octets, PUBLIC_KEY)),
        Sort::Request => Ok(begin_so(octets, REQUEST)),
        Sort::Version1 => Ok(begin_so(octets, VERSION_1)),
        Sort::OtherCertificate => Ok(is_other_certificate(octets)),
    }
}

/// Finds the sort of a file with these bytes: the first sort, in the order of [`Sort`], that they
/// are of. Returns `None` if they are of none. The time is linear in the number of bytes.
///
/// # Errors
///
/// Returns an error only if memory runs out.
pub fn sort_of(alloc: Global, octets: &Bytes) -> Result<Option<Sort>, AllocError>
    ensures { IfOk result (IsSortOf octets.now) }
{
    for sort in SORTS {
        let is_one = is_of_sort(alloc, octets, sort)?;
        if is_one {
            return Ok(Some(sort));
        }
    }
    Ok(None)
}

/// The texts of a sort: its name, what it is for a reader who expects a certificate, the section
/// that defines such files, and what to do.
#[derive(Clone, Copy)]
pub struct Description {
    pub name: &'static str,
    pub says: &'static str,
    pub section: &'static str,
    pub advice: &'static str,
}

// A line for each sort.
macro_rules! descriptions {
    ($sort:ident: $($of:ident => $name:literal, $says:literal, $section:literal, $advice:literal;)*) => {
        *match $sort {
            $(Sort::$of => &Description {
                name: $name,
                says: $says,
                section: $section,
                advice: $advice,
            },)*
        }
    };
}

/// Returns the texts of a sort.
pub fn describe(sort: Sort) -> Description
    ensures name { result.name.now ≡ (sort_description sort).name }
    ensures says { result.says.now ≡ (sort_description sort).says }
    ensures section { result.section.now ≡ (sort_description sort).section }
    ensures advice { result.advice.now ≡ (sort_description sort).advice }
{
    descriptions! { sort:
        Empty => "empty file",
            "it has no bytes", "RFC 5280 4.1", "fetch or copy it again";
        Base64 => "base64 without the lines of PEM",
            "no line that begins with -----BEGIN is before it", "RFC 7468 2",
            "put the lines of PEM around it, or decode it: base64 -d";
        SeveralPem => "PEM with several objects",
            "more than one object begins in it, and a file is read as one", "own rule",
            "put each object into a file of its own";
        UnendedPem => "PEM without its end",
            "no line that begins with -----END follows its first object", "RFC 7468 2",
            "copy it again, as a whole";
        DamagedPem => "damaged PEM",
            "what is between its lines isn't base64", "RFC 7468 3",
            "copy it again, as a whole";
        Locator => "trust anchor locator (TAL)",
            "it says where a trust anchor is and which key that has", "RFC 8630 2.2",
            "give it with --tal, and the trust anchor as the first file";
        Roa => "signed object: a route origin authorization (ROA)",
            "it is CMS signed data, and its EE certificate is inside",
            "RFC 9582 3", "take the certificate out: openssl pkcs7 -inform DER -print_certs";
        Manifest => "signed object: a manifest",
            "it is CMS signed data, and its EE certificate is inside",
            "RFC 9286 4.1", "take the certificate out: openssl pkcs7 -inform DER -print_certs";
        Ghostbusters => "signed object: a Ghostbusters record",
            "it is CMS signed data, and its EE certificate is inside",
            "RFC 6493 5", "take the certificate out: openssl pkcs7 -inform DER -print_certs";
        SignedData => "CMS signed data",
            "certificates may be inside, but it isn't one itself",
            "RFC 5652 5.1", "take the certificates out: openssl pkcs7 -inform DER -print_certs";
        PrivateKey => "private key (PKCS #8)",
            "it is a secret key, not a certificate of its public key", "RFC 5958 2",
            "keep it secret, and give the certificate";
        RsaPrivateKey => "private key of RSA (PKCS #1)",
            "it is a secret key, not a certificate of its public key", "RFC 8017 A.1.2",
            "keep it secret, and give the certificate";
        CurvePrivateKey => "private key on a curve",
            "it is a secret key, not a certificate of its public key", "RFC 5915 3",
            "keep it secret, and give the certificate";
        PublicKey => "public key",
            "it is a SubjectPublicKeyInfo, which certificates and TALs contain",
            "RFC 5280 4.1", "give the certificate of the key";
        Request => "certification request (PKCS #10)",
            "it asks for a certificate, and no issuer has signed it", "RFC 2986 4",
            "give the certificate that was issued";
        Version1 => "X.509 certificate of version 1",
            "those of the RPKI are of version 3", "RFC 6487 4.1",
            "give a certificate of the RPKI; openssl x509 -text shows this one";
        OtherCertificate => "X.509 certificate that isn't of the RPKI",
            "it lists no resources, and doesn't name the policy of the RPKI",
            "RFC 6487 4.8.9, 4.8.10, 4.8.11",
            "give a certificate of the RPKI; openssl x509 -text shows this one";
    }
}
