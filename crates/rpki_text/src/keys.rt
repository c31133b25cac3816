//! The text of a key.
ghost use Rattle.std.specs.Prelude.{◌≡◌, ◌↔◌, IsTrue, Some};
ghost use Rattle.rpki_keys.specs.KeyForms.{IsUsableKey};
ghost use Rattle.rpki_text.specs.KeyTexts.{IsKeyAnswer, IsLocatorKey, exponent_text, form_text, asked_text, key_text, locator_key_text};

use rpki_keys::{KeyForm, form_of, is_usable};
use rpki_parts::{PublicKey, PublicKeyFormat};
use std::fmt;

/// The form of a key, and whether the RPKI uses such a key. It is printed as its form, such as
/// `RSA, 2048 bits, exponent 65537`. If the RPKI doesn't use it, the required form is printed too.
#[derive(Clone, Copy)]
pub struct KeyAnswer {
    pub form: KeyForm,
    pub is_usable: bool,
}

/// Returns the form of the key, and whether the RPKI uses such a key.
pub fn answer_of(key: &PublicKey) -> KeyAnswer
    ensures { IsKeyAnswer key.now result }
{
    KeyAnswer {
        form: form_of(key),
        is_usable: is_usable(key),
    }
}

// Whether signatures of the RPKI are verified with the key: one of routers is none.
fn can_verify(key: &PublicKey) -> bool
    ensures { IsTrue result ↔ ((key.now.format ≡ PublicKeyFormat.Rsa) × IsUsableKey key.now) }
{
    match key.algorithm() {
        PublicKeyFormat::Rsa => is_usable(key),
        PublicKeyFormat::EcdsaP256 => false,
    }
}

/// Returns the form of a TAL's key, and whether signatures of the RPKI are verified with such a
/// key.
pub fn answer_of_locator(key: &PublicKey) -> KeyAnswer
    ensures { IsLocatorKey key.now result }
{
    KeyAnswer {
        form: form_of(key),
        is_usable: can_verify(key),
    }
}

#[derive(Clone, Copy)]
struct Exponent(Option<u64>);

impl fmt::Display for Exponent {
    ghost output = { λ e. Some (exponent_text e.0) };

    fn fmt<W: fmt::Write>(&self, f: &mut fmt::Formatter<W>) -> fmt::Result {
        match self.0 {
            Some(exponent) => write!(f, "exponent {exponent}"),
            None => f.write_str("an exponent of 2^64 or more"),
        }
    }
}

#[derive(Clone, Copy)]
struct Form(KeyForm);

impl fmt::Display for Form {
    ghost output = { λ form. Some (form_text form.0) };

    fn fmt<W: fmt::Write>(&self, f: &mut fmt::Formatter<W>) -> fmt::Result {
        match self.0 {
            KeyForm::RsaKey { bits, exponent } => {
                let exponent = Exponent(exponent);
                write!(f, "RSA, {bits} bits, {exponent}")
            }
            KeyForm::EvenModulus => f.write_str("RSA, an even modulus"),
            KeyForm::NoRsaKey => f.write_str("RSA, no RSAPublicKey"),
            KeyForm::Point => f.write_str("ECDSA P-256, an uncompressed point of the curve"),
            KeyForm::OffCurve => f.write_str("ECDSA P-256, a point off the curve"),
            KeyForm::CompressedPoint => f.write_str("ECDSA P-256, a compressed point"),
            KeyForm::NoPoint => f.write_str("ECDSA P-256, no point"),
        }
    }
}

// The form that is required of a key with this algorithm.
#[derive(Clone, Copy)]
struct Asked(KeyForm);

impl fmt::Display for Asked {
    ghost output = { λ form. Some (asked_text form.0) };

    fn fmt<W: fmt::Write>(&self, f: &mut fmt::Formatter<W>) -> fmt::Result {
        match self.0 {
            KeyForm::RsaKey { .. } | KeyForm::EvenModulus | KeyForm::NoRsaKey => {
                f.write_str("RFC 7935 3 requires 2048 bits, exponent 65537")
            }
            KeyForm::Point | KeyForm::OffCurve | KeyForm::CompressedPoint | KeyForm::NoPoint => {
                f.write_str(
                    "RFC 8608 3.1 and an own rule require an uncompressed point of the curve",
                )
            }
        }
    }
}

impl fmt::Display for KeyAnswer {
    ghost output = { λ key. Some (key_text key) };

    fn fmt<W: fmt::Write>(&self, f: &mut fmt::Formatter<W>) -> fmt::Result {
        let form = Form(self.form);
        if self.is_usable {
            return write!(f, "{form}");
        }
        let asked = Asked(self.form);
        write!(f, "{form} (not usable: {asked})")
    }
}

/// The key of a TAL. It is printed as its form. If no signature is verified with such a key, the
/// required form is printed too.
#[derive(Clone, Copy)]
pub struct LocatorKey(pub KeyAnswer);

impl fmt::Display for LocatorKey {
    ghost output = { λ key. Some (locator_key_text key.0) };

    fn fmt<W: fmt::Write>(&self, f: &mut fmt::Formatter<W>) -> fmt::Result {
        let form = Form(self.0.form);
        if self.0.is_usable {
            return write!(f, "{form}");
        }
        write!(
            f,
            "{form} (every path is rejected: RFC 7935 3 requires RSA, 2048 bits, exponent 65537)"
        )
    }
}
