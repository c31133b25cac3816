//! What the bits of keys are.
use crate::answer::Answer;
use crate::words::Words;
use rpki_keys::{KeyForm, form_of, is_point, is_usable};
use rpki_parts::{PublicKey, PublicKeyFormat};

fn exponent(out: &mut Answer, found: Option<u64>) {
    match found {
        Some(exponent) => out.wide_number(exponent),
        None => out.text("none"),
    }
}

fn form(out: &mut Answer, found: KeyForm) {
    match found {
        KeyForm::RsaKey { bits, exponent: e } => {
            out.text("rsa-key");
            out.field("bits").wide_number(bits);
            exponent(out.field("exponent"), e);
        }
        KeyForm::EvenModulus => out.text("even-modulus"),
        KeyForm::NoRsaKey => out.text("no-rsa-key"),
        KeyForm::Point => out.text("point"),
        KeyForm::OffCurve => out.text("off-curve"),
        KeyForm::CompressedPoint => out.text("compressed-point"),
        KeyForm::NoPoint => out.text("no-point"),
    }
}

fn format_of(words: &Words<'_>) -> PublicKeyFormat {
    if words.is(1, "router") {
        PublicKeyFormat::EcdsaP256
    } else {
        PublicKeyFormat::Rsa
    }
}

/// Answers what the bits of a key are, and whether the RPKI uses it.
pub fn key_form(words: &Words<'_>, out: &mut Answer) {
    let bits = words.bytes(out, 2);
    let point = is_point(bits.as_slice());
    let key = PublicKey::new(format_of(words), bits);
    out.text("ok");
    form(out.field("form"), form_of(&key));
    out.field("used").yes(is_usable(&key));
    drop(key);
    out.field("point").yes(point);
}
