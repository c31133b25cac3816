//! Single extensions: the content of a kind, and the whole extension written again.
use crate::answer::Answer;
use crate::parts::key_identifier;
use crate::sets::mode;
use crate::show::{Show, Twin, read, readable};
use crate::uris::{https, rsync};
use crate::words::Words;
use crate::writing::put_behind;
use rpki_blocks::Overclaim;
use rpki_der::{Cursor, DecodeError};
use rpki_ext::{
    ExtendedKeyUsage, KeyUsage, Sia, encode_authority_information_access,
    encode_authority_key_identifier, encode_basic_constraints, encode_certificate_policies,
    encode_crl_distribution_points, encode_extended_key_usage, encode_key_usage,
    encode_subject_information_access, encode_subject_key_identifier,
    take_authority_information_access, take_authority_key_identifier, take_basic_constraints,
    take_certificate_policies, take_crl_distribution_points, take_extended_key_usage,
    take_extension, take_key_usage, take_subject_information_access, take_subject_key_identifier,
};
use rpki_parts::{KeyIdentifier, Rsync};
use std::alloc::{AllocError, Global};

fn whole(out: &mut Answer, found: Result<(&[u8], bool, Cursor<'_>), DecodeError>) {
    let Some((id, critical, content)) = readable(out, found) else {
        return;
    };
    out.field("oid").octets(id);
    out.field("critical").yes(critical);
    out.field("content").octets(content.rest());
    out.field("span").span(&content);
}

fn basic_constraints(out: &mut Answer, found: Result<bool, DecodeError>) {
    let Some(ca) = readable(out, found) else {
        return;
    };
    out.field("basic-ca").yes(ca);
    put_behind!(out, "written", octets => encode_basic_constraints(out.alloc(), &mut octets, ca));
}

fn subject_key_identifier(out: &mut Answer, found: Result<KeyIdentifier, DecodeError>) {
    let Some(it) = readable(out, found) else {
        return;
    };
    key_identifier(out.field("subject-key-identifier"), Some(it));
    put_behind!(out, "written", octets =>
        encode_subject_key_identifier(out.alloc(), &mut octets, it));
}

fn authority_key_identifier(out: &mut Answer, found: Result<KeyIdentifier, DecodeError>) {
    let Some(it) = readable(out, found) else {
        return;
    };
    key_identifier(out.field("authority-key-identifier"), Some(it));
    put_behind!(out, "written", octets =>
        encode_authority_key_identifier(out.alloc(), &mut octets, it));
}

/// Returns the usage's name.
pub fn usage(it: KeyUsage) -> &'static str {
    match it {
        KeyUsage::Ca => "Ca",
        KeyUsage::Ee => "Ee",
    }
}

fn key_usage(out: &mut Answer, found: Result<KeyUsage, DecodeError>) {
    let Some(it) = readable(out, found) else {
        return;
    };
    out.field("key-usage").text(usage(it));
    put_behind!(out, "written", octets => encode_key_usage(out.alloc(), &mut octets, it));
    put_behind!(out, "written-bits", octets => it.encode(out.alloc(), &mut octets));
}

/// Appends the purposes as they are written, or `none`.
pub fn purposes(out: &mut Answer, it: Option<&ExtendedKeyUsage>) {
    match it {
        Some(it) => {
            put_behind!(out, octets => it.encode_ref(out.alloc(), &mut octets));
        }
        None => out.text("none"),
    }
}

impl Show for ExtendedKeyUsage {
    fn show(&self, out: &mut Answer) {
        purposes(out.field("extended-key-usage"), Some(self));
        put_behind!(out, "written", octets =>
            encode_extended_key_usage(out.alloc(), &mut octets, self));
    }
}

impl Twin for ExtendedKeyUsage {
    fn twin(&self, alloc: Global) -> Result<ExtendedKeyUsage, AllocError> {
        self.try_clone(alloc)
    }
}

fn crl_distribution_points(out: &mut Answer, found: Result<Rsync, DecodeError>) {
    let Some(it) = readable(out, found) else {
        return;
    };
    rsync(out.field("crl-uri"), Some(&it));
    put_behind!(out, "written", octets =>
        encode_crl_distribution_points(out.alloc(), &mut octets, &it));
    drop(it);
}

fn authority_information_access(out: &mut Answer, found: Result<Rsync, DecodeError>) {
    let Some(it) = readable(out, found) else {
        return;
    };
    rsync(out.field("ca-issuer"), Some(&it));
    put_behind!(out, "written", octets =>
        encode_authority_information_access(out.alloc(), &mut octets, &it));
    drop(it);
}

fn sia_fields(out: &mut Answer, it: &Sia) {
    rsync(out.field("ca-repository"), it.ca_repository());
    rsync(out.field("rpki-manifest"), it.rpki_manifest());
    rsync(out.field("signed-object"), it.signed_object());
    https(out.field("rpki-notify"), it.rpki_notify());
}

fn sia_written(out: &mut Answer, it: &Sia) {
    put_behind!(out, "written", octets => encode_subject_information_access(
        out.alloc(),
        &mut octets,
        it.ca_repository(),
        it.rpki_manifest(),
        it.signed_object(),
        it.rpki_notify(),
    ));
}

fn subject_information_access(out: &mut Answer, found: Result<Sia, DecodeError>) {
    let Some(it) = readable(out, found) else {
        return;
    };
    sia_fields(out, &it);
    sia_written(out, &it);
    drop(it);
}

fn certificate_policies(out: &mut Answer, found: Result<Overclaim, DecodeError>) {
    let Some(it) = readable(out, found) else {
        return;
    };
    out.field("overclaim").text(mode(it));
    put_behind!(out, "written", octets =>
        encode_certificate_policies(out.alloc(), &mut octets, it));
}

// Reads the usage by the call of the type.
fn usage_by_type(out: &mut Answer, cursor: &mut Cursor<'_>) {
    out.field("by-type");
    let found = ExtendedKeyUsage::take_from(out.alloc(), cursor);
    out.yes(found.is_ok());
    drop(found);
}

fn sia_by_type(out: &mut Answer, cursor: &mut Cursor<'_>) {
    out.field("by-type");
    let found = Sia::take_from(out.alloc(), cursor);
    out.yes(found.is_ok());
    drop(found);
}

// Each of these says whether the kind is one of its own.
fn of_plain_kind(words: &Words<'_>, cursor: &mut Cursor<'_>, out: &mut Answer) -> bool {
    match words.at(1) {
        "basic-constraints" => basic_constraints(out, take_basic_constraints(cursor)),
        "subject-key-identifier" => subject_key_identifier(
            out,
            take_subject_key_identifier(cursor),
        ),
        "authority-key-identifier" => authority_key_identifier(
            out,
            take_authority_key_identifier(cursor),
        ),
        "key-usage" => key_usage(out, take_key_usage(cursor)),
        "certificate-policies" => certificate_policies(out, take_certificate_policies(cursor)),
        _ => return false,
    }
    true
}

fn extended_key_usage(cursor: &mut Cursor<'_>, out: &mut Answer) {
    let mut again = cursor.fork();
    let found = take_extended_key_usage(out.alloc(), cursor);
    read(out, found);
    usage_by_type(out, &mut again);
}

fn subject_information(cursor: &mut Cursor<'_>, out: &mut Answer) {
    let mut again = cursor.fork();
    let found = take_subject_information_access(out.alloc(), cursor);
    subject_information_access(out, found);
    sia_by_type(out, &mut again);
}

fn of_kept_kind(words: &Words<'_>, cursor: &mut Cursor<'_>, out: &mut Answer) -> bool {
    let alloc = out.alloc();
    match words.at(1) {
        "extended-key-usage" => extended_key_usage(cursor, out),
        "crl-distribution-points" => {
            crl_distribution_points(out, take_crl_distribution_points(alloc, cursor));
        }
        "authority-information-access" => {
            authority_information_access(out, take_authority_information_access(alloc, cursor));
        }
        "subject-information-access" => subject_information(cursor, out),
        _ => return false,
    }
    true
}

fn content(words: &Words<'_>, out: &mut Answer) -> bool {
    let octets = words.asked(out, 2);
    let mut cursor = Cursor::new(&octets);
    let known = of_plain_kind(words, &mut cursor, out) || of_kept_kind(words, &mut cursor, out);
    if known {
        out.left(&cursor);
    }
    drop(octets);
    known
}

/// Appends the content of an extension of a kind, or else a whole extension.
pub fn extension(words: &Words<'_>, out: &mut Answer) {
    if !content(words, out) {
        let octets = words.bytes(out, 1);
        let mut cursor = Cursor::new(&octets);
        whole(out, take_extension(&mut cursor));
        out.left(&cursor);
        drop(octets);
    }
}
