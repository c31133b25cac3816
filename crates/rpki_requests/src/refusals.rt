//! Why a request is refused.
ghost use Rattle.std.specs.List.{flat_map};
ghost use Rattle.std.specs.Prelude.{◌≡◌, ◌++◌, [], Some, get_or, map, IfOk};
ghost use Rattle.std.specs.Fmt.{WritesOnOk};
ghost use Rattle.rpki_crl.specs.Revocation.{revocation_error_name};
ghost use Rattle.rpki_files.specs.FaultRules.{revocation_rule, rule_of};
ghost use Rattle.rpki_requests.specs.Refusals.{fault_text, given_at, given_text, issuing_text, list_text, next_text, path_text, refusal_text, rule_text, spaced, wanted_text, words_about};
ghost use Rattle.rpki_requests.specs.RequestWords.Views.{asked_fields};
ghost use Rattle.rpki_requests.specs.declared.refusals.Refusal.TheVariants.{Memory};

use crate::words::{Order, Setting};
use rpki_cert::ValidationError;
use rpki_crl::RevocationError;
use rpki_document::Characters;
use rpki_files::rules::{Rule, of_inspection, of_key, of_name, of_revocation, of_verification};
use rpki_issuing::wanted::{IssuingRule, WantedError};
use rpki_issuing::{IssuingError, ListError, NextListError};
use rpki_parts::PublicKeyFormat;
use rpki_verdicts::Fault;
use std::alloc::{AllocError, Global};
use std::fmt;

/// Why a request is refused.
#[derive(Drop)]
pub enum Refusal {
    /// The option's value isn't one that it accepts, or the option is given several values and
    /// accepts one.
    Value(Setting),
    /// The file of the subject's key isn't a SubjectPublicKeyInfo.
    NoKey,
    /// The RPKI doesn't use the certificate's key (RFC 7935 3, RFC 8608 3.1).
    UnusedKey(PublicKeyFormat),
    /// The issuer's path is rejected.
    Rejected(Fault),
    /// The last certificate of the issuer's path isn't a CA's.
    NoAuthority,
    /// The file at this index that is given as a CRL for the issuer's path isn't a CRL, or other
    /// bytes follow it.
    OtherCrl(usize),
    /// A CRL is requested without an issuer.
    NoIssuer,
    /// The previous CRL isn't one that the issuer's key signed.
    OtherList,
    /// The file at this index that is to be revoked isn't a certificate that names the issuer's
    /// key.
    OtherCertificate(usize),
    /// The subject would have no name.
    NoName,
    /// The number of files to be completed isn't two.
    Files,
    /// The first of the two files is neither a TBSCertificate nor a TBSCertList.
    NotToSign,
    /// The issuer's name in the first file isn't the subject of the certificate above, or, if
    /// there is none, its own subject.
    OtherName(usize),
    /// The certificate or CRL isn't ready to be signed, or isn't signed.
    Unfit(WantedError),
    /// Memory ran out.
    Memory,
}

impl From<AllocError> for Refusal {
    ghost from_gives = { λ _ e. e ≡ Memory };

    fn from(_error: AllocError) -> Refusal {
        Refusal::Memory
    }
}

// A fault by its name, and what it means.
#[derive(Drop)]
struct Reason {
    name: &'static str,
    rule: Rule,
}

impl fmt::Display for Reason {
    ghost output = { λ r. Some (fault_text r.name.now (rule_of r.rule)) };

    fn fmt<W: fmt::Write>(&self, f: &mut fmt::Formatter<W>) -> fmt::Result {
        let name = self.name;
        let says = self.rule.says;
        let section = self.rule.section;
        write!(f, "{name}: {says} ({section})")
    }
}

// Writes why fields aren't ready, or why a signature isn't theirs.
fn write_issuing<W: fmt::Write>(f: &mut fmt::Formatter<W>, error: &IssuingError) -> fmt::Result
    ensures { WritesOnOk W.write_str_gives f.old result (issuing_text error.now) f.new }
{
    match error {
        IssuingError::Unwritable => f.write_str("no certificate has these fields"),
        IssuingError::TooLong => f.write_str("the certificate would be too long"),
        IssuingError::Invalid(ValidationError::Inspection(fault)) => {
            let reason = Reason {
                name: fault.name(),
                rule: of_inspection(*fault),
            };
            write!(f, "{reason}")
        }
        IssuingError::Invalid(ValidationError::Verification(fault)) => {
            let reason = Reason {
                name: fault.name(),
                rule: of_verification(fault),
            };
            write!(f, "{reason}")
        }
        IssuingError::Memory => f.write_str("out of memory"),
    }
}

// Writes why no such list may follow the one before.
fn write_next<W: fmt::Write>(f: &mut fmt::Formatter<W>, error: &NextListError) -> fmt::Result
    ensures { WritesOnOk W.write_str_gives f.old result (next_text error.now) f.new }
{
    f.write_str(match error {
        NextListError::Number => "the CRL number isn't greater than that of the previous CRL",
        NextListError::LongNumber => "the CRL number has more than 20 bytes",
        NextListError::UpdateOrder => "the next update is before this one",
        NextListError::Memory => "out of memory",
    })
}

// Writes why a list isn't ready, or why a signature isn't its own.
fn write_list<W: fmt::Write>(f: &mut fmt::Formatter<W>, error: &ListError) -> fmt::Result
    ensures { WritesOnOk W.write_str_gives f.old result (list_text error.now) f.new }
{
    match error {
        ListError::Invalid(fault) => write_listed(f, fault),
        ListError::TooLong => f.write_str("the CRL would be too long"),
        ListError::Memory => f.write_str("out of memory"),
    }
}

// Writes which rule for whoever issues isn't kept.
fn write_rule<W: fmt::Write>(f: &mut fmt::Formatter<W>, rule: IssuingRule) -> fmt::Result
    ensures { WritesOnOk W.write_str_gives f.old result (rule_text rule) f.new }
{
    f.write_str(match rule {
        IssuingRule::ZeroSerial => {
            "the serial number is 0, expected a positive one (RFC 6487 4.2)"
        }
        IssuingRule::EarlyValidity => {
            "the validity starts before 1950, expected 1950 or later (RFC 5280 4.1.2.5)"
        }
        IssuingRule::IssuerKey => {
            "the CA has the key of a CA above it, expected a key of its own (own rule)"
        }
    })
}

// Writes why the lists that are given don't leave the certificate unrevoked.
fn write_listed<W: fmt::Write>(f: &mut fmt::Formatter<W>, error: &RevocationError) -> fmt::Result
    ensures { WritesOnOk W.write_str_gives f.old result
        (fault_text (revocation_error_name error.now) (revocation_rule error.now)) f.new }
{
    let reason = Reason {
        name: error.name(),
        rule: of_revocation(error),
    };
    write!(f, "{reason}")
}

// Writes why what is wanted isn't ready to be signed, or wasn't signed.
fn write_wanted<W: fmt::Write>(f: &mut fmt::Formatter<W>, error: &WantedError) -> fmt::Result
    ensures { WritesOnOk W.write_str_gives f.old result (wanted_text error.now) f.new }
{
    match error {
        WantedError::NoRole => {
            f.write_str("a trust anchor has no issuer, and other certificates have one")
        }
        WantedError::Broken(rule) => write_rule(f, *rule),
        WantedError::Listed(error) => write_listed(f, error),
        WantedError::OtherOctets => {
            f.write_str("the first file isn't what rpki prepare writes of its fields")
        }
        WantedError::Unready(error) | WantedError::Unsigned(error) => write_issuing(f, error),
        WantedError::NoList(error) => write_next(f, error),
        WantedError::UnreadyList(error) | WantedError::UnsignedList(error) => write_list(f, error),
        WantedError::Memory => f.write_str("out of memory"),
    }
}

/// Returns the words of a request that a refusal is about: the values of an option, or the files.
pub fn words_about<'a>(
    alloc: Global,
    order: &Order<'a>,
    refusal: &Refusal,
) -> Result<Vec<&'a [u8]>, AllocError>
    ensures { IfOk result (λ words. map (λ word. word.now) words.items
        ≡ words_about (asked_fields order.now) refusal.now) }
{
    match refusal {
        Refusal::Value(setting) => order.values_of(alloc, *setting),
        Refusal::NoKey => order.values_of(alloc, Setting::Key),
        Refusal::Rejected(_) | Refusal::NoAuthority => order.values_of(alloc, Setting::Issuer),
        Refusal::OtherCrl(_) => order.values_of(alloc, Setting::Crl),
        Refusal::OtherList => order.values_of(alloc, Setting::Previous),
        Refusal::OtherCertificate(_) => order.values_of(alloc, Setting::Revoke),
        Refusal::Files | Refusal::NotToSign => order.files.as_slice().to_vec(alloc),
        Refusal::UnusedKey(_)
        | Refusal::NoIssuer
        | Refusal::NoName
        | Refusal::OtherName(_)
        | Refusal::Unfit(_)
        | Refusal::Memory => Ok(Vec::new(alloc)),
    }
}

/// Why a request gives nothing, with the words that this is about.
#[derive(Drop)]
pub struct ToldRefusal<'a> {
    pub refusal: &'a Refusal,
    pub words: &'a [&'a [u8]],
}

// The word at a place; none where there is no such place.
fn word_at<'a>(words: &[&'a [u8]], place: usize) -> &'a [u8]
    ensures { result.now ≡ get_or (map (λ word. word.now) words.now) place [] }
{
    match words.get(place) {
        Some(word) => *word,
        None => b"".as_slice(),
    }
}

// Writes a word behind a space.
fn write_spaced<W: fmt::Write>(f: &mut fmt::Formatter<W>, word: &[u8]) -> fmt::Result
    ensures { WritesOnOk W.write_str_gives f.old result (spaced word.now) f.new }
{
    let word = Characters(word);
    write!(f, " {word}")
}

// Writes an option and these words.
fn write_given<W: fmt::Write>(
    f: &mut fmt::Formatter<W>,
    setting: Setting,
    words: &[&[u8]],
) -> fmt::Result
    ensures { WritesOnOk W.write_str_gives f.old result
        (given_text setting (map (λ word. word.now) words.now)) f.new }
{
    f.write_str(setting.name())?;
    write_words(f, words)
}

// Writes words, each behind a space.
fn write_words<W: fmt::Write>(f: &mut fmt::Formatter<W>, words: &[&[u8]]) -> fmt::Result
    ensures { WritesOnOk W.write_str_gives f.old result
        (flat_map spaced (map (λ word. word.now) words.now)) f.new }
{
    for word in words {
        write_spaced(f, *word)?;
    }
    Ok(())
}

// Writes an option and the word at a place.
fn write_given_at<W: fmt::Write>(
    f: &mut fmt::Formatter<W>,
    setting: Setting,
    words: &[&[u8]],
    place: usize,
) -> fmt::Result
    ensures { WritesOnOk W.write_str_gives f.old result
        (given_at setting (map (λ word. word.now) words.now) place) f.new }
{
    f.write_str(setting.name())?;
    write_spaced(f, word_at(words, place))
}

// Writes which file of the issuer's path is rejected, and why.
fn write_fault<W: fmt::Write>(
    f: &mut fmt::Formatter<W>,
    words: &[&[u8]],
    fault: &Fault,
) -> fmt::Result
    ensures { WritesOnOk W.write_str_gives f.old result
        (path_text (map (λ word. word.now) words.now) fault.now) f.new }
{
    let step = fault.step;
    let reason = Reason {
        name: fault.name,
        rule: fault.rule,
    };
    write_given_at(f, Setting::Issuer, words, fault.index)?;
    write!(f, ": rejected at {step}, {reason}")
}

// Writes that values aren't of the option, and which it takes.
fn write_wrong_value<W: fmt::Write>(
    f: &mut fmt::Formatter<W>,
    setting: Setting,
    words: &[&[u8]],
) -> fmt::Result
    ensures { WritesOnOk W.write_str_gives f.old result
        (refusal_text (map (λ word. word.now) words.now) (Refusal.Value setting)) f.new }
{
    let kind = setting.value_kind();
    let expected = setting.expected_value();
    write_given(f, setting, words)?;
    write!(f, ": not {kind}; expected {expected}")
}

// Writes an option, these words, and what is said of them.
fn write_of_all<W: fmt::Write>(
    f: &mut fmt::Formatter<W>,
    setting: Setting,
    words: &[&[u8]],
    said: &str,
) -> fmt::Result
    ensures { WritesOnOk W.write_str_gives f.old result
        (given_text setting (map (λ word. word.now) words.now) ++ said.now) f.new }
{
    write_given(f, setting, words)?;
    f.write_str(said)
}

// Writes an option, the word at a place, and what is said of it.
fn write_of_one<W: fmt::Write>(
    f: &mut fmt::Formatter<W>,
    setting: Setting,
    words: &[&[u8]],
    place: usize,
    said: &str,
) -> fmt::Result
    ensures { WritesOnOk W.write_str_gives f.old result
        (given_at setting (map (λ word. word.now) words.now) place ++ said.now) f.new }
{
    write_given_at(f, setting, words, place)?;
    f.write_str(said)
}

// Writes that the first file isn't what is to be signed.
fn write_not_to_sign<W: fmt::Write>(f: &mut fmt::Formatter<W>, words: &[&[u8]]) -> fmt::Result
    ensures { WritesOnOk W.write_str_gives f.old result
        (refusal_text (map (λ word. word.now) words.now) Refusal.NotToSign) f.new }
{
    let word = Characters(word_at(words, 0));
    write!(
        f,
        "{word}: not a TBSCertificate or TBSCertList; expected what `rpki prepare` writes"
    )
}

impl fmt::Display for ToldRefusal<'_> {
    ghost output = { λ told. Some (refusal_text (map (λ word. word.now) told.words.now) told.refusal.now) };

    fn fmt<W: fmt::Write>(&self, f: &mut fmt::Formatter<W>) -> fmt::Result {
        let words = self.words;
        match self.refusal {
            Refusal::Value(setting) => write_wrong_value(f, *setting, words),
            Refusal::NoKey => write_of_all(
                f,
                Setting::Key,
                words,
                ": not a public key; expected a SubjectPublicKeyInfo, in DER or PEM",
            ),
            Refusal::UnusedKey(format) => {
                let reason = Reason {
                    name: "BadKey",
                    rule: of_key(*format),
                };
                write!(f, "{reason}")
            }
            Refusal::Rejected(fault) => write_fault(f, words, fault),
            Refusal::NoAuthority => write_of_all(
                f,
                Setting::Issuer,
                words,
                ": the last certificate is not a CA's; expected a CA's",
            ),
            Refusal::OtherCrl(place) => write_of_one(
                f,
                Setting::Crl,
                words,
                *place,
                ": not a CRL, or bytes follow it; expected one CRL in each file",
            ),
            Refusal::NoIssuer => {
                f.write_str("--issuer: missing; expected the path of the CRL's issuer")
            }
            Refusal::OtherList => write_of_all(
                f,
                Setting::Previous,
                words,
                ": not a CRL that the issuer signed; expected the issuer's last one",
            ),
            Refusal::OtherCertificate(place) => write_of_one(
                f,
                Setting::Revoke,
                words,
                *place,
                ": not a certificate of the issuer; expected one that names the issuer's key",
            ),
            Refusal::NoName => f.write_str("the subject would have no name"),
            Refusal::Files => f.write_str("wrong number of files; expected PREPARED and SIGNATURE"),
            Refusal::NotToSign => write_not_to_sign(f, words),
            Refusal::OtherName(place) => {
                let reason = Reason {
                    name: "OtherName",
                    rule: of_name(*place),
                };
                write!(f, "{reason}")
            }
            Refusal::Unfit(error) => write_wanted(f, error),
            Refusal::Memory => f.write_str("out of memory"),
        }
    }
}
