//! The words that request a certificate or a CRL to be prepared or completed.
ghost use Rattle.std.specs.Prelude.{◌≡◌, ◌≢◌, ◌↔◌, ℕ, List, [], ◌∷◌, ◌++◌, codes, count_by, filter, Contains, length, map, fold, IfErr, IfNone, IfOk, IfSome, IsTrue, MatchOption, OnOk, Some};
ghost use Rattle.std.specs.Fmt.{WritesOnOk};
ghost use Rattle.rpki_text.specs.CommandLines.Views.{word_octets};
ghost use Rattle.rpki_text.specs.WordParts.{AddsPart, AddsParts, AreInOrder, BeginsNoPart, IsFirstWrong, Joins};
ghost use Rattle.rpki_requests.specs.RequestMisuses.{HasWrongCount, IsRequestMisuse, IsNoErrand, IsErrandReason, IsWrongCount, IsWrongRequestStart, request_misuse_text};
ghost use Rattle.rpki_requests.specs.RequestWords.{AskedFields, AsksHelp, BeginsRequest, IsRequestLine, IsRequestPart, Meets, RequestPart, SuitsErrand, demand, errand_words, file, files_wanted, is_same, of_authorities, of_certificates, of_issued, of_lists, only_errand, option, asked_option_name, switch, switch_name, takes, given_values, with_request_part};
ghost use Rattle.rpki_requests.specs.RequestWords.Views.{asked_fields, given_fields};

use rpki_document::Characters;
use rpki_text::command_line::parts::{around_dashes, is, is_option, place_of_equals};
use std::alloc::{AllocError, Global};
use std::fmt;

/// The task of a request: to prepare a certificate of a kind or a CRL for signing, or to complete
/// what was prepared.
#[derive(Clone, Copy, PartialEq, Eq)]
pub enum Errand {
    /// A CA's certificate: `prepare ca`.
    Authority,
    /// An end entity's, whose signed object is elsewhere: `prepare ee`.
    EndEntity,
    /// An end entity's without a signed object: `prepare detached`.
    Detached,
    /// A router's: `prepare router`.
    Router,
    /// A trust anchor's: `prepare anchor`.
    Anchor,
    /// A CRL: `prepare list`.
    RevocationList,
    /// What was prepared, with its signature: `complete`.
    Completion,
}

/// The name of an option that takes a value, as the next word or after `=`.
#[derive(Clone, Copy, PartialEq, Eq)]
pub enum Setting {
    /// A file of the issuer's path, from the trust anchor down: `--issuer`.
    Issuer,
    /// The file of the subject's key: `--key`.
    Key,
    /// The serial number of the requested certificate, or of a certificate to be revoked:
    /// `--serial`.
    Serial,
    /// The start of the validity: `--from`.
    From,
    /// The end of the validity: `--until`.
    Until,
    /// IPv4 addresses: `--ipv4`.
    Ipv4,
    /// IPv6 addresses: `--ipv6`.
    Ipv6,
    /// AS numbers: `--as`.
    AsNumbers,
    /// The URI of the subject's repository: `--repository`.
    Repository,
    /// The URI of the subject's manifest: `--manifest`.
    Manifest,
    /// The URI of the subject's notification file (RFC 8182): `--notify`.
    Notify,
    /// The URI of the signed object: `--object`.
    Object,
    /// The URI of the issuer's certificate: `--issuer-uri`.
    IssuerUri,
    /// The URI of the issuer's CRL: `--crl-uri`.
    CrlUri,
    /// The file of a CRL that the issuer's path is validated with: `--crl`.
    Crl,
    /// The file of the issuer's previous CRL: `--previous`.
    Previous,
    /// The CRL number: `--number`.
    Number,
    /// The file of a certificate to be revoked: `--revoke`.
    Revoke,
    /// The time by which the next CRL is due: `--next-update`.
    NextUpdate,
    /// The time at which the issuer's path is validated and a CRL is made: `--at`.
    At,
    /// The file for the result: `--out`.
    Out,
}

/// An option that takes no value.
#[derive(Clone, Copy, PartialEq, Eq)]
pub enum Switch {
    /// Drop resources that the issuer doesn't hold (RFC 8360): `--trim`.
    Trim,
    /// Accept more string types in names: `--lenient`.
    Lenient,
    /// Write the completed certificate or CRL in PEM: `--pem`.
    Pem,
    /// Overwrite an existing file: `--force`.
    Force,
}

/// How often an option may be given for an errand.
#[derive(Clone, Copy, PartialEq, Eq)]
pub enum Demand {
    Never,
    AtMostOnce,
    Once,
    AnyNumber,
    AtLeastOnce,
}

/// An option with its value.
#[derive(Clone, Copy)]
pub struct Given<'a> {
    pub setting: Setting,
    pub value: &'a [u8],
}

/// A request. Options and files are in the order of their words.
#[derive(Drop)]
pub struct Order<'a> {
    pub errand: Errand,
    pub given: Vec<Given<'a>>,
    pub files: Vec<&'a [u8]>,
    /// Whether resources that the issuer doesn't hold are dropped (RFC 8360).
    pub trims: bool,
    /// Whether names may only have the string types of the profile.
    pub strict: bool,
    /// Whether the completed certificate or CRL is written in PEM.
    pub is_pem: bool,
    /// Whether an existing file is overwritten.
    pub overwrites: bool,
}

/// Why the words aren't a request.
#[derive(Drop)]
pub enum Misuse<'a> {
    /// There is no word, or no word after `prepare`.
    NoErrand,
    /// The word names nothing that is to be prepared.
    UnknownErrand(&'a [u8]),
    /// There is no such option.
    Unknown(&'a [u8]),
    /// The option is the last word, without its value.
    NoValue(Setting),
    /// The errand doesn't accept this option.
    Unsuited(Setting),
    /// The errand doesn't accept this option, which takes no value.
    UnsuitedSwitch(Switch),
    /// The errand requires this option.
    Missing(Setting),
    /// The option is given more than once, and may be given once.
    Repeated(Setting),
    /// There are too few files, or too many.
    Files,
    Memory,
}

impl Setting {
    /// Returns the option's name.
    pub fn name(self) -> &'static str
        ensures { result.now ≡ asked_option_name self }
    {
        match self {
            Setting::Issuer => "--issuer",
            Setting::Key => "--key",
            Setting::Serial => "--serial",
            Setting::From => "--from",
            Setting::Until => "--until",
            Setting::Ipv4 => "--ipv4",
            Setting::Ipv6 => "--ipv6",
            Setting::AsNumbers => "--as",
            Setting::Repository => "--repository",
            Setting::Manifest => "--manifest",
            Setting::Notify => "--notify",
            Setting::Object => "--object",
            Setting::IssuerUri => "--issuer-uri",
            Setting::CrlUri => "--crl-uri",
            Setting::Crl => "--crl",
            Setting::Previous => "--previous",
            Setting::Number => "--number",
            Setting::Revoke => "--revoke",
            Setting::NextUpdate => "--next-update",
            Setting::At => "--at",
            Setting::Out => "--out",
        }
    }
}

impl Switch {
    /// Returns the option's name.
    pub fn name(self) -> &'static str
        ensures { result.now ≡ switch_name self }
    {
        match self {
            Switch::Trim => "--trim",
            Switch::Lenient => "--lenient",
            Switch::Pem => "--pem",
            Switch::Force => "--force",
        }
    }
}

/// What can be prepared.
const KINDS: &str = "ca, ee, detached, router, anchor or list";

impl fmt::Display for Misuse<'_> {
    ghost output = { λ misuse. Some (request_misuse_text misuse) };

    fn fmt<W: fmt::Write>(&self, f: &mut fmt::Formatter<W>) -> fmt::Result {
        match self {
            Misuse::NoErrand => {
                let kinds = KINDS;
                write!(f, "nothing to prepare; expected {kinds}")
            }
            Misuse::UnknownErrand(word) => {
                let word = Characters(*word);
                let kinds = KINDS;
                write!(f, "{word}: unknown kind; expected {kinds}")
            }
            Misuse::Unknown(word) => {
                let word = Characters(*word);
                write!(f, "{word}: not an option of this command")
            }
            Misuse::NoValue(setting) => {
                let option = setting.name();
                let expected = setting.expected_value();
                write!(f, "{option}: no value; expected {expected}")
            }
            Misuse::Unsuited(setting) => {
                let option = setting.name();
                write!(f, "{option}: not an option of this command")
            }
            Misuse::UnsuitedSwitch(switch) => {
                let option = switch.name();
                write!(f, "{option}: not an option of this command")
            }
            Misuse::Missing(setting) => {
                let option = setting.name();
                let expected = setting.expected_value();
                write!(f, "{option}: missing; expected {expected}")
            }
            Misuse::Repeated(setting) => {
                let option = setting.name();
                write!(f, "{option}: given more than once; expected once")
            }
            Misuse::Files => {
                f.write_str(
                    "wrong number of files; expected PREPARED and SIGNATURE for complete, none for prepare",
                )
            }
            Misuse::Memory => f.write_str("out of memory"),
        }
    }
}

// The options that take a value.
const SETTINGS: [Setting; 21] = [
    Setting::Issuer,
    Setting::Key,
    Setting::Serial,
    Setting::From,
    Setting::Until,
    Setting::Ipv4,
    Setting::Ipv6,
    Setting::AsNumbers,
    Setting::Repository,
    Setting::Manifest,
    Setting::Notify,
    Setting::Object,
    Setting::IssuerUri,
    Setting::CrlUri,
    Setting::Crl,
    Setting::Previous,
    Setting::Number,
    Setting::Revoke,
    Setting::NextUpdate,
    Setting::At,
    Setting::Out,
];

// What is to be prepared, by the word behind `prepare`.
fn prepared_of(word: &[u8]) -> Option<Errand>
    ensures named { IfSome result
        (λ errand. errand_words errand ≡ codes "prepare" ∷ word.now ∷ []) }
    ensures unknown { IfNone result
        ((errand : Errand) → errand_words errand ≡ codes "prepare" ∷ word.now ∷ [] → ⊥) }
{
    if is(word, "ca") {
        return Some(Errand::Authority);
    }
    if is(word, "ee") {
        return Some(Errand::EndEntity);
    }
    if is(word, "detached") {
        return Some(Errand::Detached);
    }
    if is(word, "router") {
        return Some(Errand::Router);
    }
    if is(word, "anchor") {
        return Some(Errand::Anchor);
    }
    if is(word, "list") {
        return Some(Errand::RevocationList);
    }
    None
}

// What is asked, and the words behind its name.
fn errand_of(words: &[Vec<u8>]) -> Result<(Errand, &[Vec<u8>]), Misuse<'_>>
    ensures named { IfOk result
        (λ r. word_octets words.now ≡ errand_words r.0 ++ word_octets r.1.now) }
    ensures unknown { IfErr result (λ _. (errand : Errand) (rest : List (List ℕ))
        → word_octets words.now ≡ errand_words errand ++ rest → ⊥) }
    ensures told { IfErr result (λ e. IsNoErrand e (word_octets words.now)) }
{
    let Some((first, behind)) = words.split_first() else {
        return Err(Misuse::NoErrand);
    };
    if is(first.as_slice(), "complete") {
        return Ok((Errand::Completion, behind));
    }
    if !is(first.as_slice(), "prepare") {
        return Err(Misuse::UnknownErrand(first.as_slice()));
    }
    let Some((second, rest)) = behind.split_first() else {
        return Err(Misuse::NoErrand);
    };
    match prepared_of(second.as_slice()) {
        Some(errand) => Ok((errand, rest)),
        None => Err(Misuse::UnknownErrand(second.as_slice())),
    }
}

// The option that takes a value and has this name.
fn setting_of(word: &[u8]) -> Option<Setting>
    ensures named { IfSome result (λ setting. word.now ≡ asked_option_name setting) }
    ensures unknown { IfNone result ((setting : Setting) → word.now ≡ asked_option_name setting → ⊥) }
{
    for setting in SETTINGS {
        if is(word, setting.name()) {
            return Some(setting);
        }
    }
    None
}

// The option and its value that a word gives with `=` between them.
fn joined<'a>(word: &'a [u8]) -> Option<Given<'a>>
    ensures joined { IfSome result (λ g. Joins (asked_option_name g.setting) g.value.now word.now) }
    ensures unknown { IfNone result
        ((setting : Setting) (value : List ℕ) → Joins (asked_option_name setting) value word.now → ⊥) }
{
    let Some(place) = place_of_equals(word) else {
        return None;
    };
    match setting_of(&word[..place]) {
        Some(setting) => Some(Given {
            setting,
            value: &word[place + 1..],
        }),
        None => None,
    }
}

// The option that takes no value and has this name.
fn switch_of(word: &[u8]) -> Option<Switch>
    ensures named { IfSome result (λ s. word.now ≡ switch_name s) }
    ensures unknown { IfNone result ((s : Switch) → word.now ≡ switch_name s → ⊥) }
{
    if is(word, "--trim") {
        return Some(Switch::Trim);
    }
    if is(word, "--lenient") {
        return Some(Switch::Lenient);
    }
    if is(word, "--pem") {
        return Some(Switch::Pem);
    }
    if is(word, "--force") {
        return Some(Switch::Force);
    }
    None
}

// An errand, and nothing more.
fn new_asked<'a>(alloc: Global, errand: Errand) -> Order<'a>
    ensures { asked_fields result ≡ only_errand errand }
{
    Order {
        errand,
        given: Vec::new(alloc),
        files: Vec::new(alloc),
        trims: false,
        strict: true,
        is_pem: false,
        overwrites: false,
    }
}

// Adds an option with its value.
fn add_given<'a>(asked: &mut Order<'a>, given: Given<'a>) -> Result<(), Misuse<'a>>
    ensures added { OnOk result (asked_fields asked.new
        ≡ with_request_part (asked_fields asked.old) (option (given_fields given.entry))) }
    ensures memory { IfErr result (λ e. e ≡ Misuse.Memory) }
{
    match asked.given.push(given) {
        Ok(()) => Ok(()),
        Err(_) => Err(Misuse::Memory),
    }
}

// Adds a file.
fn add_file<'a>(asked: &mut Order<'a>, name: &'a [u8]) -> Result<(), Misuse<'a>>
    ensures added { OnOk result (asked_fields asked.new
        ≡ with_request_part (asked_fields asked.old) (file name.now)) }
    ensures memory { IfErr result (λ e. e ≡ Misuse.Memory) }
{
    match asked.files.push(name) {
        Ok(()) => Ok(()),
        Err(_) => Err(Misuse::Memory),
    }
}

// Adds what an option without a value says.
fn add_switch(asked: &mut Order<'_>, given: Switch)
    ensures { asked_fields asked.new ≡ with_request_part (asked_fields asked.old) (switch given) }
{
    match given {
        Switch::Trim => asked.trims = true,
        Switch::Lenient => asked.strict = false,
        Switch::Pem => asked.is_pem = true,
        Switch::Force => asked.overwrites = true,
    }
}

// Adds the file or the option that a word is by itself.
fn add_word<'a>(asked: &mut Order<'a>, word: &'a [u8]) -> Result<(), Misuse<'a>>
    requires { (setting : Setting) → word.now ≡ asked_option_name setting → ⊥ }
    ensures added { let adds = AddsPart IsRequestPart with_request_part (word.now ∷ []) in
        OnOk result (adds (asked_fields asked.old) (asked_fields asked.new)) }
    ensures unknown { IfErr result
        (λ e. e ≢ Misuse.Memory → BeginsNoPart IsRequestPart (word.now ∷ [])) }
    ensures told { IfErr result (λ e. e ≢ Misuse.Memory
        → (rest : List (List ℕ)) → IsWrongRequestStart e (word.now ∷ rest)) }
{
    if !is_option(word) {
        return add_file(asked, word);
    }
    if let Some(given) = joined(word) {
        return add_given(asked, given);
    }
    match switch_of(word) {
        Some(given) => {
            add_switch(asked, given);
            Ok(())
        }
        None => Err(Misuse::Unknown(word)),
    }
}

// Adds what the words before `--` say.
fn add_words<'a>(asked: &mut Order<'a>, words: &'a [Vec<u8>]) -> Result<(), Misuse<'a>>
    ensures added { let adds = AddsParts IsRequestPart with_request_part (word_octets words.now) in
        OnOk result (adds (asked_fields asked.old) (asked_fields asked.new)) }
    ensures unknown { IfErr result (λ e. e ≢ Misuse.Memory → (parts : List RequestPart)
        → AreInOrder IsRequestPart parts (word_octets words.now) → ⊥) }
    ensures told { IfErr result
        (λ e. e ≢ Misuse.Memory → IsFirstWrong IsRequestPart IsWrongRequestStart e (word_octets words.now)) }
{
    // The option whose value is the next word.
    let mut awaiting = None;
    for word in words {
        let word = word.as_slice();
        if let Some(setting) = awaiting {
            let value = word;
            add_given(asked, Given { setting, value })?;
            awaiting = None;
        } else if let Some(setting) = setting_of(word) {
            awaiting = Some(setting);
        } else {
            add_word(asked, word)?;
        }
    }
    match awaiting {
        Some(setting) => Err(Misuse::NoValue(setting)),
        None => Ok(()),
    }
}

// Adds the files that the words behind `--` are.
fn add_files<'a>(asked: &mut Order<'a>, words: &'a [Vec<u8>]) -> Result<(), Misuse<'a>>
    ensures added { OnOk result (asked_fields asked.new
        ≡ fold with_request_part (asked_fields asked.old) (map file (word_octets words.now))) }
    ensures memory { IfErr result (λ e. e ≡ Misuse.Memory) }
{
    for word in words {
        add_file(asked, word.as_slice())?;
    }
    Ok(())
}

// How often certificates take an option that nothing else takes.
fn of_certificates(often: Demand, errand: Errand) -> Demand
    ensures { result ≡ of_certificates often errand }
{
    match errand {
        Errand::RevocationList | Errand::Completion => Demand::Never,
        _ => often,
    }
}

// How often certificates below an issuer take an option that nothing else takes.
fn of_issued(often: Demand, errand: Errand) -> Demand
    ensures { result ≡ of_issued often errand }
{
    match errand {
        Errand::Anchor => Demand::Never,
        _ => of_certificates(often, errand),
    }
}

// How often CAs and trust anchors take an option that nothing else takes.
fn of_authorities(often: Demand, errand: Errand) -> Demand
    ensures { result ≡ of_authorities often errand }
{
    match errand {
        Errand::Authority | Errand::Anchor => often,
        _ => Demand::Never,
    }
}

// How often revocation lists take an option that nothing else takes.
fn of_lists(often: Demand, errand: Errand) -> Demand
    ensures { result ≡ of_lists often errand }
{
    match errand {
        Errand::RevocationList => often,
        _ => Demand::Never,
    }
}

/// Returns how often an option may be given for an errand.
pub fn demand_of(setting: Setting, errand: Errand) -> Demand
    ensures { result ≡ demand setting errand }
{
    match setting {
        Setting::Issuer => match errand {
            Errand::Anchor => Demand::Never,
            Errand::Completion => Demand::AnyNumber,
            _ => Demand::AtLeastOnce,
        },
        Setting::Key | Setting::From | Setting::Until => of_certificates(Demand::Once, errand),
        Setting::Serial => match errand {
            Errand::RevocationList => Demand::AnyNumber,
            _ => of_certificates(Demand::Once, errand),
        },
        Setting::Ipv4 | Setting::Ipv6 => match errand {
            Errand::Router => Demand::Never,
            _ => of_certificates(Demand::AnyNumber, errand),
        },
        Setting::AsNumbers => match errand {
            Errand::Router => Demand::AtLeastOnce,
            _ => of_certificates(Demand::AnyNumber, errand),
        },
        Setting::Repository | Setting::Manifest => of_authorities(Demand::Once, errand),
        Setting::Notify => of_authorities(Demand::AtMostOnce, errand),
        Setting::Object => match errand {
            Errand::EndEntity => Demand::Once,
            _ => Demand::Never,
        },
        Setting::IssuerUri | Setting::CrlUri => of_issued(Demand::Once, errand),
        Setting::Crl => match errand {
            Errand::Anchor => Demand::Never,
            _ => Demand::AnyNumber,
        },
        Setting::Previous | Setting::Number => of_lists(Demand::AtMostOnce, errand),
        Setting::Revoke => of_lists(Demand::AnyNumber, errand),
        Setting::NextUpdate => of_lists(Demand::Once, errand),
        Setting::At | Setting::Out => Demand::AtMostOnce,
    }
}

// Whether an errand takes an option without a value.
fn takes(given: Switch, errand: Errand) -> bool
    ensures { result ≡ takes given errand }
{
    match given {
        Switch::Trim => !matches!(errand, Errand::RevocationList | Errand::Completion),
        Switch::Lenient | Switch::Force => true,
        Switch::Pem => matches!(errand, Errand::Completion),
    }
}

// Whether two options are the same.
fn is_same(a: Setting, b: Setting) -> bool
    ensures { result ≡ is_same a b }
{
    a.name() == b.name()
}

// How often an option is given.
fn times(given: &[Given<'_>], setting: Setting) -> usize
    ensures { result ≡ count_by (λ g. is_same g.setting setting) given.now }
{
    given.iter().filter(|g| is_same(g.setting, setting)).count()
}

// The values that an option is given.
fn values_among<'a>(
    alloc: Global,
    given: &[Given<'a>],
    setting: Setting,
) -> Result<Vec<&'a [u8]>, AllocError>
    ensures { IfOk result (λ v. v.items
        ≡ map (λ g. g.value) (filter (λ g. is_same g.setting setting) given.now)) }
{
    given
        .iter()
        .filter(|g| is_same(g.setting, setting))
        .map(|g| g.value)
        .collect(alloc)
}

impl<'a> Order<'a> {
    /// Returns the values of an option, in the order of the words.
    ///
    /// # Errors
    ///
    /// Returns an error only if memory runs out.
    pub fn values_of(&self, alloc: Global, setting: Setting) -> Result<Vec<&'a [u8]>, AllocError>
        ensures { IfOk result (λ v. map (λ value. value.now) v.items
            ≡ given_values setting (asked_fields self.now).given) }
    {
        values_among(alloc, &self.given, setting)
    }
}

// What is wrong of an option that stands so often, if anything is.
fn misuse_by(often: Demand, times: usize, setting: Setting) -> Option<Misuse<'static>>
    ensures told { IfSome result (λ e. IsWrongCount e setting often times) }
    ensures wrong { MatchOption result (Meets often times) (λ _. Meets often times → ⊥) }
{
    let is_missing = times == 0;
    let is_repeated = times > 1;
    match often {
        Demand::Never if !is_missing => Some(Misuse::Unsuited(setting)),
        Demand::AtMostOnce if is_repeated => Some(Misuse::Repeated(setting)),
        Demand::Once if is_missing => Some(Misuse::Missing(setting)),
        Demand::Once if is_repeated => Some(Misuse::Repeated(setting)),
        Demand::AtLeastOnce if is_missing => Some(Misuse::Missing(setting)),
        _ => None,
    }
}

// What is wrong of the options that take a value, if anything is.
fn misuse_of_settings(asked: &Order<'_>) -> Option<Misuse<'static>>
    ensures told { IfSome result (λ e. HasWrongCount e (asked_fields asked.now)) }
    ensures wrong { let a = asked_fields asked.now in MatchOption result
        ((setting : Setting) → Meets (demand setting a.errand) (length (given_values setting a.given)))
        (λ _. ((setting : Setting) → Meets (demand setting a.errand)
        (length (given_values setting a.given))) → ⊥) }
{
    for setting in SETTINGS {
        let often = demand_of(setting, asked.errand);
        if let Some(misuse) = misuse_by(often, times(&asked.given, setting), setting) {
            return Some(misuse);
        }
    }
    None
}

// What doesn't suit the errand, if anything doesn't.
#[tactic(auto, using(crate::proofs::WrongRequests::reason_of))]
fn misuse_of(asked: &Order<'_>) -> Option<Misuse<'static>>
    ensures told { IfSome result (λ e. IsErrandReason e (asked_fields asked.now)) }
    ensures wrong { MatchOption result (SuitsErrand (asked_fields asked.now))
        (λ _. SuitsErrand (asked_fields asked.now) → ⊥) }
{
    if let Some(misuse) = misuse_of_settings(asked) {
        return Some(misuse);
    }
    if asked.trims && !takes(Switch::Trim, asked.errand) {
        return Some(Misuse::UnsuitedSwitch(Switch::Trim));
    }
    if asked.is_pem && !takes(Switch::Pem, asked.errand) {
        return Some(Misuse::UnsuitedSwitch(Switch::Pem));
    }
    if asked.files.len() != files_wanted(asked.errand) {
        return Some(Misuse::Files);
    }
    None
}

// How many files an errand wants.
fn files_wanted(errand: Errand) -> usize
    ensures { result ≡ files_wanted errand }
{
    match errand {
        Errand::Completion => 2,
        _ => 0,
    }
}

/// Returns whether the words start as a request does, and not as another command line.
pub fn is_request(words: &[Vec<u8>]) -> bool
    ensures { IsTrue result ↔ BeginsRequest (word_octets words.now) }
{
    let Some((first, _rest)) = words.split_first() else {
        return false;
    };
    let word = first.as_slice();
    is(word, "prepare") || is(word, "complete")
}

// Whether one of the words is this text.
fn has_word(words: &[Vec<u8>], text: &str) -> bool
    ensures { IsTrue result ↔ Contains (word_octets words.now) text.now }
{
    for word in words {
        if is(word.as_slice(), text) {
            return true;
        }
    }
    false
}

/// Returns whether the words ask for help: `--help` or `-h`.
pub fn asks_help(words: &[Vec<u8>]) -> bool
    ensures { IsTrue result ↔ AsksHelp (word_octets words.now) }
{
    let (before, _behind) = around_dashes(words);
    has_word(before, "--help") || has_word(before, "-h")
}

/// Reads the words after the program's name.
///
/// # Errors
///
/// Returns what is wrong with the words, and `Memory`.
pub fn read_request<'a>(alloc: Global, words: &'a [Vec<u8>]) -> Result<Order<'a>, Misuse<'a>>
    ensures request_line { IfOk result
        (λ asked. IsRequestLine (asked_fields asked) (word_octets words.now)) }
    ensures nothing_else { IfOk result (λ asked. (other : AskedFields)
        → IsRequestLine other (word_octets words.now) → other ≡ asked_fields asked) }
    ensures rejected { IfErr result (λ e. e ≢ Misuse.Memory → (asked : AskedFields)
        → IsRequestLine asked (word_octets words.now) → ⊥) }
    ensures told { IfErr result (λ e. e ≢ Misuse.Memory → IsRequestMisuse e (word_octets words.now)) }
{
    let (errand, rest) = errand_of(words)?;
    let mut asked = new_asked(alloc, errand);
    let (before, behind) = around_dashes(rest);
    add_words(&mut asked, before)?;
    add_files(&mut asked, behind)?;
    if let Some(misuse) = misuse_of(&asked) {
        drop(asked);
        return Err(misuse);
    }
    Ok(asked)
}
