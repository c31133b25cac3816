//! The notes, and their texts.
ghost use Rattle.std.specs.Prelude.{◌≡◌};
ghost use Rattle.rpki_text.specs.NoteTexts.{note_name, note_section, note_text};

/// What the library accepts of a certificate although a standard forbids it.
#[derive(Clone, Copy)]
pub enum Note {
    /// The serial number is 0.
    SerialZero,
    /// The serial number has more than 20 bytes.
    SerialLong,
    /// The issuer's name isn't one CommonName and at most one serialNumber as PrintableStrings.
    IssuerForm,
    /// A time from 1950 to 2049 is a GeneralizedTime.
    TimeForm,
    /// The subject's name isn't one CommonName and at most one serialNumber as PrintableStrings;
    /// a router's may be in a UTF8String (RFC 8209 3.1.1).
    SubjectForm,
    /// A PrintableString of the issuer's name or the subject's has a character that the type doesn't
    /// allow.
    NameCharacters,
    /// Subject Information Access of an end entity names a notification file.
    EndEntityNotify,
    /// Subject Information Access of an end entity has an unknown access method.
    EndEntityMethod,
    /// Subject Information Access of an end entity has more than one signedObject.
    EndEntityObjects,
    /// Subject Information Access has rpkiNotify without an https URI.
    NotifyForm,
    /// It has an https URI behind rpkiNotify, and one of another scheme behind another rpkiNotify.
    NotifyScheme,
    /// Certificate Policies have qualifiers, and these aren't one statement of practices.
    QualifierForm,
    /// The extension of IP resources isn't critical.
    IpNotCritical,
    /// The extension of AS resources isn't critical.
    AsNotCritical,
    /// IP resources aren't in their canonical form.
    IpForm,
    /// AS resources aren't in their canonical form.
    AsForm,
    /// Bytes follow the value in the OCTET STRING of an extension that certificates may have.
    BytesAfterValue,
    /// An extension states FALSE, the default of its flag.
    FlagForm,
    /// An extension of an unknown kind appears twice.
    ExtensionTwice,
}

impl Note {
    /// Returns the variant's name.
    pub fn name(self) -> &'static str
        ensures { result.now ≡ note_name self }
    {
        match self {
            Note::SerialZero => "SerialZero",
            Note::SerialLong => "SerialLong",
            Note::IssuerForm => "IssuerForm",
            Note::TimeForm => "TimeForm",
            Note::SubjectForm => "SubjectForm",
            Note::NameCharacters => "NameCharacters",
            Note::EndEntityNotify => "EndEntityNotify",
            Note::EndEntityMethod => "EndEntityMethod",
            Note::EndEntityObjects => "EndEntityObjects",
            Note::NotifyForm => "NotifyForm",
            Note::NotifyScheme => "NotifyScheme",
            Note::QualifierForm => "QualifierForm",
            Note::IpNotCritical => "IpNotCritical",
            Note::AsNotCritical => "AsNotCritical",
            Note::IpForm => "IpForm",
            Note::AsForm => "AsForm",
            Note::BytesAfterValue => "BytesAfterValue",
            Note::FlagForm => "FlagForm",
            Note::ExtensionTwice => "ExtensionTwice",
        }
    }

    /// Returns what is wrong, as a sentence without a full stop.
    pub fn says(self) -> &'static str
        ensures { result.now ≡ note_text self }
    {
        match self {
            Note::SerialZero => "the serial number is 0",
            Note::SerialLong => "the serial number has more than 20 bytes",
            Note::IssuerForm =>
                "the issuer's name isn't a CommonName, with a serialNumber at most, in PrintableStrings",
            Note::TimeForm => "a time from 1950 to 2049 is a GeneralizedTime",
            Note::SubjectForm =>
                "the subject's name isn't a CommonName, with a serialNumber at most, in PrintableStrings",
            Note::NameCharacters => "a name has a character that PrintableString doesn't allow",
            Note::EndEntityNotify => "an end entity names a notification file",
            Note::EndEntityMethod => "an end entity has an unknown access method",
            Note::EndEntityObjects => "an end entity has more than one signedObject",
            Note::NotifyForm => "no https URI is named for rpkiNotify",
            Note::NotifyScheme => "a URI of another scheme than https is named for rpkiNotify",
            Note::QualifierForm =>
                "the policy has other qualifiers than one statement of practices (CPS)",
            Note::IpNotCritical => "IP resources aren't critical",
            Note::AsNotCritical => "AS resources aren't critical",
            Note::IpForm => "IP resources aren't sorted, merged and written in the shortest form",
            Note::AsForm => "AS resources aren't sorted, merged and written in the shortest form",
            Note::BytesAfterValue => "an extension has bytes after its value",
            Note::FlagForm => "an extension states FALSE, the default of its flag",
            Note::ExtensionTwice => "an extension appears twice",
        }
    }

    /// Returns the section of the standard that forbids it.
    pub fn section(self) -> &'static str
        ensures { result.now ≡ note_section self }
    {
        match self {
            Note::SerialZero => "RFC 6487 4.2",
            Note::SerialLong => "RFC 5280 4.1.2.2",
            Note::IssuerForm => "RFC 6487 4.4",
            Note::TimeForm => "RFC 5280 4.1.2.5",
            Note::SubjectForm => "RFC 6487 4.5",
            Note::NameCharacters => "X.680 41.4",
            Note::EndEntityNotify => "RFC 6487 4.8.8.2",
            Note::EndEntityMethod => "RFC 6487 4.8.8.2",
            Note::EndEntityObjects => "RFC 6487 4.8.8.2",
            Note::NotifyForm => "RFC 8182 3.2",
            Note::NotifyScheme => "RFC 8182 3.2",
            Note::QualifierForm => "RFC 7318 2",
            Note::IpNotCritical => "RFC 6487 4.8.10",
            Note::AsNotCritical => "RFC 6487 4.8.11",
            Note::IpForm => "RFC 3779 2.2.3",
            Note::AsForm => "RFC 3779 3.2.3",
            Note::BytesAfterValue => "RFC 5280 4.2",
            Note::FlagForm => "X.690 11.5",
            Note::ExtensionTwice => "RFC 5280 4.2",
        }
    }
}
