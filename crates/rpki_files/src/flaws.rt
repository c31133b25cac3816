//! The flaws that are found where reading stops, and their texts.
ghost use Rattle.std.specs.Prelude.{◌≡◌, ◌++◌, Some, codes};
ghost use Rattle.rpki_files.specs.FlawTexts.{bare_flaw_text, extension_flaw_text, flaw_text, serial_flaw_text, tagged_values, text_among, time_flaw_text, value_named, version_flaw_text, which_time};

use rpki_der::tag;
use std::fmt;

/// What is wrong with the content of a serial number.
#[derive(Clone, Copy)]
pub enum SerialFlaw {
    /// The content is empty.
    Empty,
    Negative,
    /// The content isn't in the shortest form.
    Padded,
    /// The number has more than 20 octets.
    Large,
}

/// Which other version is found.
#[derive(Clone, Copy)]
pub enum VersionFlaw {
    One,
    Two,
    Other,
}

/// What is wrong with a time.
#[derive(Clone, Copy)]
pub enum TimeFlaw {
    /// There are no numbers of a time.
    Form,
    Month,
    Day,
    Hour,
    Minute,
    Second,
}

/// What is wrong with an extension of a kind.
#[derive(Clone, Copy)]
pub enum ExtensionFlaw {
    Critical,
    NotCritical,
    OtherContent,
    /// An extension of the same kind comes before it.
    Second,
}

/// What is found at the place where reading stops.
#[derive(Clone, Copy)]
pub enum Flaw {
    /// The file ends there.
    End,
    /// A value with another identifier octet, this one.
    Other(u8),
    /// No value that ends within the file.
    Broken,
    Serial(SerialFlaw),
    Version(VersionFlaw),
    ListVersion(VersionFlaw),
    Time(TimeFlaw),
    /// The flaw of a validity's first time.
    NotBefore(TimeFlaw),
    /// The flaw of a validity's second time.
    NotAfter(TimeFlaw),
    Extension(ExtensionFlaw),
}

// A value inside a tag, by its identifier octet.
fn tagged_value(identifier: u8) -> &'static str
    ensures { result.now ≡ text_among tagged_values (codes "a value of another type") identifier }
{
    if identifier == tag::CONTEXT_CONSTRUCTED {
        "a value inside [0]"
    } else if identifier == tag::CONTEXT_CONSTRUCTED + 1 {
        "a value inside [1]"
    } else if identifier == tag::CONTEXT_CONSTRUCTED + 2 {
        "a value inside [2]"
    } else if identifier == tag::CONTEXT_CONSTRUCTED + 3 {
        "a value inside [3]"
    } else {
        "a value of another type"
    }
}

// A value with this identifier octet.
fn value(identifier: u8) -> &'static str
    ensures { result.now ≡ value_named identifier }
{
    match identifier {
        tag::BOOLEAN => "a BOOLEAN",
        tag::INTEGER => "an INTEGER",
        tag::BIT_STRING => "a BIT STRING",
        tag::OCTET_STRING => "an OCTET STRING",
        tag::NULL => "a NULL",
        tag::OBJECT_IDENTIFIER => "an OBJECT IDENTIFIER",
        tag::UTF8_STRING => "a UTF8String",
        tag::PRINTABLE_STRING => "a PrintableString",
        tag::UTC_TIME => "a UTCTime",
        tag::GENERALIZED_TIME => "a GeneralizedTime",
        tag::SEQUENCE => "a SEQUENCE",
        tag::SET => "a SET",
        _ => tagged_value(identifier),
    }
}

fn serial(flaw: SerialFlaw) -> &'static str
    ensures { result.now ≡ serial_flaw_text flaw }
{
    match flaw {
        SerialFlaw::Empty => "an INTEGER without bytes",
        SerialFlaw::Negative => "a negative number",
        SerialFlaw::Padded => "a number that isn't in the shortest form",
        SerialFlaw::Large => "a number of more than 20 bytes",
    }
}

fn version(flaw: VersionFlaw) -> &'static str
    ensures { result.now ≡ version_flaw_text flaw }
{
    match flaw {
        VersionFlaw::One => "version 1",
        VersionFlaw::Two => "version 2",
        VersionFlaw::Other => "another number",
    }
}

fn time(flaw: TimeFlaw) -> &'static str
    ensures { result.now ≡ time_flaw_text flaw }
{
    match flaw {
        TimeFlaw::Form => "no UTCTime YYMMDDhhmmssZ and no GeneralizedTime YYYYMMDDhhmmssZ",
        TimeFlaw::Month => "a month that is 0 or above 12",
        TimeFlaw::Day => "a day that the month doesn't have",
        TimeFlaw::Hour => "an hour above 23",
        TimeFlaw::Minute => "a minute above 59",
        TimeFlaw::Second => "a second above 59",
    }
}

fn extension_text(flaw: ExtensionFlaw) -> &'static str
    ensures { result.now ≡ extension_flaw_text flaw }
{
    match flaw {
        ExtensionFlaw::Critical => "critical",
        ExtensionFlaw::NotCritical => "not critical",
        ExtensionFlaw::OtherContent => "another content",
        ExtensionFlaw::Second => "a second one",
    }
}

impl Flaw {
    // In which of the two times of a validity.
    fn place(self) -> &'static str
        ensures { result.now ≡ which_time self }
    {
        match self {
            Flaw::NotBefore(_) => "notBefore has ",
            Flaw::NotAfter(_) => "notAfter has ",
            _ => "",
        }
    }

    fn text(self) -> &'static str
        ensures { result.now ≡ bare_flaw_text self }
    {
        match self {
            Flaw::End => "nothing: the file ends there",
            Flaw::Other(identifier) => value(identifier),
            Flaw::Broken => "a value whose length isn't DER's, or goes past the end of the file",
            Flaw::Serial(flaw) => serial(flaw),
            Flaw::Version(flaw) => version(flaw),
            Flaw::ListVersion(flaw) => version(flaw),
            Flaw::Time(flaw) => time(flaw),
            Flaw::NotBefore(flaw) => time(flaw),
            Flaw::NotAfter(flaw) => time(flaw),
            Flaw::Extension(flaw) => extension_text(flaw),
        }
    }
}

impl fmt::Display for Flaw {
    ghost output = { λ flaw. Some (flaw_text flaw) };

    fn fmt<W: fmt::Write>(&self, f: &mut fmt::Formatter<W>) -> fmt::Result {
        f.write_str(self.place())?;
        f.write_str(self.text())
    }
}
