//! What the values of options are called, and which values an option takes.
ghost use Rattle.std.specs.Prelude.{◌≡◌};
ghost use Rattle.rpki_requests.specs.ExpectedValues.{asked_value_expected, asked_value_kind};

use crate::words::Setting;

impl Setting {
    // What a value of the option is called.
    pub(crate) fn value_kind(self) -> &'static str
        ensures { result.now ≡ asked_value_kind self }
    {
        match self {
            Setting::Issuer
            | Setting::Key
            | Setting::Crl
            | Setting::Previous
            | Setting::Revoke
            | Setting::Out => "a file",
            Setting::Serial => "a serial number",
            Setting::Number => "a CRL number",
            Setting::From | Setting::Until | Setting::NextUpdate | Setting::At => "a time",
            Setting::Ipv4 => "IPv4 addresses",
            Setting::Ipv6 => "IPv6 addresses",
            Setting::AsNumbers => "AS numbers",
            Setting::Repository
            | Setting::Manifest
            | Setting::Object
            | Setting::IssuerUri
            | Setting::CrlUri => "an rsync URI",
            Setting::Notify => "an https URI",
        }
    }

    // Which values it takes.
    pub(crate) fn expected_value(self) -> &'static str
        ensures { result.now ≡ asked_value_expected self }
    {
        match self {
            Setting::Issuer
            | Setting::Key
            | Setting::Crl
            | Setting::Previous
            | Setting::Revoke
            | Setting::Out => "FILE",
            Setting::Serial => "pairs of hexadecimal digits, a positive number of at most 20 bytes",
            Setting::Number => "pairs of hexadecimal digits, a positive number of at most 20 bytes",
            Setting::From | Setting::Until | Setting::NextUpdate | Setting::At =>
                "YYYY-MM-DD[THH:MM:SSZ]",
            Setting::Ipv4 =>
                "prefixes as 10.0.0.0/8, ranges as 10.0.0.0-10.0.2.255, or inherit alone",
            Setting::Ipv6 =>
                "prefixes as 2001:db8::/32, ranges as 2001:db8::-2001:db8::1, or inherit alone",
            Setting::AsNumbers => "numbers as 64496, ranges as 64496-64511, or inherit alone",
            Setting::Repository
            | Setting::Manifest
            | Setting::Object
            | Setting::IssuerUri
            | Setting::CrlUri => "rsync://HOST/MODULE/PATH",
            Setting::Notify => "https://HOST/PATH",
        }
    }
}
