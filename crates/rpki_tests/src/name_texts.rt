//! The texts of names: the examples of RFC 4514 4 as far as types go, and the cases of RFC 4514 2.

use crate::checks::check_shown;
use crate::samples;
use rpki_parts::Name;
use std::alloc::Global;
use std::process::Abort;

// The digits of names, and their texts.
macro_rules! names {
    ($($digits:literal => $text:literal;)*) => {
        [$(($digits, $text)),*]
    };
}

const NAMES: [(&str, &str); 22] = names! {
    // Two attributes in one part; characters that are escaped; a character that isn't visible; a
    // type with no name; characters beyond ASCII.
    "30223120300c060355040b130553616c65733010060355040313094a2e2020536d697468"
        => "OU=Sales+CN=J.  Smith";
    "3021311f301d060355040313164a616d657320224a696d2220536d6974682c20494949"
        => "CN=James \\\"Jim\\\" Smith\\, III";
    "30173115301306035504030c0c4265666f72650d4166746572" => "CN=Before\\0DAfter";
    "30123110300e06082b060104018b3a0004024869" => "1.3.6.1.4.1.1466.0=#04024869";
    "30123110300e06035504030c074c75c48d69c487" => "CN=Lu\\C4\\8Di\\C4\\87";
    // Parts in their order.
    "3000" => "";
    "301b310c300a06035504031303412b42310b3009060355040513023031" => "CN=A\\+B, serialNumber=01";
    "3027310b3009060355040613024e4c310c300a060355040a0c03583d59310a3008060355040b13015a"
        => "C=NL, O=X=Y, OU=Z";
    "3021310a3008060355040313014131133011060a0992268993f22c64011916036e6574"
        => "CN=A, 0.9.2342.19200300.100.1.25=#16036E6574";
    // Spaces and # at both ends, what is escaped everywhere, what isn't visible, and no character.
    "30143112301006035504030c09202061202320622020" => "CN=\\  a # b \\ ";
    "300c310a30080603550403130120" => "CN=\\ ";
    "300d310b3009060355040313022361" => "CN=\\#a";
    "30133111300f06035504031308222b2c3b3c3d3e5c" => "CN=\\\"\\+\\,\\;\\<=\\>\\\\";
    "300e310c300a06035504031303007f7e" => "CN=\\00\\7F~";
    "300b3109300706035504030c00" => "CN=";
    // An INTEGER and a BMPString; types at the ends of the first number, with 2^64 - 1 and 2^64.
    "300c310a30080603550403020105" => "CN=#020105";
    "300d310b300906035504031e020041" => "CN=#1E020041";
    "3009310730050601270500" => "0.39=#0500";
    "300a3108300606024f000500" => "1.39.0=#0500";
    "3009310730050601500500" => "2.0=#0500";
    "301431123010060c883781ffffffffffffffff7f0500" => "2.999.18446744073709551615=#0500";
    "301431123010060c8837828080808080808080000500" => "oid:883782808080808080808000=#0500";
};

fn assert_shown(rt: &impl Abort, alloc: Global, digits: &str, text: &str) {
    let octets = samples::shared(alloc, digits).expect(rt, "octets");
    let name = Name::from_bytes(alloc, octets).expect(rt, "a name");
    check_shown(rt, alloc, &name, text);
    drop(name);
}

#[test]
fn names_print(rt: HostRuntime) {
    let alloc = rt.alloc();
    for (digits, text) in NAMES {
        assert_shown(&rt, alloc, digits, text);
    }
}
