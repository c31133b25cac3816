//! Identifier octets of DER (X.690 8.1.2).
ghost use Rattle.std.specs.Prelude.{◌≡◌, ◌+◌};

/// BOOLEAN.
pub const BOOLEAN: u8 = 0x01;
/// INTEGER.
pub const INTEGER: u8 = 0x02;
/// BIT STRING.
pub const BIT_STRING: u8 = 0x03;
/// OCTET STRING.
pub const OCTET_STRING: u8 = 0x04;
/// NULL.
pub const NULL: u8 = 0x05;
/// OBJECT IDENTIFIER.
pub const OBJECT_IDENTIFIER: u8 = 0x06;
/// UTF8String.
pub const UTF8_STRING: u8 = 0x0C;
/// PrintableString.
pub const PRINTABLE_STRING: u8 = 0x13;
/// UTCTime.
pub const UTC_TIME: u8 = 0x17;
/// GeneralizedTime.
pub const GENERALIZED_TIME: u8 = 0x18;
/// SEQUENCE and SEQUENCE OF.
pub const SEQUENCE: u8 = 0x30;
/// SET and SET OF.
pub const SET: u8 = 0x31;
/// [0], primitive. The identifier octet of [n] is n more, for n from 0 to 30.
pub const CONTEXT: u8 = 0x80;
/// [0], constructed. The identifier octet of [n] is n more, for n from 0 to 30.
pub const CONTEXT_CONSTRUCTED: u8 = 0xA0;

/// Says which numbers the constants are: those of the universal tags (X.680 8.6, 42), 0x20 more if
/// the value is constructed, and 0x80 more if the tag is context-specific (X.690 8.1.2).
pub fn numbers()
    ensures boolean { BOOLEAN ≡ 1 }
    ensures integer { INTEGER ≡ 2 }
    ensures bit_string { BIT_STRING ≡ 3 }
    ensures octet_string { OCTET_STRING ≡ 4 }
    ensures null { NULL ≡ 5 }
    ensures object_identifier { OBJECT_IDENTIFIER ≡ 6 }
    ensures utf8_string { UTF8_STRING ≡ 12 }
    ensures printable_string { PRINTABLE_STRING ≡ 19 }
    ensures utc_time { UTC_TIME ≡ 23 }
    ensures generalized_time { GENERALIZED_TIME ≡ 24 }
    ensures sequence { SEQUENCE ≡ 0x20 + 16 }
    ensures set { SET ≡ 0x20 + 17 }
    ensures context { CONTEXT ≡ 0x80 }
    ensures context_constructed { CONTEXT_CONSTRUCTED ≡ 0x80 + 0x20 }
{}
