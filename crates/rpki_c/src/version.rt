//! The library's version for C.
ghost use Rattle.std.specs.Prelude.{◌≡◌, codes};

use crate::faults::NONE;

/// A text of the library's own, which ends in a 0 byte.
#[repr(C)]
#[derive(Clone, Copy)]
pub struct RpkiText {
    pub text: &'static [u8],
}

/// Writes the library's version as MAJOR.MINOR.PATCH and a 0 byte. Returns 0.
#[unsafe(no_mangle)]
pub extern "C" fn rpki_version(out: &mut RpkiText) -> u32
    ensures version { out.new.text.now ≡ codes "0.2.0\0" }
    ensures answered { result ≡ NONE }
{
    out.text = b"0.2.0\0";
    NONE
}
