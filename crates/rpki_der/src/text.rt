//! Printing that several types have in common.
ghost use Rattle.std.specs.Prelude.{◌<◌, ◌+◌, [], ◌∷◌};
ghost use Rattle.std.specs.Fmt.{WritesOnOk};
ghost use Rattle.rpki_der.specs.Times.{two};
ghost use Rattle.rpki_der.specs.Texts.{hexadecimal};

use std::fmt;

/// Prints each byte in two upper-case hexadecimal digits.
///
/// # Errors
///
/// Returns an error if `f` returns one.
pub fn write_hexadecimal<W: fmt::Write>(f: &mut fmt::Formatter<W>, octets: &[u8]) -> fmt::Result
    ensures { WritesOnOk W.write_str_gives f.old result (hexadecimal octets.now) f.new }
{
    for octet in octets {
        write!(f, "{octet:02X}")?;
    }
    Ok(())
}

fn write_digit<W: fmt::Write>(f: &mut fmt::Formatter<W>, n: u8) -> fmt::Result
    requires { n < 10 }
    ensures { WritesOnOk W.write_str_gives f.old result ((48 + n) ∷ []) f.new }
{
    f.write_char(char::from(b'0' + n))
}

// A number in two decimal digits.
pub(crate) fn write_two<W: fmt::Write>(f: &mut fmt::Formatter<W>, n: u8) -> fmt::Result
    requires { n < 100 }
    ensures { WritesOnOk W.write_str_gives f.old result (two n) f.new }
{
    write_digit(f, n / 10)?;
    write_digit(f, n % 10)
}
