//! The place where reading stops, for C.
ghost use Rattle.std.specs.Prelude.{◌≡◌, ◌≢◌, ◌<◌, ◌↔◌, ◌==◌, not, false, true, Bool, ℕ, List, IsNone, IsErr, IfOk, IfSome};
ghost use Rattle.rpki_files.specs.Misreads.{BeginsAsRead, IsMisread};
ghost use Rattle.rpki_c.specs.StopTelling.{TellsStop, found_text, place_text, text_number};
ghost use Rattle.rpki_c.specs.Writing.{IsWrittenInto};
ghost use Rattle.rpki_c.specs.declared.stops.PartText.{PartText as texts};

use crate::copying::put_octets;
use crate::faults::{BAD_CALL, MEMORY, NONE, of_decoding};
use bytes::Bytes;
use rpki_files::{Flaw, Misread, Place, decode_cert, decode_crl};
use std::alloc::{AllocError, Global};

/// The place where reading stops.
#[repr(C)]
#[derive(Clone, Copy)]
pub struct RpkiStop {
    /// 0 if the bytes are read; else the number of the error.
    pub fault: u32,
    /// The offset at which reading stops.
    pub octet: u64,
}

/// A text about the part at which reading stops.
#[derive(Clone, Copy)]
enum PartText {
    Name,
    Wanted,
    Found,
}

// The text that the header numbers so.
fn text_numbered(number: u32) -> Option<PartText>
    ensures none { IsNone result ↔ 2 < number }
    ensures text { IfSome result (λ which. number ≡ text_number which) }
{
    match number {
        0 => Some(PartText::Name),
        1 => Some(PartText::Wanted),
        2 => Some(PartText::Found),
        _ => None,
    }
}

// Writes what is found, where that is told.
fn put_found(alloc: Global, found: Option<Flaw>, out: &mut [u8]) -> Result<u64, AllocError>
    ensures written { IfOk result (IsWrittenInto (found_text found) out.old out.new) }
    ensures untouched { IsErr result → out.new ≡ out.old }
{
    match found {
        Some(flaw) => {
            let text = format!(in alloc; "{flaw}")?;
            let count = put_octets(text.as_bytes(), out);
            drop(text);
            Ok(count)
        }
        None => Ok(put_octets(&[], out)),
    }
}

// Writes a text of the part at which reading stops.
fn put_text(alloc: Global, place: Place, which: PartText, out: &mut [u8]) -> Result<u64, AllocError>
    ensures written { IfOk result (IsWrittenInto (place_text which place) out.old out.new) }
    ensures untouched { IsErr result → out.new ≡ out.old }
{
    match which {
        PartText::Name => Ok(put_octets(place.field.as_bytes(), out)),
        PartText::Wanted => Ok(put_octets(place.wanted.as_bytes(), out)),
        PartText::Found => put_found(alloc, place.found, out),
    }
}

// Why octets can't be read as a certificate, if they can't.
fn certificate_unread(alloc: Global, octets: &Bytes) -> Option<Misread>
    ensures begins { IsNone result → BeginsAsRead false octets.now }
    ensures misread { IfSome result (IsMisread false octets.now) }
{
    match decode_cert(alloc, octets) {
        Ok(cert) => {
            drop(cert);
            None
        }
        Err(why) => Some(why),
    }
}

// Why octets can't be read as a list, if they can't.
fn list_unread(alloc: Global, octets: &Bytes) -> Option<Misread>
    ensures begins { IsNone result → BeginsAsRead true octets.now }
    ensures misread { IfSome result (IsMisread true octets.now) }
{
    match decode_crl(alloc, octets) {
        Ok(list) => {
            drop(list);
            None
        }
        Err(why) => Some(why),
    }
}

// Why octets can't be read as a certificate, or as a list, if they can't.
fn why_unread(alloc: Global, octets: &Bytes, is_list: bool) -> Option<Misread>
    ensures begins { IsNone result → BeginsAsRead is_list octets.now }
    ensures misread { IfSome result (IsMisread is_list octets.now) }
{
    if is_list {
        list_unread(alloc, octets)
    } else {
        certificate_unread(alloc, octets)
    }
}

// Tells where reading stops, and writes a text of the part there, whose octets it counts.
fn put_stop(
    alloc: Global,
    why: Option<Misread>,
    which: PartText,
    stop: &mut RpkiStop,
    out: &mut [u8],
) -> Result<u64, AllocError>
    ensures told { (is_list : Bool) (octets : List ℕ) → (IsNone why → BeginsAsRead is_list octets)
        → IfSome why (IsMisread is_list octets) → IfOk result (λ count.
        TellsStop is_list which octets stop.new out.old out.new count) }
    ensures untouched { IsErr result → out.new ≡ out.old }
{
    match why {
        None => {
            *stop = RpkiStop {
                fault: NONE,
                octet: 0,
            };
            Ok(0)
        }
        Some(Misread::Stopped { fault, place }) => {
            *stop = RpkiStop {
                fault: of_decoding(&fault),
                octet: place.octet as u64,
            };
            drop(fault);
            put_text(alloc, place, which, out)
        }
        Some(Misread::Memory) => Err(AllocError),
    }
}

// Tells so of octets that are read as a certificate, or as a list.
fn told(
    alloc: Global,
    octets: &[u8],
    is_list: bool,
    which: PartText,
    stop: &mut RpkiStop,
    out: &mut [u8],
) -> Result<u64, AllocError>
    ensures told { IfOk result (λ count.
        TellsStop is_list which octets.now stop.new out.old out.new count) }
    ensures untouched { IsErr result → out.new ≡ out.old }
{
    let octets = Bytes::copy_from_slice(alloc, octets)?;
    let why = why_unread(alloc, &octets, is_list);
    drop(octets);
    put_stop(alloc, why, which, stop, out)
}

/// Finds where reading stops of bytes that start with no certificate, or, if `is_list` isn't 0,
/// with no CRL: the error and the offset, and a text about the part there: 0 its name, 1 what is
/// expected, 2 what is found. Writes as many bytes of the text as fit, and in `count` how many
/// there are; 0 if the bytes can be read.
///
/// # Errors
///
/// Returns the number of an error, 2 if `which` is another number, or 0.
#[unsafe(no_mangle)]
pub extern "C" fn rpki_stop_text(
    alloc: Global,
    octets: &[u8],
    is_list: u32,
    which: u32,
    stop: &mut RpkiStop,
    out: &mut [u8],
    count: &mut u64,
) -> u32
    ensures bad_call { (result ≡ BAD_CALL) ↔ 2 < which }
    ensures told { result ≡ NONE → (w : texts) × (which ≡ text_number w)
        × TellsStop (not (is_list == 0)) w octets.now stop.new out.old out.new count.new }
    ensures fault { result ≢ NONE → result ≢ BAD_CALL → result ≡ MEMORY }
    ensures at_fault { result ≢ NONE → count.new ≡ 0 }
    ensures untouched { result ≢ NONE → out.new ≡ out.old }
{
    *count = 0;
    let Some(which) = text_numbered(which) else {
        return BAD_CALL;
    };
    match told(alloc, octets, is_list != 0, which, stop, out) {
        Ok(length) => {
            *count = length;
            NONE
        }
        Err(_) => MEMORY,
    }
}
