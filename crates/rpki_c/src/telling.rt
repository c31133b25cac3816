//! The texts of an error's number: its name and its sentence.
ghost use Rattle.std.specs.Prelude.{◌≡◌, ◌≢◌, ◌<◌, ◌^◌, length, option_map};
ghost use Rattle.rpki_files.specs.FaultTable.{fault_fields};
ghost use Rattle.rpki_c.specs.FaultTexts.{TellsText, first_number as first, has_part as parted, name_told, part_name as name_of_part, sentence_told, told_of, told_fields};
ghost use Rattle.rpki_c.specs.Writing.{IsWrittenInto};

use crate::copying::{put_behind, put_octets};
use crate::faults::{BAD_CALL, NONE};
use rpki_files::faults::{Fault, numbered, numbered_part};

// Whether faults with this number speak of a part.
fn has_part(number: u32) -> bool
    ensures { result ≡ parted number }
{
    120 <= number && number < 220
}

// The number of the fault in the table.
fn first_number(number: u32) -> u32
    ensures { result ≡ first number }
{
    if has_part(number) {
        number - number % 20
    } else {
        number
    }
}

// The name of the part that faults with this number speak of, and an empty one where there is none.
fn part_name(number: u32) -> Option<&'static str>
    ensures { option_map (λ name. name.now) result ≡ name_of_part number }
{
    if has_part(number) {
        numbered_part(number % 20).map(|part| part.name)
    } else {
        Some("")
    }
}

// The fault that has the number, and the name of the part that it speaks of, or an empty one.
fn fault_told(number: u32) -> Option<(&'static Fault, &'static str)>
    ensures { option_map (λ it. told_fields (fault_fields it.0.now) it.1.now) result ≡ told_of number }
{
    let part = part_name(number)?;
    let fault = numbered(first_number(number))?;
    Some((fault, part))
}

/// Writes the name of the error with this number, as in the library's enums: as many bytes as fit,
/// and in `count` how many there are.
///
/// # Errors
///
/// Returns 2 if no error has the number, or 0.
#[unsafe(no_mangle)]
pub extern "C" fn rpki_fault_name(number: u32, out: &mut [u8], count: &mut u64) -> u32
    ensures name { TellsText (name_told number) result out.old out.new count.new }
    ensures at_fault { result ≢ NONE → count.new ≡ 0 }
{
    *count = 0;
    match fault_told(number) {
        Some((fault, _)) => {
            *count = put_octets(fault.name.as_bytes(), out);
            NONE
        }
        None => BAD_CALL,
    }
}

// Writes the fault's sentence, and tells how many octets it has.
fn put_sentence(fault: &Fault, part: &str, out: &mut [u8]) -> u64
    requires { length (told_fields (fault_fields fault.now) part.now).sentence < 2 ^ 32 }
    ensures { IsWrittenInto (told_fields (fault_fields fault.now) part.now).sentence
        out.old out.new result }
{
    let (before, behind) = (fault.before.len(), fault.behind.len());
    put_octets(fault.before.as_bytes(), out);
    put_behind(part.as_bytes(), before, out);
    put_behind(fault.behind.as_bytes(), before + part.len(), out);
    (before + part.len() + behind) as u64
}

/// Writes the sentence of the error with this number, as the library prints it: as many bytes as
/// fit, and in `count` how many there are.
///
/// # Errors
///
/// Returns 2 if no error has the number, or 0.
#[unsafe(no_mangle)]
pub extern "C" fn rpki_fault_sentence(number: u32, out: &mut [u8], count: &mut u64) -> u32
    ensures sentence { TellsText (sentence_told number) result out.old out.new count.new }
    ensures at_fault { result ≢ NONE → count.new ≡ 0 }
{
    *count = 0;
    match fault_told(number) {
        Some((fault, part)) => {
            *count = put_sentence(fault, part, out);
            NONE
        }
        None => BAD_CALL,
    }
}
