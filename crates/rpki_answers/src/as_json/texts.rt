//! JSON values as texts.
ghost use Rattle.std.specs.Prelude.{◌≡◌, ◌++◌, false, map, IfOk, OnOk, string_bytes};
ghost use Rattle.std.specs.List.{AllByRecursion, flat_map};
ghost use Rattle.serde_json.specs.View.{view};
ghost use Rattle.serde_json.specs.Written.{has_float};
ghost use Rattle.rpki_answers.specs.JsonTexts.{json_line, json_lines, json_value_text, values_text};
ghost use Rattle.rpki_document.specs.Documents.{array_of};

use crate::as_json::ascii::ended_ascii;
use rpki_text::command_line::Format;
use serde_json::Value;
use std::alloc::{AllocError, Global};

// Writes a value with each item and member on a line of its own, in ASCII.
fn lines_of(alloc: Global, value: &Value) -> Result<String, AllocError>
    ensures { has_float (view value.now) ≡ false
        → IfOk result (λ text. string_bytes text ≡ json_lines (view value.now)) }
{
    let text = value.to_string_pretty(alloc)?;
    ended_ascii(alloc, text.as_str())
}

// Writes a value on one line, in ASCII.
fn line_of(alloc: Global, value: &Value) -> Result<String, AllocError>
    ensures { has_float (view value.now) ≡ false
        → IfOk result (λ text. string_bytes text ≡ json_line (view value.now)) }
{
    let text = value.to_string(alloc)?;
    ended_ascii(alloc, text.as_str())
}

/// Writes a value in a format of JSON.
pub fn value_text(alloc: Global, value: &Value, format: Format) -> Result<String, AllocError>
    ensures { has_float (view value.now) ≡ false
        → IfOk result (λ text. string_bytes text ≡ json_value_text format (view value.now)) }
{
    match format {
        Format::JsonLines => line_of(alloc, value),
        Format::Json | Format::Text => lines_of(alloc, value),
    }
}

// Appends the text of each value.
fn append_each(
    out: &mut String,
    alloc: Global,
    values: &[Value],
    format: Format,
) -> Result<(), AllocError>
    ensures { AllByRecursion (λ value. has_float (view value) ≡ false) values.now
        → OnOk result (string_bytes out.new ≡ string_bytes out.old
        ++ flat_map (λ value. json_value_text format (view value)) values.now) }
{
    for value in values {
        let text = value_text(alloc, value, format)?;
        out.push_str(text.as_str())?;
    }
    Ok(())
}

// Writes each value, one after the other.
fn each_text(alloc: Global, values: Vec<Value>, format: Format) -> Result<String, AllocError>
    ensures { AllByRecursion (λ value. has_float (view value) ≡ false) values.items
        → IfOk result (λ text.
        string_bytes text ≡ flat_map (json_value_text format) (map view values.items)) }
{
    let mut out = String::new(alloc);
    append_each(&mut out, alloc, &values, format)?;
    drop(values);
    Ok(out)
}

// Writes one array of the values.
fn array_text(alloc: Global, values: Vec<Value>) -> Result<String, AllocError>
    ensures { AllByRecursion (λ value. has_float (view value) ≡ false) values.items
        → IfOk result (λ text. string_bytes text ≡ json_lines (array_of (map view values.items))) }
{
    let all = Value::from(values);
    let text = lines_of(alloc, &all);
    drop(all);
    text
}

/// Writes the values of files in a format of JSON, as one value if exactly one file is named.
pub fn values_text(
    alloc: Global,
    values: Vec<Value>,
    format: Format,
    is_single: bool,
) -> Result<String, AllocError>
    ensures { AllByRecursion (λ value. has_float (view value) ≡ false) values.items
        → IfOk result (λ text.
        string_bytes text ≡ values_text format is_single (map view values.items)) }
{
    if format == Format::Json && !is_single {
        return array_text(alloc, values);
    }
    each_text(alloc, values, format)
}
