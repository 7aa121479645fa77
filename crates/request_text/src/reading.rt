// The request that a line is.
ghost use Rattle.std.specs.Prelude.{option_map, codes};
ghost use Rattle.serde_json.specs.View.{view};
ghost use Rattle.request_text.specs.Reading.{with_fields, text_at, edit_in, chosen, asked, of_value, request_of};
ghost use Rattle.request_text.specs.Request.{open_text};
ghost use Rattle.request_text.specs.RequestView.{IsAnswer};

use crate::fields::{puts_at, text_at, texts_at};
use crate::names::are_distinct;
use crate::request::{BadRequest, Request};
use serde_json::Value;
use std::alloc::Global;

/// The longest line that is read.
pub const LONGEST: usize = 1_048_576;

// The whole program that these fields have.
fn open(alloc: Global, fields: &Value) -> Result<Request, BadRequest>
    ensures { IsAnswer (with_fields (option_map open_text (text_at (codes "text") (view fields.now)))) result }
{
    match text_at(fields, "text") {
        Some(text) => Ok(Request::Open {
            text: String::from_str(alloc, text)?,
        }),
        None => Err(BadRequest::Field),
    }
}

// The edit that these fields have.
fn edit(alloc: Global, fields: &Value) -> Result<Request, BadRequest>
    ensures { IsAnswer (with_fields (edit_in (view fields.now))) result }
{
    let Some(put) = puts_at(alloc, fields, "put")? else {
        return Err(BadRequest::Field);
    };
    let Some(drop) = texts_at(alloc, fields, "drop")? else {
        return Err(BadRequest::Field);
    };
    if are_distinct(alloc, &put, &drop)? {
        Ok(Request::Edit { put, drop })
    } else {
        Err(BadRequest::Field)
    }
}

// The request of this op.
fn chosen(alloc: Global, op: &str, fields: &Value) -> Result<Request, BadRequest>
    ensures { IsAnswer (chosen op.now (asked (view fields.now))) result }
{
    match op {
        "open" => open(alloc, fields),
        "edit" => edit(alloc, fields),
        "status" => Ok(Request::Status),
        "report" => Ok(Request::Report),
        "sums" => Ok(Request::Sums),
        "proofs" => Ok(Request::Proofs),
        "quit" => Ok(Request::Quit),
        _ => Err(BadRequest::Op),
    }
}

// The request that a value is.
fn of_value(alloc: Global, value: &Value) -> Result<Request, BadRequest>
    ensures { IsAnswer (of_value (view value.now)) result }
{
    match text_at(value, "op") {
        Some(op) => chosen(alloc, op, value),
        None => Err(BadRequest::Op),
    }
}

/// The request that a line is, or the first of the reasons why it is none: it is too long, or no
/// JSON, or has no op, or lacks a field.
pub fn read_request(alloc: Global, line: &[u8]) -> Result<Request, BadRequest>
    ensures { IsAnswer (request_of line.now) result }
{
    if line.len() > LONGEST {
        return Err(BadRequest::Long);
    }
    match Value::from_slice(alloc, line) {
        Ok(value) => of_value(alloc, &value),
        Err(e) if e.is_memory() => Err(BadRequest::Memory),
        Err(_) => Err(BadRequest::Json),
    }
}
