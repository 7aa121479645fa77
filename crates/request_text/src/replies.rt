// The bytes of replies.
ghost use Rattle.std.specs.Prelude.{◌≡◌, ◌∷◌, [], ◌++◌, false, map, codes, decimal, string_bytes, IfOk};
ghost use Rattle.serde_json.specs.Data.{string, array, object, boolean, member, no_members};
ghost use Rattle.serde_json.specs.View.{view, items_view};
ghost use Rattle.serde_json.specs.Written.{has_float, compact_text};
ghost use Rattle.request_text.specs.Request.{accepted, counted, ended, fault};
ghost use Rattle.request_text.specs.Replies.{bad_word, count, strings, error, error_of, members, value_of, reply_text};
ghost use Rattle.request_text.specs.ReplyView.{refusal_view, reply_view};

use crate::reply::Reply;
use crate::request::BadRequest;
use bv_base::place::Place;
use serde_json::{Value, json};
use std::alloc::{AllocError, Global};

// The lines as JSON strings.
fn strings(alloc: Global, lines: &[String]) -> Result<Vec<Value>, AllocError>
    ensures { IfOk result (λ v. items_view v.items ≡ strings (map string_bytes lines.now)) }
{
    let mut items = Vec::new(alloc);
    for line in lines {
        items.push(Value::String(String::from_str(alloc, line.as_str())?))?;
    }
    Ok(items)
}

// The lines as JSON strings, moved.
fn moved_strings(alloc: Global, lines: Vec<String>) -> Result<Vec<Value>, AllocError>
    ensures { IfOk result (λ v. items_view v.items ≡ strings (map string_bytes lines.items)) }
{
    let mut items = Vec::with_capacity(alloc, lines.len())?;
    for line in lines {
        items.push(Value::String(line))?;
    }
    Ok(items)
}

// How many goals the program that was taken has.
fn accepted(alloc: Global, goals: u64, rebuilt: u64, version: u64) -> Result<Value, AllocError>
    ensures { IfOk result (λ v. view v ≡ value_of (accepted goals rebuilt version)) }
{
    json!(in alloc; {"goals": goals, "rebuilt": rebuilt, "version": version})
}

// How many goals are answered.
fn counted(alloc: Global, done: u64, pending: u64, version: u64) -> Result<Value, AllocError>
    ensures { IfOk result (λ v. view v ≡ value_of (counted done pending version)) }
{
    json!(in alloc; {"done": done, "pending": pending, "version": version})
}

// Lines under a key.
fn reported(alloc: Global, lines: Vec<Value>, version: u64) -> Result<Value, AllocError>
    ensures { IfOk result (λ v. view v ≡ object (member (codes "report") (array (items_view lines.items)) (member (codes "version") (count version) no_members))) }
{
    let lines = Value::Array(lines);
    json!(in alloc; {"report": lines, "version": version})
}

fn summed(alloc: Global, lines: Vec<Value>, version: u64) -> Result<Value, AllocError>
    ensures { IfOk result (λ v. view v ≡ object (member (codes "sums") (array (items_view lines.items)) (member (codes "version") (count version) no_members))) }
{
    let lines = Value::Array(lines);
    json!(in alloc; {"sums": lines, "version": version})
}

fn proved(alloc: Global, lines: Vec<Value>, version: u64) -> Result<Value, AllocError>
    ensures { IfOk result (λ v. view v ≡ object (member (codes "proofs") (array (items_view lines.items)) (member (codes "version") (count version) no_members))) }
{
    let lines = Value::Array(lines);
    json!(in alloc; {"proofs": lines, "version": version})
}

// A refusal.
fn error(alloc: Global, word: &str) -> Result<Value, AllocError>
    ensures { IfOk result (λ v. view v ≡ object (error word.now)) }
{
    json!(in alloc; {"error": word})
}

// A refusal of a name.
fn error_of(alloc: Global, word: &str, name: &str) -> Result<Value, AllocError>
    ensures { IfOk result (λ v. view v ≡ object (error_of word.now name.now)) }
{
    json!(in alloc; {"error": word, "name": name})
}

// A line that is no request.
fn refused(alloc: Global, why: BadRequest) -> Result<Value, AllocError>
    ensures { IfOk result (λ v. view v ≡ value_of (refusal_view why)) }
{
    match why {
        BadRequest::Json => error(alloc, "Json"),
        BadRequest::Op => error(alloc, "Op"),
        BadRequest::Field => error(alloc, "Field"),
        BadRequest::Long => error(alloc, "Long"),
        BadRequest::Memory => error(alloc, "Memory"),
    }
}

// A program's fault.
fn fault(
    alloc: Global,
    kind: &str,
    decl: &str,
    place: Place,
    word: &str,
) -> Result<Value, AllocError>
    ensures { IfOk result (λ v. view v ≡ value_of (fault kind.now decl.now place.line place.col word.now)) }
{
    let at = place.to_string(alloc)?;
    json!(in alloc; {"fault": kind, "in": decl, "place": at, "word": word})
}

// The value of a reply.
fn value_of(alloc: Global, reply: &Reply) -> Result<Value, AllocError>
    ensures { IfOk result (λ v. view v ≡ value_of (reply_view reply.now)) }
{
    match reply {
        Reply::Accepted {
            goals,
            rebuilt,
            version,
        } => accepted(alloc, *goals, *rebuilt, *version),
        Reply::Status {
            done,
            pending,
            version,
        } => counted(alloc, *done, *pending, *version),
        Reply::Report { lines, version } => Ok(reported(alloc, strings(alloc, lines)?, *version)?),
        Reply::Sums { lines, version } => Ok(summed(alloc, strings(alloc, lines)?, *version)?),
        Reply::Proofs { lines, version } => Ok(proved(alloc, strings(alloc, lines)?, *version)?),
        Reply::Quit => json!(in alloc; {"ok": true}),
        Reply::Bad(why) => refused(alloc, *why),
        Reply::Memory => error(alloc, "Memory"),
        Reply::Absent(name) => error_of(alloc, "Absent", name.as_str()),
        Reply::Name(name) => error_of(alloc, "Name", name.as_str()),
        Reply::Fault {
            kind,
            decl,
            place,
            word,
        } => fault(alloc, kind.as_str(), decl.as_str(), *place, word.as_str()),
    }
}

// Lets go of a reply without lines.
fn discard(_reply: Reply) {}

// The value of a reply whose lines are moved.
fn moved_value(alloc: Global, reply: Reply) -> Result<Value, AllocError>
    ensures { IfOk result (λ v. view v ≡ value_of (reply_view reply)) }
{
    match reply {
        Reply::Report { lines, version } => {
            Ok(reported(alloc, moved_strings(alloc, lines)?, version)?)
        }
        Reply::Sums { lines, version } => Ok(summed(alloc, moved_strings(alloc, lines)?, version)?),
        Reply::Proofs { lines, version } => Ok(proved(
            alloc,
            moved_strings(alloc, lines)?,
            version,
        )?),
        other => {
            let value = value_of(alloc, &other);
            discard(other);
            value
        }
    }
}

// The bytes of a value without floats, and a line feed.
fn line_of(alloc: Global, value: &Value) -> Result<Vec<u8>, AllocError>
    requires { has_float (view value.now) ≡ false }
    ensures { IfOk result (λ v. v.items ≡ compact_text (view value.now) ++ 10 ∷ []) }
{
    let mut bytes = value.to_vec(alloc)?;
    bytes.push(b'\n')?;
    Ok(bytes)
}

/// The bytes of a reply: one JSON object without blanks, its keys in rising order, and a line feed.
pub fn write_reply(alloc: Global, reply: &Reply) -> Result<Vec<u8>, AllocError>
    ensures { IfOk result (λ v. v.items ≡ reply_text (reply_view reply.now)) }
{
    let value = value_of(alloc, reply)?;
    let bytes = line_of(alloc, &value)?;
    Ok(bytes)
}

impl Reply {
    /// The same bytes, of a reply that is let go of: its lines are moved, not copied.
    pub fn into_bytes(self, alloc: Global) -> Result<Vec<u8>, AllocError>
        ensures { IfOk result (λ v. v.items ≡ reply_text (reply_view self)) }
    {
        let value = moved_value(alloc, self)?;
        let bytes = line_of(alloc, &value)?;
        Ok(bytes)
    }
}
