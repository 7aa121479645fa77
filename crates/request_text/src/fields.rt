// The fields of a request.
ghost use Rattle.std.specs.Prelude.{◌≡◌, map, Some, option_map, string_bytes, IfOk};
ghost use Rattle.serde_json.specs.View.{view, items_view};
ghost use Rattle.serde_json.specs.Find.{get, as_str};
ghost use Rattle.request_text.specs.Reading.{text_at, of_each, list_at, put_of};
ghost use Rattle.request_text.specs.RequestView.{put_view};

use crate::request::Put;
use serde_json::Value;
use std::alloc::{AllocError, Global};

/// The text at this key.
pub fn text_at<'a>(fields: &'a Value, key: &str) -> Option<&'a str>
    ensures { option_map (λ s. s.now) result ≡ text_at key.now (view fields.now) }
{
    match fields.get(key) {
        Some(field) => field.as_str(),
        None => None,
    }
}

// The texts that the items are, where each is one.
fn texts(alloc: Global, items: &[Value]) -> Result<Option<Vec<String>>, AllocError>
    ensures { IfOk result (λ o. option_map (λ v. map string_bytes v.items) o ≡ of_each as_str (items_view items.now)) }
{
    let mut texts = Vec::new(alloc);
    for item in items {
        match item.as_str() {
            Some(text) => texts.push(String::from_str(alloc, text)?)?,
            None => return Ok(None),
        }
    }
    Ok(Some(texts))
}

/// The texts in the array at this key; none where there is no array.
pub fn texts_at(alloc: Global, fields: &Value, key: &str) -> Result<Option<Vec<String>>, AllocError>
    ensures { IfOk result (λ o. option_map (λ v. map string_bytes v.items) o ≡ list_at as_str (get key.now (view fields.now))) }
{
    match fields.get(key) {
        Some(list) => match list.as_array() {
            Some(items) => texts(alloc, items),
            None => Ok(None),
        },
        None => Ok(Some(Vec::new(alloc))),
    }
}

// The declaration that an object puts in.
fn put_of(alloc: Global, fields: &Value) -> Result<Option<Put>, AllocError>
    ensures { IfOk result (λ o. option_map put_view o ≡ put_of (view fields.now)) }
{
    match text_at(fields, "name") {
        Some(name) => match text_at(fields, "text") {
            Some(text) => {
                let name = String::from_str(alloc, name)?;
                let text = String::from_str(alloc, text)?;
                Ok(Some(Put { name, text }))
            }
            None => Ok(None),
        },
        None => Ok(None),
    }
}

// The declarations that the items put in, where each is one.
fn puts(alloc: Global, items: &[Value]) -> Result<Option<Vec<Put>>, AllocError>
    ensures { IfOk result (λ o. option_map (λ v. map put_view v.items) o ≡ of_each put_of (items_view items.now)) }
{
    let mut puts = Vec::new(alloc);
    for item in items {
        match put_of(alloc, item)? {
            Some(put) => puts.push(put)?,
            None => return Ok(None),
        }
    }
    Ok(Some(puts))
}

/// The declarations in the array at this key; none where there is no array.
pub fn puts_at(alloc: Global, fields: &Value, key: &str) -> Result<Option<Vec<Put>>, AllocError>
    ensures { IfOk result (λ o. option_map (λ v. map put_view v.items) o ≡ list_at put_of (get key.now (view fields.now))) }
{
    match fields.get(key) {
        Some(list) => match list.as_array() {
            Some(items) => puts(alloc, items),
            None => Ok(None),
        },
        None => Ok(Some(Vec::new(alloc))),
    }
}
