//! Bytes that a word gives as a JSON text in quotes.
ghost use Rattle.std.specs.Prelude.{◌≡◌, IfOk, option_map};
ghost use Rattle.std.specs.Str.{chars};
ghost use Rattle.serde_json.specs.Read.{read};
ghost use Rattle.serde_json.specs.View.{view};
ghost use Rattle.gw_requests.specs.Quoted as quoted;

use gw_text::NoMemory;
use serde_json::Value;
use serde_json::error::Category;
use std::alloc::{AllocError, Global};

/// The bytes for which the characters of a JSON text in quotes stand, each by its number.
#[tactic(auto, unfolding(crate::specs::Quoted::quoted_bytes))]
pub fn quoted_bytes(alloc: Global, word: &str) -> Result<Option<Vec<u8>>, NoMemory>
    ensures { IfOk result (λ bytes. option_map (λ v. v.items) bytes ≡ quoted.quoted_bytes word.now) }
{
    let Some(value) = json(alloc, word)? else {
        return Ok(None);
    };
    match value.as_str() {
        Some(text) => bytes_in(alloc, text),
        None => Ok(None),
    }
}

fn json(alloc: Global, word: &str) -> Result<Option<Value>, NoMemory>
    ensures { IfOk result (λ value. option_map view value ≡ read word.now) }
{
    match Value::from_str(alloc, word) {
        Ok(value) => Ok(Some(value)),
        Err(error) => match error.classify() {
            Category::Memory => Err(AllocError),
            _ => Ok(None),
        },
    }
}

/// The bytes for which the characters of a text stand, each by its number, where none is above U+00FF.
pub fn bytes_in(alloc: Global, text: &str) -> Result<Option<Vec<u8>>, NoMemory>
    ensures { IfOk result (λ bytes. option_map (λ v. v.items) bytes ≡ quoted.bytes_in (chars text.now)) }
{
    let mut bytes = Vec::new(alloc);
    'characters: for character in text.chars() {
        let Ok(byte) = u8::try_from(character) else {
            return Ok(None);
        };
        bytes.push(byte)?;
    }
    Ok(Some(bytes))
}
