//! Values, built from the tokens of a text.
ghost use Rattle.std.specs.Prelude.{◌∷◌, ◌≤◌, IfOk};
ghost use Rattle.json.specs.Token.{begin_array, begin_object};
ghost use Rattle.json.specs.Reads.{token_of};
ghost use Rattle.serde_json.specs.Read.{max_depth};
ghost use Rattle.gltf_json_tokens.specs.Tokens.{IsNext};

use crate::number::number;
use json::{Reader, Token};
use serde_json::{Map, Value};
use std::alloc::{AllocError, Global};

/// The value that begins with the token `first`, as `serde_json` reads it. None where none does:
/// where a token does not fit the grammar, where a number is out of range, or where arrays and
/// objects nest deeper than `depth`. The tokens after it stay in `rest`. It calls itself as deep, and
/// so takes a depth that is at most that of `serde_json`.
#[cycle(build)]
#[inline(always)]
pub fn build(
    alloc: Global,
    first: Token<'_>,
    rest: &mut Reader<'_>,
    depth: usize,
) -> Result<Option<Value>, AllocError>
    requires { depth ≤ max_depth }
    ensures { IfOk result
        (λ value. IsNext depth (token_of first.entry ∷ rest.old) value rest.new) }
{
    match first {
        Token::Null => Ok(Some(Value::Null)),
        Token::Bool(flag) => Ok(Some(Value::Bool(flag))),
        Token::Number(text) => match number(text) {
            Some(number) => Ok(Some(Value::Number(number))),
            None => Ok(None),
        },
        Token::String(text) => Ok(Some(Value::String(String::from_str(alloc, text)?))),
        Token::BeginArray => array(alloc, rest, depth),
        Token::BeginObject => object(alloc, rest, depth),
        Token::EndArray | Token::EndObject | Token::Key(_) | Token::Bad => Ok(None),
    }
}

// The array whose opening bracket has been taken.
#[cycle(build)]
#[inline(never)]
fn array(alloc: Global, rest: &mut Reader<'_>, depth: usize) -> Result<Option<Value>, AllocError>
    requires { depth ≤ max_depth }
    ensures { IfOk result (λ value. IsNext depth (begin_array ∷ rest.old) value rest.new) }
{
    if depth == 0 {
        return Ok(None);
    }
    let mut items = Vec::new(alloc);
    'items: while !rest.take_end_array() {
        let Some(first) = rest.next() else {
            return Ok(None);
        };
        let Some(item) = build(alloc, first, rest, depth - 1)? else {
            return Ok(None);
        };
        items.push(item)?;
    }
    Ok(Some(Value::Array(items)))
}

// The object whose opening brace has been taken. The last of several members of one name stays.
#[cycle(build)]
#[inline(never)]
fn object(alloc: Global, rest: &mut Reader<'_>, depth: usize) -> Result<Option<Value>, AllocError>
    requires { depth ≤ max_depth }
    ensures { IfOk result (λ value. IsNext depth (begin_object ∷ rest.old) value rest.new) }
{
    if depth == 0 {
        return Ok(None);
    }
    let mut members = Map::new(alloc);
    'members: loop {
        let name = match rest.next_key() {
            Ok(Some(name)) => String::from_str(alloc, name)?,
            Ok(None) => return Ok(Some(Value::Object(members))),
            Err(_) => return Ok(None),
        };
        let Some(first) = rest.next() else {
            return Ok(None);
        };
        let Some(member) = build(alloc, first, rest, depth - 1)? else {
            return Ok(None);
        };
        drop(members.insert(name, member)?);
    }
}
