//! Members of a name in some parts of a text, looked for in its tokens.
ghost use Rattle.std.specs.Prelude.{◌≡◌, ◌≢◌, ◌∷◌, map, true, Some, IfSome};
ghost use Rattle.json.specs.Token.{begin_array, begin_object};
ghost use Rattle.json.specs.Reads.{token_of};
ghost use Rattle.serde_json.specs.Data.{Data};
ghost use Rattle.serde_json.specs.Read.{read};
ghost use Rattle.gltf_json_keys.specs.Keys.{PartsLack, is_among};
ghost use Rattle.gltf_json_keys.specs.Passed.{JsonLacks, Next, NextObject};

use json::{Reader, Scratch, Token};
use std::alloc::Global;

// As deep as `serde_json` reads.
const MAX_DEPTH: usize = 127;

/// Whether some members of the object that a JSON text is, all that have one of these names, surely
/// have no member `name` in them, at any depth. It goes over the text once, and makes no JSON value.
/// It takes as much memory as the text at most.
///
/// Where it answers false, there may be such a member or not: the text may be no object, or there may
/// be no memory.
pub fn parts_lack(alloc: Global, text: &[u8], parts: &[&str], name: &str) -> bool
    ensures { result ≡ true → (d : Data) → read text.now ≡ Some d
        → PartsLack (map (λ k. k.now) parts.now) name.now d }
{
    pass_text(alloc, text, parts, name).is_some()
}

// Passes over a text whose parts lack the name. None says nothing, here and below.
fn pass_text(alloc: Global, text: &[u8], parts: &[&str], name: &str) -> Option<()>
    ensures { IfSome result (λ _. (d : Data) → read text.now ≡ Some d
        → PartsLack (map (λ k. k.now) parts.now) name.now d) }
{
    let Ok(text) = simdutf8::basic::from_utf8(text) else {
        return None;
    };
    let mut scratch = Scratch::new(alloc);
    let Ok(mut rest) = Reader::new(text, &mut scratch) else {
        return None;
    };
    let Some(Token::BeginObject) = rest.next() else {
        return None;
    };
    pass_parts(&mut rest, parts, name)
}

// Passes over the members of the whole object, whose opening brace has been taken.
fn pass_parts(rest: &mut Reader<'_>, parts: &[&str], name: &str) -> Option<()>
    ensures { IfSome result (λ _. NextObject (map (λ k. k.now) parts.now) name.now 127
        (begin_object ∷ rest.old) rest.new) }
{
    'members: loop {
        match rest.next_key() {
            Ok(Some(key)) => pass_part(key, rest, parts, name)?,
            Ok(None) => return Some(()),
            Err(_) => return None,
        }
    }
}

// Passes over the value of a member of the whole object, which lacks the name if it is a part.
fn pass_part(key: &str, rest: &mut Reader<'_>, parts: &[&str], name: &str) -> Option<()>
    ensures { IfSome result (λ _. Next
        (λ j. is_among (map (λ k. k.now) parts.now) key.now ≡ true → JsonLacks name.now j) 126
        rest.old rest.new) }
{
    if is_among(parts, key) {
        let first = rest.next()?;
        pass_value(first, rest, MAX_DEPTH - 1, name)
    } else {
        let Ok(()) = rest.skip_value(MAX_DEPTH - 1) else {
            return None;
        };
        Some(())
    }
}

fn is_among(names: &[&str], name: &str) -> bool
    ensures { result ≡ is_among (map (λ k. k.now) names.now) name.now }
{
    names.contains(&name)
}

// Passes over a value that lacks the name; `first` is the first of its tokens.
#[cycle(pass)]
fn pass_value(first: Token<'_>, rest: &mut Reader<'_>, depth: usize, name: &str) -> Option<()>
    ensures { IfSome result (λ _. Next (JsonLacks name.now) depth (token_of first.entry ∷ rest.old)
        rest.new) }
{
    match first {
        Token::Null | Token::Bool(_) | Token::Number(_) | Token::String(_) => Some(()),
        Token::BeginArray => pass_array(rest, depth, name),
        Token::BeginObject => pass_object(rest, depth, name),
        Token::EndArray | Token::EndObject | Token::Key(_) | Token::Bad => None,
    }
}

// The array whose opening bracket has been taken.
#[cycle(pass)]
fn pass_array(rest: &mut Reader<'_>, depth: usize, name: &str) -> Option<()>
    ensures { IfSome result (λ _. Next (JsonLacks name.now) depth (begin_array ∷ rest.old)
        rest.new) }
{
    if depth == 0 {
        return None;
    }
    'items: while !rest.take_end_array() {
        let first = rest.next()?;
        pass_value(first, rest, depth - 1, name)?;
    }
    Some(())
}

// The object whose opening brace has been taken.
#[cycle(pass)]
fn pass_object(rest: &mut Reader<'_>, depth: usize, name: &str) -> Option<()>
    ensures { IfSome result (λ _. Next (JsonLacks name.now) depth (begin_object ∷ rest.old)
        rest.new) }
{
    if depth == 0 {
        return None;
    }
    'members: loop {
        match rest.next_key() {
            Ok(Some(key)) => pass_member(key, rest, depth - 1, name)?,
            Ok(None) => return Some(()),
            Err(_) => return None,
        }
    }
}

// The value of a member with another name.
#[cycle(pass)]
fn pass_member(key: &str, rest: &mut Reader<'_>, depth: usize, name: &str) -> Option<()>
    ensures { IfSome result (λ _. (key.now ≢ name.now)
        × Next (JsonLacks name.now) depth rest.old rest.new) }
{
    if key == name {
        return None;
    }
    let first = rest.next()?;
    pass_value(first, rest, depth, name)
}
