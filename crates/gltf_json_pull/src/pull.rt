//! Values that hold no records, and lists, read from the tokens of a text.
ghost use Rattle.std.specs.Prelude.{◌∷◌, ◌≤◌, IfSome};
ghost use Rattle.serde_json.specs.Read.{max_depth};
ghost use Rattle.gltf_json_pull.specs.Pulls.{IsMemberPulled};

use gltf_json_record::boxed::Boxed;
use gltf_json_record::extensions::Others;
use gltf_json_record::index::Index;
use gltf_json_record::read::FromValue;
use gltf_json_record::validation::{Checked, Code};
use gltf_json_tokens::build::build;
use gltf_json_tokens::number::number;
use json::{Reader, Token};
use serde_json::Value;
use std::alloc::Global;

/// A type that is read from the tokens of a text.
pub trait FromToken: FromValue {
    ghost use Rattle.std.specs.Prelude.{◌∷◌, ◌≤◌, IfSome};
    ghost use Rattle.json.specs.Reads.{token_of};
    ghost use Rattle.serde_json.specs.Read.{max_depth};
    ghost use Rattle.gltf_json_pull.specs.Pulls.{IsPulled};

    /// The reading of the value that begins with the token `first` and nests at most `depth` deep.
    /// The tokens after it stay in `rest`. None may come at any value, and says nothing of it. A
    /// type that does not say how is read from a JSON value, which is dropped at once.
    fn from_token(
        alloc: Global,
        first: Token<'_>,
        rest: &mut Reader<'_>,
        depth: usize,
    ) -> Option<Self>
    where
        Self: Sized,
        requires { depth ≤ max_depth }
        ensures { IfSome result
            (λ x. IsPulled Self.kind depth (token_of first.entry ∷ rest.old) x rest.new) }
    {
        let Ok(Some(value)) = build(alloc, first, rest, depth) else {
            return None;
        };
        Self::from_value(alloc, &value).ok()
    }
}

/// The reading of a member whose value comes next. It is absent where the value is null.
#[inline(always)]
pub fn member<T: FromToken>(alloc: Global, rest: &mut Reader<'_>, depth: usize) -> Option<Option<T>>
    requires { depth ≤ max_depth }
    ensures { IfSome result (λ x. IsMemberPulled T.kind depth rest.old x rest.new) }
{
    let first = rest.next()?;
    if let Token::Null = first {
        return Some(None);
    }
    Some(Some(T::from_token(alloc, first, rest, depth)?))
}

impl FromToken for String {
    #[inline(always)]
    fn from_token(
        alloc: Global,
        first: Token<'_>,
        _rest: &mut Reader<'_>,
        _depth: usize,
    ) -> Option<String> {
        match first {
            Token::String(text) => {
                let Ok(copy) = String::from_str(alloc, text) else {
                    return None;
                };
                Some(copy)
            }
            _ => None,
        }
    }
}

impl FromToken for bool {
    #[inline(always)]
    fn from_token(
        _alloc: Global,
        first: Token<'_>,
        _rest: &mut Reader<'_>,
        _depth: usize,
    ) -> Option<bool> {
        match first {
            Token::Bool(flag) => Some(flag),
            _ => None,
        }
    }
}

impl FromToken for u64 {
    #[inline(always)]
    fn from_token(
        _alloc: Global,
        first: Token<'_>,
        _rest: &mut Reader<'_>,
        _depth: usize,
    ) -> Option<u64> {
        match first {
            Token::Number(text) => {
                let found = number(text)?;
                let whole = found.as_u64()?;
                Some(whole)
            }
            _ => None,
        }
    }
}

impl FromToken for u32 {
    #[inline(always)]
    fn from_token(
        alloc: Global,
        first: Token<'_>,
        rest: &mut Reader<'_>,
        depth: usize,
    ) -> Option<u32> {
        let number = u64::from_token(alloc, first, rest, depth)?;
        if number <= 0xffff_ffff {
            Some(number as u32)
        } else {
            None
        }
    }
}

impl<T> FromToken for Index<T> {
    #[inline(always)]
    fn from_token(
        alloc: Global,
        first: Token<'_>,
        rest: &mut Reader<'_>,
        depth: usize,
    ) -> Option<Index<T>> {
        Some(Index::new(u32::from_token(alloc, first, rest, depth)?))
    }
}

impl FromToken for Value {
    #[inline(always)]
    fn from_token(
        alloc: Global,
        first: Token<'_>,
        rest: &mut Reader<'_>,
        depth: usize,
    ) -> Option<Value> {
        let Ok(Some(value)) = build(alloc, first, rest, depth) else {
            return None;
        };
        Some(value)
    }
}

impl<T: Code> FromToken for Checked<T> {}

impl FromToken for Others {}

impl<T: FromToken> FromToken for Boxed<T> {
    #[inline(always)]
    fn from_token(
        alloc: Global,
        first: Token<'_>,
        rest: &mut Reader<'_>,
        depth: usize,
    ) -> Option<Boxed<T>> {
        let record = T::from_token(alloc, first, rest, depth)?;
        let Ok(boxed) = Boxed::new(alloc, record) else {
            return None;
        };
        Some(boxed)
    }
}

impl<T: FromToken> FromToken for Vec<T> {
    fn from_token(
        alloc: Global,
        first: Token<'_>,
        rest: &mut Reader<'_>,
        depth: usize,
    ) -> Option<Vec<T>> {
        let Token::BeginArray = first else {
            return None;
        };
        if depth == 0 {
            return None;
        }
        let mut list = Vec::new(alloc);
        'items: while !rest.take_end_array() {
            let next = rest.next()?;
            let item = T::from_token(alloc, next, rest, depth - 1)?;
            let Ok(()) = list.push(item) else {
                return None;
            };
        }
        list.shrink_to_fit();
        Some(list)
    }
}
