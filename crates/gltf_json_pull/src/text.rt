//! Whole texts.
ghost use Rattle.std.specs.Prelude.{IfSome};
ghost use Rattle.gltf_json_pull.specs.Pulls.{IsOfText};

use crate::pull::FromToken;
use json::{Reader, Scratch};
use std::alloc::Global;

// As deep as `serde_json` reads.
const MAX_DEPTH: usize = 127;

/// The reading of the JSON text that the bytes are. None may come at any bytes, and says nothing of
/// them.
pub fn pull<T: FromToken>(alloc: Global, bytes: &[u8]) -> Option<T>
    ensures { IfSome result (IsOfText T.kind bytes.now) }
{
    let Ok(text) = simdutf8::basic::from_utf8(bytes) else {
        return None;
    };
    let mut scratch = Scratch::new(alloc);
    let Ok(mut rest) = Reader::new(text, &mut scratch) else {
        return None;
    };
    let first = rest.next()?;
    let read = T::from_token(alloc, first, &mut rest, MAX_DEPTH)?;
    if rest.next().is_some() {
        return None;
    }
    Some(read)
}
