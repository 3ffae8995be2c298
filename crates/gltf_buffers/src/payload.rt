//! The bytes of an embedded payload, and the zeros after the bytes of a buffer.
ghost use Rattle.std.specs.Prelude.{◌≡◌, ◌≤◌, Ok, Err, IfOk, IfErr, length};
ghost use Rattle.std.specs.Cow.{cow_slice_items, IsBorrowedSlice};
ghost use Rattle.base64.specs.GeneralPurpose.{decode_of, IsDecodedInto, IsDecodeFailure};
ghost use Rattle.base64.specs.Decode.{decoded_estimate};
ghost use Rattle.gltf_buffers.specs.Payload.{missing_signs, completed_text, payload_bytes};
ghost use Rattle.gltf_buffers.specs.Payload.{IsFailure};

use base64::engine::general_purpose::{GeneralPurpose, STANDARD};
use base64::{DecodeAllocError, DecodeError, DecodeSliceError, decoded_len_estimate};
use std::alloc::{AllocError, Global};
use std::borrow::CowSlice;

mod padding;

pub use padding::pad_to_four;

// The decoder is a parameter here and in `decoded`, so that no proof looks into its tables.

/// Decodes a text into a buffer that has room for it, and gives the number of bytes.
fn decoded_into(
    decoder: &GeneralPurpose,
    text: &[u8],
    bytes: &mut [u8],
) -> Result<usize, DecodeError>
    requires { decoded_estimate (length text.now) ≤ length bytes.old }
    ensures ok { IfOk result (λ n. IsDecodedInto decoder.now text.now n bytes.old bytes.new) }
    ensures err { IfErr result (λ e. decode_of decoder.now text.now ≡ Err e) }
{
    match decoder.decode_slice(text, bytes) {
        Ok(count) => Ok(count),
        Err(DecodeSliceError::DecodeError(fault)) => Err(fault),
        Err(DecodeSliceError::OutputSliceTooSmall) => unreachable!(),
    }
}

/// The bytes of a text, in a buffer that is grown once: three bytes for each begun group of four
/// characters.
fn decoded(
    alloc: Global,
    decoder: &GeneralPurpose,
    text: &[u8],
) -> Result<Vec<u8>, DecodeAllocError>
    ensures ok { IfOk result (λ bytes. decode_of decoder.now text.now ≡ Ok bytes.items) }
    ensures err { IfErr result (IsDecodeFailure decoder.now text.now) }
{
    let mut bytes = vec![in alloc; 0u8; decoded_len_estimate(text.len())]?;
    let count = decoded_into(decoder, text, &mut bytes)?;
    bytes.truncate(count);
    Ok(bytes)
}

/// A text with the `=` that it lacks; it is lent where it lacks none.
fn completed_text(alloc: Global, text: &[u8]) -> Result<CowSlice<'_, u8>, AllocError>
    ensures items { IfOk result (λ whole. cow_slice_items whole ≡ completed_text text.now) }
    ensures lent { IfOk result (λ whole. missing_signs (length text.now) ≡ 0
        → IsBorrowedSlice whole) }
{
    let marks: &[u8] = match text.len() % 4 {
        2 => b"==",
        3 => b"=",
        _ => return Ok(CowSlice::Borrowed(text)),
    };
    let mut whole = Vec::with_capacity(alloc, text.len() + marks.len())?;
    whole.extend_from_slice(text)?;
    whole.extend_from_slice(marks)?;
    Ok(CowSlice::Owned(whole))
}

/// The bytes that a payload spells in base64 (RFC 4648, section 4), as an embedded buffer or image
/// carries it (glTF 2.0, section 2.8).
///
/// Where the payload's length in bytes leaves 2 or 3 when divided by four, two or one `=` are put
/// after it first. Any other payload is decoded as it is.
///
/// `DecodeError` is the fault of the payload with the `=` added, and `OutOfMemory` says that there
/// was not enough memory.
#[tactic(auto, unfolding(crate::specs::Payload::payload_bytes))]
pub fn decode(alloc: Global, payload: &str) -> Result<Vec<u8>, DecodeAllocError>
    ensures ok { IfOk result (λ bytes. payload_bytes payload.now ≡ Ok bytes.items) }
    ensures err { IfErr result (IsFailure payload.now) }
{
    let text = completed_text(alloc, payload.as_bytes())?;
    decoded(alloc, &STANDARD, text.as_slice())
}
