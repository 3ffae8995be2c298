//! Packets of metadata (the extension `KHR_xmp_json_ld`), and the pointers of animations (the
//! extension `KHR_animation_pointer`).
ghost use Rattle.std.specs.Prelude.{◌≡◌, MatchResult, map};
ghost use Rattle.serde_json.specs.View.{view};
ghost use Rattle.gltf_extensions.specs.Metadata.{IsPointer, IsPacket, IsNoPacket, packets_of};

use crate::fault::{ExtensionFault, of_record};
use gltf_extension_records::others::{AnimationPointer, XmpPacket};
use gltf_json_record::read::{FromValue, member};
use gltf_validation::error::Error;
use gltf_validation::location::Location;
use gltf_validation::report::Report;
use serde_json::Value;
use std::alloc::Global;

/// What the channel of an animation changes (the extension `KHR_animation_pointer`), by the JSON
/// value of the channel's target. The records of the loader keep no extension there, and a target
/// without a node is refused: so the value comes from the text of the file.
pub fn animation_pointer(
    alloc: Global,
    target: &Value,
) -> Option<Result<AnimationPointer, ExtensionFault>>
    ensures { IsPointer (view target.now) result }
{
    let value = member(member(target, "extensions")?, "KHR_animation_pointer")?;
    match AnimationPointer::from_value(alloc, value) {
        Ok(pointer) => Some(Ok(pointer)),
        Err(error) => Some(Err(of_record(error))),
    }
}

/// The packets of metadata of a document, by its extension `KHR_xmp_json_ld`: `packets`. There are
/// none where the extension is no object with such a list.
pub fn xmp_packets(extension: &Value) -> &[Value]
    ensures { map view result.now ≡ packets_of (view extension.now) }
{
    match member(extension, "packets") {
        Some(packets) => match packets.as_array() {
            Some(packets) => packets.as_slice(),
            None => &[],
        },
        None => &[],
    }
}

/// The packet that the extension `KHR_xmp_json_ld` of an object names, out of those of the document
/// ([`xmp_packets`]). An index that is not below their number is a fault.
pub fn xmp_packet<'p>(
    alloc: Global,
    packets: &'p [Value],
    extension: &Value,
) -> Result<&'p Value, ExtensionFault>
    ensures { MatchResult result
        (λ packet. IsPacket packets.now (view extension.now) packet.now)
        (IsNoPacket packets.now (view extension.now)) }
{
    let index = match XmpPacket::from_value(alloc, extension) {
        Ok(record) => record.packet as usize,
        Err(error) => return Err(of_record(error)),
    };
    if index < packets.len() {
        Ok(&packets[index])
    } else {
        let mut report = Report::new(alloc);
        report.add(
            &Location::Member(&Location::Whole, "packet"),
            Error::IndexOutOfBounds,
        )?;
        Err(ExtensionFault::Rules(report.into_faults()))
    }
}
