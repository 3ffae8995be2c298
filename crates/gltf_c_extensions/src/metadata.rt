//! Packets of metadata (`KHR_xmp_json_ld`).
ghost use Rattle.std.specs.Prelude.{◌≡◌, length};
ghost use Rattle.serde_json.specs.View.{view};
ghost use Rattle.gltf_extensions.specs.Metadata.{packets_of};
ghost use Rattle.gltf_c_extensions.specs.Metadata.{IsPacket, IsPacketOf, packet_count};

use crate::reading::Missing;
use gltf_c_look::json::{extension, extension_at};
use gltf_c_scene::kind::Kind;
use gltf_extension_records::others::XmpPacket;
use gltf_extensions::xmp_packets;
use gltf_json::Root;
use gltf_json_record::error::Error;
use gltf_json_record::read as record;
use serde_json::Value;
use std::alloc::Global;

/// The packet that describes the record of a kind at an index, by its number in the list of the
/// root. `part` is the number of a primitive in its mesh, and of no matter for the other kinds.
pub fn xmp_packet(
    alloc: Global,
    root: &Root,
    kind: u32,
    index: usize,
    part: usize,
) -> Result<usize, Missing>
    ensures { IsPacket kind index part root.now result }
{
    match extension(root, kind, index, part, "KHR_xmp_json_ld") {
        Some(value) => packet_of(alloc, value, packet_count(root)),
        None => Err(Missing::Absent),
    }
}

/// The packet that an extension names, out of so many.
fn packet_of(alloc: Global, value: &Value, count: usize) -> Result<usize, Missing>
    ensures { IsPacketOf count (view value.now) result }
{
    let read: XmpPacket = match record::read(alloc, value) {
        Ok(read) => read,
        Err(Error::Memory) => return Err(Missing::Memory),
        Err(_) => return Err(Missing::Bad),
    };
    let packet = read.packet as usize;
    if packet < count {
        Ok(packet)
    } else {
        Err(Missing::Bad)
    }
}

/// How many packets a document has.
fn packet_count(root: &Root) -> usize
    ensures { result ≡ packet_count root.now }
{
    match extension_at(root, Kind::Root, 0, "KHR_xmp_json_ld") {
        Some(value) => count_in(value),
        None => 0,
    }
}

fn count_in(value: &Value) -> usize
    ensures { result ≡ length (packets_of (view value.now)) }
{
    xmp_packets(value).len()
}
