//! What readers of a document give.
use crate::lists::first_primitive;
use gltf::animation::Channel;
use gltf::animation::iter::Channels;
use gltf::buffer::{Data, bytes_of};
use gltf::{Buffer, Document, animation, mesh, skin};
use gltf_case::asked::Asked;
use gltf_case::shown::Written;
use gltf_lines::{
    write_channel, write_channel_casts, write_primitive, write_primitive_casts, write_skin,
};

/// Writes what readers give, or with the call `cast` what is cast of that: `readers SET` and
/// `cast READER CALL..`.
pub(crate) fn write(
    document: &Document,
    buffers: &[Data],
    asked: Asked<'_>,
    line: &mut String,
) -> Written {
    let bytes = |buffer: Buffer| bytes_of(buffers, buffer);
    if asked.call == "cast" {
        let (name, calls) = asked.words.split_once(" ").unwrap_or((asked.words, ""));
        write_casts(document, &bytes, name, calls, line)
    } else {
        let set = asked.word(0).parse::<u32>().unwrap_or(0);
        write_reads(document, &bytes, set, line)
    }
}

/// Writes what each reader gives of the first primitive of the first mesh, with this set of
/// attributes, of the first skin, and of the channels of the first animation.
fn write_reads<'s, F: Fn(Buffer) -> Option<&'s [u8]>>(
    document: &Document,
    bytes: &F,
    set: u32,
    line: &mut String,
) -> Written
    requires { F.IsAlwaysCallable bytes.now }
{
    write_first_primitive(document, bytes, set, line)?;
    write_first_skin(document, bytes, line)?;
    write_first_animation(document, bytes, line)
}

/// Writes what each reader gives of the first primitive of the first mesh.
fn write_first_primitive<'s, F: Fn(Buffer) -> Option<&'s [u8]>>(
    document: &Document,
    bytes: &F,
    set: u32,
    line: &mut String,
) -> Written
    requires { F.IsAlwaysCallable bytes.now }
{
    match first_primitive(document) {
        Some(primitive) => write_primitive(&mesh::Reader::new(&primitive, bytes), set, line),
        None => Ok(()),
    }
}

/// Writes what the reader of the first skin gives.
fn write_first_skin<'s, F: Fn(Buffer) -> Option<&'s [u8]>>(
    document: &Document,
    bytes: &F,
    line: &mut String,
) -> Written
    requires { F.IsAlwaysCallable bytes.now }
{
    match document.skins().nth(0) {
        Some(skin) => write_skin(&skin::Reader::new(&skin, bytes), line),
        None => Ok(()),
    }
}

/// Writes what each reader gives of the channels of the first animation.
fn write_first_animation<'s, F: Fn(Buffer) -> Option<&'s [u8]>>(
    document: &Document,
    bytes: &F,
    line: &mut String,
) -> Written
    requires { F.IsAlwaysCallable bytes.now }
{
    match document.animations().nth(0) {
        Some(animation) => write_channels(animation.channels(), bytes, line),
        None => Ok(()),
    }
}

/// Writes what each reader gives of these channels.
fn write_channels<'s, F: Fn(Buffer) -> Option<&'s [u8]>>(
    mut channels: Channels<'_>,
    bytes: &F,
    line: &mut String,
) -> Written
    requires { F.IsAlwaysCallable bytes.now }
{
    for _ in 0..channels.len() {
        if let Some(channel) = channels.next() {
            write_channel(&animation::Reader::new(&channel, bytes), line)?;
        }
    }
    Ok(())
}

/// Writes what is cast of what the reader of this name gives. Outputs are those of the first
/// channel of the first animation.
fn write_casts<'s, F: Fn(Buffer) -> Option<&'s [u8]>>(
    document: &Document,
    bytes: &F,
    name: &str,
    calls: &str,
    line: &mut String,
) -> Written
    requires { F.IsAlwaysCallable bytes.now }
{
    if name == "outputs" {
        write_output_casts(document, bytes, calls, line)
    } else {
        write_attribute_casts(document, bytes, name, calls, line)
    }
}

/// Writes what is cast of the outputs of the first channel.
fn write_output_casts<'s, F: Fn(Buffer) -> Option<&'s [u8]>>(
    document: &Document,
    bytes: &F,
    calls: &str,
    line: &mut String,
) -> Written
    requires { F.IsAlwaysCallable bytes.now }
{
    match first_channel(document) {
        Some(channel) => {
            write_channel_casts(&animation::Reader::new(&channel, bytes), calls, line)
        }
        None => line.push_str("no channel"),
    }
}

/// Writes what is cast of what the reader of this name gives of the first primitive.
fn write_attribute_casts<'s, F: Fn(Buffer) -> Option<&'s [u8]>>(
    document: &Document,
    bytes: &F,
    name: &str,
    calls: &str,
    line: &mut String,
) -> Written
    requires { F.IsAlwaysCallable bytes.now }
{
    match first_primitive(document) {
        Some(primitive) => {
            write_primitive_casts(&mesh::Reader::new(&primitive, bytes), name, calls, line)
        }
        None => line.push_str("no primitive"),
    }
}

/// The first channel of the first animation.
fn first_channel(document: &Document) -> Option<Channel<'_>> {
    document.animations().nth(0)?.channels().nth(0)
}
