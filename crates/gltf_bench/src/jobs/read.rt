//! What is drawn is read: vertices, indices, joints, weights, morph targets, keyframes.
ghost use Rattle.std.specs.Iterator.{IsFinite};
ghost use Rattle.gltf_read.specs.Channels.{closure_of as asked_of_channel};
ghost use Rattle.gltf_read.specs.Primitives.{closure_of as asked_of_primitive};

use gltf::buffer::{Data, bytes_of};
use gltf::{Buffer, Document, import_slice};
use gltf_access::to_bytes;
use gltf_bench_digest::digest::{Digest, Digested};
use gltf_bench_digest::errors::add_error;
use gltf_bench_files::text::File;
use gltf_bench_files::{character, scene};
use gltf_casting::animation::util::{MorphTargetWeights, ReadOutputs, Rotations};
use gltf_casting::mesh::util::{ReadTexCoords, ReadWeights};
use gltf_data::accessor::Iter;
use gltf_items::Item;
use gltf_read::mesh::util::ReadMorphTarget;
use gltf_read::{animation, mesh, skin};
use std::alloc::{AllocError, Global};

/// Reads all that is drawn of a character and of a scene, so many times.
pub fn read(
    alloc: Global,
    rounds: u32,
    vertices: u32,
    seed: u64,
    digest: &mut Digest,
) -> Result<(), AllocError> {
    let mut body = character::container(alloc, seed, vertices, 2)?;
    let mut props = scene::container(alloc, seed ^ 1, (vertices / 200).max(1), scene::LAST)?;
    for round in 0..rounds {
        body.renew();
        read_file(alloc, &body, round, digest)?;
        props.renew();
        read_file(alloc, &props, round, digest)?;
    }
    Ok(())
}

/// Reads all of a file.
fn read_file(
    alloc: Global,
    file: &File,
    round: u32,
    digest: &mut Digest,
) -> Result<(), AllocError> {
    match import_slice(alloc, &file.bytes) {
        Ok((document, buffers)) => {
            add_meshes(&document, &buffers, digest);
            add_skins(&document, &buffers, digest);
            add_animations(&document, &buffers, digest);
            add_flat(alloc, &document, &buffers, round, digest)
        }
        Err(error) => {
            add_error(alloc, &error, digest);
            Ok(())
        }
    }
}

/// Adds the primitives of all meshes.
fn add_meshes(document: &Document, buffers: &[Data], digest: &mut Digest) {
    let bytes = |buffer: Buffer| bytes_of(buffers, buffer);
    let mut meshes = document.meshes();
    while let Some(mesh) = meshes.next() {
        let mut primitives = mesh.primitives();
        while let Some(primitive) = primitives.next() {
            let reader = mesh::Reader::new(&primitive, &bytes);
            add_vertices(&reader, digest);
            add_skinning(&reader, digest);
            add_targets(&reader, digest);
        }
    }
}

/// Adds positions, normals, tangents, texture coordinates and indices.
fn add_vertices<'s, F: Fn(Buffer) -> Option<&'s [u8]>>(
    reader: &mesh::Reader<'_, 's, F>,
    digest: &mut Digest,
)
    requires { F.IsAlwaysCallable (asked_of_primitive reader.now) }
{
    add_some(reader.read_positions(), digest);
    add_some(reader.read_normals(), digest);
    add_some(reader.read_tangents(), digest);
    match reader.read_tex_coords(0) {
        Some(ReadTexCoords::U8(coords)) => add_items(coords, digest),
        Some(ReadTexCoords::U16(coords)) => add_items(coords, digest),
        Some(ReadTexCoords::F32(coords)) => add_items(coords, digest),
        None => digest.absent(),
    }
    match reader.read_indices() {
        Some(indices) => add_items(indices.into_u32(), digest),
        None => digest.absent(),
    }
}

/// Adds joints and weights.
fn add_skinning<'s, F: Fn(Buffer) -> Option<&'s [u8]>>(
    reader: &mesh::Reader<'_, 's, F>,
    digest: &mut Digest,
)
    requires { F.IsAlwaysCallable (asked_of_primitive reader.now) }
{
    match reader.read_joints(0) {
        Some(joints) => add_items(joints.into_u16(), digest),
        None => digest.absent(),
    }
    match reader.read_weights(0) {
        Some(ReadWeights::U8(weights)) => add_items(weights, digest),
        Some(ReadWeights::U16(weights)) => add_items(weights, digest),
        Some(ReadWeights::F32(weights)) => add_items(weights, digest),
        None => digest.absent(),
    }
}

/// Adds all morph targets. Of each second one it adds every third position, by `nth`.
fn add_targets<'s, F: Fn(Buffer) -> Option<&'s [u8]>>(
    reader: &mesh::Reader<'_, 's, F>,
    digest: &mut Digest,
)
    requires { F.IsAlwaysCallable (asked_of_primitive reader.now) }
{
    let mut targets = reader.read_morph_targets();
    for k in 0..targets.len() {
        if let Some(target) = targets.nth(0) {
            add_target(target, k % 2 == 0, digest);
        }
    }
}

/// Adds a morph target: its positions, all of them or every third one, and the rest.
fn add_target(target: ReadMorphTarget<'_>, is_whole: bool, digest: &mut Digest) {
    let (positions, normals, tangents) = target;
    add_some_of(positions, is_whole, digest);
    add_some(normals, digest);
    add_some(tangents, digest);
}

/// Adds the inverse bind matrices of all skins.
fn add_skins(document: &Document, buffers: &[Data], digest: &mut Digest) {
    let bytes = |buffer: Buffer| bytes_of(buffers, buffer);
    let mut skins = document.skins();
    while let Some(skin) = skins.next() {
        add_some(
            skin::Reader::new(&skin, &bytes).read_inverse_bind_matrices(),
            digest,
        );
    }
}

/// Adds the keyframes of all animations.
fn add_animations(document: &Document, buffers: &[Data], digest: &mut Digest) {
    let bytes = |buffer: Buffer| bytes_of(buffers, buffer);
    let mut animations = document.animations();
    while let Some(moves) = animations.next() {
        let mut channels = moves.channels();
        while let Some(channel) = channels.next() {
            add_channel(&animation::Reader::new(&channel, &bytes), digest);
        }
    }
}

/// Adds the keyframes of a channel.
fn add_channel<'s, F: Fn(Buffer) -> Option<&'s [u8]>>(
    reader: &animation::Reader<'_, 's, F>,
    digest: &mut Digest,
)
    requires { F.IsAlwaysCallable (asked_of_channel reader.now) }
{
    add_some(reader.read_inputs(), digest);
    match reader.read_outputs() {
        Some(ReadOutputs::Translations(items)) => add_items(items, digest),
        Some(ReadOutputs::Rotations(rotations)) => add_rotations(rotations, digest),
        Some(ReadOutputs::Scales(items)) => add_items(items, digest),
        Some(ReadOutputs::MorphTargetWeights(weights)) => add_weights(weights, digest),
        None => digest.absent(),
    }
}

/// Adds rotations, as they are stored.
fn add_rotations(rotations: Rotations<'_>, digest: &mut Digest) {
    match rotations {
        Rotations::I8(items) => add_items(items, digest),
        Rotations::U8(items) => add_items(items, digest),
        Rotations::I16(items) => add_items(items, digest),
        Rotations::U16(items) => add_items(items, digest),
        Rotations::F32(items) => add_items(items, digest),
    }
}

/// Adds weights of morph targets, as they are stored.
fn add_weights(weights: MorphTargetWeights<'_>, digest: &mut Digest) {
    match weights {
        MorphTargetWeights::I8(items) => add_items(items, digest),
        MorphTargetWeights::U8(items) => add_items(items, digest),
        MorphTargetWeights::I16(items) => add_items(items, digest),
        MorphTargetWeights::U16(items) => add_items(items, digest),
        MorphTargetWeights::F32(items) => add_items(items, digest),
    }
}

/// Adds all items of each second accessor, in a list of bytes: in one round those with an even
/// index, in the next one the others.
fn add_flat(
    alloc: Global,
    document: &Document,
    buffers: &[Data],
    round: u32,
    digest: &mut Digest,
) -> Result<(), AllocError> {
    let bytes = |buffer: Buffer| bytes_of(buffers, buffer);
    let mut accessors = document.accessors();
    let mut passed = (round % 2) as usize;
    for _ in 0..accessors.len() {
        let Some(accessor) = accessors.nth(passed) else {
            break;
        };
        match to_bytes(alloc, accessor, &bytes)? {
            Some(items) => digest.bytes(&items),
            None => digest.absent(),
        }
        passed = 1;
    }
    Ok(())
}

/// Adds all items that are left.
fn add_items<I: Iterator + Drop>(items: I, digest: &mut Digest)
where
    I::Item: Digested + Drop,
    requires can { I.can_next items }
    requires ends { IsFinite (I.remaining items) }
{
    // A copy, which stays in a register.
    let mut own = *digest;
    for item in items {
        item.add_to(&mut own);
    }
    *digest = own;
}

/// Adds all items of an accessor that may be absent.
fn add_some<T: Item + Digested>(items: Option<Iter<'_, T>>, digest: &mut Digest) {
    match items {
        Some(items) => add_items(items, digest),
        None => digest.absent(),
    }
}

/// Adds all items of an accessor that may be absent, or every third one.
fn add_some_of<T: Item + Digested>(
    items: Option<Iter<'_, T>>,
    is_whole: bool,
    digest: &mut Digest,
) {
    match items {
        Some(items) if is_whole => add_items(items, digest),
        Some(items) => add_each_third(items, digest),
        None => digest.absent(),
    }
}

/// Adds every third item.
fn add_each_third<T: Item + Digested>(mut items: Iter<'_, T>, digest: &mut Digest) {
    for _ in 0..items.len() {
        match items.nth(2) {
            Some(item) => item.add_to(digest),
            None => break,
        }
    }
}
