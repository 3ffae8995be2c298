//! What readers of primitives, skins and channels give (glTF 2.0, sections 3.7, 3.11).
ghost use Rattle.std.specs.Iterator.{IsFinite};
ghost use Rattle.gltf_read.specs.Channels.{closure_of as asked_of_channel};
ghost use Rattle.gltf_read.specs.MorphTargets.{closure_of as asked_of_targets};
ghost use Rattle.gltf_read.specs.Primitives.{closure_of as asked_of_primitive};
ghost use Rattle.gltf_read.specs.Skins.{closure_of as asked_of_skin};

use crate::line::{Line, Written};
use crate::shown::Shown;
use gltf_casting::animation::util::{MorphTargetWeights, ReadOutputs, Rotations};
use gltf_casting::mesh::util::{ReadColors, ReadIndices, ReadJoints, ReadTexCoords, ReadWeights};
use gltf_data::accessor::Iter;
use gltf_data::buffer::Buffer;
use gltf_items::Item;
use gltf_read::mesh::util::{ReadMorphTarget, ReadMorphTargets};
use gltf_read::{animation, mesh, skin};
use std::fmt::Debug;

/// Writes what each reader of a primitive gives, after its name, of this set of attributes.
pub fn write_primitive<'s, F: Fn(Buffer) -> Option<&'s [u8]>>(
    reader: &mesh::Reader<'_, 's, F>,
    set: u32,
    text: &mut String,
) -> Written
    requires { F.IsAlwaysCallable (asked_of_primitive reader.now) }
{
    let mut line = Line::new(text);
    write_read("positions", reader.read_positions(), &mut line);
    write_read("normals", reader.read_normals(), &mut line);
    write_read("tangents", reader.read_tangents(), &mut line);
    write_read("colors", reader.read_colors(set), &mut line);
    write_read("indices", reader.read_indices(), &mut line);
    write_read("joints", reader.read_joints(set), &mut line);
    write_read("tex_coords", reader.read_tex_coords(set), &mut line);
    write_read("weights", reader.read_weights(set), &mut line);
    write_targets(reader.read_morph_targets(), &mut line);
    write_behind_targets(reader.read_morph_targets(), &mut line);
    line.finish()
}

/// Writes how many morph targets there are, and what is read of the first two.
fn write_targets<'s, F: Fn(Buffer) -> Option<&'s [u8]>>(
    mut targets: ReadMorphTargets<'_, 's, F>,
    line: &mut Line<'_>,
)
    requires { F.IsAlwaysCallable (asked_of_targets targets) }
{
    write!(line, "; {} morph targets", targets.len());
    write_read("first", targets.nth(0), line);
    write_read("second", targets.nth(0), line);
}

/// Writes what there is after the last morph target, however far, and how many are left then.
fn write_behind_targets<'s, F: Fn(Buffer) -> Option<&'s [u8]>>(
    mut targets: ReadMorphTargets<'_, 's, F>,
    line: &mut Line<'_>,
)
    requires { F.IsAlwaysCallable (asked_of_targets targets) }
{
    write_read("behind", targets.nth(usize::MAX), line);
    write!(line, " of {}", targets.len());
}

/// Writes what the reader of a skin gives, after its name.
pub fn write_skin<'s, F: Fn(Buffer) -> Option<&'s [u8]>>(
    reader: &skin::Reader<'_, 's, F>,
    text: &mut String,
) -> Written
    requires { F.IsAlwaysCallable (asked_of_skin reader.now) }
{
    let mut line = Line::new(text);
    let matrices = reader.read_inverse_bind_matrices();
    write_read("inverse_bind_matrices", matrices, &mut line);
    line.finish()
}

/// Writes what each reader of a channel gives, after its name.
pub fn write_channel<'s, F: Fn(Buffer) -> Option<&'s [u8]>>(
    reader: &animation::Reader<'_, 's, F>,
    text: &mut String,
) -> Written
    requires { F.IsAlwaysCallable (asked_of_channel reader.now) }
{
    let mut line = Line::new(text);
    write_read("inputs", reader.read_inputs(), &mut line);
    write_read("outputs", reader.read_outputs(), &mut line);
    line.finish()
}

/// Writes the name of a reader and what it gives.
fn write_read<T: Shown + Drop>(name: &str, read: T, line: &mut Line<'_>) {
    if !line.is_empty() {
        line.push_str("; ");
    }
    write_named(name, &read, line);
}

impl<T: Item + Debug> Shown for Iter<'_, T> {
    /// All items.
    fn show(&self, line: &mut Line<'_>) {
        if let Some(items) = line.kept(self.clone()) {
            write_items(items, line);
        }
    }
}

/// Writes the items that are left, as long as there is memory: a sparse accessor may have more of
/// them than any memory holds.
pub(crate) fn write_items<I: Iterator + Drop>(items: I, line: &mut Line<'_>)
where
    I::Item: Debug + Drop,
    requires can { I.can_next items }
    requires ends { IsFinite (I.remaining items) }
{
    line.push_str("[");
    let mut is_first = true;
    for item in items {
        if line.is_cut() {
            break;
        }
        write_item(is_first, item, line);
        is_first = false;
    }
    line.push_str("]");
}

/// Writes an item of a list.
fn write_item<T: Debug + Drop>(is_first: bool, item: T, line: &mut Line<'_>) {
    if !is_first {
        line.push_str(", ");
    }
    write!(line, "{item:?}");
}

/// Writes a name, and after it what is read.
pub(crate) fn write_named<T: Shown>(name: &str, read: &T, line: &mut Line<'_>) {
    write!(line, "{name} ");
    read.show(line);
}

impl Shown for ReadMorphTarget<'_> {
    fn show(&self, line: &mut Line<'_>) {
        write_named("positions", &self.0, line);
        write_named(", normals", &self.1, line);
        write_named(", tangents", &self.2, line);
    }
}

impl Shown for ReadColors<'_> {
    fn show(&self, line: &mut Line<'_>) {
        match self {
            ReadColors::RgbU8(items) => write_named("RgbU8", items, line),
            ReadColors::RgbU16(items) => write_named("RgbU16", items, line),
            ReadColors::RgbF32(items) => write_named("RgbF32", items, line),
            ReadColors::RgbaU8(items) => write_named("RgbaU8", items, line),
            ReadColors::RgbaU16(items) => write_named("RgbaU16", items, line),
            ReadColors::RgbaF32(items) => write_named("RgbaF32", items, line),
        }
    }
}

impl Shown for ReadIndices<'_> {
    fn show(&self, line: &mut Line<'_>) {
        match self {
            ReadIndices::U8(items) => write_named("U8", items, line),
            ReadIndices::U16(items) => write_named("U16", items, line),
            ReadIndices::U32(items) => write_named("U32", items, line),
        }
    }
}

impl Shown for ReadJoints<'_> {
    fn show(&self, line: &mut Line<'_>) {
        match self {
            ReadJoints::U8(items) => write_named("U8", items, line),
            ReadJoints::U16(items) => write_named("U16", items, line),
        }
    }
}

impl Shown for ReadTexCoords<'_> {
    fn show(&self, line: &mut Line<'_>) {
        match self {
            ReadTexCoords::U8(items) => write_named("U8", items, line),
            ReadTexCoords::U16(items) => write_named("U16", items, line),
            ReadTexCoords::F32(items) => write_named("F32", items, line),
        }
    }
}

impl Shown for ReadWeights<'_> {
    fn show(&self, line: &mut Line<'_>) {
        match self {
            ReadWeights::U8(items) => write_named("U8", items, line),
            ReadWeights::U16(items) => write_named("U16", items, line),
            ReadWeights::F32(items) => write_named("F32", items, line),
        }
    }
}

impl Shown for Rotations<'_> {
    fn show(&self, line: &mut Line<'_>) {
        match self {
            Rotations::I8(items) => write_named("I8", items, line),
            Rotations::U8(items) => write_named("U8", items, line),
            Rotations::I16(items) => write_named("I16", items, line),
            Rotations::U16(items) => write_named("U16", items, line),
            Rotations::F32(items) => write_named("F32", items, line),
        }
    }
}

impl Shown for MorphTargetWeights<'_> {
    fn show(&self, line: &mut Line<'_>) {
        match self {
            MorphTargetWeights::I8(items) => write_named("I8", items, line),
            MorphTargetWeights::U8(items) => write_named("U8", items, line),
            MorphTargetWeights::I16(items) => write_named("I16", items, line),
            MorphTargetWeights::U16(items) => write_named("U16", items, line),
            MorphTargetWeights::F32(items) => write_named("F32", items, line),
        }
    }
}

impl Shown for ReadOutputs<'_> {
    fn show(&self, line: &mut Line<'_>) {
        match self {
            ReadOutputs::Translations(items) => write_named("Translations", items, line),
            ReadOutputs::Rotations(read) => write_named("Rotations", read, line),
            ReadOutputs::Scales(items) => write_named("Scales", items, line),
            ReadOutputs::MorphTargetWeights(read) => {
                write_named("MorphTargetWeights", read, line);
            }
        }
    }
}
