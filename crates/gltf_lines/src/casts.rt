//! What is cast of the items that readers give, in normalized integers and in indices.
ghost use Rattle.gltf_read.specs.Channels.{closure_of as asked_of_channel};
ghost use Rattle.gltf_read.specs.Primitives.{closure_of as asked_of_primitive};

use crate::line::{Line, Written};
use crate::list::{Walked, write_step};
use crate::reads::{write_items, write_named};
use crate::shown::Shown;
use gltf_casting::Casting;
use gltf_casting::animation::util::{MorphTargetWeights, ReadOutputs, Rotations};
use gltf_casting::castable::Castable;
use gltf_casting::mesh::util::{ReadColors, ReadIndices, ReadJoints, ReadTexCoords, ReadWeights};
use gltf_data::buffer::Buffer;
use gltf_read::{animation, mesh};
use std::fmt::Debug;

/// Writes what the calls of these names cast, made on what the reader of this name gives of a
/// primitive, of the first set of attributes.
pub fn write_primitive_casts<'s, F: Fn(Buffer) -> Option<&'s [u8]>>(
    reader: &mesh::Reader<'_, 's, F>,
    name: &str,
    calls: &str,
    text: &mut String,
) -> Written
    requires { F.IsAlwaysCallable (asked_of_primitive reader.now) }
{
    match name {
        "colors" => write_casts(reader.read_colors(0), calls, text),
        "indices" => write_casts(reader.read_indices(), calls, text),
        "joints" => write_casts(reader.read_joints(0), calls, text),
        "tex_coords" => write_casts(reader.read_tex_coords(0), calls, text),
        "weights" => write_casts(reader.read_weights(0), calls, text),
        _ => text.push_str("no reader"),
    }
}

/// Writes what the calls of these names cast, made on the outputs of a channel.
pub fn write_channel_casts<'s, F: Fn(Buffer) -> Option<&'s [u8]>>(
    reader: &animation::Reader<'_, 's, F>,
    calls: &str,
    text: &mut String,
) -> Written
    requires { F.IsAlwaysCallable (asked_of_channel reader.now) }
{
    write_casts(reader.read_outputs(), calls, text)
}

/// Writes what the calls of these names cast.
fn write_casts<E: Casts + Clone + Drop>(
    read: Option<E>,
    calls: &str,
    text: &mut String,
) -> Written {
    match &read {
        Some(read) => write_each(read, calls, text),
        None => text.push_str("none"),
    }
}

/// Writes each of these calls, and after it what it casts. `CALL` is for all items, and
/// `CALL,STEP,..` for what these steps give.
fn write_each<E: Casts + Clone + Drop>(read: &E, calls: &str, text: &mut String) -> Written {
    let mut line = Line::new(text);
    for call in calls.split_whitespace() {
        if !line.is_empty() {
            line.push_str("; ");
        }
        write!(line, "{call} ");
        if let Some(read) = line.kept(read.clone()) {
            let (name, steps) = call.split_once(",").unwrap_or((call, ""));
            read.write_cast(name, steps, &mut line);
        }
    }
    line.finish()
}

/// What can be cast, by calls with names.
trait Casts: Sized {
    /// Writes what the call of this name gives: all items, or what these steps give.
    fn write_cast(self, call: &str, steps: &str, line: &mut Line<'_>);
}

impl Casts for ReadColors<'_> {
    fn write_cast(self, call: &str, steps: &str, line: &mut Line<'_>) {
        match call {
            "into_rgb_u8" => write_cast(self.into_rgb_u8(), steps, line),
            "into_rgb_u16" => write_cast(self.into_rgb_u16(), steps, line),
            "into_rgba_u8" => write_cast(self.into_rgba_u8(), steps, line),
            "into_rgba_u16" => write_cast(self.into_rgba_u16(), steps, line),
            _ => write_no_cast(self, line),
        }
    }
}

impl Casts for ReadIndices<'_> {
    fn write_cast(self, _call: &str, steps: &str, line: &mut Line<'_>) {
        write_cast(Ok(self.into_u32()), steps, line);
    }
}

impl Casts for ReadJoints<'_> {
    fn write_cast(self, _call: &str, steps: &str, line: &mut Line<'_>) {
        write_cast(Ok(self.into_u16()), steps, line);
    }
}

impl Casts for ReadTexCoords<'_> {
    fn write_cast(self, call: &str, steps: &str, line: &mut Line<'_>) {
        match call {
            "into_u8" => write_cast(self.into_u8(), steps, line),
            "into_u16" => write_cast(self.into_u16(), steps, line),
            _ => write_no_cast(self, line),
        }
    }
}

impl Casts for ReadWeights<'_> {
    fn write_cast(self, call: &str, steps: &str, line: &mut Line<'_>) {
        match call {
            "into_u8" => write_cast(self.into_u8(), steps, line),
            "into_u16" => write_cast(self.into_u16(), steps, line),
            _ => write_no_cast(self, line),
        }
    }
}

impl Casts for Rotations<'_> {
    fn write_cast(self, call: &str, steps: &str, line: &mut Line<'_>) {
        match call {
            "into_i8" => write_cast(self.into_i8(), steps, line),
            "into_u8" => write_cast(self.into_u8(), steps, line),
            "into_i16" => write_cast(self.into_i16(), steps, line),
            "into_u16" => write_cast(self.into_u16(), steps, line),
            _ => write_no_cast(self, line),
        }
    }
}

impl Casts for MorphTargetWeights<'_> {
    fn write_cast(self, call: &str, steps: &str, line: &mut Line<'_>) {
        match call {
            "into_i8" => write_cast(self.into_i8(), steps, line),
            "into_u8" => write_cast(self.into_u8(), steps, line),
            "into_i16" => write_cast(self.into_i16(), steps, line),
            "into_u16" => write_cast(self.into_u16(), steps, line),
            _ => write_no_cast(self, line),
        }
    }
}

impl Casts for ReadOutputs<'_> {
    fn write_cast(self, call: &str, steps: &str, line: &mut Line<'_>) {
        match self {
            ReadOutputs::Translations(read) => write_no_cast(read, line),
            ReadOutputs::Rotations(read) => read.write_cast(call, steps, line),
            ReadOutputs::Scales(read) => write_no_cast(read, line),
            ReadOutputs::MorphTargetWeights(read) => read.write_cast(call, steps, line),
        }
    }
}

/// Writes that there is no such call. What was read is dropped here, under a type parameter: a
/// proof writes out how each variant is dropped, and that of each iterator in it.
fn write_no_cast<T: Drop>(_read: T, line: &mut Line<'_>) {
    line.push_str("no cast");
}

/// Writes what a call casts, or what it gives back.
fn write_cast<E: Castable<A> + Clone + Shown, A>(
    cast: Result<Casting<E, A>, E>,
    steps: &str,
    line: &mut Line<'_>,
)
where
    E::Output: Debug + Drop,
{
    match cast {
        Ok(items) if steps.is_empty() => write_items(items, line),
        Ok(items) => write_walk(items, steps, line),
        Err(read) => write_named("back", &read, line),
    }
}

/// Writes what these steps give, and with `unwrap` after them what is left, uncast.
fn write_walk<E: Castable<A> + Clone + Shown, A>(
    mut items: Casting<E, A>,
    steps: &str,
    line: &mut Line<'_>,
)
where
    E::Output: Debug + Drop,
{
    for step in steps.split(",") {
        if step != "unwrap" {
            write_step(&mut items, step, line);
            line.push_str(", ");
        }
    }
    write!(line, "{} left", items.len());
    if steps.ends_with("unwrap") {
        line.push_str(": ");
        items.unwrap().show(line);
    }
}

impl<E: Castable<A> + Clone, A> Walked for Casting<E, A>
where
    E::Output: Debug + Drop,
{
    fn write_next(&mut self, line: &mut Line<'_>) {
        write_cast_item(self.next(), line);
    }

    fn write_nth(&mut self, places: usize, line: &mut Line<'_>) {
        write_cast_item(self.nth(places), line);
    }

    fn write_last(&self, line: &mut Line<'_>) {
        if let Some(items) = line.kept(self.clone()) {
            write_cast_item(items.last(), line);
        }
    }

    fn write_len(&self, line: &mut Line<'_>) {
        write!(line, "{}", self.len());
    }

    fn write_hint(&self, line: &mut Line<'_>) {
        write!(line, "{:?}", self.size_hint());
    }

    fn write_count(&self, line: &mut Line<'_>) {
        if let Some(items) = line.kept(self.clone()) {
            write!(line, "{}", items.count());
        }
    }
}

/// Writes an item that is cast.
fn write_cast_item<T: Debug + Drop>(item: Option<T>, line: &mut Line<'_>) {
    write!(line, "{item:?}");
}
