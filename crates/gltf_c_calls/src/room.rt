//! Calls that fill a room of the caller's: texts, lists, and the items of accessors.
ghost use Rattle.std.specs.Prelude.{◌≡◌};
ghost use Rattle.std.specs.Option.{option_copied};
ghost use Rattle.gltf_data.specs.Documents.{accessor_at};
ghost use Rattle.gltf_c_bytes.specs.Lists.{numbers_of};
ghost use Rattle.gltf_c_bytes.specs.Read.{IsRead};
ghost use Rattle.gltf_c_look.specs.Texts.{text_of};
ghost use Rattle.gltf_c_scene.specs.Attributes.{attribute_name_of};
ghost use Rattle.gltf_c_scene.specs.Names.{name_of};
ghost use Rattle.gltf_c_scene.specs.Skins.{node_list_of};
ghost use Rattle.gltf_c_handle.specs.Calls.{shown};
ghost use Rattle.gltf_c_calls.specs.Given.{IsGivenText, IsGivenList, IsGivenTextOr};
ghost use Rattle.gltf_c_calls.specs.Rooms.{GivesText, GivesTextOr, GivesList, ReadsItems};
ghost use Rattle.gltf_c_calls.specs.Rooms.{ReadsJson, IsJsonOf, IsKept};

use crate::given::{give_indices, give_made_text, give_numbers, give_text};
use gltf_c_bytes::{lists, read};
use gltf_c_fault::json::give_json;
use gltf_c_fault::status::Status;
use gltf_c_handle::ask::{Fill, fill_room};
use gltf_c_handle::handle::GltfFile;
use gltf_c_look::{json as look_json, text as look_text};
use gltf_c_open::file::File;
use gltf_c_scene::{attribute, name as scene_name, skin};
use gltf_json::{Root, Value};
use std::alloc::Global;
use std::str::from_utf8;

/// The name of a record.
#[derive(Clone, Copy)]
struct NameOf {
    kind: u32,
    index: usize,
}

impl Fill for NameOf {
    type Item = u8;

    type Count = usize;

    ghost filled = { λ call file. IsGivenText (name_of call.kind call.index file.document) };

    fn fill(&self, _: Global, file: &File, room: &mut [u8], count: &mut usize) -> Status {
        let name = scene_name::name(file.document.as_json(), self.kind, self.index);
        give_text(name, room, count)
    }
}

/// The name of the record of a kind at an index: as much of it as there is room for before a zero
/// byte, and the length of the whole.
pub fn name(
    alloc: Global,
    file: &mut GltfFile,
    kind: u32,
    index: usize,
    text: &mut [u8],
    length: &mut usize,
) -> u32
    ensures same { file.new.value ≡ file.old.value }
    ensures text { GivesText (shown (name_of kind index)) file.old.value result text.old text.new
        length.old length.new }
{
    fill_room(alloc, file, &NameOf { kind, index }, text, length)
}

/// Another text of a record.
#[derive(Clone, Copy)]
struct TextOf {
    what: u32,
    index: usize,
}

impl Fill for TextOf {
    type Item = u8;

    type Count = usize;

    ghost filled = { λ call file. IsGivenText (text_of call.what call.index file.document) };

    fn fill(&self, _: Global, file: &File, room: &mut [u8], count: &mut usize) -> Status {
        let text = look_text::text(file.document.as_json(), self.what, self.index);
        give_text(text, room, count)
    }
}

/// Another text of the record at an index, by its number, as [`name`] gives a name.
pub fn text(
    alloc: Global,
    file: &mut GltfFile,
    what: u32,
    index: usize,
    text: &mut [u8],
    length: &mut usize,
) -> u32
    ensures same { file.new.value ≡ file.old.value }
    ensures text { GivesText (shown (text_of what index)) file.old.value result text.old text.new
        length.old length.new }
{
    fill_room(alloc, file, &TextOf { what, index }, text, length)
}

/// The name of an attribute of a primitive or of one of its morph targets, by its position.
#[derive(Clone, Copy)]
struct AttributeName {
    mesh: usize,
    primitive: usize,
    target: usize,
    position: usize,
}

impl Fill for AttributeName {
    type Item = u8;

    type Count = usize;

    ghost filled = { λ call file. IsGivenTextOr
        (attribute_name_of call.mesh call.primitive call.target call.position file.document) };

    fn fill(&self, alloc: Global, file: &File, room: &mut [u8], count: &mut usize) -> Status {
        let root = file.document.as_json();
        let name = attribute::attribute_name(
            alloc,
            root,
            self.mesh,
            self.primitive,
            self.target,
            self.position,
        );
        give_made_text(name, room, count)
    }
}

/// The name of the attribute at a position, as the file has it, as [`name`] gives a name.
/// `NoMemory` where there is none for it.
pub fn attribute_name(
    alloc: Global,
    file: &mut GltfFile,
    mesh: usize,
    primitive: usize,
    target: usize,
    position: usize,
    text: &mut [u8],
    length: &mut usize,
) -> u32
    ensures same { file.new.value ≡ file.old.value }
    ensures text { GivesTextOr (shown (attribute_name_of mesh primitive target position))
        file.old.value result text.old text.new length.old length.new }
{
    let name = AttributeName {
        mesh,
        primitive,
        target,
        position,
    };
    fill_room(alloc, file, &name, text, length)
}

/// What a record has besides: its `extras` where `by_name` is 0, else an extension.
#[derive(Clone, Copy)]
struct JsonOf<'a> {
    kind: u32,
    index: usize,
    part: usize,
    by_name: u32,
    extension: &'a [u8],
}

impl Fill for JsonOf<'_> {
    type Item = u8;

    type Count = usize;

    ghost filled = { λ call.
        IsJsonOf call.kind call.index call.part call.by_name call.extension.now };

    fn fill(&self, alloc: Global, file: &File, room: &mut [u8], count: &mut usize) -> Status {
        give_json(alloc, self.value(file.document.as_json()), room, count)
    }
}

impl JsonOf<'_> {
    /// The value. A name that is not UTF-8 has none.
    fn value<'b>(&self, root: &'b Root) -> Option<&'b Value>
        ensures { IsKept self.now.kind self.now.index self.now.part self.now.by_name
            self.now.extension.now root.now (option_copied result) }
    {
        if self.by_name == 0 {
            return look_json::extras(root, self.kind, self.index, self.part);
        }
        match from_utf8(self.extension) {
            Ok(name) => look_json::extension(root, self.kind, self.index, self.part, name),
            Err(_) => None,
        }
    }
}

/// JSON text of what a record has besides, as [`name`] gives a name: of its `extras` where
/// `by_name` is 0, else of the extension `extension`, where the loader keeps that as JSON.
/// `NoMemory` where there is none for the text.
pub fn json(
    alloc: Global,
    file: &mut GltfFile,
    kind: u32,
    index: usize,
    part: usize,
    by_name: u32,
    extension: &[u8],
    text: &mut [u8],
    length: &mut usize,
) -> u32
    ensures same { file.new.value ≡ file.old.value }
    ensures json { ReadsJson kind index part by_name extension.now file.old.value result
        text.old text.new length.old length.new }
{
    let json = JsonOf {
        kind,
        index,
        part,
        by_name,
        extension,
    };
    fill_room(alloc, file, &json, text, length)
}

/// A list of nodes.
#[derive(Clone, Copy)]
struct NodesOf {
    what: u32,
    index: usize,
}

impl Fill for NodesOf {
    type Item = usize;

    type Count = usize;

    ghost filled = { λ call file. IsGivenList (node_list_of call.what call.index file.document) };

    fn fill(&self, _: Global, file: &File, room: &mut [usize], count: &mut usize) -> Status {
        let nodes = skin::node_list(file.document.as_json(), self.what, self.index);
        give_indices(nodes, room, count)
    }
}

/// A list of nodes that the record at an index holds, by the number of the list: as much of it as
/// there is room for, and its length.
pub fn list(
    alloc: Global,
    file: &mut GltfFile,
    what: u32,
    index: usize,
    out: &mut [usize],
    count: &mut usize,
) -> u32
    ensures same { file.new.value ≡ file.old.value }
    ensures list { GivesList (shown (node_list_of what index)) file.old.value result
        out.old out.new count.old count.new }
{
    fill_room(alloc, file, &NodesOf { what, index }, out, count)
}

/// A list of numbers.
#[derive(Clone, Copy)]
struct NumbersOf {
    what: u32,
    index: usize,
}

impl Fill for NumbersOf {
    type Item = f64;

    type Count = usize;

    ghost filled = { λ call file. IsGivenList (numbers_of call.what call.index file) };

    fn fill(&self, _: Global, file: &File, room: &mut [f64], count: &mut usize) -> Status {
        let member = lists::member(file.document.as_json(), self.what, self.index);
        give_numbers(member, room, count)
    }
}

/// A list of numbers that the record at an index holds, by the number of the list, as [`list`]
/// gives nodes. One that is absent, or no list of numbers, has none.
pub fn numbers(
    alloc: Global,
    file: &mut GltfFile,
    what: u32,
    index: usize,
    out: &mut [f64],
    count: &mut usize,
) -> u32
    ensures same { file.new.value ≡ file.old.value }
    ensures list { GivesList (numbers_of what index) file.old.value result
        out.old out.new count.old count.new }
{
    fill_room(alloc, file, &NumbersOf { what, index }, out, count)
}

/// The items of an accessor.
#[derive(Clone, Copy)]
struct ItemsOf {
    index: usize,
}

impl Fill for ItemsOf {
    type Item = u8;

    type Count = ();

    ghost filled = { λ call file status old new _ _.
        IsRead file call.index (accessor_at file.document call.index) status old new };

    fn fill(&self, _: Global, file: &File, room: &mut [u8], _: &mut ()) -> Status {
        read::read(file, self.index, room)
    }
}

/// The components of the items of the accessor at an index as bytes, one item after the other, with
/// the sparse overrides (glTF 2.0, section 3.6.2), at the front of the room: without the padding of
/// small matrices (3.6.2.4), and zeros where there is no view (5.1.1).
///
/// `Unreadable` where the accessor cannot be read over the buffers; `NoRoom` where there are more
/// bytes than room.
pub fn accessor_read(alloc: Global, file: &mut GltfFile, index: usize, out: &mut [u8]) -> u32
    ensures same { file.new.value ≡ file.old.value }
    ensures read { ReadsItems index file.old.value result out.old out.new }
{
    fill_room(alloc, file, &ItemsOf { index }, out, &mut ())
}
