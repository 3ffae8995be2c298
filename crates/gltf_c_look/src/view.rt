//! Views of buffers (glTF 2.0, section 5.11).
ghost use Rattle.std.specs.Prelude.{◌≡◌, unwrap_or};
ghost use Rattle.gltf_c_look.specs.Views.{shown_view, view_of, target_of};

use gltf_json::Root;
use gltf_json::buffer::{Target, View};
use gltf_json_record::validation::Checked;

/// What a view is. C declares the same struct.
#[repr(C)]
#[derive(Clone, Copy, Drop)]
pub struct GltfBufferView {
    /// The buffer.
    pub buffer: usize,
    /// The bytes of the buffer before the view.
    pub byte_offset: usize,
    /// How many bytes it has.
    pub byte_length: usize,
    /// The bytes from one vertex to the next, or 0.
    pub byte_stride: usize,
    /// 34962 of vertices, 34963 of indices, or 0.
    pub target: u32,
    /// 0.
    pub reserved_word: u32,
    /// 0.
    pub reserved: [usize; 2],
}

/// What the view at an index is.
pub fn view(root: &Root, index: usize) -> Option<GltfBufferView>
    ensures { result ≡ view_of index root.now }
{
    Some(shown_view(root.buffer_views.get(index)?))
}

fn shown_view(view: &View) -> GltfBufferView
    ensures { result ≡ shown_view view.now }
{
    GltfBufferView {
        buffer: view.buffer.value(),
        byte_offset: or_zero(view.byte_offset),
        byte_length: view.byte_length as usize,
        byte_stride: or_zero(view.byte_stride),
        target: target_of(view.target),
        reserved_word: 0,
        reserved: [0; 2],
    }
}

fn or_zero(number: Option<u64>) -> usize
    ensures { result ≡ unwrap_or number 0 }
{
    match number {
        Some(number) => number as usize,
        None => 0,
    }
}

/// The number of a target (glTF 2.0, section 5.11.5), or 0.
fn target_of(target: Option<Checked<Target>>) -> u32
    ensures { result ≡ target_of target }
{
    match target {
        Some(Checked::Valid(Target::ArrayBuffer)) => 34962,
        Some(Checked::Valid(Target::ElementArrayBuffer)) => 34963,
        Some(Checked::Invalid) | None => 0,
    }
}
