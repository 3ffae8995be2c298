//! Skins, and readers of what they hold (glTF 2.0, section 3.7.3, "Skins").

ghost use Rattle.std.specs.Prelude.{◌≡◌};
ghost use Rattle.gltf_read.specs.Reading.{AreItems, ReadsMember};
ghost use Rattle.gltf_scene.specs.Skins.{skin_handle};

use crate::skin::util::ReadInverseBindMatrices;
use crate::table;
use gltf_data::buffer::Buffer;
pub use gltf_scene::skin::{Skin, iter};
use std::marker::PhantomData;

/// What is read of a skin, and its reader, under the names of the Rust crate.
pub mod util {
    pub use crate::skin::Reader;
    pub use gltf_casting::skin::util::ReadInverseBindMatrices;
}

/// Reads what a skin holds, over the bytes that a closure gives for buffers.
#[derive_where(Clone)]
#[derive(Drop)]
pub struct Reader<'a, 's, F> {
    skin: Skin<'a>,
    get_buffer_data: &'a F,
    bytes: PhantomData<&'s u8>,
}

impl<'a, 's, F: Fn(Buffer) -> Option<&'s [u8]>> Reader<'a, 's, F> {
    ghost use Rattle.gltf_read.specs.Skins.{skin_of, closure_of};

    /// A reader of a skin. The closure gives the bytes of buffers; each reading asks it anew.
    pub fn new(skin: &Skin<'a>, get_buffer_data: &'a F) -> Self
        ensures skin { skin_of result ≡ skin_handle skin.now }
        ensures closure { closure_of result ≡ get_buffer_data.now }
    {
        Reader {
            skin: *skin,
            get_buffer_data,
            bytes: PhantomData,
        }
    }

    /// The inverse bind matrices, one for each joint: `inverseBindMatrices`. None where the skin
    /// names no accessor of them, or it cannot be read as that.
    pub fn read_inverse_bind_matrices(&self) -> Option<ReadInverseBindMatrices<'s>>
        requires { F.IsAlwaysCallable (closure_of self.now) }
        ensures { let s = skin_of self.now in
            ReadsMember AreItems (λ b o. F.post (closure_of self.now) b o) s.document
            s.json.inverse_bind_matrices result }
    {
        table::items(self.skin.inverse_bind_matrices()?, self.get_buffer_data)
    }
}
