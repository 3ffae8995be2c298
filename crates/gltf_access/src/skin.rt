//! Why the reader of a skin (`gltf_read::skin::Reader`) read nothing (glTF 2.0, section 3.7.3,
//! "Skins").

ghost use Rattle.gltf_read.specs.Kinds.{OfKind, matrices};
ghost use Rattle.gltf_read.specs.Reading.{AreItems};
ghost use Rattle.gltf_scene.specs.Skins.{skin_handle};
ghost use Rattle.gltf_access.specs.Why.{IsWhyMember, Explains};

use crate::not_read::NotRead;
use crate::why;
use gltf_data::buffer::Buffer;
use gltf_items::{F32, Item};
use gltf_scene::skin::Skin;

/// Why nothing is read of the inverse bind matrices of a skin as matrices of sixteen floats, which
/// the standard has for them: None exactly where they are that and the reader's call
/// `read_inverse_bind_matrices` gives them. That call looks at the bytes of an item alone. The
/// closure gives the bytes of buffers.
pub fn why_no_inverse_bind_matrices<'s, F: Fn(Buffer) -> Option<&'s [u8]>>(
    skin: &Skin,
    get_buffer_data: &F,
) -> Option<NotRead>
    requires { F.IsAlwaysCallable get_buffer_data.now }
    ensures why { let s = skin_handle skin.now in
        IsWhyMember matrices (λ b o. F.post get_buffer_data.now b o)
        s.document s.json.inverse_bind_matrices result }
    ensures exact { let s = skin_handle skin.now in
        Explains (OfKind matrices (AreItems {t = ⟦<[[F32; 4]; 4] as Item>⟧}))
        (λ b o. F.post get_buffer_data.now b o)
        s.document s.json.inverse_bind_matrices result }
{
    match skin.inverse_bind_matrices() {
        Some(accessor) => why::matrices(accessor, get_buffer_data),
        None => Some(NotRead::Absent),
    }
}
