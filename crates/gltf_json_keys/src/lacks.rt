//! Members of a name, looked for in the bytes of a text.
ghost use Rattle.std.specs.Prelude.{◌≡◌, ℕ, List, Some, true, false};
ghost use Rattle.serde_json.specs.Data.{Data};
ghost use Rattle.serde_json.specs.Read.{read};
ghost use Rattle.gltf_json_keys.specs.Keys.{Lacks, in_quotes, MayHave};

use memchr::{memchr, memmem};

/// Whether a JSON text surely has no member of a name, at any depth: it has no backslash, and the
/// name with its quotes, `quoted`, stands nowhere in it. It goes over the bytes twice and takes no
/// memory.
///
/// Where it answers false, the text may have such a member or not: the name may be written with an
/// escape, or be a text that is no name of a member.
pub fn lacks(text: &[u8], quoted: &[u8]) -> bool
    ensures none { (name : List ℕ) → quoted.now ≡ in_quotes name → result ≡ true
        → (d : Data) → read text.now ≡ Some d → Lacks name d }
    ensures else_may { result ≡ false → MayHave text.now quoted.now }
{
    if memchr(b'\\', text).is_some() {
        return false;
    }
    memmem::find(text, quoted).is_none()
}
