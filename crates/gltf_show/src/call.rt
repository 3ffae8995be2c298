//! What the words on the command line ask for.
use crate::taken::Taken;

/// A call of the program.
#[derive(Drop)]
pub(crate) enum Call<'w> {
    /// `chunks PATH`: the header and the chunks of a GLB file.
    Chunks(&'w str),
    /// `check PATH`: whether a file is imported, and how much it has.
    Check(&'w str, Taken<'w>),
    /// `indices PATH MESH PRIMITIVE`: the indices of a primitive of a mesh.
    Indices(&'w str, Place, Taken<'w>),
}

/// Where a primitive stands.
#[derive(Clone, Copy)]
pub(crate) struct Place {
    /// The index of its mesh.
    pub(crate) mesh: usize,
    /// Its index among the primitives of the mesh.
    pub(crate) primitive: usize,
}

impl<'w> Call<'w> {
    /// The call that the words make, or `None` where they make none. The flags of `check` and
    /// `indices` stand behind the other words.
    pub(crate) fn of(words: &[&'w str]) -> Option<Call<'w>> {
        match words {
            [command, path] if *command == "chunks" => Some(Call::Chunks(*path)),
            [command, path, flags @ ..] if *command == "check" => {
                Some(Call::Check(*path, Taken::of(flags)?))
            }
            [command, path, mesh, primitive, flags @ ..] if *command == "indices" => {
                let mesh = number(*mesh)?;
                let primitive = number(*primitive)?;
                let taken = Taken::of(flags)?;
                Some(Call::Indices(*path, Place { mesh, primitive }, taken))
            }
            _ => None,
        }
    }
}

/// The number that a word spells in decimal digits alone, where a usize holds it.
fn number(word: &str) -> Option<usize> {
    if word.bytes().all(|byte| byte.is_ascii_digit()) {
        word.parse::<usize>().ok()
    } else {
        None
    }
}
