//! What the attributes of a primitive mean, by their names (glTF 2.0, section 3.7.2.1, "Meshes:
//! Overview").
ghost use Rattle.std.specs.Prelude.{◌≡◌, ◌<◌, ◌^◌, ◌++◌, List, ℕ, IfOk, IfSome, IsNone};
ghost use Rattle.std.specs.Prelude.{MatchOption, codes};
ghost use Rattle.std.specs.Fmt.{decimal};
ghost use Rattle.gltf_json_geometry.specs.declared.semantic.Semantic.{Semantic};
ghost use Rattle.gltf_json_geometry.specs.Semantics.{Names, order_key, semantic_cmp};

use std::alloc::{AllocError, Global};
use std::cmp::Ordering;
use std::fmt;

/// What an attribute means. Attributes are ordered as they stand here, those of one kind by their
/// text or the number of their set.
#[derive(Debug, Drop, PartialEq, Eq, PartialOrd, Ord)]
pub enum Semantic {
    /// An attribute of the application: the text after the underscore of its name.
    Extras(String),
    /// `POSITION`.
    Positions,
    /// `NORMAL`.
    Normals,
    /// `TANGENT`.
    Tangents,
    /// `COLOR_n`, with the number n of the set.
    Colors(u32),
    /// `TEXCOORD_n`, with the number n of the set.
    TexCoords(u32),
    /// `JOINTS_n`, with the number n of the set.
    Joints(u32),
    /// `WEIGHTS_n`, with the number n of the set.
    Weights(u32),
}

/// The name that the attribute has in JSON.
impl fmt::Display for Semantic {
    ghost use Rattle.std.specs.Prelude.{Some};
    ghost use Rattle.gltf_json_geometry.specs.Semantics.{semantic_name};

    ghost output = { λ s. Some (semantic_name s) };

    fn fmt<W: fmt::Write>(&self, f: &mut fmt::Formatter<W>) -> fmt::Result {
        match self {
            Semantic::Extras(name) => write!(f, "_{name}"),
            Semantic::Positions => write!(f, "POSITION"),
            Semantic::Normals => write!(f, "NORMAL"),
            Semantic::Tangents => write!(f, "TANGENT"),
            Semantic::Colors(set) => write!(f, "COLOR_{set}"),
            Semantic::TexCoords(set) => write!(f, "TEXCOORD_{set}"),
            Semantic::Joints(set) => write!(f, "JOINTS_{set}"),
            Semantic::Weights(set) => write!(f, "WEIGHTS_{set}"),
        }
    }
}

impl Clone for Semantic {
    ghost use Rattle.std.specs.Prelude.{◌≡◌};
    ghost use Rattle.gltf_json_geometry.specs.Semantics.{order_key, semantic_name};

    ghost is_clone = { λ s t. (order_key t ≡ order_key s) × (semantic_name t ≡ semantic_name s) };

    fn clone(&self) -> Result<Semantic, AllocError> {
        Ok(match self {
            Semantic::Extras(name) => Semantic::Extras(Clone::clone(name)?),
            Semantic::Positions => Semantic::Positions,
            Semantic::Normals => Semantic::Normals,
            Semantic::Tangents => Semantic::Tangents,
            Semantic::Colors(set) => Semantic::Colors(*set),
            Semantic::TexCoords(set) => Semantic::TexCoords(*set),
            Semantic::Joints(set) => Semantic::Joints(*set),
            Semantic::Weights(set) => Semantic::Weights(*set),
        })
    }
}

impl Semantic {
    /// The attribute that has this name in JSON; None where no attribute has it, as `COLOR_01`,
    /// where a digit is too many, and `COLOR_4294967296`, whose number has more than 32 bits.
    pub fn of_name(alloc: Global, name: &str) -> Result<Option<Semantic>, AllocError>
        ensures known { IfOk result (λ found. IfSome found (λ s. Names s name.now)) }
        ensures unknown { IfOk result (λ found. IsNone found
            → (s : Semantic) → Names s name.now → ⊥) }
    {
        if let Some(rest) = name.strip_prefix("_") {
            return Ok(Some(Semantic::Extras(String::from_str(alloc, rest)?)));
        }
        Ok(set(name))
    }

    /// A copy of the attribute.
    pub fn clone(&self, _alloc: Global) -> Result<Semantic, AllocError>
        ensures { IfOk result (λ s. order_key s ≡ order_key self.now) }
    {
        Clone::clone(self)
    }

    /// Which of two attributes stands first. It is what `<` and `cmp` go by.
    pub fn compare(&self, other: &Semantic) -> Ordering
        ensures { result ≡ semantic_cmp self.now other.now }
    {
        self.cmp(other)
    }
}

// The attribute of a name that does not begin with an underscore.
fn set(name: &str) -> Option<Semantic>
    requires { (rest : List ℕ) → name.now ≡ codes "_" ++ rest → ⊥ }
    ensures known { IfSome result (λ s. Names s name.now) }
    ensures unknown { IsNone result → (s : Semantic) → Names s name.now → ⊥ }
{
    match name {
        "POSITION" => Some(Semantic::Positions),
        "NORMAL" => Some(Semantic::Normals),
        "TANGENT" => Some(Semantic::Tangents),
        _ => {
            if let Some(set) = numbered(name, "COLOR_") {
                Some(Semantic::Colors(set))
            } else if let Some(set) = numbered(name, "TEXCOORD_") {
                Some(Semantic::TexCoords(set))
            } else if let Some(set) = numbered(name, "JOINTS_") {
                Some(Semantic::Joints(set))
            } else {
                numbered(name, "WEIGHTS_").map(Semantic::Weights)
            }
        }
    }
}

// The number after a prefix.
fn numbered(name: &str, prefix: &str) -> Option<u32>
    ensures { MatchOption result ((n : ℕ) → n < 2 ^ 32 → name.now ≡ prefix.now ++ decimal n → ⊥)
        (λ n. name.now ≡ prefix.now ++ decimal n) }
{
    number(name.strip_prefix(prefix)?)
}

// The number that decimal digits write, with none too many.
fn number(digits: &str) -> Option<u32>
    ensures { MatchOption result ((n : ℕ) → n < 2 ^ 32 → digits.now ≡ decimal n → ⊥)
        (λ n. digits.now ≡ decimal n) }
{
    if digits == "0" {
        Some(0)
    } else if digits.starts_with('0') {
        None
    } else if digits.starts_with('+') {
        None
    } else {
        digits.parse::<u32>().ok()
    }
}
