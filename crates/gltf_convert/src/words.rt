//! What the words ask for.
ghost use Rattle.std.specs.Prelude.{◌≡◌, MatchResult};
ghost use Rattle.gltf_convert.specs.Forms.{IsForm, HasNoForm};
ghost use Rattle.gltf_convert.specs.declared.refusal.Refusal.TheVariants.{Ending};

use crate::refusal::Refusal;
use gltf::base_of;
use std::mem::replace;

/// What is written.
#[derive(Clone, Copy, Debug, Drop)]
pub(crate) enum Form<'w> {
    /// One GLB container.
    Container,
    /// JSON text with files beside it.
    Text {
        /// The folders of its path.
        base: &'w str,
        /// Its name without the ending, with which the names of its files begin.
        stem: &'w str,
    },
}

/// What the words ask for.
#[derive(Debug, Drop)]
pub(crate) struct Conversion<'w> {
    /// The file that is read.
    pub(crate) from: &'w str,
    /// The file that is written.
    pub(crate) to: &'w str,
    /// What is written.
    pub(crate) form: Form<'w>,
    /// Whether images are not touched.
    pub(crate) keep_images: bool,
    /// Whether an image that is missing is not touched.
    pub(crate) keep_missing_images: bool,
    /// Whether the views go that only images name.
    pub(crate) drop_image_views: bool,
    /// Whether JSON text has line breaks.
    pub(crate) pretty: bool,
    /// Whether a file is written over another one that stands there.
    pub(crate) force: bool,
    /// Whether what the objects of extensions name themselves is written as it stands.
    pub(crate) keep_unknown: bool,
}

/// What the words ask for: two names, and each flag at most once after them. `--pretty`, `--force`
/// and `--drop-image-views` are for JSON text alone, and the latter for images that have files, as
/// `--keep-missing-images` is for images that are taken in.
/// `--outside` is a matter of the source that is asked.
pub(crate) fn request<'w>(words: &[&'w str]) -> Result<Conversion<'w>, Refusal<'w>> {
    let (from, to, flags) = match words {
        [from, to, flags @ ..] => (*from, *to, flags),
        _ => return Err(Refusal::Usage),
    };
    let Flags {
        keep_images,
        keep_missing_images,
        drop_image_views,
        pretty,
        force,
        keep_unknown,
        outside: _,
    } = flags_of(flags)?;
    let form = form_of(to)?;
    if matches!(form, Form::Container) && (pretty || drop_image_views || force) {
        return Err(Refusal::Usage);
    }
    if keep_images && (drop_image_views || keep_missing_images) {
        return Err(Refusal::Usage);
    }
    Ok(Conversion {
        from,
        to,
        form,
        keep_images,
        keep_missing_images,
        drop_image_views,
        pretty,
        force,
        keep_unknown,
    })
}

/// The flags after the names.
#[derive(Clone, Copy, Debug, Default)]
struct Flags {
    keep_images: bool,
    keep_missing_images: bool,
    drop_image_views: bool,
    pretty: bool,
    force: bool,
    keep_unknown: bool,
    outside: bool,
}

/// The flags that these words are, each at most once.
fn flags_of<'w>(words: &[&'w str]) -> Result<Flags, Refusal<'w>> {
    let mut flags = Flags::default();
    for word in words {
        let again = match *word {
            "--keep-images" => replace(&mut flags.keep_images, true),
            "--keep-missing-images" => replace(&mut flags.keep_missing_images, true),
            "--drop-image-views" => replace(&mut flags.drop_image_views, true),
            "--pretty" => replace(&mut flags.pretty, true),
            "--force" => replace(&mut flags.force, true),
            "--keep-unknown" => replace(&mut flags.keep_unknown, true),
            "--outside" => replace(&mut flags.outside, true),
            _ => return Err(Refusal::Usage),
        };
        if again {
            return Err(Refusal::Usage);
        }
    }
    Ok(flags)
}

/// What a name of this ending is written as. A text's files are named after it.
fn form_of<'w>(to: &'w str) -> Result<Form<'w>, Refusal<'w>>
    ensures { MatchResult result (λ form. IsForm to.now form)
        (λ e. (e ≡ Ending to.entry) × HasNoForm to.now) }
{
    if to.ends_with(".glb") {
        return Ok(Form::Container);
    }
    let Some(front) = to.strip_suffix(".gltf") else {
        return Err(Refusal::Ending(to));
    };
    let base = base_of(front);
    match front.strip_prefix(base) {
        Some(stem) if stem.is_empty() => Err(Refusal::Ending(to)),
        Some(stem) => Ok(Form::Text { base, stem }),
        None => Err(Refusal::Ending(to)),
    }
}
