//! What holds of every document. Each law is the contract of a function that does nothing.
pub mod records;

ghost use Rattle.std.specs.Prelude.{◌≡◌, ◌⊎◌, ℕ, List};
ghost use Rattle.serde_json.specs.Data.{Data};
ghost use Rattle.gltf_json_record.specs.Place.{Place};
ghost use Rattle.gltf_json_record.specs.declared.error.RecordFault.{RecordFault};
ghost use Rattle.gltf_json.specs.Alike.{AreAlikeInEachMember};
ghost use Rattle.gltf_json.specs.Documents.{root};
ghost use Rattle.gltf_json.specs.Reading.{Reads};
ghost use Rattle.gltf_json.specs.declared.root.Root.{Root};

/// Every value fits the tables of the format, or a fault stands in it at some place.
pub fn each_value_fits_or_has_a_fault()
    ensures { (d : Data) → root.fits d ⊎ ((p : List Place) × (f : RecordFault) × root.fault d p f) }
{}

/// No value both fits the tables of the format and has a fault.
pub fn no_value_fits_and_has_a_fault()
    ensures { (d : Data) (p : List Place) (f : RecordFault) → root.fits d → root.fault d p f → ⊥ }
{}

/// A value that is a document fits the tables of the format.
pub fn a_document_fits()
    ensures { (d : Data) (r : Root) → root.is d r → root.fits d }
{}

/// Any two documents that are readings of one text show the same: texts, numbers, lists, values
/// kept as they stand, the members of `others`; not capacities.
pub fn two_readings_of_a_text_are_alike()
    ensures { (bytes : List ℕ) (d e : Data) (r s : Root) → Reads bytes d → Reads bytes e
        → root.is d r → root.is e s → root.content r ≡ root.content s }
{}

/// Two documents that show the same do so in each member: their lists element by element.
pub fn what_shows_the_same_is_alike_in_each_member()
    ensures { (r s : Root) → root.content r ≡ root.content s → AreAlikeInEachMember r s }
{}
