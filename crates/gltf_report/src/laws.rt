//! Laws of text on a line. Each is the contract of a function that does nothing.
ghost use Rattle.std.specs.Prelude.{◌≡◌, ℕ, List, false};
ghost use Rattle.std.specs.List.{list_any};
ghost use Rattle.gltf_report.specs.Printable.{is_control, shown_chars};

/// No control character, and no separator of lines or paragraphs, is among the characters that
/// stand for a text.
pub fn shown_text_has_no_control()
    ensures { (cs : List ℕ) → list_any is_control (shown_chars cs) ≡ false }
{}
