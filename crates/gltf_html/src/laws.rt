//! Laws of text in HTML. Each is the contract of a function that does nothing.
ghost use Rattle.std.specs.Prelude.{◌≡◌, ℕ, List, false};
ghost use Rattle.std.specs.List.{list_any};
ghost use Rattle.gltf_html.specs.Html.{html_text, data_text, is_markup, is_less_than};
ghost use Rattle.gltf_html.specs.References.{text_of};

/// No text holds markup: none of `<`, `>`, `"` and `'` is in it once it is escaped.
pub fn escaped_text_holds_no_markup()
    ensures { (text : List ℕ) → list_any is_markup (html_text text) ≡ false }
{}

/// Each `&` of escaped text begins one of the five references: read as these, it is the text again.
pub fn escaped_text_is_read_as_the_text()
    ensures { (text : List ℕ) → text_of (html_text text) ≡ text }
{}

/// No data end the script that they stand in: there is no `<` in them.
pub fn data_hold_no_tag()
    ensures { (json : List ℕ) → list_any is_less_than (data_text json) ≡ false }
{}
