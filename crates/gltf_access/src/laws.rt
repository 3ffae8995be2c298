//! Laws of the definitions that the contracts of this crate name. The function's contract is the
//! law, and it needs no body.

ghost use Rattle.std.specs.Prelude.{◌≡◌, ℕ, ◌+◌, ◌*◌, ◌<◌, ◌≤◌, List, length, take, drop};
ghost use Rattle.gltf_json_geometry.specs.declared.accessor.Accessor.{Accessor};
ghost use Rattle.gltf_handles.specs.Sizes.{item_size};
ghost use Rattle.gltf_data.specs.Parts.{Part, Fits};
ghost use Rattle.gltf_access.specs.Raw.{HoldsItem};
ghost use Rattle.gltf_access.specs.Components.{end_size, components, component_offset};
ghost use Rattle.gltf_access.specs.Components.{layout_of};
ghost use Rattle.gltf_access.specs.declared.layout.Layout.{Layout};

/// The bytes of an accessor hold each of its items: item i begins at `i * stride`, has all its
/// bytes, and these are those at its address in the buffer.
pub fn bytes_hold_each_item()
    ensures { (p : Part) (bytes : List ℕ) → Fits p bytes → (i : ℕ) → i < p.count
        → HoldsItem p bytes i }
{}

/// The bytes of the components of an item, column by column, are those at their places in the item:
/// column `c` begins at `c` times the bytes of a column with its padding, and each row at so many
/// components in the column (glTF 2.0, section 3.6.2.4, "Data Alignment").
pub fn components_stand_at_their_places()
    ensures { (l : Layout) (component rows row column : ℕ) (bytes : List ℕ)
        → l.column ≡ rows * component → row < rows → column < l.columns
        → end_size l ≤ length bytes
        → take component (drop ((column * rows + row) * component) (components l bytes))
        ≡ take component (drop (component_offset component l row column) bytes) }
{}

/// Where an accessor's items have no padding, an item ends with its bytes, and these are the bytes
/// of its components, as `to_bytes` gives them.
pub fn components_without_padding_are_bytes()
    ensures { (a : Accessor) → (layout_of a).padding ≡ 0 → 0 < item_size a
        → (end_size (layout_of a) ≡ item_size a)
        × ((bytes : List ℕ) → components (layout_of a) bytes ≡ take (item_size a) bytes) }
{}
