//! Laws of what is found in values. Each is the contract of a function that does nothing.
ghost use Rattle.std.specs.Prelude.{Bool, true, List, [], ◌≡◌, ◌↔◌, None};
ghost use Rattle.std.specs.List.{Contains};
ghost use Rattle.gltf_json.specs.declared.root.Root.{Root};
ghost use Rattle.gltf_json_record.specs.Place.{Place};
ghost use Rattle.gltf_findings.specs.declared.code.Code.{Code};
ghost use Rattle.gltf_findings.specs.Checks.{findings_of, Fails};
ghost use Rattle.gltf_inspect_values.specs.Documents.{values_checks};
ghost use Rattle.gltf_inspect_items.specs.Reading.{Bytes};
ghost use Rattle.gltf_inspect_values.specs.Falls.{falls, SomeNeighbours};

/// A code is found at a path of a document exactly where a condition with that code stands there
/// and is false.
pub fn a_code_is_found_exactly_where_its_condition_fails()
    ensures { (r : Root) (bytes : Bytes) (path : List Place) (code : Code)
        → Contains (findings_of [] (values_checks r bytes)) (path, code)
        ↔ Fails (values_checks r bytes) path code }
{
    gltf_findings::laws::a_finding_is_a_condition_that_fails()
}

/// A list of sparse indices or of times falls exactly where there are two of them, the one right
/// after the other, of which the second is not above the first.
pub fn a_list_falls_exactly_where_two_neighbours_do<T>()
    ensures { (stands : T → T → Bool) (xs : List T)
        → (falls stands None xs ≡ true) ↔ SomeNeighbours stands xs }
{}
