//! Laws of findings. Each is the contract of a function that does nothing.
ghost use Rattle.std.specs.Prelude.{List, [], ◌≡◌, ◌++◌, ◌↔◌};
ghost use Rattle.std.specs.List.{Contains};
ghost use Rattle.gltf_json_record.specs.Place.{Place};
ghost use Rattle.gltf_findings.specs.Checks.{Checks, findings_of, told_after, Fails};
ghost use Rattle.gltf_findings.specs.declared.code.Code.{Code};

/// A code is found at a path exactly where a condition with that code stands there and is false.
pub fn a_finding_is_a_condition_that_fails()
    ensures { (checks : Checks) (path : List Place) (code : Code)
        → Contains (findings_of [] checks) (path, code) ↔ Fails checks path code }
{}

/// A walk puts what the checks find after what was found before.
pub fn a_walk_adds_what_is_found()
    ensures { (told : List (List Place × Code)) (path : List Place) (checks : Checks)
        → told_after told path checks ≡ told ++ findings_of path checks }
{}
