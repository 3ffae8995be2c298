//! Laws of what is found in a document. Each is the contract of a function that does nothing.
ghost use Rattle.std.specs.Prelude.{List, [], ◌≡◌, ◌↔◌};
ghost use Rattle.std.specs.List.{Contains};
ghost use Rattle.gltf_json.specs.declared.root.Root.{Root};
ghost use Rattle.gltf_json_record.specs.Place.{Place};
ghost use Rattle.gltf_validation.specs.Documents.{counts_of, root_rules};
ghost use Rattle.gltf_validation.specs.Rules.{Hold};
ghost use Rattle.gltf_findings.specs.declared.code.Code.{Code};
ghost use Rattle.gltf_findings.specs.declared.code.Severity.TheVariants.{Error};
ghost use Rattle.gltf_findings.specs.Checks.{findings_of, Fails};
ghost use Rattle.gltf_findings.specs.Reports.{count_of};
ghost use Rattle.gltf_inspect.specs.Documents.{root_checks};

/// A code is found at a path of a document exactly where a condition with that code stands there
/// and is false.
pub fn a_code_is_found_exactly_where_its_condition_fails()
    ensures { (r : Root) (path : List Place) (code : Code)
        → Contains (findings_of [] (root_checks r)) (path, code)
        ↔ Fails (root_checks r) path code }
{
    gltf_findings::laws::a_finding_is_a_condition_that_fails()
}

/// Where no error is found in a document, all rules of loading hold.
pub fn the_rules_hold_where_no_error_is_found()
    ensures { (r : Root) → count_of Error (findings_of [] (root_checks r)) ≡ 0
        → Hold (root_rules (counts_of r) r) }
{}
