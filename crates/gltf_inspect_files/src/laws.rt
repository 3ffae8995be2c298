//! Laws of reports of files. Each is the contract of a function; the calls in a body are laws that
//! its proof stands on, and do nothing.
ghost use Rattle.std.specs.Prelude.{◌≡◌, ◌≢◌, ◌⊎◌, ◌∷◌, ℕ, Bool, true, List, [], Option, Some};
ghost use Rattle.std.specs.Prelude.{None};
ghost use Rattle.std.specs.Prelude.{slice_get, codes};
ghost use Rattle.gltf.specs.Import.{IsNotAccepted};
ghost use Rattle.gltf_buffers.specs.Names.{Names, Nowhere};
ghost use Rattle.gltf_glb.specs.declared.error.Error.{Error};
ghost use Rattle.gltf_findings.specs.Reports.{count_of, refusal_count};
ghost use Rattle.gltf_findings.specs.declared.code.Severity.TheVariants as grave;
ghost use Rattle.gltf_findings.specs.declared.code.Code.{Code};
ghost use Rattle.gltf_findings.specs.declared.code.Code.TheVariants.{ItemsNotLookedAt};
ghost use Rattle.gltf_findings.specs.Checks.{Fails};
ghost use Rattle.gltf_json.specs.declared.root.Root.{Root};
ghost use Rattle.gltf_json_geometry.specs.declared.accessor.Accessor.{Accessor};
ghost use Rattle.gltf_json_record.specs.Place.{Place, named, numbered};
ghost use Rattle.gltf_inspect_items.specs.Reading.{Bytes};
ghost use Rattle.gltf_inspect_files.specs.LeftOut.{IsOfLeftOut, SaysLeftOut};
ghost use Rattle.gltf_inspect_files.specs.Reports.{Found, IsOfRefused, contents_checks};
ghost use Rattle.gltf_inspect_files.specs.Reports.{IsOfNeededMember};
ghost use Rattle.gltf_inspect_files.specs.Within.{contents_checks_but};

use gltf_inspect::laws::the_rules_hold_where_no_error_is_found;
use gltf_json::laws::what_shows_the_same_is_alike_in_each_member;
use gltf_rules::laws::{
    no_rule_is_broken_where_all_hold, what_shows_the_same_breaks_the_same_rules,
};

/// The report of a file that is refused says so: it has an error, or the one finding that a member is
/// absent which the standard lets be absent, and which this reader needs. So a report with neither is
/// of a file that is accepted. Where the file holds a document, its report has an error.
pub fn what_is_refused_is_reported()
    ensures reported { (names : Names) (bytes : List ℕ) (cause : Option Error) (found : Found)
        → IsOfRefused names bytes cause found → refusal_count found ≢ 0 }
    ensures needed { (names : Names) (bytes : List ℕ) (cause : Option Error) (found : Found)
        → IsOfRefused names bytes cause found → count_of grave.Error found ≡ 0
        → IsOfNeededMember cause found }
    ensures document { (names : Names) (bytes : List ℕ) (found : Found)
        → IsOfRefused names bytes None found → count_of grave.Error found ≢ 0 }
{
    the_rules_hold_where_no_error_is_found();
    no_rule_is_broken_where_all_hold();
}

/// Where no name can be asked for, no bytes are both accepted and refused.
pub fn what_is_refused_is_not_accepted()
    ensures { (bytes : List ℕ) (cause : Option Error) (found : Found)
        → IsOfRefused Nowhere bytes cause found → IsNotAccepted bytes }
{
    what_shows_the_same_is_alike_in_each_member();
    what_shows_the_same_breaks_the_same_rules();
}

/// Where accessors are left out, each of them is told, and of all others the same is found: nothing
/// else is in the report, and nothing is missing but what is found at accessors that are left out,
/// at indices of primitives and at times of samplers that these have.
pub fn of_what_is_not_left_out_the_same_is_found()
    ensures told { (out : ℕ → Bool) (r : Root) (bytes : Bytes) (i : ℕ) (a : Accessor)
        → slice_get r.accessors.items i ≡ Some a → out i ≡ true
        → Fails (contents_checks_but out r bytes)
        (named (codes "accessors") ∷ numbered i ∷ []) ItemsNotLookedAt }
    ensures no_more { (out : ℕ → Bool) (r : Root) (bytes : Bytes) (path : List Place)
        (code : Code)
        → Fails (contents_checks_but out r bytes) path code
        → Fails (contents_checks r bytes) path code ⊎ SaysLeftOut out path code }
    ensures no_less { (out : ℕ → Bool) (r : Root) (bytes : Bytes) (path : List Place)
        (code : Code)
        → Fails (contents_checks r bytes) path code
        → Fails (contents_checks_but out r bytes) path code ⊎ IsOfLeftOut out r path }
{}
