//! Laws of the definition of a walk. Each function's contract is the law, and needs no body.

ghost use Rattle.std.specs.Prelude.{◌≡◌, ℕ, List, [], None};
ghost use Rattle.gltf_walk.specs.DepthFirst.{Visit, DepthFirst};
ghost use Rattle.gltf_walk.specs.Reached.{GivesEachOnce};

/// A walk gives each of the nodes that it begins with and each node below them first in one step,
/// and no other node.
pub fn each_once()
    ensures { (children : ℕ → List ℕ) (roots : List ℕ) (steps : List Visit)
        → DepthFirst children [] None 0 roots steps → GivesEachOnce children roots steps }
{}

/// There is one walk: the steps are a function of what the nodes name as their children and of the
/// nodes that it begins with.
pub fn one_walk()
    ensures { (children : ℕ → List ℕ) (roots : List ℕ) (steps others : List Visit)
        → DepthFirst children [] None 0 roots steps → DepthFirst children [] None 0 roots others
        → steps ≡ others }
{}
