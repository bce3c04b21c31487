ghost use Rattle.std.specs.Prelude.{◌≡◌, ℕ, Bool, List, replicate};
ghost use Rattle.zab_epoch.specs.Quorums.{is_heavy, is_majority};

/// With equal weights, the sets of more than half of the weight are the majorities.
pub fn even_weights_are_majorities()
    ensures { (servers : ℕ) (marks : List Bool) → is_heavy (replicate servers 1) marks ≡ is_majority servers marks }
{}
