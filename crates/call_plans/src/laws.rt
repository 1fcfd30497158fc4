//! What holds of every plan.
ghost use Rattle.call_plans.specs.Plans.{Any, IsDetermined, Plan};

/// The replies of a run determine its calls and what it gave: a plan leaves nothing to choose. `C` is what is
/// called, `R` what is replied, `X` what is given.
pub fn plan_law<C, R, X>()
    ensures determined { (p : Plan C R X) → IsDetermined Any p }
{}
