//! What is asked by words after `random` that set a limit of steps.
ghost use Rattle.std.specs.Prelude.{◌≤◌};
ghost use Rattle.rp_generated.specs.Steps.{IsMostSteps};
ghost use Rattle.rp_limits.specs.declared.patch.TheConstants.{UNITS};

/// What the next word is.
#[derive(Clone, Copy, Debug, PartialEq, Eq)]
pub enum Awaited {
    /// An option, or the name of a file that is not named yet.
    Next,
    /// How many units there are to be on each budget.
    Units,
    /// The most steps of searches.
    Steps,
}

/// What is asked of choices from budgets: the names of the two files, how many units there are to be on each budget, the most
/// steps that searches may make, and whether the answer is to be JSON.
#[derive(Clone, Copy, Debug)]
pub struct RandomAsked<'w> {
    pub(crate) budgets: &'w str,
    pub(crate) choices: &'w str,
    pub(crate) per: u32,
    pub(crate) most: u64,
    pub(crate) json: bool,
    pub(crate) awaited: Awaited,
    ghost units: { per ≤ UNITS },
    ghost half: { IsMostSteps most },
}
