//! Which calls are planned to fail.
ghost use Rattle.std.specs.Prelude.{◌↔◌, Contains, IsTrue};

/// Whether the call of this number is planned to fail.
pub(crate) fn is_listed(fails: &[u64], number: u64) -> bool
    ensures { IsTrue result ↔ Contains fails.now number }
{
    fails.contains(&number)
}
