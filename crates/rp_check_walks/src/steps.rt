//! Steps of the preference that choices reveal.
ghost use Rattle.std.specs.Prelude.{◌<◌, ◌↔◌, IsTrue};
ghost use Rattle.rp_evidence.specs.Preference.{IsStrict, IsWeak};
ghost use Rattle.rp_table.specs.Cost.{cost_of};
ghost use Rattle.rp_table.specs.Tables.{records_of};

use rp_clauses::input::Input;

/// Whether `s` is weakly preferred to `t`.
pub fn is_weak(input: &Input<'_>, s: u32, t: u32) -> bool
    requires from { s < records_of input.now.table.now }
    requires to { t < records_of input.now.table.now }
    ensures { IsTrue result ↔ IsWeak (cost_of input.now.table.now) s t }
{
    input.cost(s, t) <= input.cost(s, s)
}

/// Whether `s` is strictly preferred to `t`.
pub fn is_strict(input: &Input<'_>, s: u32, t: u32) -> bool
    requires from { s < records_of input.now.table.now }
    requires to { t < records_of input.now.table.now }
    ensures { IsTrue result ↔ IsStrict (cost_of input.now.table.now) s t }
{
    input.cost(s, t) < input.cost(s, s)
}
