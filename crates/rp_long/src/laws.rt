//! A law of what a long file denotes. The function is empty: its contract is the law.
ghost use Rattle.std.specs.Prelude.{◌≡◌, ℕ, List, Ok};
ghost use Rattle.rp_sheet.specs.Fields.{rows_in};
ghost use Rattle.rp_long.specs.Panels.{Panel, denoted_panel};
ghost use Rattle.rp_long.specs.EachOnce.{EachStandsOnce, told_records};

/// No record of a long file is left out and none is told twice: each is a record of one household, or it is refused for
/// its id.
pub fn each_record_stands_once()
    ensures { (id : List ℕ) (kept : List (List ℕ)) (records : List (List (List ℕ))) (panel : Panel)
        → denoted_panel id kept records ≡ Ok panel
        → EachStandsOnce (rows_in records) (told_records panel) }
{}
