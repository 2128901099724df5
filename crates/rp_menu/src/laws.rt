//! A law of files of menus. The function is empty: its contract is the law.
ghost use Rattle.std.specs.Prelude.{◌≢◌, ℕ, List, Err};
ghost use Rattle.rp_menu.specs.Denotation.{menus_in};
ghost use Rattle.rp_menu.specs.declared.fault.MenuFault.TheVariants as fault;

/// A file never denotes want of memory: each file without menus has a fault with a place or a name of its own.
pub fn files_never_denote_want_of_memory()
    ensures { (bytes : List ℕ) → menus_in bytes ≢ Err fault.NoMemory }
{}
