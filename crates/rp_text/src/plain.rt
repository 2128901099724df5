//! A law of tables in the plain form.
ghost use Rattle.std.specs.Prelude.{◌≡◌, Ok};
ghost use Rattle.rp_table.specs.Tables.{Observations};
ghost use Rattle.rp_text.specs.Plain.{IsPlainTable};
ghost use Rattle.rp_text.specs.Denotation.{table_in};

/// Does nothing: a law says that each table in the plain form, lines of letters, digits and commas
/// alone, is read as the table that it lists.
pub fn plain_tables(bytes: &[u8])
    ensures { (table : Observations) → IsPlainTable bytes.now table
        → table_in bytes.now ≡ Ok table }
{}
