//! What the files of a line hold, for each set of files, by the limits of an edition of the program. They are read in
//! the order of the words, each whole before the next.
ghost use Rattle.std.specs.Prelude.{◌≡◌, IfOk};
ghost use Rattle.rp_answers.specs.DemandText.{IsSpentOn};
ghost use Rattle.rp_answers.specs.Typed.{AreTypedIfListed};
ghost use Rattle.rp_evidence.specs.Kinds.{IsCertificateOf};
ghost use Rattle.rp_evidence.specs.declared.certificate.Kind.TheVariants.{Table as TableKind};
ghost use Rattle.rp_evidence.specs.declared.certificate.Kind.TheVariants.{Random as RandomKind};
ghost use Rattle.rp_orders.specs.OrderMixtures.{AreUnitsOf};
ghost use Rattle.rp_table.specs.Tables.{goods_of};
ghost use Rattle.rp_command_line.specs.CommandLine.{file_set, takes_levels};
ghost use Rattle.rp_command_line.specs.Named.{named_line};
ghost use Rattle.rp_command_line.specs.Ranges.{IsSized};
ghost use Rattle.rp_command_line.specs.declared.commands.FileSet.TheVariants as files;
ghost use Rattle.rp_commands.specs.Answers.{HasContentsBy};
ghost use Rattle.rp_commands.specs.Contents as contents;
ghost use Rattle.rp_commands.specs.InnerLoadings.{LoadsLine, MayHaveLevels};

use crate::files::{Cause, load_certificate, load_menus, load_numbers};
use crate::patches::patches_of;
use crate::tables::load_line_table;
use crate::units::units_of;
use rp_answers::Edition;
use rp_command_line::Line;
use rp_cost::{Asked, AskedFile, Tech, TechFile};
use rp_evidence::{Certificate, Kind};
use rp_menu::Menus;
use rp_num::Seq;
use rp_outside::Desk;
use rp_patch::Patches;
use rp_patch::apportionment::Units;
use rp_table::{Bundles, Prices, Table};
use rp_text::{BudgetsFile, BundlesFile, ChoicesFile, PricesFile};
use rp_types::Rational;
use std::alloc::Global;

/// The table in one file.
pub(crate) fn load_table<'a, P: Edition, D: Desk>(
    alloc: Global,
    desk: &mut D,
    line: &Line<'a>,
) -> Result<Table, Cause<'a>>
    requires sized { IsSized (named_line line.now) }
    requires files { file_set (named_line line.now) ≡ files.Table }
    ensures loads { LoadsLine P.printed.limits D.bytes D.faults D.calls D.asked
        desk.old desk.new (named_line line.now) (λ table. HasContentsBy P.printed.limits
        (D.bytes desk.old) (named_line line.now) (contents.Table table)) result }
    ensures levels { IfOk result (MayHaveLevels (takes_levels (named_line line.now))) }
{
    load_line_table(alloc, desk, line)
}

/// The table in one file, and a certificate on a table in another.
pub(crate) fn load_table_certificate<'a, P: Edition, D: Desk>(
    alloc: Global,
    desk: &mut D,
    line: &Line<'a>,
) -> Result<(Table, Certificate), Cause<'a>>
    requires sized { IsSized (named_line line.now) }
    requires files { file_set (named_line line.now) ≡ files.TableAndCertificate }
    ensures loads { LoadsLine P.printed.limits D.bytes D.faults D.calls D.asked
        desk.old desk.new (named_line line.now) (λ both. HasContentsBy P.printed.limits
        (D.bytes desk.old) (named_line line.now)
        (contents.TableAndCertificate both.0 both.1)) result }
    ensures kind { IfOk result (λ both. IsCertificateOf TableKind both.1) }
{
    let table = load_line_table(alloc, desk, line)?;
    let certificate = load_certificate(alloc, desk, line.arguments.file(1), Kind::Table)?;
    Ok((table, certificate))
}

/// The table in one file, and the new budgets beside it in another.
pub(crate) fn load_table_prices_with_expenditure<'a, P: Edition, D: Desk>(
    alloc: Global,
    desk: &mut D,
    line: &Line<'a>,
) -> Result<(Table, Prices), Cause<'a>>
    requires sized { IsSized (named_line line.now) }
    requires files { file_set (named_line line.now) ≡ files.TableAndPricesWithExpenditure }
    ensures loads { LoadsLine P.printed.limits D.bytes D.faults D.calls D.asked
        desk.old desk.new (named_line line.now) (λ both. HasContentsBy P.printed.limits
        (D.bytes desk.old) (named_line line.now)
        (contents.TableAndPricesWithExpenditure both.0 both.1)) result }
    ensures levels { IfOk result (λ both.
        MayHaveLevels (takes_levels (named_line line.now)) both.0) }
    ensures spent { IfOk result (λ both. IsSpentOn both.0 both.1) }
{
    let table = load_line_table(alloc, desk, line)?;
    let kind = PricesFile {
        table: &table,
        with_m: true,
    };
    let new = load_numbers(alloc, desk, line.arguments.file(1), &kind)?;
    Ok((table, new))
}

/// The table in one file, and the new prices beside it in another.
pub(crate) fn load_table_prices<'a, P: Edition, D: Desk>(
    alloc: Global,
    desk: &mut D,
    line: &Line<'a>,
) -> Result<(Table, Prices), Cause<'a>>
    requires sized { IsSized (named_line line.now) }
    requires files { file_set (named_line line.now) ≡ files.TableAndPrices }
    ensures loads { LoadsLine P.printed.limits D.bytes D.faults D.calls D.asked
        desk.old desk.new (named_line line.now) (λ both. HasContentsBy P.printed.limits
        (D.bytes desk.old) (named_line line.now) (contents.TableAndPrices both.0 both.1)) result }
    ensures levels { IfOk result (λ both.
        MayHaveLevels (takes_levels (named_line line.now)) both.0) }
    ensures goods { IfOk result (λ both. both.1.goods ≡ goods_of both.0) }
{
    let table = load_line_table(alloc, desk, line)?;
    let kind = PricesFile {
        table: &table,
        with_m: false,
    };
    let new = load_numbers(alloc, desk, line.arguments.file(1), &kind)?;
    Ok((table, new))
}

/// The table in one file, and the bundles beside it in another.
pub(crate) fn load_table_bundles<'a, P: Edition, D: Desk>(
    alloc: Global,
    desk: &mut D,
    line: &Line<'a>,
) -> Result<(Table, Bundles), Cause<'a>>
    requires sized { IsSized (named_line line.now) }
    requires files { file_set (named_line line.now) ≡ files.TableAndBundles }
    ensures loads { LoadsLine P.printed.limits D.bytes D.faults D.calls D.asked
        desk.old desk.new (named_line line.now) (λ both. HasContentsBy P.printed.limits
        (D.bytes desk.old) (named_line line.now) (contents.TableAndBundles both.0 both.1)) result }
    ensures goods { IfOk result (λ both. both.1.goods ≡ goods_of both.0) }
{
    let table = load_line_table(alloc, desk, line)?;
    let bundles = load_numbers(alloc, desk, line.arguments.file(1), &BundlesFile(&table))?;
    Ok((table, bundles))
}

/// The patches of choices from budgets, in two files, with their rational types, where these are listed.
pub(crate) fn load_patches<'a, P: Edition, D: Desk>(
    alloc: Global,
    desk: &mut D,
    line: &Line<'a>,
) -> Result<(Patches, Option<Seq<Rational>>), Cause<'a>>
    requires sized { IsSized (named_line line.now) }
    requires files { file_set (named_line line.now) ≡ files.Choices }
    ensures loads { LoadsLine P.printed.limits D.bytes D.faults D.calls D.asked
        desk.old desk.new (named_line line.now) (λ both. HasContentsBy P.printed.limits
        (D.bytes desk.old) (named_line line.now) (contents.Choices both.0 both.1)) result }
    ensures typed { IfOk result (λ both. AreTypedIfListed both.0 both.1) }
{
    let budgets = load_numbers(alloc, desk, line.arguments.file(0), &BudgetsFile)?;
    let choices = load_numbers(alloc, desk, line.arguments.file(1), &ChoicesFile(&budgets))?;
    patches_of::<P>(alloc, &budgets, &choices, line.arguments.per)
}

/// The patches of choices from budgets with their rational types, and a certificate on them in a third file, which is
/// read before the patches are made.
pub(crate) fn load_patches_certificate<'a, P: Edition, D: Desk>(
    alloc: Global,
    desk: &mut D,
    line: &Line<'a>,
) -> Result<(Patches, Option<Seq<Rational>>, Certificate), Cause<'a>>
    requires sized { IsSized (named_line line.now) }
    requires files { file_set (named_line line.now) ≡ files.ChoicesAndCertificate }
    ensures loads { LoadsLine P.printed.limits D.bytes D.faults D.calls D.asked
        desk.old desk.new (named_line line.now) (λ all. HasContentsBy P.printed.limits
        (D.bytes desk.old) (named_line line.now)
        (contents.ChoicesAndCertificate all.0 all.1 all.2)) result }
    ensures kind { IfOk result (λ all. IsCertificateOf RandomKind all.2) }
{
    let budgets = load_numbers(alloc, desk, line.arguments.file(0), &BudgetsFile)?;
    let choices = load_numbers(alloc, desk, line.arguments.file(1), &ChoicesFile(&budgets))?;
    let certificate = load_certificate(alloc, desk, line.arguments.file(2), Kind::Random)?;
    let (patches, types) = patches_of::<P>(alloc, &budgets, &choices, line.arguments.per)?;
    Ok((patches, types, certificate))
}

/// The choices from menus in one file, with the units of their cells.
pub(crate) fn load_menus_with_units<'a, P: Edition, D: Desk>(
    alloc: Global,
    desk: &mut D,
    line: &Line<'a>,
) -> Result<(Menus, Units), Cause<'a>>
    requires sized { IsSized (named_line line.now) }
    requires files { file_set (named_line line.now) ≡ files.Menus }
    ensures loads { LoadsLine P.printed.limits D.bytes D.faults D.calls D.asked
        desk.old desk.new (named_line line.now) (λ both. HasContentsBy P.printed.limits
        (D.bytes desk.old) (named_line line.now) (contents.Menus both.0 both.1)) result }
    ensures units { IfOk result (λ both. AreUnitsOf both.0 both.1) }
{
    let seen = load_menus(alloc, desk, line.arguments.file(0))?;
    let units = units_of(alloc, &seen, line.arguments.per)?;
    Ok((seen, units))
}

/// The technology in one file, and the outputs that are asked of it in another.
pub(crate) fn load_technology_asked<'a, P: Edition, D: Desk>(
    alloc: Global,
    desk: &mut D,
    line: &Line<'a>,
) -> Result<(Tech, Asked), Cause<'a>>
    requires sized { IsSized (named_line line.now) }
    requires files { file_set (named_line line.now) ≡ files.TechnologyAndAsked }
    ensures loads { LoadsLine P.printed.limits D.bytes D.faults D.calls D.asked
        desk.old desk.new (named_line line.now) (λ both. HasContentsBy P.printed.limits
        (D.bytes desk.old) (named_line line.now)
        (contents.TechnologyAndAsked both.0 both.1)) result }
    ensures goods { IfOk result (λ both. both.1.prices.goods ≡ goods_of both.0.table) }
{
    let tech = load_numbers(alloc, desk, line.arguments.file(0), &TechFile)?;
    let asked = load_numbers(alloc, desk, line.arguments.file(1), &AskedFile(&tech))?;
    Ok((tech, asked))
}
