//! The editions of the program, and the one that prints what was computed as it stands.
ghost use Rattle.std.specs.Prelude.{◌≡◌, IfOk};
ghost use Rattle.rp_evidence.specs.Input.{input_of_table};
ghost use Rattle.rp_evidence.specs.Kinds.{IsCertificateOf};
ghost use Rattle.rp_evidence.specs.declared.certificate.Kind.TheVariants.{Table as TableKind};
ghost use Rattle.rp_table.specs.Tables.{goods_of};
ghost use Rattle.rp_agreement.specs.ReadBack.{IsReadBack};
ghost use Rattle.rp_answers.specs.Accepted.{IsAcceptedOn};
ghost use Rattle.rp_answers.specs.CostText.{AreBoundsUnder};
ghost use Rattle.rp_answers.specs.Printed.{Printed, as_stated};
ghost use Rattle.rp_answers.specs.TrialTable.{trial_of};
ghost use Rattle.rp_answers.specs.TrialText.{AreVerdicts};

use crate::choice_limits::ChoiceLimits;
use crate::shared::report_or_json;
use crate::trial::{Verdicts, report_trial};
use rp_command_line::usage;
use rp_cost::{Asked, CostBounds, Tech, report_cost};
use rp_evidence::Certificate;
use rp_num::{NoMemory, Seq};
use rp_table::Table;
use std::alloc::Global;

/// An edition of the program. Two of them differ in this alone: what is printed of what was computed, how the program is
/// called, and which choices from budgets it answers.
pub trait Edition {
    /// What is printed.
    ghost printed: { Printed };

    /// The text of a certificate on a table: a report, or JSON.
    fn print_certificate(
        alloc: Global,
        table: &Table,
        certificate: Certificate,
        json: bool,
    ) -> Result<Vec<u8>, NoMemory>
        requires kind { IsCertificateOf TableKind certificate }
        requires accepted { IsAcceptedOn (input_of_table table.now) certificate }
        requires read_back { IsReadBack TableKind certificate }
        ensures { IfOk result (λ text.
            (Self.printed).of_certificate json table.now certificate text.items) };

    /// The report of a technology, with these bounds on what each asked output costs at its prices.
    fn print_costs(
        alloc: Global,
        tech: &Tech,
        asked: &Asked,
        bounds: Seq<CostBounds>,
    ) -> Result<Vec<u8>, NoMemory>
        requires inputs { asked.now.prices.goods ≡ goods_of tech.now.table }
        requires bounded { AreBoundsUnder tech.now asked.now bounds }
        ensures { IfOk result (λ text.
            (Self.printed).of_costs tech.now asked.now bounds text.items) };

    /// The text of a trial: which one it is, and the verdicts on its table.
    fn print_trial(
        alloc: Global,
        seed: u64,
        rows: u32,
        goods: u32,
        table: &Table,
        verdicts: Verdicts,
    ) -> Result<Vec<u8>, NoMemory>
        requires drawn { table.now ≡ trial_of seed rows goods }
        requires judged { AreVerdicts table.now verdicts.garp verdicts.efficiency
            verdicts.homothetic verdicts.quasilinear }
        ensures { IfOk result (λ text. (Self.printed).of_trial seed rows goods verdicts.garp
            verdicts.efficiency verdicts.homothetic verdicts.quasilinear text.items) };

    /// How the program is called.
    fn usage() -> &'static [u8]
        ensures { result.now ≡ (Self.printed).usage };

    /// Which choices from budgets are answered.
    fn limits() -> ChoiceLimits
        ensures { result ≡ (Self.printed).limits };
}

/// The edition that prints what was computed as it stands: `rp`.
pub struct AsStated;

impl Edition for AsStated {
    ghost printed = { as_stated };

    fn print_certificate(
        alloc: Global,
        table: &Table,
        certificate: Certificate,
        json: bool,
    ) -> Result<Vec<u8>, NoMemory> {
        report_or_json(alloc, &certificate, table, json)
    }

    fn print_costs(
        alloc: Global,
        tech: &Tech,
        asked: &Asked,
        bounds: Seq<CostBounds>,
    ) -> Result<Vec<u8>, NoMemory> {
        report_cost(alloc, tech, asked, &bounds)
    }

    fn print_trial(
        alloc: Global,
        seed: u64,
        rows: u32,
        goods: u32,
        _table: &Table,
        verdicts: Verdicts,
    ) -> Result<Vec<u8>, NoMemory> {
        report_trial(alloc, seed, rows, goods, &verdicts)
    }

    fn usage() -> &'static [u8] {
        usage()
    }

    fn limits() -> ChoiceLimits {
        ChoiceLimits::Listed
    }
}
