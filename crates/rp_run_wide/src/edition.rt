//! The edition of the program that fills what is withheld.
use rp_answers::{ChoiceLimits, Edition, Verdicts, report_or_json, report_trial};
use rp_cost::{Asked, CostBounds, Tech, report_cost};
use rp_evidence::Certificate;
use rp_filled::{fill_certificate, fill_costs, fill_homothetic};
use rp_num::{NoMemory, Seq};
use rp_table::Table;
use std::alloc::Global;

/// The edition that fills what is withheld where evidence is found, and answers choices whose rational types are not
/// listed: `rp-wide`.
pub struct Filled;

impl Edition for Filled {
    ghost use Rattle.rp_run_wide.specs.Filling.{as_filled};

    ghost printed = { as_filled };

    fn print_certificate(
        alloc: Global,
        table: &Table,
        certificate: Certificate,
        json: bool,
    ) -> Result<Vec<u8>, NoMemory> {
        let filled = fill_certificate(alloc, table, certificate)?;
        report_or_json(alloc, &filled, table, json)
    }

    fn print_costs(
        alloc: Global,
        tech: &Tech,
        asked: &Asked,
        bounds: Seq<CostBounds>,
    ) -> Result<Vec<u8>, NoMemory> {
        let filled = fill_costs(alloc, tech, asked, bounds.into_vec())?;
        let filled = Seq::from_vec(filled);
        let text = report_cost(alloc, tech, asked, &filled)?;
        Ok(text)
    }

    fn print_trial(
        alloc: Global,
        seed: u64,
        rows: u32,
        goods: u32,
        table: &Table,
        verdicts: Verdicts,
    ) -> Result<Vec<u8>, NoMemory> {
        let homothetic = fill_homothetic(alloc, table, verdicts.homothetic)?;
        let filled = Verdicts {
            garp: verdicts.garp,
            efficiency: verdicts.efficiency,
            homothetic,
            quasilinear: verdicts.quasilinear,
        };
        report_trial(alloc, seed, rows, goods, &filled)
    }

    fn usage() -> &'static [u8] {
        b"usage: rp-wide pairs TABLE\n       rp-wide analyse TABLE\n       rp-wide certify TABLE\n       rp-wide check TABLE CERT\n       rp-wide demand TABLE NEW [--json]\n       rp-wide welfare TABLE NEW [--json]\n       rp-wide utility TABLE BUNDLES\n       rp-wide random BUDGETS CHOICES [--per N] [--json]\n       rp-wide checkrandom BUDGETS CHOICES CERT [--per N]\n       rp-wide patches BUDGETS CHOICES [--per N]\n       rp-wide trial SEED ROWS GOODS\n       rp-wide menus FILE [--per N]\n       rp-wide pump TABLE\n       rp-wide cost TECH NEW\n       rp-wide power TABLE SEED N\n"
    }

    fn limits() -> ChoiceLimits {
        ChoiceLimits::Unlisted
    }
}
