//! The commands of the program, each with its form.
ghost use Rattle.std.specs.Prelude.{◌≡◌, Some, None, map};
ghost use Rattle.rp_command_line.specs.CommandLine.{command_named, commands, file_names, form_of};
ghost use Rattle.rp_command_line.specs.CommandForms.{over, with_json, with_levels, with_numbers};
ghost use Rattle.rp_command_line.specs.CommandForms.{with_per};
ghost use Rattle.rp_command_line.specs.Named.{named_form, named_number};
ghost use Rattle.rp_command_line.specs.Usage.{usage_text};

/// What the program is asked for.
#[derive(Clone, Copy)]
pub enum Command {
    /// The first two observations of a table that contradict each other.
    Pairs,
    /// The verdicts on a table, with their evidence.
    Analyse,
    /// The verdicts on a table with their evidence, as a certificate.
    Certify,
    /// The checker's verdict on a certificate on a table.
    Check,
    /// Demand at new prices that a table supports.
    Demand,
    /// The bounds on the money metric of a table's observations at new prices.
    Welfare,
    /// The utility of bundles under the numbers that a table gives.
    Utility,
    /// Whether rational types make the choices from budgets.
    Random,
    /// The checker's verdict on a certificate on choices from budgets.
    CheckRandom,
    /// The patches that choices from budgets fall in.
    Patches,
    /// The verdicts on the trial table of a seed.
    Trial,
    /// Whether mixtures of strict orders make the choices from menus.
    Menus,
    /// The greatest money pump ratio of a table.
    Pump,
    /// The axioms of production on a technology, and the bounds on what outputs cost.
    Cost,
    /// How many random behaviours on a table's budgets fail the axiom.
    Power,
}

/// Which files a command is given, in the order of the words.
#[derive(Clone, Copy)]
pub enum FileSet {
    Nothing,
    Table,
    TableAndCertificate,
    /// A table, and new prices that each have an expenditure.
    TableAndPricesWithExpenditure,
    /// A table, and new prices.
    TableAndPrices,
    TableAndBundles,
    /// Budgets, and choices from them.
    Choices,
    /// Budgets, choices from them, and a certificate on these.
    ChoicesAndCertificate,
    /// Menus, and choices from them.
    Menus,
    /// A technology, and outputs at new input prices whose cost is asked.
    TechnologyAndAsked,
}

impl FileSet {
    /// What the usage calls these files.
    pub(crate) fn names(self) -> &'static [&'static str]
        ensures { map (λ name. name.now) result.now ≡ file_names self }
    {
        match self {
            FileSet::Nothing => &[],
            FileSet::Table => &["TABLE"],
            FileSet::TableAndCertificate => &["TABLE", "CERT"],
            FileSet::TableAndPricesWithExpenditure => &["TABLE", "NEW"],
            FileSet::TableAndPrices => &["TABLE", "NEW"],
            FileSet::TableAndBundles => &["TABLE", "BUNDLES"],
            FileSet::Choices => &["BUDGETS", "CHOICES"],
            FileSet::ChoicesAndCertificate => &["BUDGETS", "CHOICES", "CERT"],
            FileSet::Menus => &["FILE"],
            FileSet::TechnologyAndAsked => &["TECH", "NEW"],
        }
    }
}

/// A number from `least` to `most`.
#[derive(Clone, Copy)]
pub(crate) struct NumberArgument {
    pub(crate) name: &'static str,
    pub(crate) least: u64,
    pub(crate) most: u64,
}

/// The form of a command: its name, its files and its numbers in the order of the words, its options, and which tables
/// it takes.
#[derive(Clone, Copy)]
pub(crate) struct CommandForm {
    pub(crate) name: &'static str,
    pub(crate) files: FileSet,
    pub(crate) numbers: &'static [NumberArgument],
    /// Whether it takes `--per N`.
    pub(crate) per: bool,
    /// Whether it takes `--json`.
    pub(crate) json: bool,
    /// Whether it takes a table whose observations have levels of their own.
    pub(crate) levels: bool,
}

/// How many units there are on each budget or menu.
pub(crate) const UNITS: NumberArgument = NumberArgument {
    name: "per",
    least: 1,
    most: rp_limits::patch::UNITS as u64,
};

pub(crate) const SEED: NumberArgument = NumberArgument {
    name: "SEED",
    least: 0,
    most: u64::MAX,
};

pub(crate) const ROWS: NumberArgument = NumberArgument {
    name: "ROWS",
    least: 1,
    most: rp_limits::command_line::MOST_ROWS,
};

pub(crate) const GOODS: NumberArgument = NumberArgument {
    name: "GOODS",
    least: 1,
    most: rp_limits::table::GOODS as u64,
};

/// How many random behaviours are drawn.
pub(crate) const DRAWS: NumberArgument = NumberArgument {
    name: "N",
    least: 1,
    most: rp_limits::command_line::MOST_DRAWS,
};

/// The commands, in the order of the usage text.
pub(crate) fn commands() -> &'static [Command]
    ensures { result.now ≡ commands }
{
    &[
        Command::Pairs,
        Command::Analyse,
        Command::Certify,
        Command::Check,
        Command::Demand,
        Command::Welfare,
        Command::Utility,
        Command::Random,
        Command::CheckRandom,
        Command::Patches,
        Command::Trial,
        Command::Menus,
        Command::Pump,
        Command::Cost,
        Command::Power,
    ]
}

impl Command {
    /// Whether the command takes a table whose observations have levels of their own.
    pub fn takes_levels(self) -> bool
        ensures { result ≡ (form_of self).levels }
    {
        self.form().levels
    }

    /// The form of the command.
    pub(crate) fn form(self) -> CommandForm
        ensures { named_form result ≡ form_of self }
    {
        match self {
            Command::Pairs => over("pairs", FileSet::Table).with_levels(),
            Command::Analyse => over("analyse", FileSet::Table).with_levels(),
            Command::Certify => over("certify", FileSet::Table).with_levels(),
            Command::Check => over("check", FileSet::TableAndCertificate).with_levels(),
            Command::Demand => over("demand", FileSet::TableAndPricesWithExpenditure).with_json(),
            Command::Welfare => over("welfare", FileSet::TableAndPrices).with_json(),
            Command::Utility => over("utility", FileSet::TableAndBundles).with_levels(),
            Command::Random => over("random", FileSet::Choices).with_json().with_per(),
            Command::CheckRandom => over("checkrandom", FileSet::ChoicesAndCertificate).with_per(),
            Command::Patches => over("patches", FileSet::Choices).with_per(),
            Command::Trial => over("trial", FileSet::Nothing).with_numbers(&[SEED, ROWS, GOODS]),
            Command::Menus => over("menus", FileSet::Menus).with_per(),
            Command::Pump => over("pump", FileSet::Table),
            Command::Cost => over("cost", FileSet::TechnologyAndAsked),
            Command::Power => over("power", FileSet::Table).with_numbers(&[SEED, DRAWS]),
        }
    }
}

/// A form with files alone, among them no table with levels.
fn over(name: &'static str, files: FileSet) -> CommandForm
    ensures { named_form result ≡ over name.now files }
{
    CommandForm {
        name,
        files,
        numbers: &[],
        per: false,
        json: false,
        levels: false,
    }
}

impl CommandForm {
    /// This form with these numbers after the files.
    fn with_numbers(self, numbers: &'static [NumberArgument]) -> CommandForm
        ensures { named_form result
            ≡ with_numbers (map named_number numbers.now) (named_form self) }
    {
        CommandForm { numbers, ..self }
    }

    /// This form with the option `--per N`.
    fn with_per(self) -> CommandForm
        ensures { named_form result ≡ with_per (named_form self) }
    {
        CommandForm { per: true, ..self }
    }

    /// This form with the option `--json`.
    fn with_json(self) -> CommandForm
        ensures { named_form result ≡ with_json (named_form self) }
    {
        CommandForm { json: true, ..self }
    }

    /// This form of a command that takes tables with levels.
    fn with_levels(self) -> CommandForm
        ensures { named_form result ≡ with_levels (named_form self) }
    {
        CommandForm {
            levels: true,
            ..self
        }
    }
}

/// The command of that name.
pub(crate) fn command_named(name: &str) -> Option<Command>
    ensures { result ≡ command_named name.now }
{
    for command in commands() {
        if name == command.form().name {
            return Some(*command);
        }
    }
    None
}

/// How the program is called.
pub fn usage() -> &'static [u8]
    ensures { result.now ≡ usage_text }
{
    b"usage: rp pairs TABLE\n       rp analyse TABLE\n       rp certify TABLE\n       rp check TABLE CERT\n       rp demand TABLE NEW [--json]\n       rp welfare TABLE NEW [--json]\n       rp utility TABLE BUNDLES\n       rp random BUDGETS CHOICES [--per N] [--json]\n       rp checkrandom BUDGETS CHOICES CERT [--per N]\n       rp patches BUDGETS CHOICES [--per N]\n       rp trial SEED ROWS GOODS\n       rp menus FILE [--per N]\n       rp pump TABLE\n       rp cost TECH NEW\n       rp power TABLE SEED N\n"
}
