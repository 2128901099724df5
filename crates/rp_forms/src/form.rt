//! The kinds of files as data.
ghost use Rattle.std.specs.Prelude.{◌≡◌};
ghost use Rattle.std.specs.List.{list_any};
ghost use Rattle.rp_forms.specs.Columns.{takes, measures, is_price, is_quantity, header_of};
ghost use Rattle.rp_forms.specs.Columns.{is_headed, has_price_scale, has_quantity_scale};
ghost use Rattle.rp_forms.specs.Columns.{has_income_scale, mark_of_prices, mark_of_quantities};
ghost use Rattle.rp_forms.specs.Forms as Forms;
ghost use Rattle.rp_forms.specs.Forms.{table_form, prices_form, bundles_form, budgets_form};
ghost use Rattle.rp_forms.specs.Forms.{choices_form, technology_form, asked_form, menus_form};
ghost use Rattle.rp_forms.specs.Columns.{has_goods};
ghost use Rattle.rp_forms.specs.Columns.{shares_scale, limit_of};

use rp_limits::table::{BUDGETS, CHOICES, LARGEST, LARGEST_EXPENDITURE, NEW_RECORDS, RECORDS};

/// What the fields of a column say.
#[derive(Clone, Copy, Debug, PartialEq, Eq)]
pub enum Role {
    /// Nothing, under `obs`.
    Observation,
    /// The prices of a good.
    Price,
    /// The quantities of a good.
    Quantity,
    /// Expenditures, under `m`.
    Expenditure,
    /// Incomes, under `w`.
    Income,
    /// Numbers of budgets, under `budget`.
    Budget,
    /// Counts, under `n`.
    Times,
    /// Outputs of a technology, under `y`.
    Output,
    /// Prices of its output, under `p`.
    OutputPrice,
    /// Menus, under `menu`: a text, with the blanks round it.
    Menu,
    /// What was chosen from a menu, under `choice`: a text, with the blanks round it.
    Choice,
    /// Own levels of observations in thousandths, under `e`.
    OwnLevel,
}

/// What the columns of goods are headed by, before the name of a good.
#[derive(Clone, Copy, Debug)]
pub enum Marks {
    /// `p_` for prices and `q_` for quantities.
    Goods,
    /// `w_` and `x_`, for the inputs of a technology.
    Inputs,
}

/// A column under a header of its own, in files that have to have it or may have it.
#[derive(Clone, Copy, Debug)]
pub struct Column {
    pub role: Role,
    pub required: bool,
}

/// What a kind of file has: its columns besides an optional `obs`, its limits, and what it is read beside.
#[derive(Clone, Copy, Debug)]
pub struct Form {
    /// What the columns of goods are headed by.
    pub marks: Marks,
    /// Whether a good has a column of prices.
    pub prices: bool,
    /// Whether a good has a column of quantities.
    pub quantities: bool,
    /// The columns that are no good's.
    pub named: [Option<Column>; 3],
    /// Whether the goods are fixed beforehand, and not named by the file.
    pub fixed_goods: bool,
    /// Whether the scale of quantities is fixed beforehand, and not the file's.
    pub fixed_places: bool,
    /// The decimal places of that scale of quantities.
    pub places: u8,
    /// How many budgets there are.
    pub budgets: u32,
    /// The most records.
    pub most: u32,
}

/// A column that such a file has to have.
fn required(role: Role) -> Option<Column>
    ensures { result ≡ Forms.required role }
{
    Some(Column {
        role,
        required: true,
    })
}

/// A column that such a file may have.
fn optional(role: Role) -> Option<Column>
    ensures { result ≡ Forms.optional role }
{
    Some(Column {
        role,
        required: false,
    })
}

impl Form {
    /// A table has prices and quantities of the goods that it names, and possibly own levels.
    pub fn table() -> Form
        ensures { result ≡ table_form }
    {
        Form {
            marks: Marks::Goods,
            prices: true,
            quantities: true,
            named: [optional(Role::OwnLevel), None, None],
            fixed_goods: false,
            fixed_places: false,
            places: 0,
            budgets: 0,
            most: RECORDS,
        }
    }

    /// New prices are those of a table's goods, with an expenditure or without one. An expenditure is scaled
    /// with these places of the table's quantities.
    pub fn prices(with_m: bool, places: u8) -> Form
        ensures { result ≡ prices_form with_m places }
    {
        Form {
            marks: Marks::Goods,
            prices: true,
            quantities: false,
            named: [
                if with_m {
                    required(Role::Expenditure)
                } else {
                    None
                },
                None,
                None,
            ],
            fixed_goods: true,
            fixed_places: true,
            places,
            budgets: 0,
            most: NEW_RECORDS,
        }
    }

    /// Bundles are quantities of a table's goods, scaled as the table's quantities with these places.
    pub fn bundles(places: u8) -> Form
        ensures { result ≡ bundles_form places }
    {
        Form {
            marks: Marks::Goods,
            prices: false,
            quantities: true,
            named: [None, None, None],
            fixed_goods: true,
            fixed_places: true,
            places,
            budgets: 0,
            most: NEW_RECORDS,
        }
    }

    /// Budgets have prices of the goods that they name, and an income.
    pub fn budgets() -> Form
        ensures { result ≡ budgets_form }
    {
        Form {
            marks: Marks::Goods,
            prices: true,
            quantities: false,
            named: [required(Role::Income), None, None],
            fixed_goods: false,
            fixed_places: false,
            places: 0,
            budgets: 0,
            most: BUDGETS,
        }
    }

    /// Choices on so many budgets have quantities of the goods of those budgets, the number of a budget
    /// and a count.
    pub fn choices(budgets: u32) -> Form
        ensures { result ≡ choices_form budgets }
    {
        Form {
            marks: Marks::Goods,
            prices: false,
            quantities: true,
            named: [required(Role::Budget), required(Role::Times), None],
            fixed_goods: true,
            fixed_places: false,
            places: 0,
            budgets,
            most: CHOICES,
        }
    }

    /// A technology has prices and quantities of the inputs that it names, an output and possibly its price.
    pub fn technology() -> Form
        ensures { result ≡ technology_form }
    {
        Form {
            marks: Marks::Inputs,
            prices: true,
            quantities: true,
            named: [required(Role::Output), optional(Role::OutputPrice), None],
            fixed_goods: false,
            fixed_places: false,
            places: 0,
            budgets: 0,
            most: RECORDS,
        }
    }

    /// What is asked of a technology is an output at new prices of its inputs. The output is scaled as the
    /// technology's quantities with these places.
    pub fn asked(places: u8) -> Form
        ensures { result ≡ asked_form places }
    {
        Form {
            marks: Marks::Inputs,
            prices: true,
            quantities: false,
            named: [required(Role::Output), None, None],
            fixed_goods: true,
            fixed_places: true,
            places,
            budgets: 0,
            most: NEW_RECORDS,
        }
    }

    /// Choices from menus have the texts of a menu and of what was chosen from it, and a count.
    pub fn menus() -> Form
        ensures { result ≡ menus_form }
    {
        Form {
            marks: Marks::Goods,
            prices: false,
            quantities: false,
            named: [
                required(Role::Menu),
                required(Role::Choice),
                required(Role::Times),
            ],
            fixed_goods: false,
            fixed_places: false,
            places: 0,
            budgets: 0,
            most: CHOICES,
        }
    }

    /// Whether this kind of file has columns of goods.
    pub fn has_goods(&self) -> bool
        ensures { result ≡ has_goods self.now }
    {
        self.prices || self.quantities
    }

    /// Whether this kind of file has such columns.
    pub fn takes(&self, role: Role) -> bool
        ensures { result ≡ takes self.now role }
    {
        match role {
            Role::Observation => true,
            Role::Price => self.prices,
            Role::Quantity => self.quantities,
            other => self.has_headed(other.header()),
        }
    }

    /// Whether this kind of file has a column that is no good's with that header.
    fn has_headed(&self, header: &[u8]) -> bool
        ensures { result ≡ list_any (is_headed header.now) self.now.named }
    {
        self.named.iter().any(|column| is_headed(header, *column))
    }
}

/// Whether a column that such a file may have is the one with that header.
fn is_headed(header: &[u8], column: Option<Column>) -> bool
    ensures { result ≡ is_headed header.now column }
{
    match column {
        Some(column) => column.role.header() == header,
        None => false,
    }
}

impl Marks {
    /// The mark of prices.
    pub fn prices(self) -> &'static [u8]
        ensures { result.now ≡ mark_of_prices self }
    {
        match self {
            Marks::Goods => b"p_",
            Marks::Inputs => b"w_",
        }
    }

    /// The mark of quantities.
    pub fn quantities(self) -> &'static [u8]
        ensures { result.now ≡ mark_of_quantities self }
    {
        match self {
            Marks::Goods => b"q_",
            Marks::Inputs => b"x_",
        }
    }
}

impl Role {
    /// Whether the fields are prices.
    pub fn is_price(self) -> bool
        ensures { result ≡ is_price self }
    {
        match self {
            Role::Price => true,
            _ => false,
        }
    }

    /// Whether the fields are quantities.
    pub fn is_quantity(self) -> bool
        ensures { result ≡ is_quantity self }
    {
        match self {
            Role::Quantity => true,
            _ => false,
        }
    }

    /// The header of a column that is no good's.
    pub fn header(self) -> &'static [u8]
        ensures { result.now ≡ header_of self }
    {
        match self {
            Role::Observation => b"obs",
            Role::Price | Role::Quantity => b"",
            Role::Expenditure => b"m",
            Role::Income => b"w",
            Role::Budget => b"budget",
            Role::Times => b"n",
            Role::Output => b"y",
            Role::OutputPrice => b"p",
            Role::Menu => b"menu",
            Role::Choice => b"choice",
            Role::OwnLevel => b"e",
        }
    }

    /// Whether columns of the two roles have one scale of the file's own.
    pub fn shares_scale(self, other: Role) -> bool
        ensures { result ≡ shares_scale self other }
    {
        match self {
            Role::Price | Role::OutputPrice => other.has_price_scale(),
            Role::Quantity | Role::Output => other.has_quantity_scale(),
            Role::Income => other.has_income_scale(),
            _ => false,
        }
    }

    fn has_price_scale(self) -> bool
        ensures { result ≡ has_price_scale self }
    {
        match self {
            Role::Price | Role::OutputPrice => true,
            _ => false,
        }
    }

    fn has_quantity_scale(self) -> bool
        ensures { result ≡ has_quantity_scale self }
    {
        match self {
            Role::Quantity | Role::Output => true,
            _ => false,
        }
    }

    fn has_income_scale(self) -> bool
        ensures { result ≡ has_income_scale self }
    {
        match self {
            Role::Income => true,
            _ => false,
        }
    }

    /// The largest scaled number.
    pub fn limit(self) -> u64
        ensures { result ≡ limit_of self }
    {
        match self {
            Role::Expenditure | Role::Income => LARGEST_EXPENDITURE,
            _ => u64::from(LARGEST),
        }
    }

    /// Whether the fields say how much is bought.
    pub fn measures(self) -> bool
        ensures { result ≡ measures self }
    {
        match self {
            Role::Quantity | Role::Expenditure | Role::Income => true,
            _ => false,
        }
    }
}
