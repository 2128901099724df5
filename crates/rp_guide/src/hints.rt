//! The sentences that say what is wrong and what to do: one for each error of a file, each exit code and each reason
//! of the checker, by its code.
ghost use Rattle.std.specs.Prelude.{◌≡◌, map};
ghost use Rattle.rp_guide.specs.Hints as hints;

/// A code as messages have it, and what is wrong and what to do.
pub type Hint = (&'static [u8], &'static [u8]);

/// Every hint. The errors of files and choices come first, then the exit codes, the checker's reasons, and what is
/// said of a certificate that the checker accepts.
pub const HINTS: [(&[u8], &[u8]); 65] = [
    (
        b"Empty",
        b"The file is empty. Check the program that should have written it.",
    ),
    (
        b"Ragged",
        b"This row has more or fewer fields than there are column names. Look for decimal commas, missing fields and commas inside a name.",
    ),
    (
        b"BadHeader",
        b"This kind of file does not have a column with this name. Rename or delete the column; a table has p_NAME and q_NAME for each good NAME.",
    ),
    (
        b"TwiceNamed",
        b"An earlier column has the same name. Rename one of the two columns.",
    ),
    (
        b"Unpaired",
        b"A column is missing: the other half of this good, or a required column if the column is 0. Add the missing column; each good of a table needs p_NAME and q_NAME.",
    ),
    (
        b"TooManyGoods",
        b"The file has more than 16 goods. Aggregate goods, or leave some of them out.",
    ),
    (
        b"NoRecords",
        b"The file has column names and no rows. Add the observations.",
    ),
    (
        b"TooManyRecords",
        b"The file has more rows than this kind of file can have. Split the data; a table has at most 512 observations.",
    ),
    (
        b"BadNumber",
        b"This field is not a number, or not an integer where an integer is needed. Write digits with a decimal point, without a sign, an exponent or a thousands separator.",
    ),
    (
        b"TooManyDecimals",
        b"This number has more than 6 decimal places. Round the numbers of this kind to 6 decimal places or fewer.",
    ),
    (
        b"ZeroPrice",
        b"This price is 0, and every price must be positive. Use a positive price, or leave out the row or the good.",
    ),
    (
        b"BadLevel",
        b"This efficiency level is not an integer from 1 to 1000. Write it in thousandths: 950 is 0.95.",
    ),
    (
        b"ZeroBundle",
        b"All quantities of this row are 0, or its expenditure is 0. Leave out the row.",
    ),
    (
        b"TooLarge",
        b"This number is too large: with its decimal places, a price or a quantity has at most 7 digits. Round to fewer decimal places, or use a larger unit.",
    ),
    (
        b"OtherGoods",
        b"This good is missing in the other file, or, if the column is 0, a good of the other file is missing here. Use the same goods in both files.",
    ),
    (
        b"UnknownBudget",
        b"The file of budgets does not have a budget with this number. Use the number of a row of that file, counted from 1.",
    ),
    (
        b"TooFine",
        b"This number has more decimal places than the first file leaves room for. Multiply new prices and m by 10, or all quantities of both files, until it fits.",
    ),
    (
        b"NoChoices",
        b"Nobody chose from this budget. Leave out the budget, or add its choices.",
    ),
    (
        b"BadMenu",
        b"This is not a menu. Write different letters from a to f in alphabetical order, such as acd.",
    ),
    (
        b"BadChoice",
        b"This choice is not exactly one letter of its menu. Correct the choice or the menu.",
    ),
    (
        b"NoMenus",
        b"Every n of the file is 0, so the file has no choices. Add choices.",
    ),
    (
        b"TooManyCells",
        b"With this row, the menus have more than 64 letters together. Leave out menus.",
    ),
    (
        b"NotJson",
        b"The certificate is not valid JSON. Use the file exactly as the program wrote it, in UTF-8.",
    ),
    (
        b"BadVersion",
        b"This command does not read certificates of this version. Write the certificate again with this release.",
    ),
    (
        b"BadShape",
        b"This item does not have the form of an item; item 0 is the whole certificate. Use the certificate as the program wrote it, and the command for its kind.",
    ),
    (
        b"TooLong",
        b"The file has too many bytes. Split the file; data have at most 4 MiB, certificates 16 MiB and long files 64 MiB.",
    ),
    (
        b"OwnLevels",
        b"This command does not take efficiency levels of observations. Leave out the column e.",
    ),
    (
        b"TooManyPatches",
        b"The budgets up to this one have too many patches. Use fewer budgets; rp-wide takes 256 patches, and rp takes 48.",
    ),
    (
        b"NeedUnit",
        b"The common denominator of the shares is above 1000000000. Use --per 10000: the result is about the rounded shares.",
    ),
    (
        b"TooManyCombinations",
        b"The patches of the budgets have too many combinations to list. Use rp-wide, which does not list them, or fewer budgets.",
    ),
    (
        b"TooManyTypes",
        b"There are more than 4096 rational types. Use rp-wide, which does not list them, or fewer budgets.",
    ),
    (
        b"NoIdColumn",
        b"The file does not have a column with the name of the ids. Name the column with --id NAME; without this option the name is household.",
    ),
    (
        b"NoKeptColumn",
        b"A column that --keep names is not in the file. Write the name exactly as the file has it.",
    ),
    (
        b"NoId",
        b"This row has an empty id. Fill in the id, or delete the row.",
    ),
    (
        b"LongId",
        b"This id has more than 256 bytes. Use a shorter id.",
    ),
    (
        b"Rejected",
        b"The checker rejected the certificate, so the certificate proves nothing. Read the item, the reason and the place on standard output.",
    ),
    (
        b"Usage",
        b"The words are not a command of this program, or a number is out of range. Run the program with --help to see its commands.",
    ),
    (
        b"Missing",
        b"A file with this name does not exist. Check the name and the folder.",
    ),
    (
        b"ReadFault",
        b"The file does not exist, or it could not be read. Check its name and its folder, and that you may read it.",
    ),
    (
        b"Refused",
        b"The data have an error. Correct the row and the column that the error message names.",
    ),
    (
        b"WriteFault",
        b"The result could not be written completely. Make room on the disk, or keep the pipe open.",
    ),
    (
        b"NoMemory",
        b"Memory ran out. Run fewer programs at once, or use less data.",
    ),
    (
        b"NoText",
        b"The system could not pass a word as text. Rename the file with plain letters.",
    ),
    (
        b"Malformed",
        b"The arguments of the call do not fit together. Correct the program that calls the library.",
    ),
    (
        b"Shape",
        b"A list of this item has another length than it needs. Write a new certificate from exactly these data.",
    ),
    (
        b"Number",
        b"An entry of this item is out of range, or is not an observation. Write a new certificate from exactly these data.",
    ),
    (
        b"NotClosed",
        b"The cycle does not end where it begins. Write a new certificate from exactly these data.",
    ),
    (
        b"NotWeak",
        b"This step of the cycle is not a direct revealed preference. Write a new certificate from exactly these data.",
    ),
    (
        b"NoStrict",
        b"No step of the cycle is strict, so the cycle violates nothing. Write a new certificate from exactly these data.",
    ),
    (
        b"Order",
        b"The ranks or numbers break their inequality at this observation, or the parts are unsorted. Write a new certificate from exactly these data.",
    ),
    (
        b"Level",
        b"The efficiency index is not above 0 and at most 1, or its denominator is too large. Write a new certificate from exactly these data.",
    ),
    (
        b"NotLess",
        b"Nothing is lost along the cycle, or the parts are the whole population. Write a new certificate from exactly these data.",
    ),
    (
        b"Wide",
        b"A product is longer than the checker computes with. Write a new certificate from exactly these data.",
    ),
    (
        b"NoGarp",
        b"This item depends on GARP, and no earlier item shows that GARP holds. Write a new certificate from exactly these data.",
    ),
    (
        b"Set",
        b"The item names other observations than the data give. Write a new certificate from exactly these data.",
    ),
    (
        b"Point",
        b"The inner demand is not a demand at these prices, or the upper bound is another number. Write a new certificate from exactly these data.",
    ),
    (
        b"Bound",
        b"A bound does not follow from the numbers beside it. Write a new certificate from exactly these data.",
    ),
    (
        b"Least",
        b"A cheaper bundle exists, or the shares and the parts do not add up. Write a new certificate from exactly these data.",
    ),
    (
        b"Dual",
        b"A rational type weighs less than the denominator. Write a new certificate from exactly these data.",
    ),
    (
        b"Units",
        b"The total is another number, or a patch gets another share than it has. Write a new certificate from exactly these data.",
    ),
    (
        b"Irrational",
        b"A part is not a rational type. Write a new certificate from exactly these data.",
    ),
    (
        b"Levels",
        b"The certificate and the table have different efficiency levels. Write a new certificate from exactly these data.",
    ),
    (
        b"Steps",
        b"The check takes more steps than its limit. Use fewer budgets.",
    ),
    (
        b"Accepted",
        b"Each item proves its result for exactly these data; a value that is left out is not proved. rp-wide check --help and checkrandom --help say what each kind of item proves.",
    ),
    (
        b"Nothing",
        b"The certificate has no items, so nothing is proved.",
    ),
];

/// The text of the hint for a code, or nothing where there is no such code.
#[tactic(auto, unfolding(crate::specs::Hints::hint_text))]
pub fn hint_text(code: &[u8]) -> &'static [u8]
    ensures { result.now ≡ hints.hint_text code.now }
{
    text_in(&HINTS, code)
}

/// The text that a table has for a code, or nothing.
fn text_in(mut table: &[Hint], code: &[u8]) -> &'static [u8]
    ensures { result.now
        ≡ hints.text_in (map (λ h. (h.0.now, h.1.now)) table.entry.now) code.now }
{
    while let [hint, rest @ ..] = table {
        if hint.0 == code {
            return hint.1;
        }
        table = rest;
    }
    b""
}
