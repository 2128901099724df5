//! The texts of the help pages, and the version.

/// The name of a command, which is empty for the program itself, and its help page.
pub(crate) type Page = (&'static [u8], &'static [u8]);

/// What `rp-wide --version` prints.
pub(crate) const WIDE_VERSION: &[u8] = b"rp-wide 0.17.0\n";

/// What `rp-panel --version` prints.
pub(crate) const PANEL_VERSION: &[u8] = b"rp-panel 0.17.0\n";

/// The page of `rp-panel`.
pub(crate) const PANEL_PAGES: [(&[u8], &[u8]); 1] = [(
    b"",
    b"rp-panel tests each subject or household of one file, and writes a CSV table.\n\
        \n\
        usage: rp-panel [OPTION].. LONG\n\
        \n\
        LONG                a CSV file with a row for each observation: a column of ids, and p_NAME and\n\
        \x20                   q_NAME for each good\n\
        --id NAME           the column of ids; household by default\n\
        --keep NAME         add this column, with the text of the first row of each unit\n\
        --pump              add the maximum money pump index\n\
        --power DRAWS SEED  add how many of DRAWS simulated data sets violate GARP\n\
        --intercepts        the prices are exchanged intercepts of two goods: add what share of the offered\n\
        \x20                   budgets was spent\n\
        --demand NEW        write bounds on demand at the prices of the file NEW instead\n\
        --welfare NEW       write bounds on the money metric at the prices of NEW instead\n\
        --wide              compute results as rp-wide does, which finds more of them\n\
        \n\
        Options may be before and after LONG.\n\
        \n\
        Exit codes: 0 the result was written, 1 a certificate was rejected, 2 not a command,\n\
        3 a file could not be read, 4 the data have an error, 5 the result could not be written,\n\
        6 memory ran out, 7 a word is not text. After an error, a line that begins with \"hint:\" says\n\
        what to do. docs/reference/errors.md lists all errors.\n",
)];

/// The pages of `rp-wide`.
pub(crate) const WIDE_PAGES: [(&[u8], &[u8]); 18] = [
    (
        b"",
        b"rp-wide tests revealed preference exactly, and its results are proved.\n\
            \n\
            usage: rp-wide pairs TABLE\n\
            \x20      rp-wide analyse TABLE\n\
            \x20      rp-wide certify TABLE\n\
            \x20      rp-wide check TABLE CERT\n\
            \x20      rp-wide demand TABLE NEW [--json]\n\
            \x20      rp-wide welfare TABLE NEW [--json]\n\
            \x20      rp-wide utility TABLE BUNDLES\n\
            \x20      rp-wide random BUDGETS CHOICES [--per N] [--json]\n\
            \x20      rp-wide checkrandom BUDGETS CHOICES CERT [--per N]\n\
            \x20      rp-wide patches BUDGETS CHOICES [--per N]\n\
            \x20      rp-wide trial SEED ROWS GOODS\n\
            \x20      rp-wide menus FILE [--per N]\n\
            \x20      rp-wide pump TABLE\n\
            \x20      rp-wide cost TECH NEW\n\
            \x20      rp-wide power TABLE SEED N\n\
            \x20      rp-wide fit TABLE [--json]\n\
            \x20      rp-wide checkfit TABLE CERT\n\
            \x20      rp-wide random BUDGETS CHOICES --steps N [--per N] [--json]\n\
            \x20      rp-wide COMMAND --help\n\
            \x20      rp-wide --help\n\
            \x20      rp-wide --version\n\
            \n\
            rp-wide COMMAND --help describes a command and its files.\n\
            \n\
            Exit codes: 0 the result was written, 1 a certificate was rejected, 2 not a command,\n\
            3 a file could not be read, 4 the data have an error, 5 the result could not be written,\n\
            6 memory ran out, 7 a word is not text. After an error, a line that begins with \"hint:\" says\n\
            what to do. docs/reference/errors.md lists all errors.\n",
    ),
    (
        b"pairs",
        b"usage: rp-wide pairs TABLE\n\
            \n\
            Finds two observations that directly contradict each other (a violation of WARP).\n\
            \n\
            TABLE     a CSV file with a row for each observation, and p_NAME and q_NAME for each good\n",
    ),
    (
        b"analyse",
        b"usage: rp-wide analyse TABLE\n\
            \n\
            Tests GARP, homotheticity (HARP) and quasilinearity (cyclical monotonicity), and computes\n\
            Afriat numbers and the CCEI (efficiency). Each result comes with its evidence.\n\
            \n\
            TABLE     a CSV file with a row for each observation, and p_NAME and q_NAME for each good\n\
            \x20         (a column e has efficiency levels of observations, in thousandths)\n",
    ),
    (
        b"certify",
        b"usage: rp-wide certify TABLE\n\
            \n\
            Writes the results of analyse, with their evidence, as a certificate in JSON.\n\
            \n\
            TABLE     a CSV file with a row for each observation, and p_NAME and q_NAME for each good\n\
            \x20         (a column e has efficiency levels of observations, in thousandths)\n",
    ),
    (
        b"check",
        b"usage: rp-wide check TABLE CERT\n\
            \n\
            Checks each item of a certificate, whoever made it, against the table. It is proved that an\n\
            accepted item proves its result for exactly this table.\n\
            \n\
            TABLE     a CSV file with a row for each observation, and p_NAME and q_NAME for each good\n\
            CERT      a certificate in JSON, as certify, demand --json and welfare --json write it\n\
            \n\
            What an accepted item proves, for exactly these data:\n\
            \n\
            garp holds\n\
            \x20   One consumer with a utility function, who prefers more of every good, could have made all of\n\
            \x20   these choices. In each, no bundle that cost as much or less is better than the chosen one.\n\
            garp violated\n\
            \x20   No consumer with locally nonsatiated preferences could have made all of these choices. In\n\
            \x20   particular, no consumer who prefers more of every good could have.\n\
            afriat model\n\
            \x20   By the utility function of the numbers, no bundle that cost as much or less is better than\n\
            \x20   the chosen one.\n\
            afriat none\n\
            \x20   No consumer with locally nonsatiated preferences could have made all of these choices. In\n\
            \x20   particular, no consumer who prefers more of every good could have.\n\
            efficiency index, 1, attained\n\
            \x20   One consumer could have made all of these choices, with all of the expenditure counted.\n\
            efficiency index, 1, not attained\n\
            \x20   If some part of each expenditure is ignored, however small, one consumer could have made all\n\
            \x20   of these choices. If all of it counts, no consumer with locally nonsatiated preferences\n\
            \x20   could have. In particular, no consumer who prefers more of every good could have.\n\
            efficiency index, below 1, attained\n\
            \x20   If LEVEL of each expenditure counts, one consumer could have made all of these choices. If\n\
            \x20   any larger part counts, no consumer with locally nonsatiated preferences could have. In\n\
            \x20   particular, no consumer who prefers more of every good could have.\n\
            efficiency index, below 1, not attained\n\
            \x20   If any part below LEVEL of each expenditure counts, one consumer could have made all of\n\
            \x20   these choices. If LEVEL or more counts, no consumer with locally nonsatiated preferences\n\
            \x20   could have. In particular, no consumer who prefers more of every good could have.\n\
            homothetic holds\n\
            \x20   One consumer with a homothetic utility function could have made all of these choices: twice\n\
            \x20   the bundle has twice the utility.\n\
            homothetic violated\n\
            \x20   No consumer with homothetic and locally nonsatiated preferences could have made all of these\n\
            \x20   choices.\n\
            quasilinear holds\n\
            \x20   If prices are in units of one numeraire, one consumer with a quasilinear utility function\n\
            \x20   could have made all of these choices. In each, no bundle is worth more, less its cost, than\n\
            \x20   the chosen one.\n\
            quasilinear violated\n\
            \x20   If prices are in units of one numeraire, no consumer with a quasilinear utility function\n\
            \x20   could have made all of these choices. Whatever bundles are worth in money, in some\n\
            \x20   observation another bundle is worth more, less its cost, than the chosen one.\n\
            demand bounds, lower\n\
            \x20   No consumer who could have made these choices buys less of GOOD on this budget than LOWER.\n\
            \x20   For any larger amount, some consumer who could have made them buys less.\n\
            demand bounds, upper\n\
            \x20   No consumer who could have made these choices buys more of GOOD on this budget than UPPER.\n\
            \x20   For any smaller amount, some consumer who could have made them buys more.\n\
            demand none\n\
            \x20   GARP is violated, so the demand does not have bounds. No consumer with locally nonsatiated\n\
            \x20   preferences could have made all of these choices. In particular, no consumer who prefers\n\
            \x20   more of every good could have.\n\
            welfare bounds, lower\n\
            \x20   Every consumer who could have made these choices needs at least LOWER at the new prices to\n\
            \x20   be as well off as at observation OBSERVATION.\n\
            welfare bounds, upper\n\
            \x20   For every consumer who could have made these choices, the bundle of observation AT is at\n\
            \x20   least as good as the bundle of observation OBSERVATION. It costs UPPER at the new prices.\n\
            welfare none\n\
            \x20   GARP is violated, so the money metric does not have bounds. No consumer with locally\n\
            \x20   nonsatiated preferences could have made all of these choices. In particular, no consumer who\n\
            \x20   prefers more of every good could have.\n\
            \n\
            A value that is left out (withheld) proves nothing. With efficiency levels (a column e), garp\n\
            and afriat are about the part of each expenditure that its level names; the other items do not\n\
            use levels.\n",
    ),
    (
        b"demand",
        b"usage: rp-wide demand TABLE NEW [--json]\n\
            \n\
            Computes bounds on the demand for each good at new budgets, as GARP implies them.\n\
            \n\
            TABLE     a CSV file with a row for each observation, and p_NAME and q_NAME for each good\n\
            NEW       a CSV file with a row for each new budget: p_NAME for each good, and the expenditure m\n\
            --json    write a certificate instead of the report\n",
    ),
    (
        b"welfare",
        b"usage: rp-wide welfare TABLE NEW [--json]\n\
            \n\
            Computes bounds on the money metric: the least expenditure, at new prices, that is as good\n\
            as each observation.\n\
            \n\
            TABLE     a CSV file with a row for each observation, and p_NAME and q_NAME for each good\n\
            NEW       a CSV file with a row for each new budget: p_NAME for each good\n\
            --json    write a certificate instead of the report\n",
    ),
    (
        b"utility",
        b"usage: rp-wide utility TABLE BUNDLES\n\
            \n\
            Computes the utility of bundles by the Afriat numbers of a table.\n\
            \n\
            TABLE     a CSV file with a row for each observation, and p_NAME and q_NAME for each good\n\
            \x20         (a column e has efficiency levels of observations, in thousandths)\n\
            BUNDLES   a CSV file with a row for each bundle: q_NAME for each good\n",
    ),
    (
        b"random",
        b"usage: rp-wide random BUDGETS CHOICES [--per N] [--json]\n\
            \x20      rp-wide random BUDGETS CHOICES --steps N [--per N] [--json]\n\
            \n\
            Tests whether a population of utility maximizers could have made the observed choices\n\
            (random utility).\n\
            \n\
            BUDGETS   a CSV file with a row for each budget: p_NAME for each good, and the income w\n\
            CHOICES   a CSV file with a row for each choice: q_NAME for each good, budget, and n people\n\
            --per N   round the shares of each budget to N parts, if their common denominator is too large\n\
            --steps N  stop the searches after N steps, from 1 to 34359738368: a result that is not found by\n\
            \x20         then is undetermined. Without it they stop after 34359738368 steps, which may take an hour\n\
            --json    write a certificate instead of the report\n",
    ),
    (
        b"checkrandom",
        b"usage: rp-wide checkrandom BUDGETS CHOICES CERT [--per N]\n\
            \n\
            Checks a certificate on random choices against the budgets and the choices.\n\
            \n\
            BUDGETS   a CSV file with a row for each budget: p_NAME for each good, and the income w\n\
            CHOICES   a CSV file with a row for each choice: q_NAME for each good, budget, and n people\n\
            CERT      a certificate in JSON, as random --json writes it\n\
            --per N   round the shares of each budget to N parts, if their common denominator is too large\n\
            \n\
            What an accepted item proves, for exactly these data:\n\
            \n\
            random mixture\n\
            \x20   A population whose members each have a utility function, and prefer more of every good,\n\
            \x20   could have made these shares. The shares are taken as exact: sampling error is not modelled.\n\
            random violated\n\
            \x20   No population whose members each have locally nonsatiated preferences, and choose the best\n\
            \x20   that the income buys, could have made these shares. A population of this kind makes at most\n\
            \x20   SHARE of them. The shares are taken as exact: sampling error is not modelled.\n\
            random mixture, with --per N\n\
            \x20   A population whose members each have a utility function, and prefer more of every good,\n\
            \x20   could have made the rounded shares. Shares are rounded to UNITS units on each budget. This\n\
            \x20   says nothing about the shares before rounding. The shares are taken as exact: sampling error\n\
            \x20   is not modelled.\n\
            random violated, with --per N\n\
            \x20   No population whose members each have locally nonsatiated preferences, and choose the best\n\
            \x20   that the income buys, could have made the rounded shares. Shares are rounded to UNITS units\n\
            \x20   on each budget. A population of this kind makes at most SHARE of them. This says nothing\n\
            \x20   about the shares before rounding. The shares are taken as exact: sampling error is not\n\
            \x20   modelled.\n\
            \n\
            A verdict that is left out (withheld) proves nothing.\n",
    ),
    (
        b"patches",
        b"usage: rp-wide patches BUDGETS CHOICES [--per N]\n\
            \n\
            Lists the patches of the budgets, and how many people chose in each.\n\
            \n\
            BUDGETS   a CSV file with a row for each budget: p_NAME for each good, and the income w\n\
            CHOICES   a CSV file with a row for each choice: q_NAME for each good, budget, and n people\n\
            --per N   round the shares of each budget to N parts, if their common denominator is too large\n",
    ),
    (
        b"trial",
        b"usage: rp-wide trial SEED ROWS GOODS\n\
            \n\
            Draws a table of pseudorandom numbers from a seed, and tests it.\n\
            \n\
            SEED      an integer of at most 64 bits\n\
            ROWS      the number of observations, 1 to 256\n\
            GOODS     the number of goods, 1 to 16\n",
    ),
    (
        b"menus",
        b"usage: rp-wide menus FILE [--per N]\n\
            \n\
            Tests whether a mixture of strict orders could have made the observed choices from menus.\n\
            \n\
            FILE      a CSV file with the columns menu, choice and n, such as abc,b,12\n\
            --per N   round the shares of each budget to N parts, if their common denominator is too large\n",
    ),
    (
        b"pump",
        b"usage: rp-wide pump TABLE\n\
            \n\
            Computes the maximum money pump index of a table.\n\
            \n\
            TABLE     a CSV file with a row for each observation, and p_NAME and q_NAME for each good\n",
    ),
    (
        b"cost",
        b"usage: rp-wide cost TECH NEW\n\
            \n\
            Tests cost minimization and profit maximization, and bounds the cost of outputs at new\n\
            input prices.\n\
            \n\
            TECH      a CSV file with w_NAME and x_NAME for each input, the output y and, if known, its price p\n\
            NEW       a CSV file with w_NAME for each input, and the output y\n",
    ),
    (
        b"power",
        b"usage: rp-wide power TABLE SEED N\n\
            \n\
            Counts how many of N simulated data sets on the same budgets violate GARP.\n\
            \n\
            TABLE     a CSV file with a row for each observation, and p_NAME and q_NAME for each good\n\
            SEED      an integer of at most 64 bits\n\
            N         the number of simulated data sets, 1 to 1000\n",
    ),
    (
        b"fit",
        b"usage: rp-wide fit TABLE [--json]\n\
            \n\
            Computes indices of goodness of fit: numbers of violations, the CCEI, the Houtman-Maks index,\n\
            Varian's index, the minimum cost index, the maximum money pump index, and the levels at which\n\
            cyclical monotonicity and HARP hold. Each is exact, or has a lower and an upper bound, and\n\
            comes with its evidence.\n\
            \n\
            TABLE     a CSV file with a row for each observation, and p_NAME and q_NAME for each good\n\
            --json    write a certificate instead of the report\n",
    ),
    (
        b"checkfit",
        b"usage: rp-wide checkfit TABLE CERT\n\
            \n\
            Checks each item of a certificate on goodness of fit, whoever made it, against the table. It is\n\
            proved that an accepted item proves its index, or its bounds on the index, for exactly this\n\
            table.\n\
            \n\
            TABLE     a CSV file with a row for each observation, and p_NAME and q_NAME for each good\n\
            CERT      a certificate in JSON, as fit --json writes it\n",
    ),
];
