//! How calls end, with their texts.
use crate::call::calls::{Call, ends, sizes_of};
use std::alloc::Global;
use std::test::Fail;
use tests_inputs::tables::{APART, CERTIFICATE, CONTRADICTION};

/// A call over files of these texts, the number that it ends with, and the texts that it gives.
struct Row<'a> {
    words: &'a [u8],
    names: &'a [u8],
    texts: &'a [&'a str],
    number: i32,
    output: &'a str,
    told: &'a str,
}

const CHECK: &[u8] = b"check\0t.csv\0c.json\0";

const BOTH: &[u8] = b"t.csv\0c.json\0";

const USAGE: &str =
    "usage: rp pairs TABLE\n       rp analyse TABLE\n       rp certify TABLE\n       rp check TABLE CERT\n\
    \x20      rp demand TABLE NEW [--json]\n       rp welfare TABLE NEW [--json]\n\
    \x20      rp utility TABLE BUNDLES\n       rp random BUDGETS CHOICES [--per N] [--json]\n\
    \x20      rp checkrandom BUDGETS CHOICES CERT [--per N]\n       rp patches BUDGETS CHOICES [--per N]\n\
    \x20      rp trial SEED ROWS GOODS\n       rp menus FILE [--per N]\n       rp pump TABLE\n\
    \x20      rp cost TECH NEW\n       rp power TABLE SEED N\n";

/// Each status that the program has over files in memory, but for want of memory.
const STATUSES: &[Row<'static>] = &[
    Row {
        words: b"pairs\0t.csv\0",
        names: b"t.csv\0",
        texts: &[CONTRADICTION],
        number: 0,
        output: "pair 1 2\n",
        told: "",
    },
    Row {
        words: CHECK,
        names: BOTH,
        texts: &[CONTRADICTION, CERTIFICATE],
        number: 0,
        output: "accepted items 5 withheld 0\n",
        told: "",
    },
    Row {
        words: CHECK,
        names: b"c.json\0t.csv\0",
        texts: &[CERTIFICATE, APART],
        number: 1,
        output: "rejected item 1 NotWeak place 1\n",
        told: "",
    },
    Row {
        words: b"pairs\0",
        names: b"t.csv\0",
        texts: &[CONTRADICTION],
        number: 2,
        output: "",
        told: USAGE,
    },
    Row {
        words: b"",
        names: b"",
        texts: &[],
        number: 2,
        output: "",
        told: USAGE,
    },
    Row {
        words: CHECK,
        names: b"t.csv\0d.json\0",
        texts: &["", CERTIFICATE],
        number: 3,
        output: "",
        told: "rp: c.json: read failed\n",
    },
    Row {
        words: b"pairs\0t.csv\0",
        names: b"t.csv\0",
        texts: &[""],
        number: 4,
        output: "",
        told: "rp: t.csv: Empty\n",
    },
    Row {
        words: b"pairs\0t.csv\0",
        names: b"\xff\0",
        texts: &[""],
        number: 7,
        output: "",
        told: "",
    },
    Row {
        words: b"pairs\0\xff\0",
        names: b"",
        texts: &[],
        number: 7,
        output: "",
        told: "",
    },
];

#[test]
fn each_status_comes_with_its_texts(rt: HostRuntime) -> Result<(), Fail> {
    for row in STATUSES {
        let sizes = sizes_of(rt.alloc(), row.texts)?;
        let call = Call {
            words: row.words,
            names: row.names,
            sizes: sizes.as_slice(),
            texts: row.texts,
        };
        ends(rt.alloc(), &call, row.number, row.output, row.told)?;
    }
    Ok(())
}

/// Calls whose parts do not fit together: a word and a name that are not ended, also where they are no text, fewer and
/// more sizes than names, sizes of more and of fewer bytes than there are, and more files than the words name.
const MALFORMED: &[(&[u8], &[u8], &[u64], &[&str])] = &[
    (b"pairs\0t.csv", b"t.csv\0", &[7], &["p_a,q_a"]),
    (b"pairs\0t.csv\0", b"t.csv", &[7], &["p_a,q_a"]),
    (b"pairs\0\xff\0t", b"t.csv\0", &[7], &["p_a,q_a"]),
    (b"pairs\0t.csv\0", b"t.csv\0", &[], &[]),
    (b"pairs\0t.csv\0", b"t.csv\0", &[7, 0], &["p_a,q_a"]),
    (b"pairs\0t.csv\0", b"t.csv\0", &[8], &["p_a,q_a"]),
    (b"pairs\0t.csv\0", b"t.csv\0", &[6], &["p_a,q_a"]),
    (
        b"pairs\0t.csv\0",
        b"t.csv\0",
        &[18_446_744_073_709_551_615],
        &["p_a,q_a"],
    ),
    (
        b"pairs\0t.csv\0",
        b"t.csv\0u.csv\0",
        &[3, 4],
        &["p_a", ",q_a"],
    ),
    (b"trial\x007\x001\x001\0", b"t.csv\0", &[0], &[]),
];

fn is_malformed(alloc: Global, call: &Call<'_>) -> Result<(), Fail> {
    ends(alloc, call, 8, "", "")
}

#[test]
fn what_does_not_fit_together_is_malformed(rt: HostRuntime) -> Result<(), Fail> {
    for (words, names, sizes, texts) in MALFORMED {
        let call = Call {
            words,
            names,
            sizes,
            texts,
        };
        is_malformed(rt.alloc(), &call)?;
    }
    Ok(())
}
