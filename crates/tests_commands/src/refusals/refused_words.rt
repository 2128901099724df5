//! Words that are answered by the usage.
use crate::refusals::words_over_files::{FILES, each_is_answered_by_the_usage};
use std::test::Fail;

const OTHER_WORDS: &str = "\n\
    rp\n\
    rp pair t.csv\n\
    rp Pairs t.csv\n\
    rp t.csv pairs\n\
    rp pairs\n\
    rp analyse\n\
    rp pairs \n\
    rp pairs -t.csv\n\
    rp pairs t.csv t.csv\n\
    rp pairs -- t.csv t.csv\n\
    rp utility t.csv\n\
    rp utility t.csv \n\
    rp pairs --json t.csv\n\
    rp certify t.csv --json\n\
    rp check\n\
    rp check t.csv\n\
    rp check t.csv c.json c.json\n\
    rp check -- t.csv c.json c.json\n\
    rp check  c.json\n\
    rp check t.csv \n\
    rp check -x c.json\n\
    rp check t.csv -x\n\
    rp check t.csv --c\n\
    rp check t.csv c.json --json\n\
    rp check --json t.csv c.json\n\
    rp check t.csv c.json --per 7\n\
    rp check --help\n\
    rp Check t.csv c.json\n\
    rp t.csv check c.json\n\
    rp demand two.csv --json\n\
    rp demand two.csv three.csv --json --json\n\
    rp demand two.csv three.csv --json=true\n\
    rp demand two.csv three.csv --jso\n\
    rp utility t.csv b.csv --json\n\
    rp pairs -x t.csv\n\
    rp -x pairs t.csv\n\
    rp help\n\
    rp --help\n\
    rp -h\n\
    rp pairs --help\n\
    rp help pairs\n\
    rp --version\n\
    rp -V\n\
    rp version";

#[test]
fn other_words_are_answered_by_the_usage(rt: HostRuntime) -> Result<(), Fail> {
    each_is_answered_by_the_usage(rt.alloc(), OTHER_WORDS, FILES)
}

const OUT_OF_RANGE: &str = "\
    rp trial 7 0 1\n\
    rp trial 7 257 1\n\
    rp trial 7 1 0\n\
    rp trial 7 1 17\n\
    rp trial 18446744073709551616 1 1\n\
    rp trial -7 1 1\n\
    rp trial 7 -1 1\n\
    rp trial  1 1\n\
    rp trial 7 1.0 1\n\
    rp trial 7 1 one\n\
    rp trial 0x7 1 1\n\
    rp power t.csv 7 0\n\
    rp power t.csv 7 1001\n\
    rp power t.csv 18446744073709551616 1";

#[test]
fn numbers_out_of_range_are_answered_by_the_usage(rt: HostRuntime) -> Result<(), Fail> {
    each_is_answered_by_the_usage(rt.alloc(), OUT_OF_RANGE, FILES)
}

const TOO_FEW_OR_MANY: &str = "\
    rp trial\n\
    rp trial 7 1\n\
    rp trial 7 1 1 1\n\
    rp pump\n\
    rp pump t.csv t.csv\n\
    rp cost t.csv\n\
    rp power t.csv 7\n\
    rp power t.csv 7 1 1";

#[test]
fn too_few_or_too_many_words_are_answered_by_the_usage(rt: HostRuntime) -> Result<(), Fail> {
    each_is_answered_by_the_usage(rt.alloc(), TOO_FEW_OR_MANY, FILES)
}

/// Two menus, chosen from so often that the least common multiple is too great a total.
const COPRIME: &str = "menu,choice,n\na,a,99991\nab,a,99989\n";

const OF_MENUS: &str = "\
    rp menus\n\
    rp menus m.csv --json\n\
    rp menus m.csv n.csv\n\
    rp menus m.csv --per 0";

#[test]
fn other_words_of_menus_are_answered_by_the_usage(rt: HostRuntime) -> Result<(), Fail> {
    each_is_answered_by_the_usage(rt.alloc(), OF_MENUS, &[("m.csv", COPRIME)])
}
