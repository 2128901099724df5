//! The texts of certificates.
use rp_evidence::{
    AfriatPart, Certificate, Efficiency, Garp, Homothetic, Item, Kind, Level, Numbers, Quasi,
};
use rp_json::write;
use rp_num::{Frac, NoMemory, Seq};
use std::alloc::Global;
use std::test::Fail;

/// A list of these entries.
fn list<T: Copy>(alloc: Global, entries: &[T]) -> Result<Seq<T>, NoMemory> {
    Ok(Seq::from_vec(Vec::from_slice(alloc, entries)?))
}

/// A certificate of this kind with these items.
fn certificate(alloc: Global, kind: Kind, items: Vec<Item>) -> Certificate {
    Certificate {
        kind,
        version: 1,
        levels: Seq::from_vec(Vec::new(alloc)),
        items: Seq::from_vec(items),
    }
}

/// The text of a certificate of a table with this one item.
fn text_of(alloc: Global, item: Item) -> Result<Vec<u8>, NoMemory> {
    let mut items = Vec::new(alloc);
    items.push(item)?;
    write(alloc, &certificate(alloc, Kind::Table, items))
}

/// Whether this text was written.
fn is(text: &Vec<u8>, wanted: &[u8]) -> bool {
    text.as_slice() == wanted
}

/// Two purchases that contradict each other: prices (1, 2) and (2, 1), bundles the same.
#[test]
fn contradiction_of_two_purchases(rt: HostRuntime) -> Result<(), Fail> {
    let alloc = rt.alloc();
    let cycle = [0u32, 1, 0];
    let mut items = Vec::new(alloc);
    items.push(Item::Garp(Garp::Cycle(list(alloc, &cycle)?)))?;
    items.push(Item::Afriat(AfriatPart::NoModel(list(alloc, &cycle)?)))?;
    items.push(Item::Efficiency(Efficiency {
        level: Level { num: 4, den: 5 },
        below: list(alloc, &[1u32, 1])?,
        above: list(alloc, &cycle)?,
        at: Garp::Ranks(list(alloc, &[2u32, 2])?),
    }))?;
    items.push(Item::Homothetic(Homothetic::Cycle {
        start: Frac::new(1, 1),
        steps: list(alloc, &cycle)?,
    }))?;
    items.push(Item::Quasi(Quasi::Cycle(list(alloc, &cycle)?)))?;
    let text = write(alloc, &certificate(alloc, Kind::Table, items))?;
    assert!(rt;
        is(
            &text,
            b"{\"items\":[{\"cycle\":[1,2,1],\"item\":\"garp\"},{\"cycle\":[1,2,1],\"item\":\"afriat\"},{\"above\":[1,2,1],\"at_ranks\":[2,2],\"below\":[1,1],\"item\":\"efficiency\",\"level\":\"4/5\"},{\"cycle\":[1,2,1],\"item\":\"homothetic\",\"start\":\"1\"},{\"cycle\":[1,2,1],\"item\":\"quasilinear\"}],\"kind\":\"table\",\"version\":1}\n"
        )
    );
    Ok(())
}

/// No items, and the other kind.
#[test]
fn certificate_without_items(rt: HostRuntime) -> Result<(), Fail> {
    let alloc = rt.alloc();
    let text = write(alloc, &certificate(alloc, Kind::Random, Vec::new(alloc)))?;
    assert!(rt; is(&text, b"{\"items\":[],\"kind\":\"random\",\"version\":1}\n"));
    Ok(())
}

/// The levels stand in the text of version 2 and in no other, also where that text is not read back.
#[test]
fn levels_in_version_2_alone(rt: HostRuntime) -> Result<(), Fail> {
    let alloc = rt.alloc();
    for (kind, version, levels, wanted) in [
        (
            Kind::Table,
            2u32,
            [799u32, 1000].as_slice(),
            b"{\"items\":[],\"kind\":\"table\",\"levels\":[799,1000],\"version\":2}\n".as_slice(),
        ),
        (
            Kind::Table,
            2,
            &[],
            b"{\"items\":[],\"kind\":\"table\",\"levels\":[],\"version\":2}\n",
        ),
        (
            Kind::Random,
            2,
            &[0, 4294967295],
            b"{\"items\":[],\"kind\":\"random\",\"levels\":[0,4294967295],\"version\":2}\n",
        ),
        (
            Kind::Table,
            1,
            &[799, 1000],
            b"{\"items\":[],\"kind\":\"table\",\"version\":1}\n",
        ),
        (
            Kind::Table,
            4294967295,
            &[799, 1000],
            b"{\"items\":[],\"kind\":\"table\",\"version\":4294967295}\n",
        ),
    ] {
        let certificate = Certificate {
            kind,
            version,
            levels: list(alloc, levels)?,
            items: Seq::from_vec(Vec::new(alloc)),
        };
        assert!(rt; is(&write(alloc, &certificate)?, wanted));
    }
    Ok(())
}

/// Evidence where the tests hold: ranks, the numbers of a model, values; and an index that is not attained.
#[test]
fn items_where_tests_hold(rt: HostRuntime) -> Result<(), Fail> {
    let alloc = rt.alloc();
    let ranks = text_of(alloc, Item::Garp(Garp::Ranks(list(alloc, &[2u32, 1])?)))?;
    assert!(rt;
        is(
            &ranks,
            b"{\"items\":[{\"item\":\"garp\",\"ranks\":[2,1]}],\"kind\":\"table\",\"version\":1}\n"
        )
    );
    let model = AfriatPart::Model(Numbers {
        u: list(alloc, &[0i128, -4])?,
        lambda: list(alloc, &[1u64, 25])?,
    });
    let model = text_of(alloc, Item::Afriat(model))?;
    assert!(rt;
        is(
            &model,
            b"{\"items\":[{\"item\":\"afriat\",\"lambda\":[\"1\",\"25\"],\"utility\":[\"0\",\"-4\"]}],\"kind\":\"table\",\"version\":1}\n"
        )
    );
    let values = Homothetic::Values(list(alloc, &[Frac::new(1, 1), Frac::new(2, 4)])?);
    let values = text_of(alloc, Item::Homothetic(values))?;
    assert!(rt;
        is(
            &values,
            b"{\"items\":[{\"item\":\"homothetic\",\"values\":[\"1\",\"1/2\"]}],\"kind\":\"table\",\"version\":1}\n"
        )
    );
    let sums = text_of(
        alloc,
        Item::Quasi(Quasi::Values(list(alloc, &[0i128, -4])?)),
    )?;
    assert!(rt;
        is(
            &sums,
            b"{\"items\":[{\"item\":\"quasilinear\",\"values\":[\"0\",\"-4\"]}],\"kind\":\"table\",\"version\":1}\n"
        )
    );
    Ok(())
}

/// What is withheld, and a level as it stands, not in lowest terms.
#[test]
fn withheld_items_and_a_violation_at_the_index(rt: HostRuntime) -> Result<(), Fail> {
    let alloc = rt.alloc();
    let afriat = text_of(alloc, Item::Afriat(AfriatPart::Wide { at: 2 }))?;
    assert!(rt;
        is(
            &afriat,
            b"{\"items\":[{\"item\":\"afriat\",\"withheld\":3}],\"kind\":\"table\",\"version\":1}\n"
        )
    );
    let wide = Homothetic::Withheld {
        steps: 2,
        from: 2,
        to: 0,
    };
    let wide = text_of(alloc, Item::Homothetic(wide))?;
    assert!(rt;
        is(
            &wide,
            b"{\"items\":[{\"item\":\"homothetic\",\"withheld\":[2,3,1]}],\"kind\":\"table\",\"version\":1}\n"
        )
    );
    let index = Efficiency {
        level: Level { num: 18, den: 20 },
        below: list(alloc, &[2u32, 1])?,
        above: list(alloc, &[0u32, 1, 0])?,
        at: Garp::Cycle(list(alloc, &[1u32, 0, 1])?),
    };
    let index = text_of(alloc, Item::Efficiency(index))?;
    assert!(rt;
        is(
            &index,
            b"{\"items\":[{\"above\":[1,2,1],\"at_cycle\":[2,1,2],\"below\":[2,1],\"item\":\"efficiency\",\"level\":\"18/20\"}],\"kind\":\"table\",\"version\":1}\n"
        )
    );
    Ok(())
}
