//! Tests of closures of many sizes: fewer bits than a word, one word, one bit more, and several words.
ghost use Rattle.std.specs.Prelude.{◌≡◌, ◌<◌};

use crate::closure_texts::{chain, triangle};
use crate::shared::costs_of;
use rp_evidence::Level;
use rp_pref::{Closure, Steps};
use rp_table::Costs;
use std::alloc::Global;
use std::process::Abort;
use std::test::Fail;

/// A table of any number of observations whose closure is known.
#[derive(Clone, Copy, Debug)]
enum Shape {
    /// Each reaches itself and all that come later.
    Chain,
    /// Each reaches itself alone.
    Apart,
    /// Each reaches all of its own half.
    TwoCycles,
}

/// Bundles on a curve that is more convex than that of a chain, each bought where it alone is affordable.
fn apart(alloc: Global, n: u32) -> Result<String, Fail> {
    let mut text = String::from_str(alloc, "p_a,q_a,p_b,q_b\n")?;
    for t in 0..n {
        let left = n - t;
        let (price, height) = (left.saturating_mul(2), left.saturating_mul(left));
        text.push_str(format!(in alloc; "{price},{t},1,{height}\n")?.as_str())?;
    }
    Ok(text)
}

/// A chain of so many observations that ends where all of its own bundles are affordable: the prices and quantities of
/// its two goods, between what stands for two others on each side.
fn push_cycle(
    alloc: Global,
    text: &mut String,
    n: u32,
    before: &str,
    after: &str,
) -> Result<(), Fail> {
    for t in 0..n {
        let left = n - t;
        let price = if left == 1 { triangle(n) } else { left };
        let height = triangle(left);
        text.push_str(format!(in alloc; "{before}{price},{t},1,{height}{after}\n")?.as_str())?;
    }
    Ok(())
}

/// Two such chains over goods of their own.
fn two_cycles(alloc: Global, n: u32) -> Result<String, Fail> {
    let mut text = String::from_str(alloc, "p_a,q_a,p_b,q_b,p_c,q_c,p_d,q_d\n")?;
    let half = n / 2;
    push_cycle(alloc, &mut text, half, "", ",9000000,0,9000000,0")?;
    push_cycle(alloc, &mut text, n - half, "9000000,0,9000000,0,", "")?;
    Ok(text)
}

/// The costs of the table of so many observations.
fn costs_by_shape(alloc: Global, shape: Shape, n: u32) -> Result<Costs, Fail> {
    let text = match shape {
        Shape::Chain => chain(alloc, n)?,
        Shape::Apart => apart(alloc, n)?,
        Shape::TwoCycles => two_cycles(alloc, n)?,
    };
    costs_of(alloc, text.as_str())
}

/// Whether one of n observations reaches another.
fn is_reached(shape: Shape, n: u32, s: u32, t: u32) -> bool {
    match shape {
        Shape::Chain => s <= t,
        Shape::Apart => s == t,
        Shape::TwoCycles => (s < n / 2) == (t < n / 2),
    }
}

/// How many one of n observations counts.
fn count_of(shape: Shape, n: u32, s: u32) -> u32 {
    match shape {
        Shape::Chain => n.saturating_sub(s),
        Shape::Apart => 1,
        Shape::TwoCycles => if s < n / 2 {
            n / 2
        } else {
            n.saturating_sub(n / 2)
        },
    }
}

/// Asserts what one of n observations reaches, and how many it counts.
fn assert_row(rt: &impl Abort, closure: &Closure, shape: Shape, n: u32, s: u32)
    requires size { closure.now.n ≡ n }
    requires below { s < n }
{
    for t in 0..n {
        assert!(rt;
            closure.reaches(s, t) == is_reached(shape, n, s, t),
            "{shape:?} {n}: {s} to {t}"
        );
    }
    assert!(rt;
        closure.count(s) == count_of(shape, n, s),
        "{shape:?} {n}: count of {s}"
    );
}

/// Asserts all of a closure at the level 1.
fn assert_closure(rt: &impl Abort, alloc: Global, shape: Shape, n: u32) -> Result<(), Fail> {
    let costs = costs_by_shape(alloc, shape, n)?;
    assert!(rt; costs.n() == n);
    let closure = Closure::of(alloc, &costs, Level { num: 1, den: 1 }, Steps::Weak)?;
    for s in 0..n {
        assert_row(rt, &closure, shape, n, s);
    }
    Ok(())
}

#[test]
fn closures_of_many_sizes(rt: HostRuntime) -> Result<(), Fail> {
    for n in [1u32, 63, 64, 65, 128, 512] {
        for shape in [Shape::Chain, Shape::Apart, Shape::TwoCycles] {
            assert_closure(&rt, rt.alloc(), shape, n)?;
        }
    }
    Ok(())
}
