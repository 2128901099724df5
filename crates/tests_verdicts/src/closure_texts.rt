//! Tables whose closures are known for every size, and what a closure holds. Nothing here ensures anything, so that a
//! test carries none of what the calls ensure.
ghost use Rattle.std.specs.Prelude.{◌≡◌};

use rp_pref::Closure;
use std::alloc::Global;
use std::test::Fail;

/// The sum of the numbers up to this one.
pub(crate) fn triangle(side: u32) -> u32 {
    side.saturating_mul(side.saturating_add(1)) / 2
}

/// Bundles on a convex curve, each bought where it and the next alone are affordable.
pub(crate) fn chain(alloc: Global, n: u32) -> Result<String, Fail> {
    let mut text = String::from_str(alloc, "p_a,q_a,p_b,q_b\n")?;
    for t in 0..n {
        let left = n - t;
        let height = triangle(left);
        text.push_str(format!(in alloc; "{left},{t},1,{height}\n")?.as_str())?;
    }
    Ok(text)
}

/// Which of n observations reach which, row by row.
pub(crate) fn rows_of(alloc: Global, closure: &Closure, n: u32) -> Result<String, Fail>
    requires { closure.now.n ≡ n }
{
    let mut rows = String::new(alloc);
    for s in 0..n {
        if s > 0 {
            rows.push_str(" ")?;
        }
        for t in 0..n {
            rows.push_str(if closure.reaches(s, t) { "1" } else { "0" })?;
        }
    }
    Ok(rows)
}

/// How many each of n observations counts.
pub(crate) fn counts_of(alloc: Global, closure: &Closure, n: u32) -> Result<String, Fail>
    requires { closure.now.n ≡ n }
{
    let mut counts = String::new(alloc);
    for s in 0..n {
        counts.push_str(closure.count(s).to_string(alloc)?.as_str())?;
    }
    Ok(counts)
}
