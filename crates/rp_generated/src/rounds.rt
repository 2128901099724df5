//! Rounds of the search: the program over the types so far is solved, and types that are light by its prices are added,
//! until there is none, or a mixture of these types has the whole total.
ghost use Rattle.std.specs.Prelude.{◌≡◌, ◌≤◌, ◌<ℤ◌, ◌⊎◌, IfNone, IfOk, IfSome, MatchOption, length, pos};
ghost use Rattle.rp_generated.specs.InnerLight.{AreCompatible, AreListed};
ghost use Rattle.rp_generated.specs.InnerLooks.{AreFirst, LookedFrom, WereMadeIn};
ghost use Rattle.rp_generated.specs.InnerRounds.{AddsFirst, EndsWith, FindsBy, HasPrices};
ghost use Rattle.rp_generated.specs.Rounds.{AreLightTypes, AreTypes, HasGrown, IsFirstProgram, SomePriceIsWide};
ghost use Rattle.rp_generated.specs.Steps.{SomeHasFound};
ghost use Rattle.rp_patch.specs.Patches.{PatchList};
ghost use Rattle.rp_whole_tableau.specs.Programs.{price_of};
ghost use Rattle.rp_whole_tableau.specs.declared.grown.Grown.{Grown};

use crate::compatible::Compatible;
use crate::lightest::light_types;
use crate::looked::Lightest;
use crate::parts::{mixture, violation};
use crate::plain::first_type;
use crate::prices::Prices;
use rp_evidence::RandomPart;
use rp_num::NoMemory;
use rp_patch::Patches;
use rp_whole_tableau::Grown;
use std::alloc::Global;

/// The most rounds of a run.
const MOST_ROUNDS: u32 = 65_536;

/// What the rounds end with: evidence, where some was found, and how many steps the searches made.
#[derive(Drop)]
pub(crate) struct Found {
    pub(crate) part: Option<RandomPart>,
    pub(crate) steps: u64,
}

/// The program of a row for each patch with its units, and no types yet.
#[tactic(auto, using(crate::proofs::RoundLaws::units_more))]
fn first_program(alloc: Global, patches: &Patches) -> Result<Grown, NoMemory>
    ensures { IfOk result (IsFirstProgram patches.now) }
{
    let mut units = Vec::new(alloc);
    for i in 0..patches.count() {
        units.push(patches.units(i))?;
    }
    Grown::of_sides(alloc, units.as_slice())
}

/// The price of a patch; none where it is negative or passes a word.
fn word_price(program: &Grown, i: u32) -> Option<u64>
    ensures price { IfSome result (λ price. pos price ≡ price_of program.now i) }
    ensures wide { IfNone result ((price_of program.now i <ℤ pos 0)
        ⊎ (pos 18446744073709551615 <ℤ price_of program.now i)) }
{
    match u64::try_from(program.price(i as usize)) {
        Ok(price) => Some(price),
        Err(_) => None,
    }
}

/// The prices of the patches; none where one is negative or passes a word.
fn prices_of(alloc: Global, patches: &Patches, program: &Grown) -> Result<Option<Prices>, NoMemory>
    ensures { IfOk result (λ found. MatchOption found (SomePriceIsWide patches.now program.now)
        (λ prices. AreListed patches.now prices
        × HasPrices patches.now program.now prices.prices.items)) }
{
    let mut prices = Vec::new(alloc);
    for i in 0..patches.count() {
        match word_price(program, i) {
            Some(price) => prices.push(price)?,
            None => return Ok(None),
        }
    }
    Ok(Some(Prices::make(alloc, patches, prices)?))
}

/// Adds types to the program.
fn add_all(alloc: Global, program: &mut Grown, types: &[Vec<u32>]) -> Result<(), NoMemory>
    ensures { IfOk result (λ _. (p : PatchList) (by : Grown) → AreLightTypes p by types.now
        → AddsFirst p by (length types.now) program.old program.new) }
{
    for k in 0..types.len() {
        program.add(alloc, types[k].as_slice())?;
    }
    Ok(())
}

/// Types that are lighter by the prices of the program than its denominator; none where a price passes its width.
fn found_by(
    alloc: Global,
    patches: &Patches,
    compatible: &Compatible,
    program: &Grown,
    steps: u64,
    most: u64,
) -> Result<Option<Lightest>, NoMemory>
    requires few { steps ≤ most }
    requires compatible { AreCompatible patches.now compatible.now }
    ensures looked { IfOk result (λ found. IfSome found (LookedFrom patches.now steps)) }
    ensures most { IfOk result (λ found. IfSome found (λ light. light.most ≡ most)) }
    ensures finds { IfOk result (λ found. MatchOption found (SomePriceIsWide patches.now program.now)
        (FindsBy patches.now program.now)) }
{
    let Some(prices) = prices_of(alloc, patches, program)? else {
        return Ok(None);
    };
    let den = program.den();
    Ok(Some(light_types(alloc, patches, &prices, compatible, den, steps, most)?))
}

/// The types that the rounds begin with: those that the search with the prices of no types finds, or else the first that
/// the search finds which leaves out nothing.
fn first_types(
    alloc: Global,
    patches: &Patches,
    compatible: &Compatible,
    program: &Grown,
    most: u64,
) -> Result<Lightest, NoMemory>
    requires { AreCompatible patches.now compatible.now }
    ensures first { IfOk result (AreFirst patches.now most) }
    ensures most { IfOk result (λ light. light.most ≡ most) }
    ensures types { IfOk result (λ light. AreTypes patches.now light.types.items) }
{
    prove!(patches.budgets() >= 1);
    let Some(light) = found_by(alloc, patches, compatible, program, 0, most)? else {
        return first_type(alloc, patches, 0, most);
    };
    if light.is_given_up() || !light.types.is_empty() {
        return Ok(light);
    }
    first_type(alloc, patches, light.steps, most)
}

/// The rounds after the first, over a program of the types that this found, of at most `most` steps in all.
fn later_rounds(
    alloc: Global,
    patches: &Patches,
    compatible: &Compatible,
    program: &mut Grown,
    first: u64,
    most: u64,
) -> Result<Found, NoMemory>
    requires compatible { AreCompatible patches.now compatible.now }
    requires made { WereMadeIn patches.now most 2 first (SomeHasFound patches.now) }
    requires grown { HasGrown patches.now 0 program.old }
    ensures few { IfOk result (λ found. found.steps ≤ most) }
    ensures ends { IfOk result (λ found. EndsWith patches.now most found.part found.steps) }
{
    let mut steps = first;
    for _round in 0..MOST_ROUNDS - 1 {
        if !program.solve(alloc, patches.total())? {
            return Ok(Found { part: None, steps });
        }
        if program.has(patches.total()) {
            let part = mixture(alloc, program)?;
            return Ok(Found { part, steps });
        }
        let Some(light) = found_by(alloc, patches, compatible, program, steps, most)? else {
            return Ok(Found { part: None, steps });
        };
        steps = light.steps;
        if light.is_given_up() {
            return Ok(Found { part: None, steps });
        }
        if light.types.is_empty() {
            let part = violation(alloc, program)?;
            return Ok(Found { part, steps });
        }
        add_all(alloc, program, light.types.as_slice())?;
    }
    Ok(Found { part: None, steps })
}

/// The rounds, of at most `most` steps. The steps that they tell were made.
pub(crate) fn rounds(alloc: Global, patches: &Patches, most: u64) -> Result<Found, NoMemory>
    ensures few { IfOk result (λ found. found.steps ≤ most) }
    ensures ends { IfOk result (λ found. EndsWith patches.now most found.part found.steps) }
{
    let compatible = Compatible::make(alloc, patches)?;
    let mut program = first_program(alloc, patches)?;
    let light = first_types(alloc, patches, &compatible, &program, most)?;
    let steps = light.steps;
    if light.is_given_up() {
        return Ok(Found { part: None, steps });
    }
    if light.types.is_empty() {
        let part = violation(alloc, &program)?;
        return Ok(Found { part, steps });
    }
    add_all(alloc, &mut program, light.types.as_slice())?;
    later_rounds(alloc, patches, &compatible, &mut program, steps, most)
}
