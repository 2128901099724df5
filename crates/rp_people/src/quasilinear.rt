//! The quasilinear test and utility that is linear in money (Rockafellar 1970; Brown and Calsamiglia 2007).
ghost use Rattle.rp_evidence.specs.Input.{TableInput};
ghost use Rattle.rp_evidence.specs.Quasilinear.{MeetsQuasilinearTest};
ghost use Rattle.rp_people.specs.Money.{HasConcaveWorth, HasWorth};
ghost use Rattle.rp_people.specs.TableChoices.{IsFullInput, choices_at};

/// Where some function rationalizes the choices of a table with money, the quasilinear test holds.
pub fn worths_meet_quasilinear_test()
    ensures { (input : TableInput)
        → HasWorth (choices_at input 1 1) → MeetsQuasilinearTest input.n input.cost }
{}

/// Where the test holds, a strictly monotone and concave function rationalizes the choices with money.
pub fn quasilinear_test_gives_worth()
    ensures { (input : TableInput) → IsFullInput input
        → MeetsQuasilinearTest input.n input.cost → HasConcaveWorth (choices_at input 1 1) }
{}
