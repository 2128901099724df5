//! Laws: what an item that is proved says of people.
ghost use Rattle.std.specs.Prelude.{All, List};
ghost use Rattle.rp_evidence.specs.Input.{TableInput};
ghost use Rattle.rp_evidence.specs.Proves.{Proves};
ghost use Rattle.rp_evidence.specs.declared.certificate.Item.{Item};
ghost use Rattle.rp_people.specs.OfOnePreference.{SaysOfOne};
ghost use Rattle.rp_people.specs.Says.{Says};
ghost use Rattle.rp_people.specs.TableChoices.{IsFullInput};

use crate::relations::BundleRelation;

/// An item that proves its verdict on a table says of people what that kind of verdict says, and of each preference,
/// whatever relation it is, what it says of one.
pub fn proved_items_say<P: BundleRelation>()
    ensures people { (input : TableInput) (item : Item)
        → IsFullInput input → Proves input item → Says input item }
    ensures each { (input : TableInput) (item : Item)
        → IsFullInput input → Proves input item → SaysOfOne input P.prefers item }
{}

/// Of items that all prove their verdicts, each says so.
pub fn proved_certificates_say<P: BundleRelation>()
    ensures people { (input : TableInput) (items : List Item) → IsFullInput input
        → All (Proves input) items → All (Says input) items }
    ensures each { (input : TableInput) (items : List Item) → IsFullInput input
        → All (Proves input) items → All (SaysOfOne input P.prefers) items }
{}
