//! Laws: certificates that the searches give are accepted, and read back from their text.
ghost use Rattle.std.specs.Prelude.{◌≡◌, ◌≤◌, ◌∷◌, [], All, List, length, ℕ};
ghost use Rattle.rp_agreement.specs.ItemVerdict.{ProvesVerdict};
ghost use Rattle.rp_agreement.specs.Limited.{IsLimited};
ghost use Rattle.rp_agreement.specs.ReadBack.{IsReadBack, certificate_from};
ghost use Rattle.rp_check.specs.CheckVerdict.{IsCheckVerdict};
ghost use Rattle.rp_check.specs.RandomCheckVerdict.{IsRandomCheckVerdict};
ghost use Rattle.rp_check.specs.declared.verdict.Verdict.{Verdict};
ghost use Rattle.rp_check.specs.declared.verdict.Verdict.TheVariants.{Accepted};
ghost use Rattle.rp_evidence.specs.Certificates.{random_certificate};
ghost use Rattle.rp_evidence.specs.Garp.{ProvesOwnGarp};
ghost use Rattle.rp_evidence.specs.Input.{TableInput};
ghost use Rattle.rp_evidence.specs.declared.certificate.Certificate.{Certificate};
ghost use Rattle.rp_evidence.specs.declared.certificate.Item.{Item};
ghost use Rattle.rp_evidence.specs.declared.certificate.Item.TheVariants.{Garp as GarpItem};
ghost use Rattle.rp_evidence.specs.declared.certificate.Item.TheVariants.{Random as RandomItem};
ghost use Rattle.rp_evidence.specs.declared.certificate.Kind.{Kind};
ghost use Rattle.rp_evidence.specs.declared.certificate.Kind.TheVariants.{Random, Table};
ghost use Rattle.rp_evidence.specs.declared.garp.Garp.{Garp};
ghost use Rattle.rp_evidence.specs.declared.random.RandomPart.{RandomPart};
ghost use Rattle.rp_json.specs.Denoted.{IsReadable};
ghost use Rattle.rp_patch.specs.Patches.{IsPatchList, PatchList};
ghost use Rattle.rp_patch.specs.RandomEvidence.{ProvesRandom};
ghost use Rattle.rp_patch.specs.Types.{AreRationalTypes};
ghost use Rattle.rp_random.specs.RandomVerdict.{IsRandomVerdict};
ghost use Rattle.rp_limits.specs.declared.patch.TheConstants.{PATCHES};
ghost use Rattle.rp_limits.specs.declared.types.TheConstants.{TYPES};

/// The text of a certificate that can be read back denotes it, and nothing else but for want of memory.
pub fn readable_texts_are_read_back()
    ensures { (kind : Kind) (c : Certificate) → IsReadable kind c → IsReadBack kind c }
{}

/// A certificate of a table, with its levels where it has any, that begins with a verdict on the axiom and goes on with
/// items as they are given from it is accepted, and can be read back: its text denotes it.
pub fn certificates_agree()
    ensures accepted { (input : TableInput) (verdict : Garp) (rest : List Item)
        → ProvesOwnGarp input.n input.levels input.cost verdict
        → All (ProvesVerdict input verdict) rest
        → IsCheckVerdict input input.levels (GarpItem verdict ∷ rest) Accepted }
    ensures readable { (input : TableInput) (verdict : Garp) (rest : List Item) → IsLimited input
        → ProvesVerdict input verdict (GarpItem verdict) → All (ProvesVerdict input verdict) rest
        → IsReadable Table (certificate_from input.levels verdict rest) }
    ensures read_back { (input : TableInput) (verdict : Garp) (rest : List Item) → IsLimited input
        → ProvesVerdict input verdict (GarpItem verdict) → All (ProvesVerdict input verdict) rest
        → IsReadBack Table (certificate_from input.levels verdict rest) }
{}

/// So is and can the certificate of random choices.
pub fn random_certificates_agree()
    ensures accepted { (p : PatchList) (types : List (List ℕ)) (part : RandomPart)
        → IsPatchList p → length p.patches ≤ PATCHES → length types ≤ TYPES
        → AreRationalTypes p types → IsRandomVerdict p types part
        → IsRandomCheckVerdict p (RandomItem p.total part ∷ []) Accepted }
    ensures readable { (p : PatchList) (types : List (List ℕ)) (part : RandomPart)
        → IsPatchList p → ProvesRandom p p.total part → IsRandomVerdict p types part
        → IsReadable Random (random_certificate p.total part) }
    ensures read_back { (p : PatchList) (types : List (List ℕ)) (part : RandomPart)
        → IsPatchList p → ProvesRandom p p.total part → IsRandomVerdict p types part
        → IsReadBack Random (random_certificate p.total part) }
{}

/// What is accepted is not rejected: the checker's verdict on it is no other.
pub fn accepted_is_not_rejected()
    ensures { (input : TableInput) (levels : List ℕ) (items : List Item) (verdict : Verdict)
        → IsCheckVerdict input levels items Accepted → IsCheckVerdict input levels items verdict
        → verdict ≡ Accepted }
{}

/// What is accepted on random choices is not rejected: the checker's verdict on it is no other.
pub fn accepted_is_not_rejected_on_patches()
    ensures { (p : PatchList) (items : List Item) (verdict : Verdict)
        → IsRandomCheckVerdict p items Accepted → IsRandomCheckVerdict p items verdict
        → verdict ≡ Accepted }
{}
