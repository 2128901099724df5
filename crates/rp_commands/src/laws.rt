//! Laws of what files denote. Each function is empty: its contract is the law.
ghost use Rattle.std.specs.Prelude.{◌≡◌, ℕ, Bool, List, Ok, Option, Result};
ghost use Rattle.rp_evidence.specs.declared.certificate.Certificate.{Certificate};
ghost use Rattle.rp_patch.specs.Patches.{PatchList};
ghost use Rattle.rp_types.specs.declared.types.Rational.{Rational};
ghost use Rattle.rp_answers.specs.declared.choice_limits.ChoiceLimits.{ChoiceLimits as Limits};
ghost use Rattle.rp_answers.specs.declared.choice_limits.ChoiceLimits.TheVariants.{Listed, Unlisted};
ghost use Rattle.rp_command_line.specs.CommandLine.{Arguments, Line as Asked, file_set};
ghost use Rattle.rp_command_line.specs.declared.commands.FileSet.TheVariants.{Choices};
ghost use Rattle.rp_command_line.specs.declared.commands.FileSet.TheVariants.{ChoicesAndCertificate};
ghost use Rattle.rp_command_line.specs.declared.commands.FileSet.TheVariants.{TableAndCertificate};
ghost use Rattle.rp_commands.specs.ChosenInFiles.{AreOfChoicesIn};
ghost use Rattle.rp_commands.specs.Contents.{Contents, ContentsInBy, DenotesBy, HasNumbersAlone};
ghost use Rattle.rp_commands.specs.Contents as contents;

/// The bytes of a line's files denote at most one content or one refusal by the limits of choices: no two contents, no
/// two lines of a refusal, and never both. So what is answered over known files is decided by them. Where the files hold
/// numbers alone (tables, new prices, bundles, technologies) they denote one of the two, whatever their bytes are, and
/// that a table with a certificate denotes neither is impossible. That choices and menus denote one is no law here:
/// `run` finds what they denote, unless memory runs out.
pub fn bytes_denote_one_input_or_refusal()
    ensures at_most_one { (limits : Limits) (line : Asked) (bytes : ℕ → List ℕ)
        (one other : Result Contents (List ℕ))
        → DenotesBy limits line bytes one → DenotesBy limits line bytes other → one ≡ other }
    ensures numbers_denote_one { (limits : Limits) (line : Asked) (bytes : ℕ → List ℕ)
        → HasNumbersAlone (file_set line)
        → (one : Result Contents (List ℕ)) × DenotesBy limits line bytes one }
    ensures certificates_never_denote_nothing { (limits : Limits) (line : Asked) (bytes : ℕ → List ℕ)
        → file_set line ≡ TableAndCertificate
        → ¬ ((one : Result Contents (List ℕ)) → ¬ DenotesBy limits line bytes one) }
{}

/// Patches that files denote are those of choices in these files, of which no bundle is empty: so what an item says of
/// all choices that have the patches (`SaysOfChoices`) it says of the choices in the files.
pub fn patches_are_of_choices_in_files()
    ensures choices { (limits : Limits) (takes : Bool) (arguments : Arguments)
        (known : ℕ → Option (List ℕ)) (p : PatchList) (types : Option (List Rational))
        → ContentsInBy limits takes Choices arguments known (Ok (contents.Choices p types))
        → AreOfChoicesIn arguments known p }
    ensures with_certificate { (limits : Limits) (takes : Bool) (arguments : Arguments)
        (known : ℕ → Option (List ℕ)) (p : PatchList) (types : Option (List Rational))
        (certificate : Certificate)
        → ContentsInBy limits takes ChoicesAndCertificate arguments known
        (Ok (contents.ChoicesAndCertificate p types certificate))
        → AreOfChoicesIn arguments known p }
{}

/// What files denote where all types of choices have to be listed they denote where they have not: the same contents.
pub fn listed_choices_are_denoted_alike()
    ensures { (line : Asked) (bytes : ℕ → List ℕ) (held : Contents)
        → DenotesBy Listed line bytes (Ok held) → DenotesBy Unlisted line bytes (Ok held) }
{}
