//! Laws of certificates on goodness of fit and their texts.
ghost use Rattle.std.specs.Prelude.{◌≡◌, ◌⊎◌, ℕ, List, All, Ok, Err};
ghost use Rattle.rp_fit.specs.declared.item.FitItem.{FitItem};
ghost use Rattle.rp_json.specs.Denoted.{Spells};
ghost use Rattle.rp_json.specs.declared.fault.JsonFault.TheVariants as fault;
ghost use Rattle.rp_json_fit.specs.FitDenoted.{IsFitDenoted};
ghost use Rattle.rp_json_fit.specs.FitLimits.{FitsItem};
ghost use Rattle.rp_json_fit.specs.FitValue.{fit_text, fit_value};

/// What is written of a certificate is read as that certificate: its text denotes nothing else, unless memory runs out.
/// The text spells the certificate's value.
pub fn what_is_written_of_fit_is_read()
    ensures text { (items : List FitItem) → All FitsItem items
        → Spells (fit_text items) (fit_value items) }
    ensures back { (items : List FitItem) → All FitsItem items → (result : _)
        → IsFitDenoted (fit_text items) result
        → (result ≡ Ok items) ⊎ (result ≡ Err fault.NoMemory) }
{}

/// Bytes that denote a certificate denote nothing else, unless memory runs out.
pub fn bytes_denote_one_fit()
    ensures { (bytes : List ℕ) (items : List FitItem) (result : _)
        → IsFitDenoted bytes (Ok items) → IsFitDenoted bytes result
        → (result ≡ Ok items) ⊎ (result ≡ Err fault.NoMemory) }
{}
