//! Laws of certificates and their texts.
ghost use Rattle.std.specs.Prelude.{◌≡◌, ◌⊎◌, ℕ, List, Ok, Err};
ghost use Rattle.rp_evidence.specs.declared.certificate.Certificate.{Certificate};
ghost use Rattle.rp_evidence.specs.declared.certificate.Kind.{Kind};
ghost use Rattle.rp_json.specs.CertificateValue.{certificate_text, certificate_value};
ghost use Rattle.rp_json.specs.Denoted.{IsDenoted, IsReadable, Spells};
ghost use Rattle.rp_json.specs.declared.fault.JsonFault.TheVariants as fault;

/// What is written of a certificate is read as that certificate: its text denotes nothing else, but for want of memory.
/// And the text spells the certificate's value.
pub fn what_is_written_is_read()
    ensures text { (kind : Kind) (c : Certificate) → IsReadable kind c
        → Spells (certificate_text c) (certificate_value c) }
    ensures back { (kind : Kind) (c : Certificate) → IsReadable kind c → (result : _)
        → IsDenoted kind (certificate_text c) result
        → (result ≡ Ok c) ⊎ (result ≡ Err fault.NoMemory) }
{}

/// Bytes that denote a certificate denote nothing else, but for want of memory.
pub fn bytes_denote_one_certificate()
    ensures { (kind : Kind) (bytes : List ℕ) (c : Certificate) (result : _)
        → IsDenoted kind bytes (Ok c) → IsDenoted kind bytes result
        → (result ≡ Ok c) ⊎ (result ≡ Err fault.NoMemory) }
{}
