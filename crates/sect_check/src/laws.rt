//! What the validity of a certificate implies. The function has an empty body; the clause says the law.

ghost use Rattle.sect_names.specs.Schemes.{SchemeView, IsScheme};
ghost use Rattle.sect_cert.specs.declared.certificate.Cert.{Cert};
ghost use Rattle.sect_check.specs.Valid.{IsValid, AreEntriesLeast};

/// The entry list of each section of a valid certificate is the least lock set that protects the section, in canonical
/// order.
pub fn valid_entry_lists_are_least()
    ensures { (s : SchemeView) → IsScheme s → (a : Cert) → IsValid s a → AreEntriesLeast s a }
{}
