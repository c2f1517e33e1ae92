ghost use Rattle.std.specs.Prelude.{◌≡◌, ◌⊎◌, ℕ, List, IsTrue};
ghost use Rattle.cert_text.specs.Grammar.{IsTextOf};
ghost use Rattle.cert_text.specs.FirstBad.{IsFirstBad};
ghost use Rattle.cert_text.specs.Order.{stands_before};
ghost use Rattle.cert_text.specs.declared.cert.Cert.{Cert};
ghost use Rattle.cert_text.specs.declared.cert.CertLit.{CertLit};

/// Bytes are the text of one certificate at most.
pub fn one_cert_of_a_text()
    ensures { (c d : Cert) (bytes : List ℕ) → IsTextOf c bytes → IsTextOf d bytes → c ≡ d }
{}

/// Bytes that are the text of a certificate have no first bad line, and no bytes have two.
pub fn one_first_bad_line()
    ensures none { (cert : Cert) (bytes : List ℕ) (line : ℕ) → IsTextOf cert bytes → IsFirstBad bytes line → ⊥ }
    ensures one { (bytes : List ℕ) (m n : ℕ) → IsFirstBad bytes m → IsFirstBad bytes n → m ≡ n }
{}

/// Of two different literals one stands before the other, none stands before itself, and what stands before
/// one stands before all behind it: so literals make one line at most.
pub fn literals_have_one_order()
    ensures either { (l m : CertLit) → (l ≡ m) ⊎ IsTrue (stands_before l m) ⊎ IsTrue (stands_before m l) }
    ensures not_itself { (l : CertLit) → IsTrue (stands_before l l) → ⊥ }
    ensures onward { (k l m : CertLit) → IsTrue (stands_before k l) → IsTrue (stands_before l m) →
        IsTrue (stands_before k m) }
{}
