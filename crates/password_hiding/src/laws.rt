//! Laws of hiding.

ghost use Rattle.std.specs.Prelude.{◌≡◌, ◌≢◌, ℕ, ◌-◌, ◌≤◌, List, [], ◌∷◌, ◌++◌, length, replicate, IsTrue};
ghost use Rattle.password_hiding.specs.Hiding.{Hides, is_hidden_length, padded_length, trimmed, HiddenPasswordsComeBack};

/// A password has one hidden form at most.
pub fn one_hidden_form()
    ensures { (secret authenticator plain hidden other : List ℕ) → Hides secret authenticator plain
        hidden → Hides secret authenticator plain other → hidden ≡ other }
{}

/// Hidden octets hide one password at most.
pub fn one_plain_form()
    ensures { (secret authenticator hidden plain other : List ℕ) → Hides secret authenticator plain
        hidden → Hides secret authenticator other hidden → plain ≡ other }
{}

/// What is unhidden is the password that was hidden, without the zeros at its end.
pub fn hidden_passwords_come_back()
    ensures { HiddenPasswordsComeBack }
{}

/// A password is padded to the least length of hidden octets that has room for it.
pub fn least_length()
    ensures hidden { (n : ℕ) → n ≤ 128 → IsTrue (is_hidden_length (padded_length n)) }
    ensures room { (n : ℕ) → n ≤ padded_length n }
    ensures least { (n m : ℕ) → IsTrue (is_hidden_length m) → n ≤ m → padded_length n ≤ m }
{}

/// What is left out at the end is zeros, and all of them.
pub fn zeros_at_the_end()
    ensures zeros { (octets : List ℕ)
        → octets ≡ trimmed octets ++ replicate (length octets - length (trimmed octets)) 0 }
    ensures all { (octets front : List ℕ) (last : ℕ) → trimmed octets ≡ front ++ last ∷ []
        → last ≢ 0 }
{}
