//! Laws of the log format, each as the contract of a function that does nothing.

ghost use Rattle.std.specs.Prelude.{◌≡◌, ◌<◌, ℕ, List, [], ◌++◌, All};
ghost use Rattle.odr_log.specs.Grammar.{log_bytes, IsInGrammar};
ghost use Rattle.odr_log.specs.Faults.{IsSomeLog, FirstBad};
ghost use Rattle.odr_log.specs.declared.log.Log.{Log};

/// Each log has one spelling, and the bytes of a log are no proper prefix of another log's bytes.
pub fn one_spelling()
    ensures { (a b : Log) (rest : List ℕ) → IsInGrammar a → IsInGrammar b
        → log_bytes b ≡ log_bytes a ++ rest → (a ≡ b) × (rest ≡ []) }
{}

/// Bytes that are no log stop to be one at one place.
pub fn one_first_bad()
    ensures one { (bytes : List ℕ) (p q : ℕ) → FirstBad bytes p → FirstBad bytes q → p ≡ q }
    ensures no_log { (bytes : List ℕ) (p : ℕ) → FirstBad bytes p → ¬ IsSomeLog bytes }
    ensures some { (bytes : List ℕ) → All (λ byte. byte < 256) bytes
        → ¬ IsSomeLog bytes → (p : ℕ) × FirstBad bytes p }
{}
