//! Laws of the format. Each is what a function without parameters and without work ensures, so
//! that a caller gets the fact by a call.

ghost use Rattle.std.specs.Prelude.{◌≡◌, ◌^◌, ◌<◌, ◌≤◌, ℕ, List, [], ◌∷◌, ◌++◌, length, slice_index, Result, Ok};
ghost use Rattle.acfg_wire.specs.declared.fault.WireFault.{WireFault};
ghost use Rattle.acfg_wire.specs.Varint.{IsSpelling, IsVarint, shortest};
ghost use Rattle.acfg_wire.specs.Fields.{varint, delimited, WireField, IsField, IsFields, IsFieldNumber, BeginAt};
ghost use Rattle.acfg_wire.specs.Fields.{varint_field, bytes_field};
ghost use Rattle.acfg_wire.specs.Outcome.{IsOutcome, behind};
ghost use Rattle.acfg_wire.specs.Laid.{LaidField, laid, fields_laid, places_laid, outcome_laid};

/// Bytes are one list of fields, or have one first fault, and nothing else.
pub fn one_outcome()
    ensures some { (bytes : List ℕ) → ((i : ℕ) → slice_index bytes i < 256)
        → (outcome : Result (List WireField) WireFault) × IsOutcome bytes outcome }
    ensures one { (bytes : List ℕ) (a b : Result (List WireField) WireFault)
        → IsOutcome bytes a → IsOutcome bytes b → a ≡ b }
{}

/// The function `laid` gives the outcome of the bytes, and where fields begin.
pub fn laid_out()
    ensures outcome { (bytes : List ℕ) (outcome : Result (List WireField) WireFault)
        → IsOutcome bytes outcome → outcome_laid (laid bytes) ≡ outcome }
    ensures places { (bytes : List ℕ) (fields : List LaidField)
        → IsFields bytes (fields_laid fields) → laid bytes ≡ Ok fields
        → BeginAt bytes (fields_laid fields) (places_laid fields) }
{}

/// Fields stay what they are, whatever stands behind them: the fields behind follow them, and a
/// fault behind them comes that much later.
pub fn fields_join()
    ensures { (front rest : List ℕ) (fields : List WireField) (outcome : Result (List WireField) WireFault)
        → IsFields front fields → IsOutcome rest outcome
        → IsOutcome (front ++ rest) (behind fields (length front) outcome) }
{}

/// What `put_varint` and `put_bytes` append is the one field that was put. It is read again,
/// whatever stands before it and behind it, by `fields_join`.
pub fn put_is_read()
    ensures varint { (number n : ℕ) → IsFieldNumber number → n < 2 ^ 64
        → IsField (varint_field number n) (record { number = number; value = varint n }) }
    ensures bytes { (number : ℕ) (content : List ℕ) → IsFieldNumber number → length content < 2 ^ 64
        → IsField (bytes_field number content) (record { number = number; value = delimited content }) }
    ensures again { (text rest : List ℕ) (f : WireField) (outcome : Result (List WireField) WireFault)
        → IsField text f → IsOutcome rest outcome
        → IsOutcome (text ++ rest) (behind (f ∷ []) (length text) outcome) }
{}

/// The shortest spelling of a number is one of its spellings, and every other one is longer.
pub fn shortest_is_least()
    ensures spells { (n : ℕ) → n < 2 ^ 64 → IsVarint (shortest n) n }
    ensures least { (n : ℕ) (bytes : List ℕ) → n < 2 ^ 64 → IsSpelling bytes n
        → length (shortest n) ≤ length bytes }
    ensures only { (n : ℕ) (bytes : List ℕ) → n < 2 ^ 64 → IsSpelling bytes n
        → length bytes ≡ length (shortest n) → bytes ≡ shortest n }
{}
