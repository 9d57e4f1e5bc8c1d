//! Laws of requests. Each is the contract of a function that does nothing: a caller has it by calling that function.
ghost use Rattle.std.specs.Prelude.{◌≡◌, ◌≢◌, ℕ, List, [], ◌++◌};
ghost use Rattle.curp_resp.specs.Input.{BreaksOff, Decomposes, NoneStandsFirst};
ghost use Rattle.curp_resp.specs.Language.{IsRequest};

/// No request's bytes are a proper beginning of another's: where two stand at the prefix of the same bytes, they are one
/// request.
pub fn requests_are_prefix_free()
    ensures { (one other : List ℕ) (its others : List (List ℕ)) (rest left : List ℕ)
        → IsRequest one its → IsRequest other others → one ++ rest ≡ other ++ left
        → (one ≡ other) × (its ≡ others) × (rest ≡ left) }
{}

/// An input is requests and a rest in exactly one way.
pub fn inputs_decompose()
    ensures some { (input : List ℕ)
        → (requests : List (List (List ℕ))) × (rest : List ℕ) × Decomposes requests input rest }
    ensures one { (input : List ℕ) (requests others : List (List (List ℕ))) (rest left : List ℕ)
        → Decomposes requests input rest → Decomposes others input left
        → (requests ≡ others) × (rest ≡ left) }
{}

/// Bytes that begin with no request, and aren't empty, break off at exactly one place.
pub fn rests_break_off()
    ensures some { (rest : List ℕ) → rest ≢ [] → NoneStandsFirst rest → (place : ℕ) × BreaksOff rest place }
    ensures one { (rest : List ℕ) (place other : ℕ) → BreaksOff rest place → BreaksOff rest other → place ≡ other }
{}
