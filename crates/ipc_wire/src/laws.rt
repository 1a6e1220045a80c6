//! Laws of the frames. The functions do nothing when they run: what they ensure is what is proved.

ghost use Rattle.std.specs.Prelude.{◌≡◌, ℕ, ◌<◌, ◌≤◌, ◌++◌, List, [], Bool, true, Some, Ok, Err, IsTrue, slice_index};
ghost use Rattle.ipc_terms.specs.Sizes.{IsSmall};
ghost use Rattle.ipc_terms.specs.declared.call.Answer.{Answer};
ghost use Rattle.ipc_fields.specs.declared.fault.WireFault.{WireFault};
ghost use Rattle.ipc_wire.specs.declared.request.Request.{Request};
ghost use Rattle.ipc_wire.specs.Requests.{plain, fits, is_hello_request};
ghost use Rattle.ipc_wire.specs.Answers.{answer_fits};
ghost use Rattle.ipc_wire.specs.Streams.{spell, front, cut, after, still_first, IsSpelledBy, IsAnswerSpelledBy, IsSpelling, spell_answer, answer_front, is_in_order};

/// Cutting a stream's first piece, and then its rest and the second piece, gives together what
/// cutting both at once gives.
pub fn cuts_alike()
    ensures { (first : Bool) (w v : List ℕ) → let c = cut first w in
        cut first (w ++ v) ≡ after c.requests (cut (still_first first c.requests) (c.rest ++ v)) }
{}

/// No spelling of a request or an answer begins another.
pub fn none_begins_another()
    ensures { (text more : List ℕ) → IsSpelling text → IsSpelling (text ++ more) → more ≡ [] }
{}

/// A stream gives one hello, and then calls alone.
pub fn one_hello()
    ensures { (first : Bool) (w : List ℕ) → IsTrue (is_in_order first (cut first w).requests) }
{}

/// What is read in front was spelled so, by a request without flags that mean nothing.
pub fn read_was_spelled()
    ensures { (first : Bool) (w rest : List ℕ) (q : Request) → ((i : ℕ) → slice_index w i < 256) →
        front first w ≡ Ok (Some (q, rest)) → IsSpelledBy first w q rest }
{}

/// What a request spells is read again, whatever follows it, as the request without the flags that mean
/// nothing to it.
pub fn spelled_is_read()
    ensures { (q : Request) (text rest : List ℕ) → IsTrue (fits q) →
        spell q ≡ Some text → front (is_hello_request q) (text ++ rest) ≡ Ok (Some (plain q, rest)) }
{}

/// Two requests with one spelling are equal up to the flags that mean nothing.
pub fn one_request()
    ensures { (p q : Request) (text : List ℕ) → IsTrue (fits p) → IsTrue (fits q) →
        spell p ≡ Some text → spell q ≡ Some text → plain p ≡ plain q }
{}

/// What is read in front of answers was spelled so.
pub fn answer_was_spelled()
    ensures { (w rest : List ℕ) (a : Answer) → ((i : ℕ) → slice_index w i < 256) →
        answer_front w ≡ Ok (Some (a, rest)) → IsAnswerSpelledBy w a rest }
{}

/// What an answer spells is read again, whatever follows it.
pub fn spelled_answer_is_read()
    ensures { (a : Answer) (text rest : List ℕ) → IsTrue (answer_fits a) →
        spell_answer a ≡ Some text → answer_front (text ++ rest) ≡ Ok (Some (a, rest)) }
{}

/// Two answers with one spelling are equal.
pub fn one_answer()
    ensures { (a b : Answer) (text : List ℕ) → IsTrue (answer_fits a) → IsTrue (answer_fits b) →
        spell_answer a ≡ Some text → spell_answer b ≡ Some text → a ≡ b }
{}

/// Behind a fault no more requests come, however the stream goes on.
pub fn fault_stays()
    ensures { (first : Bool) (w v : List ℕ) (fault : WireFault) → let c = cut first w in c.fault ≡ Some fault →
        cut first (w ++ v) ≡ record { requests = c.requests; rest = c.rest ++ v; fault = c.fault } }
{}

/// Where a fault stands no request was spelled, however the stream goes on.
pub fn none_spelled_at_a_fault()
    ensures { (w more text rest : List ℕ) (fault : WireFault) (q : Request) → front (is_hello_request q) w ≡ Err fault →
        IsTrue (fits q) → spell q ≡ Some text → w ++ more ≡ text ++ rest → ⊥ }
{}

/// Every answer whose parts are small has a spelling, so it is never too long: its message has at most 16 MiB,
/// or its page at most 1,000 entries with names of at most 256 bytes.
pub fn small_answers_are_spelled()
    ensures { (most : ℕ) (a : Answer) → most ≤ 16777216 → IsSmall most a →
        (text : List ℕ) × (spell_answer a ≡ Some text) }
{}
