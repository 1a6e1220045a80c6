//! Laws of a trail's bytes. The functions do nothing when they run: what they ensure is what is proved.

ghost use Rattle.std.specs.Prelude.{◌≡◌, ℕ, ◌+◌, ◌<◌, ◌++◌, List, length, take, Some, None, Ok, IsTrue, slice_index};
ghost use Rattle.ipc_terms.specs.declared.record.Record.{Record};
ghost use Rattle.ipc_log.specs.declared.head.Head.{Head};
ghost use Rattle.ipc_log.specs.Fields.{head_field, plain_record, record_fits, HasFrame};
ghost use Rattle.ipc_log.specs.Trail.{spell_head, head_front, spell_record, record_front, IsSpelledBy};

/// What a record spells is read again at its place, whatever follows it, as the record without the flags that mean
/// nothing to its call.
pub fn spelled_is_read()
    ensures { (place : ℕ) (r : Record) (text rest : List ℕ) → IsTrue (record_fits place r) →
        spell_record place r ≡ Some text → record_front place (text ++ rest) ≡ Ok (Some (plain_record r, length text)) }
{}

/// What is read in front was spelled so, by a record without flags that mean nothing.
pub fn read_was_spelled()
    ensures { (place n : ℕ) (w : List ℕ) (r : Record) → ((i : ℕ) → slice_index w i < 256) →
        record_front place w ≡ Ok (Some (r, n)) → IsSpelledBy place w r n }
{}

/// Two records with one spelling are of one place, and equal up to the flags that mean nothing.
pub fn one_record()
    ensures { (p q : ℕ) (r s : Record) (text : List ℕ) → IsTrue (record_fits p r) → IsTrue (record_fits q s) →
        spell_record p r ≡ Some text → spell_record q s ≡ Some text → (p ≡ q) × (plain_record r ≡ plain_record s) }
{}

/// Bytes that end anywhere within a record's spelling are awaited: a tail that was torn is no fault.
pub fn cut_is_awaited()
    ensures { (place other n : ℕ) (r : Record) (text : List ℕ) → spell_record place r ≡ Some text →
        n < length text → record_front other (take n text) ≡ Ok None }
{}

/// Each record has a spelling but those whose call no frame spells.
pub fn records_are_spelled()
    ensures { (place : ℕ) (r : Record) → HasFrame r.event → (text : List ℕ) × (spell_record place r ≡ Some text) }
{}

/// Each head has a spelling.
pub fn heads_are_spelled()
    ensures { (h : Head) → (text : List ℕ) × (spell_head h ≡ Some text) }
{}

/// What a head spells is read again, whatever follows it.
pub fn spelled_head_is_read()
    ensures { (h : Head) (text rest : List ℕ) → IsTrue (head_field.is_plain h) →
        spell_head h ≡ Some text → head_front (text ++ rest) ≡ Ok (Some (h, length text)) }
{}

/// Bytes that end anywhere within a head's spelling are awaited.
pub fn cut_head_is_awaited()
    ensures { (h : Head) (n : ℕ) (text : List ℕ) → spell_head h ≡ Some text →
        n < length text → head_front (take n text) ≡ Ok None }
{}
