//! Laws over all messages and all streams.

ghost use Rattle.std.specs.Prelude.{◌≡◌, ◌+◌, ◌%◌, ◌≤◌, ◌⊎◌, ◌++◌, ℕ, List, [], length, All, Option, None, Some};
ghost use Rattle.nl_attrs.specs.Endian.{AreBytes};
ghost use Rattle.nl_attrs.specs.Attributes.{IsAttr, IsFirstBreach, HasAttrs, HasBreach, aligned, attr_bytes, attrs_bytes};
ghost use Rattle.nl_attrs.specs.Faults.{IsFamilyWhole, IsFault, IsUndecided, length_at};
ghost use Rattle.nl_attrs.specs.Messages.{IsMsg, spelled, all_spelled};
ghost use Rattle.nl_attrs.specs.Streams.{AreMessages, HasMessage, IsFaulty, joined};
ghost use Rattle.nl_attrs.specs.declared.attr.Attr.{Attr};
ghost use Rattle.nl_attrs.specs.declared.fault.AttrFault.{AttrFault};
ghost use Rattle.nl_attrs.specs.declared.message.Msg.{Msg};

/// No spelling is a proper prefix of another, so each message and each attribute has a spelling of
/// its own. A payload is one list of attributes, or it has one first broken attribute, and never
/// both.
pub fn one_spelling()
    ensures message { (m n : Msg) (more : List ℕ) → IsMsg m → IsMsg n
        → spelled m ++ more ≡ spelled n → (more ≡ []) × (m ≡ n) }
    ensures attr { (a b : Attr) (more : List ℕ) → IsAttr a → IsAttr b
        → attr_bytes a ++ more ≡ attr_bytes b → (more ≡ []) × (a ≡ b) }
    ensures list { (xs ys : List Attr) → All IsAttr xs → All IsAttr ys
        → attrs_bytes xs ≡ attrs_bytes ys → xs ≡ ys }
    ensures place { (payload : List ℕ) (j k : ℕ)
        → IsFirstBreach payload j → IsFirstBreach payload k → j ≡ k }
    ensures never_both { (xs : List Attr) (k : ℕ) → All IsAttr xs
        → IsFirstBreach (attrs_bytes xs) k → ⊥ }
    ensures exists { (payload : List ℕ) → AreBytes payload → HasAttrs payload ⊎ HasBreach payload }
{}

/// At the front of a stream is one of three, and only one: a message, a fault, or what is undecided,
/// which takes no memory.
pub fn one_verdict()
    ensures whole { (m : Msg) (rest : List ℕ) → IsMsg m → IsUndecided (spelled m ++ rest) → ⊥ }
    ensures sound { (m : Msg) (rest : List ℕ) (f : AttrFault) → IsMsg m
        → IsFault (spelled m ++ rest) f → ⊥ }
    ensures decided { (held : List ℕ) (f : AttrFault) → IsUndecided held → IsFault held f → ⊥ }
    ensures waits { (held : List ℕ) → IsUndecided held → IsFamilyWhole held → ⊥ }
    ensures fault { (held : List ℕ) (f g : AttrFault) → IsFault held f → IsFault held g → f ≡ g }
    ensures exists { (held : List ℕ) → AreBytes held
        → IsUndecided held ⊎ (HasMessage held ⊎ IsFaulty held) }
{}

/// A stream of bytes has one list of messages and at most one fault, whatever the cut of its pieces. The
/// list is the longest one whose spellings the stream begins with, it only grows as the stream
/// goes on, and after a fault nothing changes.
pub fn one_stream()
    ensures messages { (ps qs : List (List ℕ)) (ms ns : List Msg) (e f : Option AttrFault)
        → joined ps ≡ joined qs → AreMessages (joined ps) ms e → AreMessages (joined qs) ns f
        → ms ≡ ns }
    ensures fault { (ps qs : List (List ℕ)) (ms ns : List Msg) (e f : Option AttrFault)
        → joined ps ≡ joined qs → AreMessages (joined ps) ms e → AreMessages (joined qs) ns f
        → e ≡ f }
    ensures longest { (stream left : List ℕ) (ms ns : List Msg) (f : Option AttrFault)
        → AreMessages stream ns f → All IsMsg ms → stream ≡ all_spelled ms ++ left
        → (more : List Msg) × (ns ≡ ms ++ more) }
    ensures goes_on { (stream more : List ℕ) (ms ns : List Msg) (e f : Option AttrFault)
        → AreMessages stream ms e → AreMessages (stream ++ more) ns f
        → (others : List Msg) × (ns ≡ ms ++ others) }
    ensures fault_ends { (stream more : List ℕ) (ms : List Msg) (f : AttrFault)
        → AreMessages stream ms (Some f) → AreMessages (stream ++ more) ms (Some f) }
    ensures exists { (pieces : List (List ℕ)) → All AreBytes pieces
        → (ms : List Msg) × (f : Option AttrFault) × AreMessages (joined pieces) ms f }
{}

/// What is spelled is read back: the messages of the joined spellings are those that were spelled.
pub fn reads_back()
    ensures { (ms : List Msg) → All IsMsg ms → AreMessages (all_spelled ms) ms None }
{}

/// A spelling is bytes. A message states its own length, a multiple of 4 from 20 to 65,536, and an
/// attribute fills the next multiple of 4.
pub fn spelling_lengths()
    ensures message { (m : Msg) → IsMsg m → AreBytes (spelled m) }
    ensures stated { (m : Msg) → IsMsg m → length_at (spelled m) ≡ length (spelled m) }
    ensures words { (m : Msg) → IsMsg m → length (spelled m) % 4 ≡ 0 }
    ensures least { (m : Msg) → IsMsg m → 20 ≤ length (spelled m) }
    ensures most { (m : Msg) → IsMsg m → length (spelled m) ≤ 65536 }
    ensures attr { (a : Attr) → IsAttr a → AreBytes (attr_bytes a) }
    ensures attr_words { (a : Attr) → length (attr_bytes a) ≡ aligned (4 + length a.payload) }
{}
