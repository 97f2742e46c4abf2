ghost use Rattle.std.specs.Prelude.{◌≡◌, ◌≢◌, ◌⊎◌, ◌<◌, ◌≤◌, ◌+◌, ◌++◌, [], ◌∷◌, List, ℕ, length, Option};
ghost use Rattle.wif_base.specs.Disk.{Held, Told, MayLeave, Leaves, LeavesNow, told_synced};
ghost use Rattle.grant_journal.specs.JournalBytes.{before_gate, journal_bytes, StandsFor, IsBeforeOrAfter, ReadsAs, Rests, Settled};
ghost use Rattle.grant_journal.specs.Places.{HasMarker, IsBehind, IsClosedAt, IsRecordAt, PassesEnd, IsTooLongAt, BreaksAt, PassesLimit};
ghost use Rattle.grant_journal.specs.Whole.{Whole};
ghost use Rattle.grant_journal.specs.declared.rule.JournalRule.{JournalRule as Rule};

/// A law: a file stands for at most one list of texts.
pub fn a_file_stands_for_one_list()
    ensures { (file : List ℕ) (texts others : List (List ℕ)) → StandsFor texts file → StandsFor others file → texts ≡ others }
{}

/// A law: the marker, then records place by place and a closed gate give the list that the file stands for.
pub fn places_give_what_a_file_stands_for()
    ensures begins { (file : List ℕ) → HasMarker file → IsBehind [] 8 file }
    ensures goes_on { (file text : List ℕ) (texts : List (List ℕ)) (at : ℕ) → IsBehind texts at file → IsRecordAt file at text
        → IsBehind (texts ++ text ∷ []) (at + (5 + length text)) file }
    ensures ends { (file : List ℕ) (texts : List (List ℕ)) (at : ℕ) → IsBehind texts at file → IsClosedAt file at → StandsFor texts file }
    ensures size { (file : List ℕ) (texts : List (List ℕ)) (at : ℕ) → IsBehind texts at file → length (journal_bytes texts) ≡ at + 1 }
{}

/// A law: a file has the marker, each text of the list that it stands for at its place, and a closed gate behind the last.
pub fn a_file_shows_what_it_stands_for()
    ensures begins { (file : List ℕ) (texts : List (List ℕ)) → StandsFor texts file → HasMarker file }
    ensures front { (file : List ℕ) (texts more : List (List ℕ)) → StandsFor (texts ++ more) file → IsBehind texts (length (before_gate texts)) file }
    ensures text { (file text : List ℕ) (texts more : List (List ℕ)) → StandsFor (texts ++ text ∷ more) file
        → IsRecordAt file (length (before_gate texts)) text }
    ensures ends { (file : List ℕ) (texts : List (List ℕ)) → StandsFor texts file → IsClosedAt file (length (before_gate texts)) }
{}

/// A law: whatever list a file stands for goes on behind whole records with what stands there. Where a record passes the end the
/// file stands for no list, where one is too long each list has a text that is, and where one passes the limit each list does.
pub fn each_list_goes_on_with_what_stands_there()
    ensures next { (file text : List ℕ) (texts all : List (List ℕ)) (at : ℕ) → IsBehind texts at file → IsRecordAt file at text → StandsFor all file
        → (more : List (List ℕ)) × (all ≡ texts ++ text ∷ more) }
    ensures passes_end { (file : List ℕ) (texts all : List (List ℕ)) (at : ℕ) → IsBehind texts at file → PassesEnd file at → StandsFor all file → ⊥ }
    ensures too_long { (file : List ℕ) (texts all : List (List ℕ)) (at : ℕ) → IsBehind texts at file → IsTooLongAt file at → StandsFor all file
        → (text : List ℕ) × (more : List (List ℕ)) × (all ≡ texts ++ text ∷ more) × (262144 < length text) }
    ensures past_limit { (file text : List ℕ) (texts all : List (List ℕ)) (at : ℕ) → IsBehind texts at file → IsRecordAt file at text
        → PassesLimit (at + (5 + length text)) → StandsFor all file → 67108864 < length (journal_bytes all) }
{}

/// A law: one thing stands at a place: a closed gate, a record of one text, or a record that breaks one rule.
pub fn one_thing_stands_at_a_place()
    ensures text { (file text other : List ℕ) (at : ℕ) → IsRecordAt file at text → IsRecordAt file at other → text ≡ other }
    ensures no_text { (file text : List ℕ) (at : ℕ) → IsClosedAt file at → IsRecordAt file at text → ⊥ }
    ensures not_bad { (file : List ℕ) (at : ℕ) (rule : Rule) → IsClosedAt file at → BreaksAt file at rule → ⊥ }
    ensures good { (file text : List ℕ) (at : ℕ) (rule : Rule) → IsRecordAt file at text → length text ≤ 262144 → BreaksAt file at rule → ⊥ }
    ensures rule { (file : List ℕ) (at : ℕ) (rule other : Rule) → BreaksAt file at rule → BreaksAt file at other → rule ≡ other }
{}

/// A law: one list stands in front of a place, and that of a farther place begins with it.
pub fn one_list_stands_in_front_of_a_place()
    ensures one { (file : List ℕ) (texts others : List (List ℕ)) (at : ℕ) → IsBehind texts at file → IsBehind others at file → texts ≡ others }
    ensures front { (file : List ℕ) (texts others : List (List ℕ)) (at place : ℕ) → IsBehind texts at file → IsBehind others place file → at ≤ place
        → (more : List (List ℕ)) × (others ≡ texts ++ more) }
    ensures text { (file text : List ℕ) (texts more : List (List ℕ)) (place : ℕ) → IsBehind (texts ++ text ∷ more) place file
        → IsRecordAt file (length (before_gate texts)) text }
{}

/// A law: whatever a crash leaves of a journal that is settled stands for its texts.
pub fn a_crash_leaves_what_was_acknowledged()
    ensures { (texts : List (List ℕ)) (len : ℕ) (told : Option Told) → Settled texts len told → LeavesNow told (StandsFor texts) }
{}

/// A law: what is read place by place from what a crash left of a settled journal is what was acknowledged, no text less and none more.
pub fn what_opens_is_what_was_acknowledged()
    ensures { (texts found : List (List ℕ)) (len at : ℕ) (held : Held) (image : List ℕ) → Rests texts len held → MayLeave held image
        → IsBehind found at image → IsClosedAt image at → (found ≡ texts) × (at + 1 ≡ len) }
{}

/// A law: what is read from what a crash left at any moment of an append is the list from before it, with the new text or without. So it
/// is with what a crash leaves after an append that failed.
pub fn a_crash_in_an_append_leaves_the_text_or_not()
    ensures after { (texts : List (List ℕ)) (text : List ℕ) (old new : Option Told) → Leaves old new (IsBeforeOrAfter texts text)
        → LeavesNow new (IsBeforeOrAfter texts text) }
    ensures found { (texts found : List (List ℕ)) (text image : List ℕ) (at : ℕ) → IsBeforeOrAfter texts text image
        → IsBehind found at image → IsClosedAt image at → (found ≡ texts) ⊎ (found ≡ texts ++ text ∷ []) }
{}

/// A law: a disk that reads as a journal is settled by a sync, so its journal can go on.
pub fn a_sync_settles_a_journal()
    ensures { (texts : List (List ℕ)) (told : Option Told) → ReadsAs texts told → Settled texts (length (journal_bytes texts)) (told_synced told) }
{}

/// A law: `Whole` says of a disk what `Rests` says.
pub fn a_whole_journal_rests()
    ensures rests { (texts : List (List ℕ)) (len : ℕ) (held : Held) → Whole texts len held → Rests texts len held }
    ensures whole { (texts : List (List ℕ)) (len : ℕ) (held : Held) → Rests texts len held → Whole texts len held }
{}
