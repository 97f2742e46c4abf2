ghost use Rattle.std.specs.Prelude.{◌≡◌, ◌++◌, ◌+◌, [], ◌∷◌, List, ℕ, length, true};
ghost use Rattle.std.specs.List.{AllByRecursion};
ghost use Rattle.entry_texts.specs.Exact.{IsExactEntry};
ghost use Rattle.entry_texts.specs.Written.{entry_text};
ghost use Rattle.grant_journal.specs.declared.rule.JournalRule.{JournalRule as Rule};
ghost use Rattle.links.specs.Licence.{Licensed};
ghost use Rattle.links.specs.State.{content_of};
ghost use Rattle.links.specs.declared.entry.Entry.{Entry};
ghost use Rattle.service_config.specs.declared.config.Config.{Config};
ghost use Rattle.service_journal.specs.Journals.{texts_of, journal_size, fits_behind, IsKept, StandsForEntries};
ghost use Rattle.service_journal.specs.Opening.{IsRefusedAt};

/// A law: a file stands for at most one journal of entries that are those which their texts say.
pub fn a_file_stands_for_one_journal()
    ensures { (file : List ℕ) (entries others : List Entry) → AllByRecursion IsExactEntry entries → AllByRecursion IsExactEntry others
        → StandsForEntries entries file → StandsForEntries others file → entries ≡ others }
{}

/// A law: an entry more is a record more.
pub fn journals_grow_by_a_record()
    ensures texts { (entries : List Entry) (e : Entry) → texts_of (entries ++ e ∷ []) ≡ texts_of entries ++ entry_text e ∷ [] }
    ensures size { (entries : List Entry) (e : Entry) → journal_size (entries ++ e ∷ []) ≡ journal_size entries + (5 + length (entry_text e)) }
{}

/// A law: a disk may hold no entry, and a journal that it may hold with each entry more that is licensed and fits.
pub fn journals_go_on_with_what_fits()
    ensures begins { (config : Config) → IsKept config [] }
    ensures goes_on { (config : Config) (entries : List Entry) (e : Entry) → IsKept config entries → IsExactEntry e
        → Licensed (content_of config entries) e → fits_behind (journal_size entries) e ≡ true → IsKept config (entries ++ e ∷ []) }
{}

/// A law: a file that is refused stands for no journal that a disk may hold.
pub fn a_file_that_is_refused_stands_for_no_journal()
    ensures { (config : Config) (file : List ℕ) (at : ℕ) (rule : Rule) → IsRefusedAt config file at rule
        → (entries : List Entry) → IsKept config entries → StandsForEntries entries file → ⊥ }
{}

/// A law: a file is refused for one record, by one rule.
pub fn one_refusal_of_a_file()
    ensures { (config : Config) (file : List ℕ) (at place : ℕ) (rule other : Rule) → IsRefusedAt config file at rule
        → IsRefusedAt config file place other → (at ≡ place) × (rule ≡ other) }
{}
