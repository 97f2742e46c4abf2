ghost use Rattle.std.specs.Prelude.{◌≡◌, ◌≢◌, ◌≤◌, ◌+◌, ◌++◌, ◌⊎◌, [], ℕ, List, Option, Some, length};
ghost use Rattle.std.specs.List.{AllByRecursion};
ghost use Rattle.wif_base.specs.Disk.{MayLeave, Told};
ghost use Rattle.wif_base.specs.Output.{OutputIs};
ghost use Rattle.wif_base.specs.declared.request.Reply.{Reply};
ghost use Rattle.service_config.specs.declared.config.Config.{Config};
ghost use Rattle.links.specs.Licence.{Lawful};
ghost use Rattle.links.specs.declared.entry.Entry.{Entry};
ghost use Rattle.service_journal.specs.Journals.{StandsForEntries};
ghost use Rattle.sts_core.specs.State.{Standing};
ghost use Rattle.sts_serve.specs.Left.{entries_behind};
ghost use Rattle.sts_serve.specs.declared.served.Served.{Served as End};
ghost use Rattle.http_front.specs.declared.rule.HttpRule.{HttpRule};
ghost use Rattle.http_serve.specs.Asked.{Asked, answer, moments, response_texts, refusal_texts};
ghost use Rattle.http_serve.specs.Connection.{ConnectionRun};
ghost use Rattle.http_serve.specs.Listening.{Visit, Visits};

/// A law: the output of a connection fixes how many of its replies were written whole.
pub fn output_fixes_the_answered()
    ensures { (asked : List Asked) (replies : List Reply) (by_rule : Option HttpRule) (written : List ℕ) (m n : ℕ)
        → m ≤ length (response_texts asked replies ++ refusal_texts by_rule)
        → n ≤ length (response_texts asked replies ++ refusal_texts by_rule)
        → OutputIs (response_texts asked replies ++ refusal_texts by_rule) m written
        → OutputIs (response_texts asked replies ++ refusal_texts by_rule) n written → m ≡ n }
{}

/// A law: whatever a crash leaves after a connection, however it ended, stands for the journal behind the requests that
/// were answered whole, or behind one more. Where the reply to that one was begun, it is there.
pub fn a_crash_keeps_what_was_acknowledged()
    ensures answered { (config : Config) (before : List Entry) (old new : Standing)
        (left left' taken taken' clock clock' : Option (List ℕ)) (end : End)
        (run : ConnectionRun config before old new left left' taken taken' clock clock' end) (told : Told) (image : List ℕ)
        → new.journal.told ≡ Some told → MayLeave told.now image
        → (count : ℕ) × ((count ≡ run.answered) ⊎ (count ≡ run.answered + 1))
        × StandsForEntries (entries_behind (answer config) before run.asked count) image }
    ensures begun { (config : Config) (before : List Entry) (old new : Standing)
        (left left' taken taken' clock clock' : Option (List ℕ)) (end : End)
        (run : ConnectionRun config before old new left left' taken taken' clock clock' end) (told : Told) (image : List ℕ)
        → new.journal.told ≡ Some told → MayLeave told.now image → run.output.part ≢ []
        → StandsForEntries (entries_behind (answer config) before run.asked (run.answered + 1)) image }
{}

/// A law: from a lawful journal each request of a connection leaves a lawful journal, and so does each connection.
pub fn each_journal_is_lawful()
    ensures requests { (config : Config) (before : List Entry) (asked : List Asked) (count : ℕ) → Lawful config before
        → AllByRecursion (λ at. at ≤ 200_000_000_000) (moments asked)
        → Lawful config (entries_behind (answer config) before asked count) }
    ensures connections { (config : Config) (before after : List Entry) (old new : Standing) (clock clock' : Option (List ℕ))
        (visits : List Visit) → Lawful config before → Visits config before old clock visits after new clock'
        → AllByRecursion (λ visit. Lawful config visit.after) visits × Lawful config after }
{}
