ghost use Rattle.std.specs.Prelude.{◌≡◌, ◌≢◌, ◌≤◌, ◌+◌, ◌++◌, ◌⊎◌, [], ℕ, List, Option, Some, length};
ghost use Rattle.std.specs.List.{AllByRecursion};
ghost use Rattle.wif_base.specs.Disk.{MayLeave, Told};
ghost use Rattle.wif_base.specs.Output.{OutputIs};
ghost use Rattle.wif_base.specs.declared.request.Reply.{Reply};
ghost use Rattle.service_config.specs.declared.config.Config.{Config};
ghost use Rattle.links.specs.Licence.{Lawful};
ghost use Rattle.links.specs.declared.entry.Entry.{Entry};
ghost use Rattle.service_journal.specs.Journals.{IsKept, StandsForEntries, texts_of};
ghost use Rattle.sts_core.specs.State.{Standing};
ghost use Rattle.sts_serve.specs.Frames.{IsFrame, answer, frame_text, reply_frames, ScriptSpells};
ghost use Rattle.sts_serve.specs.Histories.{AreRuns, EachGoesOn, LeadsTo};
ghost use Rattle.sts_serve.specs.Left.{entries_behind};
ghost use Rattle.sts_serve.specs.Served.{ScriptRun};
ghost use Rattle.sts_serve.specs.declared.frame.Frame.{Frame};
ghost use Rattle.sts_serve.specs.declared.served.Served.{Served as End};

/// A law: no frame's text begins another's, so a script is cut into frames in one way.
pub fn one_script()
    ensures one_frame { (f g : Frame) (x y : List ℕ) → IsFrame f → IsFrame g → frame_text f ++ x ≡ frame_text g ++ y → (f ≡ g) × (x ≡ y) }
    ensures one_cut { (bytes : List ℕ) (fs gs : List Frame) (x y : List ℕ)
        → ScriptSpells bytes fs x → ScriptSpells bytes gs y → (fs ≡ gs) × (x ≡ y) }
{}

/// A law: the output of a run fixes how many of its requests were answered whole.
pub fn output_fixes_the_answered()
    ensures { (replies : List Reply) (written : List ℕ) (m n : ℕ) → m ≤ length replies → n ≤ length replies
        → OutputIs (reply_frames replies) m written → OutputIs (reply_frames replies) n written → m ≡ n }
{}

/// A law: whatever a crash leaves after a run, however it ended, stands for the journal behind the requests that were answered whole, or
/// behind one more. Where the reply to that one was begun, it is there.
pub fn a_crash_keeps_what_was_acknowledged()
    ensures answered { (config : Config) (before : List Entry) (old new : Standing) (left left' taken taken' : Option (List ℕ)) (end : End)
        (run : ScriptRun config before old new left left' taken taken' end) (told : Told) (image : List ℕ)
        → new.journal.told ≡ Some told → MayLeave told.now image
        → (count : ℕ) × ((count ≡ run.answered) ⊎ (count ≡ run.answered + 1))
        × StandsForEntries (entries_behind (answer config) before run.frames count) image }
    ensures begun { (config : Config) (before : List Entry) (old new : Standing) (left left' taken taken' : Option (List ℕ)) (end : End)
        (run : ScriptRun config before old new left left' taken taken' end) (told : Told) (image : List ℕ)
        → new.journal.told ≡ Some told → MayLeave told.now image → run.output.part ≢ []
        → StandsForEntries (entries_behind (answer config) before run.frames (run.answered + 1)) image }
{}

/// A law: what was acknowledged in one run stands in every later one. Each run begins with the texts that the one before recorded, so
/// each later journal goes on from each earlier one.
pub fn what_was_acknowledged_stands_in_each_later_run()
    ensures recorded { (config : Config) (before after : List Entry) (leads : LeadsTo config before after)
        → (count : ℕ) × ((count ≡ leads.run.answered) ⊎ (count ≡ leads.run.answered + 1))
        × (texts_of after ≡ texts_of (entries_behind (answer config) before leads.run.frames count)) }
    ensures goes_on { (config : Config) (first : List Entry) (later : List (List Entry)) → IsKept config first → AreRuns config first later
        → EachGoesOn first later }
{}

/// A law: from a lawful journal each request of a script leaves a lawful journal.
pub fn each_journal_of_a_run_is_lawful()
    ensures { (config : Config) (before : List Entry) (frames : List Frame) (count : ℕ) → Lawful config before → AllByRecursion IsFrame frames
        → Lawful config (entries_behind (answer config) before frames count) }
{}
