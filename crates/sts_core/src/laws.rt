ghost use Rattle.std.specs.Prelude.{◌≡◌, ◌≢◌, ◌≤◌, ◌^◌, ◌++◌, ◌↔◌, true, ℕ, List, Option, None, Some, length, Ok};
ghost use Rattle.std.specs.List.{list_all};
ghost use Rattle.allow_policy.specs.Granting.{granted};
ghost use Rattle.grant_gate.specs.Carried.{carried_of};
ghost use Rattle.grant_gate.specs.Decision.{carried_decision};
ghost use Rattle.grant_gate.specs.declared.decision.Decision.TheVariants.{Admit};
ghost use Rattle.hmac_jws.specs.Verified.{MacGood};
ghost use Rattle.service_config.specs.declared.config.Config.{Config};
ghost use Rattle.service_config.specs.Formed.{IsFormedConfig};
ghost use Rattle.link_laws.specs.Ancestors.{limits_in, links_in};
ghost use Rattle.links.specs.Authority.{admits, allows_itself, lives_itself};
ghost use Rattle.boundary.specs.declared.rules.Boundary.{Boundary as Limits};
ghost use Rattle.links.specs.Chain.{Chain, Narrowed, Delegated, Own};
ghost use Rattle.links.specs.Facts.{exp_of, facts_of, who_of};
ghost use Rattle.links.specs.Issued.{issued_link};
ghost use Rattle.links.specs.Licence.{Lawful};
ghost use Rattle.links.specs.State.{chain, content_of, token_text};
ghost use Rattle.links.specs.declared.entry.Entry.{Entry};
ghost use Rattle.sts_core.specs.Check.{check_decision, link_decision};
ghost use Rattle.sts_core.specs.Machine.{step, with_entry};
ghost use Rattle.wif_base.specs.declared.request.Request.{Request};

/// A law: at each later time the token of a recorded link is decided, by what it carries, as the link itself is: admitted
/// exactly where the link is live and allows the permission and its principal is granted it, and else denied by the
/// link's first denial.
pub fn gate_agrees_with_the_chain()
    ensures { (config : Config) (journal more : List Entry) (number : ℕ) (found : Chain) (permission resource : List ℕ) (now : ℕ)
        → IsFormedConfig config → Lawful config journal → length journal ≤ 2 ^ 32 → chain (content_of config journal) number ≡ Some found
        → let later = content_of config (journal ++ more) in
        carried_decision later.view later.key later.issuer (token_text (content_of config journal) found) permission resource now
        ≡ link_decision later.view found permission resource now }
{}

/// A law: the token of a recorded link carries the facts of that link, whatever kinds of link its chain has.
pub fn a_token_carries_the_facts_of_its_link()
    ensures { (config : Config) (journal : List Entry) (number : ℕ) (found : Chain)
        → IsFormedConfig config → Lawful config journal → length journal ≤ 2 ^ 32 → chain (content_of config journal) number ≡ Some found
        → let c = content_of config journal in
        carried_of c.key c.issuer (token_text c found) ≡ Ok (facts_of found) }
{}

/// A law: a check of an issued token is admitted exactly where its link admits: where each link of its chain is live, each link that
/// limits it allows the permission, and its principal is granted it; a check of any other text is denied
/// unless its signature verifies under the key.
pub fn checks_are_decided_by_their_links()
    ensures issued { (config : Config) (journal : List Entry) (number : ℕ) (found : Chain) (permission resource : List ℕ) (now : ℕ)
        → IsFormedConfig config → Lawful config journal → length journal ≤ 2 ^ 32 → chain (content_of config journal) number ≡ Some found
        → let c = content_of config journal in
        (check_decision c (token_text c found) permission resource now ≡ Admit) ↔ (admits c.view found permission resource now ≡ true) }
    ensures links { (config : Config) (journal : List Entry) (number : ℕ) (found : Chain) (permission resource : List ℕ) (now : ℕ)
        → IsFormedConfig config → Lawful config journal → length journal ≤ 2 ^ 32 → chain (content_of config journal) number ≡ Some found
        → let c = content_of config journal in
        (check_decision c (token_text c found) permission resource now ≡ Admit)
        ↔ ((list_all (λ link. lives_itself c.view link now) (links_in found) ≡ true)
        × (list_all (λ link. allows_itself c.view link permission resource now) (limits_in found) ≡ true)
        × (granted c.view.lists (who_of found) permission resource now ≡ true)) }
    ensures other { (config : Config) (journal : List Entry) (text permission resource : List ℕ) (now : ℕ)
        → let c = content_of config journal in
        issued_link c text ≡ None → check_decision c text permission resource now ≡ Admit → MacGood c.key text }
{}

/// A law: what a check admits of a narrowed token, it admits at that moment of the token that was narrowed, and a narrowed token ends
/// no later.
pub fn a_narrowed_token_is_admitted_to_no_more()
    ensures admitted { (config : Config) (journal : List Entry) (number : ℕ) (o : Own) (boundary : Option Limits) (parent : Chain)
        (permission resource : List ℕ) (now : ℕ)
        → IsFormedConfig config → Lawful config journal → length journal ≤ 2 ^ 32
        → let c = content_of config journal in
        chain c number ≡ Some (Narrowed o boundary parent)
        → check_decision c (token_text c (Narrowed o boundary parent)) permission resource now ≡ Admit
        → check_decision c (token_text c parent) permission resource now ≡ Admit }
    ensures ends { (o : Own) (boundary : Option Limits) (parent : Chain) → exp_of (Narrowed o boundary parent) ≤ exp_of parent }
{}

/// A law: what a check admits of a token by which an actor acts for a subject, it admits at that moment of the subject's token, and
/// the token ends no later than the subject's and the actor's.
pub fn a_delegated_token_is_admitted_to_no_more_than_its_subject()
    ensures admitted { (config : Config) (journal : List Entry) (number : ℕ) (o : Own) (subject actor : Chain)
        (permission resource : List ℕ) (now : ℕ)
        → IsFormedConfig config → Lawful config journal → length journal ≤ 2 ^ 32
        → let c = content_of config journal in
        chain c number ≡ Some (Delegated o subject actor)
        → check_decision c (token_text c (Delegated o subject actor)) permission resource now ≡ Admit
        → check_decision c (token_text c subject) permission resource now ≡ Admit }
    ensures ends { (o : Own) (subject actor : Chain)
        → (exp_of (Delegated o subject actor) ≤ exp_of subject) × (exp_of (Delegated o subject actor) ≤ exp_of actor) }
{}

/// A law: from a lawful journal each step of the machine leaves a lawful journal.
pub fn each_step_keeps_the_journal_lawful()
    ensures { (config : Config) (journal : List Entry) (request : Request) (now : ℕ) → now ≤ 200_000_000_000
        → Lawful config journal → Lawful config (with_entry journal (step config journal request now).entry) }
{}
