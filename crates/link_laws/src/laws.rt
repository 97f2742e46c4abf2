ghost use Rattle.std.specs.Prelude.{◌≡◌, ◌<◌, ◌≤◌, ◌^◌, ◌∷◌, ◌++◌, ◌&&◌, ℕ, List, Option, Some, true, false, length, nat_le, nat_lt};
ghost use Rattle.std.specs.List.{list_all};
ghost use Rattle.access_token.specs.Facts.{name_of};
ghost use Rattle.allow_policy.specs.Granting.{scope_allows};
ghost use Rattle.boundary.specs.Allowing.{boundary_allows};
ghost use Rattle.boundary.specs.declared.rules.Boundary.{Boundary as Limits};
ghost use Rattle.iam_names.specs.declared.pool_name.PoolName.{PoolName};
ghost use Rattle.service_config.specs.declared.config.Config.{Config};
ghost use Rattle.service_config.specs.Formed.{IsFormedConfig};
ghost use Rattle.service_view.specs.View.{View, account_enabled, pool_enabled};
ghost use Rattle.links.specs.declared.entry.Entry.{Entry};
ghost use Rattle.links.specs.declared.entry.Entry.TheVariants.{Federated, Narrow, Impersonate, Delegate};
ghost use Rattle.links.specs.declared.entry.Delegation.{Delegation};
ghost use Rattle.links.specs.declared.entry.Exchange.{Exchange};
ghost use Rattle.links.specs.declared.entry.Impersonation.{Impersonation};
ghost use Rattle.links.specs.declared.entry.Narrowing.{Narrowing};
ghost use Rattle.link_laws.specs.Ancestors.{limits_in, links_in, made_from};
ghost use Rattle.links.specs.Authority.{admits, allows, allows_itself, live, lives_itself};
ghost use Rattle.links.specs.Chain.{Chain, Narrowed, Impersonated, Delegated, Own};
ghost use Rattle.links.specs.Facts.{accounts_of, bounds_of, exp_of, may_act_of, pools_of, scopes_of, who_of};
ghost use Rattle.links.specs.Hops.{AreReached};
ghost use Rattle.links.specs.Issued.{issued_link};
ghost use Rattle.links.specs.Licence.{Lawful, Licensed};
ghost use Rattle.link_laws.specs.Shown.{WasShown};
ghost use Rattle.links.specs.State.{Content, chain, content_of, made, token_text};

/// A law: behind a lawful journal each link has its chain, and its token was issued for it and for no other link.
pub fn each_token_has_its_link()
    ensures chain { (config : Config) (journal : List Entry) (number : ℕ)
        → IsFormedConfig config → Lawful config journal → number < length (content_of config journal).links
        → (found : Chain) × (chain (content_of config journal) number ≡ Some found) }
    ensures issued { (config : Config) (journal : List Entry) (number : ℕ) (found : Chain)
        → IsFormedConfig config → Lawful config journal → length journal ≤ 2 ^ 32 → chain (content_of config journal) number ≡ Some found
        → issued_link (content_of config journal) (token_text (content_of config journal) found) ≡ Some number }
{}

/// A law: entries that follow change neither the chain of a link nor the text of its token.
pub fn entries_that_follow_change_no_link()
    ensures chain { (config : Config) (journal more : List Entry) (number : ℕ) (found : Chain)
        → chain (content_of config journal) number ≡ Some found → chain (content_of config (journal ++ more)) number ≡ Some found }
    ensures token { (config : Config) (journal more : List Entry) (found : Chain)
        → token_text (content_of config (journal ++ more)) found ≡ token_text (content_of config journal) found }
{}

/// A law: an exchange is licensed only where its subject token verifies under the key of the provider that it names, and the
/// provider admits its claims: they are of its issuer, for an audience that it accepts, live at the moment, and its condition is
/// true of them. The link is the identity's that it maps them to.
pub fn issued_for_a_verified_subject_token_alone()
    ensures { (c : Content) (exchange : Exchange) → Licensed c (Federated exchange) → WasShown c exchange }
{}

/// A law: the link that a narrowing, an impersonation or a delegation records stands behind those that it names, whose chains go on in
/// its own.
pub fn links_go_on_from_those_that_they_name()
    ensures narrowing { (c : Content) (narrowing : Narrowing) (found : Chain) → made c (Narrow narrowing) ≡ Some found
        → (o : Own) × (parent : Chain) × (chain c narrowing.parent ≡ Some parent) × (found ≡ Narrowed o narrowing.boundary parent) }
    ensures impersonation { (c : Content) (x : Impersonation) (found : Chain) → made c (Impersonate x) ≡ Some found
        → (o : Own) × (parent : Chain) × (chain c x.parent ≡ Some parent) × (found ≡ Impersonated o x.accounts x.lifetime parent) }
    ensures delegation { (c : Content) (x : Delegation) (found : Chain) → made c (Delegate x) ≡ Some found
        → (o : Own) × (subject : Chain) × (actor : Chain) × (chain c x.subject ≡ Some subject) × (chain c x.actor ≡ Some actor)
        × (found ≡ Delegated o subject actor) }
{}

/// A law: a link is live exactly where each link of its chain is by itself, those of actors too, and it allows a permission exactly
/// where each link does that limits it.
pub fn each_link_of_a_chain_counts()
    ensures live { (view : View) (found : Chain) (now : ℕ)
        → live view found now ≡ list_all (λ link. lives_itself view link now) (links_in found) }
    ensures allows { (view : View) (found : Chain) (permission resource : List ℕ) (now : ℕ)
        → allows view found permission resource now ≡ list_all (λ link. allows_itself view link permission resource now) (limits_in found) }
{}

/// A law: no link does more than those that it was made from. It is live only where each of them is, an actor's too, and it expires no
/// later. What a narrowed link admits its parent admits, and what a delegated link admits its subject admits. An impersonated link, whose
/// principal is another, is live and allows only where its parent is and does.
pub fn no_link_does_more_than_it_was_made_from()
    ensures live { (view : View) (found : Chain) (now : ℕ)
        → live view found now ≡ true → list_all (λ link. live view link now) (made_from found) ≡ true }
    ensures expiry { (found : Chain) → list_all (λ link. nat_le (exp_of found) (exp_of link)) (made_from found) ≡ true }
    ensures narrowed { (view : View) (o : Own) (boundary : Option Limits) (parent : Chain) (permission resource : List ℕ) (now : ℕ)
        → admits view (Narrowed o boundary parent) permission resource now ≡ true → admits view parent permission resource now ≡ true }
    ensures delegated { (view : View) (o : Own) (subject actor : Chain) (permission resource : List ℕ) (now : ℕ)
        → admits view (Delegated o subject actor) permission resource now ≡ true → admits view subject permission resource now ≡ true }
    ensures impersonated { (view : View) (o : Own) (accounts : List (List ℕ)) (lifetime : ℕ) (parent : Chain) (permission resource : List ℕ) (now : ℕ)
        → admits view (Impersonated o accounts lifetime parent) permission resource now ≡ true
        → (live view parent now ≡ true) × (allows view parent permission resource now ≡ true) }
{}

/// A law: what limits an actor doesn't count. Whoever acts for a subject, the delegated link allows the same.
pub fn what_limits_an_actor_does_not_count()
    ensures { (view : View) (o : Own) (subject actor other : Chain) (permission resource : List ℕ) (now : ℕ)
        → allows view (Delegated o subject actor) permission resource now ≡ allows view (Delegated o subject other) permission resource now }
{}

/// A law: an impersonation is licensed only where each of its service accounts is enabled and each of its hops is allowed at its moment:
/// the parent admits the first, and each later one is granted to the account before it and allowed by the parent.
pub fn impersonated_where_each_hop_is_granted()
    ensures enabled { (c : Content) (x : Impersonation) → Licensed c (Impersonate x) → list_all (account_enabled c.view) x.accounts ≡ true }
    ensures hops { (c : Content) (x : Impersonation) → Licensed c (Impersonate x)
        → (parent : Chain) × (chain c x.parent ≡ Some parent) × AreReached c.view parent x.accounts x.at }
{}

/// A law: a delegation is licensed only where its subject names its actor as the next who may act, and both are live (RFC 8693, section
/// 4.4).
pub fn delegated_where_the_subject_names_the_actor()
    ensures { (c : Content) (x : Delegation) → Licensed c (Delegate x)
        → (subject : Chain) × (actor : Chain) × (later : List (List ℕ))
        × (chain c x.subject ≡ Some subject) × (chain c x.actor ≡ Some actor)
        × (may_act_of subject ≡ name_of (who_of actor) ∷ later)
        × (live c.view subject x.at ≡ true) × (live c.view actor x.at ≡ true) }
{}

/// A law: where a pool or a service account is disabled or unknown, no link is live whose chain has it.
pub fn a_disabled_pool_or_account_ends_its_links()
    ensures pool { (view : View) (found : Chain) (before behind : List PoolName) (pool : PoolName) (now : ℕ)
        → pools_of found ≡ before ++ pool ∷ behind → pool_enabled view pool ≡ false → live view found now ≡ false }
    ensures account { (view : View) (found : Chain) (before behind : List (List ℕ)) (account : List ℕ) (now : ℕ)
        → accounts_of found ≡ before ++ account ∷ behind → account_enabled view account ≡ false → live view found now ≡ false }
{}

/// A law: a link is live where it has not expired and each pool and account that it carries is enabled, and it allows a permission where
/// each list of words and each boundary that it carries does.
pub fn links_are_decided_by_what_they_carry()
    ensures live { (view : View) (found : Chain) (now : ℕ)
        → live view found now ≡ (nat_lt now (exp_of found) && (list_all (pool_enabled view) (pools_of found) && list_all (account_enabled view) (accounts_of found))) }
    ensures allows { (view : View) (found : Chain) (permission resource : List ℕ) (now : ℕ)
        → allows view found permission resource now
        ≡ (list_all (λ words. scope_allows view.lists words permission) (scopes_of found)
        && list_all (λ boundary. boundary_allows view.lists.roles boundary permission resource now) (bounds_of found)) }
{}
