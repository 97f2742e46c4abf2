ghost use Rattle.std.specs.Prelude.{◌≡◌, ◌≤◌, [], IfOk, option_map};
ghost use Rattle.service_config.specs.Formed.{IsFormedConfig};
ghost use Rattle.service_view.specs.View.{start_view as view_at_start};
ghost use Rattle.links.specs.State.{start_of, start_provider as provider_at_start};

use crate::prepared::Plan;
use crate::tokens::Issued;
use crate::{Entry, RecordedLink};
use base_types::{Items, Text, both};
use pools::{Provider, TokenIssuer};
use service_config::{Config, Key, StartProvider};
use service_view::{Command, Ready, ReadyFault, View, place};
use std::alloc::{AllocError, Global};
use std::marker::Model;

/// The state that a journal's entries leave. Contracts see what it stands for, and for how many entries more it has room.
#[derive(Drop)]
pub struct State {
    issuer: Text,
    key: Key,
    view: View,
    count: u32,
    links: Vec<RecordedLink>,
}

impl Model for State {
    ghost use Rattle.std.specs.Coded.{codes};
    ghost use Rattle.std.specs.Prelude.{◌≤◌, ◌-◌, min, map, vec_len, vec_capacity};
    ghost use Rattle.cel_values.specs.contracts.expr.Expr as tree;
    ghost use Rattle.links.specs.Licence.{Reached};
    ghost use Rattle.links.specs.Recorded.{AreHeld, link_of_recorded};
    ghost use Rattle.links.specs.State.{Kept};

    ghost Value = { Kept };

    ghost coded = { Prim.hlevel (codes, tree.the_row.coded) };

    ghost view = { λ s. record {
      content = record { issuer = s.issuer; key = s.key; view = s.view.content; count = s.count; links = map link_of_recorded s.links.items };
      spare = min s.view.spare (vec_capacity s.links - vec_len s.links);
    } };

    ghost invariant = { λ s. (vec_len s.links ≤ s.count) × AreHeld (map link_of_recorded s.links.items) s.links.items
        × Reached (record {
          issuer = s.issuer;
          key = s.key;
          view = s.view.content;
          count = s.count;
          links = map link_of_recorded s.links.items;
        }) };
}

/// The state of a configuration before the first entry: the provider and its pool are there, enabled, and the scope word for all
/// permissions.
pub fn start(alloc: Global, config: &Config) -> Result<State, AllocError>
    requires formed { IsFormedConfig config.now }
    ensures { IfOk result (λ state. state.content ≡ start_of config.now) }
{
    let view = start_view(alloc, &config.start)?;
    let (view, (issuer, key)) = both(Ok(view), tokens_of(alloc, config))?;
    Ok(State {
        issuer,
        key,
        view,
        count: 0,
        links: Vec::new(alloc),
    })
}

// What tokens are made with: their issuer and their key.
fn tokens_of(alloc: Global, config: &Config) -> Result<(Text, Key), AllocError>
    ensures { IfOk result (λ parts. parts ≡ (config.now.issuer, config.now.key)) }
{
    both(config.issuer.copy(alloc), config.key.copy(alloc))
}

fn start_view(alloc: Global, start: &Option<StartProvider>) -> Result<View, AllocError>
    ensures { IfOk result (λ view. view.content ≡ view_at_start (option_map provider_at_start start.now)) }
{
    let provider = match start {
        Some(start) => Some(start_provider(alloc, start)?),
        None => None,
    };
    View::start(alloc, provider)
}

fn start_provider(alloc: Global, start: &StartProvider) -> Result<Provider, AllocError>
    ensures { IfOk result (λ provider. provider ≡ provider_at_start start.now) }
{
    let (name, issuer) = both(start.name(alloc), token_issuer(alloc, start))?;
    Provider::of_subject(alloc, name, issuer)
}

fn token_issuer(alloc: Global, start: &StartProvider) -> Result<TokenIssuer, AllocError>
    ensures { IfOk result (λ issuer. issuer ≡ record { name = start.now.issuer; key = start.now.key; audiences = [] }) }
{
    let name = start.issuer.copy(alloc)?;
    let (name, key) = both(Ok(name), start.key.copy(alloc))?;
    Ok(TokenIssuer {
        name,
        key,
        audiences: Items::new(alloc),
    })
}

impl State {
    ghost use Rattle.std.specs.Prelude.{◌≡◌, ◌≤◌, ◌<◌, ◌-◌, ◌^◌, length, not, nat_lt, OnOk, IfOk, Some, option_map};
    ghost use Rattle.service_view.specs.Puts.{RefusesBy, ready_fault, made_ready, command_of};
    ghost use Rattle.links.specs.Licence.{Licensed, Reached, planned_of};
    ghost use Rattle.links.specs.declared.entry.Entry.TheVariants as entries;
    ghost use Rattle.links.specs.Entries.{IsEntry};
    ghost use Rattle.links.specs.Prepared.{planned};
    ghost use Rattle.links.specs.Recorded.{recorded as recorded_of};
    ghost use Rattle.links.specs.State.{after, chain, made};

    /// The `iss` of the tokens.
    pub fn issuer(&self) -> &str
        ensures { result.now ≡ self.now.content.issuer }
    {
        self.issuer.as_str()
    }

    /// The key that signs the tokens.
    pub fn key(&self) -> &[u8]
        ensures key { result.now ≡ self.now.content.key }
        ensures enough { 32 ≤ length self.now.content.key }
    {
        self.key.as_slice()
    }

    /// What stands now under the names that commands put.
    pub fn view(&self) -> &View
        ensures { result.now.content ≡ self.now.content.view }
    {
        &self.view
    }

    /// How many entries are recorded.
    pub fn entry_count(&self) -> u32
        ensures count { result ≡ self.now.content.count }
    {
        self.count
    }

    /// How many links are recorded. They have the numbers from 0 on.
    pub fn link_count(&self) -> u32
        ensures count { result ≡ length self.now.content.links }
        ensures few { result ≤ self.now.content.count }
    {
        let _count = self.count;
        self.links.len() as u32
    }

    /// A law: some lawful journal leaves this state, and its links are numbered below 2^32.
    pub fn has_a_lawful_journal(&self)
        ensures reached { Reached self.now.content }
        ensures few { length self.now.content.links ≤ 2 ^ 32 }
    {
        let _count = self.count;
        let _links = self.link_count();
    }

    /// Whether no entry more can be recorded: links are numbered below 2^32.
    pub fn is_full(&self) -> bool
        ensures { result ≡ not (nat_lt self.now.content.count (2 ^ 32 - 1)) }
    {
        self.count >= 4_294_967_295
    }

    // What is held of the link of that number.
    pub(crate) fn recorded(&self, number: u32) -> &RecordedLink
        requires { number < length self.now.content.links }
        ensures { option_map recorded_of (chain self.now.content number) ≡ Some result.now }
    {
        let links = self.links.as_slice();
        &links[number as usize]
    }

    // Takes room for an entry more.
    pub(crate) fn make_room(&mut self) -> Result<(), AllocError>
        ensures content { self.new.content ≡ self.old.content }
        ensures room { OnOk result (1 ≤ self.new.spare) }
    {
        self.view.make_room()?;
        self.links.reserve(1)
    }

    // Looks whether a command may be placed, and makes it ready.
    pub(crate) fn ready(&mut self, alloc: Global, command: Command) -> Result<Ready, ReadyFault>
        ensures command { IfOk result (λ ready. ready ≡ made_ready command) }
        ensures refused { RefusesBy (ready_fault self.old.content.view command) result }
        ensures content { self.new.content ≡ self.old.content }
    {
        service_view::ready(alloc, &mut self.view, command)
    }

    // Records what was planned.
    pub(crate) fn carry_out(&mut self, plan: Plan)
        requires room { 1 ≤ self.old.spare }
        requires count { self.old.content.count < 2 ^ 32 - 1 }
        requires form { IsEntry (planned plan).entry }
        requires licensed { Licensed self.old.content (planned plan).entry }
        requires planned { planned plan ≡ planned_of self.old.content (planned plan).entry }
        ensures { self.new.content ≡ after self.old.content (planned plan).entry }
    {
        match plan {
            Plan::Put(ready) => self.put(ready),
            Plan::Link { entry, issued } => self.record(entry, issued),
        }
    }

    // Places a command.
    fn put(&mut self, ready: Ready)
        requires room { 1 ≤ self.old.spare }
        requires count { self.old.content.count < 2 ^ 32 - 1 }
        requires form { IsEntry (entries.Put (command_of ready)) }
        requires licensed { Licensed self.old.content (entries.Put (command_of ready)) }
        ensures { self.new.content ≡ after self.old.content (entries.Put (command_of ready)) }
    {
        place(&mut self.view, ready);
        self.count += 1;
    }

    // Puts the link of an entry behind the others.
    fn record(&mut self, entry: Entry, issued: Issued)
        requires room { 1 ≤ self.old.spare }
        requires count { self.old.content.count < 2 ^ 32 - 1 }
        requires form { IsEntry entry }
        requires licensed { Licensed self.old.content entry }
        requires recorded { Some issued.recorded ≡ option_map recorded_of (made self.old.content entry) }
        ensures { self.new.content ≡ after self.old.content entry }
    {
        drop(entry);
        self.links.push(issued.recorded).unwrap();
        self.count += 1;
    }
}
