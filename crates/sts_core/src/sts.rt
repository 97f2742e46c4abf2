ghost use Rattle.std.specs.Prelude.{◌≡◌, ◌≤◌, ◌+◌, ◌*◌, ℕ, List, true, false, length, IfOk, IfErr, IfSome, OnOk, Err, Option, ◌⊎◌};
ghost use Rattle.links.specs.declared.entry.Entry.{Entry};
ghost use Rattle.links.specs.State.{content_of};
ghost use Rattle.grant_journal.specs.declared.rule.JournalRule.{JournalRule as Rule};
ghost use Rattle.service_config.specs.declared.config.Config.{Config as Configuration};
ghost use Rattle.service_config.specs.Formed.{IsFormedConfig};
ghost use Rattle.service_journal.specs.Opening.{IsRefusedAt};
ghost use Rattle.service_journal.specs.declared.opening.OpenFault.TheVariants as faults;
ghost use Rattle.grant_journal.specs.JournalBytes.{ReadsAs};
ghost use Rattle.service_journal.specs.Journals.{journal_size, texts_of};
ghost use Rattle.sts_core.specs.Machine.{checking, command_answer, exchange_answer, generate_answer, introspection_reply, step, with_entry};
ghost use Rattle.sts_core.specs.Opened.{FindsService};
ghost use Rattle.sts_core.specs.State.{Causes, Stands, StandsForEither, Stays};
ghost use Rattle.sts_core.specs.declared.stop.Stop.TheVariants as stops;
ghost use Rattle.wif_base.specs.Disk.{Leaves, Told};

use crate::administration::administer;
use crate::checking::check;
use crate::exchange::exchange;
use crate::generate::generate;
use crate::introspection::introspect;
use crate::recording::carry_out;
use crate::{Opening, Stop, open_on, set_up};
use base_types::Text;
use grant_journal::Journal;
use links::State;
use service_config::Config;
use service_journal::OpenFault;
use std::alloc::{AllocError, Global};
use std::marker::Model;
use wif_base::{Disk, Reply, Request, Route};

/// The service over a disk. What it stands for is a configuration and a journal, which it keeps on the disk alone.
#[derive(Drop)]
pub struct Sts<D: Disk> {
    // The bearer of admin commands.
    admin: Text,
    // The bearer of checks and introspections.
    gate: Text,
    state: State,
    journal: Journal<D>,
}

impl<D: Disk> Model for Sts<D> {
    ghost use Rattle.std.specs.Coded.{codes};
    ghost use Rattle.std.specs.Prelude.{◌≡◌, ◌≤◌, ◌+◌, ◌*◌, false};
    ghost use Rattle.cel_values.specs.contracts.expr.Expr as tree;
    ghost use Rattle.sts_core.specs.State.{Standing};

    ghost Value = { Standing };

    ghost coded = { Prim.hlevel (codes, tree.the_row.coded) };

    ghost view = { λ s. record { content = s.state.content; admin = s.admin; gate = s.gate; journal = s.journal } };

    // Each entry has five bytes of the journal and more.
    ghost invariant = { λ s. s.journal.broken ≡ false → 9 + 5 * s.state.content.count ≤ s.journal.len };
}

impl<D: Disk> Sts<D> {
    /// Opens the service of a configuration over the journal on a disk. Each entry of it is read, and licensed again. Where the disk is
    /// wanted back, whatever comes, call `open_on` and `resume`.
    pub fn open(alloc: Global, disk: D, config: &Config) -> Result<Self, OpenFault>
        requires formed { IsFormedConfig config.now }
        ensures stands { IfOk result (λ sts. (journal : List Entry) × Stands sts config.now journal × ReadsAs (texts_of journal) (D.told disk)) }
        ensures refused { (at : ℕ) (rule : Rule) → result ≡ Err (faults.Refused at rule)
            → IfSome (D.told disk) (λ told. IsRefusedAt config.now told.now.bytes at rule) }
    {
        let mut disk = disk;
        let setup = match set_up(alloc, config) {
            Ok(setup) => setup,
            Err(AllocError) => {
                drop(disk);
                return Err(OpenFault::Memory);
            }
        };
        match open_on(alloc, &mut disk, setup) {
            Ok(opening) => Ok(Sts::resume(disk, opening)),
            Err(fault) => {
                drop(disk);
                Err(fault)
            }
        }
    }

    /// The service that was opened, over its disk. It takes no memory.
    pub fn resume(disk: D, opening: Opening) -> Self
        requires inside { IfSome (D.told disk) (λ told. opening.journal.end.len ≤ length told.now.bytes) }
        requires few { 9 + 5 * opening.journal.state.content.count ≤ opening.journal.end.len }
        ensures parts { (result.content ≡ opening.journal.state.content) × (result.admin ≡ opening.admin) × (result.gate ≡ opening.gate) }
        ensures journal { (result.journal.len ≡ opening.journal.end.len) × (result.journal.broken ≡ false) }
        ensures told { result.journal.told ≡ D.told disk }
        ensures faults { result.journal.faults ≡ D.faults disk }
        ensures lender { result.journal.lender ≡ D.lender disk }
        ensures stands { (config : Configuration) (held : Option Told) → FindsService config held (D.told disk) opening
            → (journal : List Entry) × Stands result config journal × ReadsAs (texts_of journal) held }
    {
        Sts {
            admin: opening.admin,
            gate: opening.gate,
            state: opening.journal.state,
            journal: Journal::resume(disk, opening.journal.end),
        }
    }

    /// Gives the disk back.
    pub fn close(self) -> D
        ensures told { D.told result ≡ self.journal.told }
        ensures faults { D.faults result ≡ self.journal.faults }
        ensures lender { D.lender result ≡ self.journal.lender }
    {
        let Sts {
            admin: _admin,
            gate: _gate,
            state: _state,
            journal,
        } = self;
        journal.close()
    }

    /// What the journal's entries leave.
    pub fn state(&self) -> &State
        ensures { result.now.content ≡ self.now.content }
    {
        &self.state
    }

    /// Answers a request of any route, at a moment in seconds since 1970-01-01T00:00:00Z.
    pub fn answer(&mut self, alloc: Global, request: &Request, now: u64) -> Result<Reply, Stop>
        requires moment { now ≤ 200_000_000_000 }
        ensures reply { (config : Configuration) (journal : List Entry) → Stands self.old config journal
            → IfOk result (λ reply. reply ≡ (step config journal request.now now).reply) }
        ensures stands { (config : Configuration) (journal : List Entry) → Stands self.old config journal
            → OnOk result (Stands self.new config (with_entry journal (step config journal request.now now).entry)) }

        // A crash at any moment of the call leaves the journal from before it, with the entry or without.
        ensures any_moment { (config : Configuration) (journal : List Entry) → Stands self.old config journal
            → Leaves self.old.journal.told self.new.journal.told
            (StandsForEither journal (with_entry journal (step config journal request.now now).entry)) }

        // Why there is no reply, and what is left then.
        ensures stays { IfErr result (λ stop. Stays stop self.old self.new) }
        ensures cause { IfErr result (λ stop. Causes stop self.old.journal self.new.journal) }
        ensures broken { self.old.journal.broken ≡ true → result ≡ Err stops.Broken }
        ensures whole { OnOk result (self.new.journal.broken ≡ self.old.journal.broken) }
        ensures count { self.old.journal.faults ≤ self.new.journal.faults }
        ensures same { self.new.journal.lender ≡ self.old.journal.lender }
    {
        match &request.route {
            Route::Token => self.exchange(alloc, request, now),
            Route::Introspect => self.introspect(alloc, request, now),
            Route::Check => self.check(alloc, request, now),
            Route::Admin => self.admin(alloc, request, now),
            Route::Generate { account } => self.generate(alloc, account, request, now),
        }
    }

    /// Answers an exchange of a subject token for an access token (RFC 8693).
    pub fn exchange(&mut self, alloc: Global, request: &Request, now: u64) -> Result<Reply, Stop>
        requires moment { now ≤ 200_000_000_000 }
        ensures reply { (config : Configuration) (journal : List Entry) → Stands self.old config journal
            → IfOk result (λ reply. reply ≡ (exchange_answer config journal request.now now).reply) }
        ensures stands { (config : Configuration) (journal : List Entry) → Stands self.old config journal
            → OnOk result (Stands self.new config (with_entry journal (exchange_answer config journal request.now now).entry)) }

        // A crash at any moment of the call leaves the journal from before it, with the entry or without.
        ensures any_moment { (config : Configuration) (journal : List Entry) → Stands self.old config journal
            → Leaves self.old.journal.told self.new.journal.told
            (StandsForEither journal (with_entry journal (exchange_answer config journal request.now now).entry)) }

        // Why there is no reply, and what is left then.
        ensures stays { IfErr result (λ stop. Stays stop self.old self.new) }
        ensures cause { IfErr result (λ stop. Causes stop self.old.journal self.new.journal) }
        ensures broken { self.old.journal.broken ≡ true → result ≡ Err stops.Broken }
        ensures whole { OnOk result (self.new.journal.broken ≡ self.old.journal.broken) }
        ensures count { self.old.journal.faults ≤ self.new.journal.faults }
        ensures same { self.new.journal.lender ≡ self.old.journal.lender }
    {
        if self.journal.is_broken() {
            return Err(Stop::Broken);
        }
        let _ = self.journal.bytes();
        let proposal = exchange(alloc, &mut self.state, request, now)?;
        carry_out(alloc, &mut self.state, &mut self.journal, proposal, "E26")
    }

    /// Answers a request for a token of a service account, by one who may impersonate it.
    pub fn generate(
        &mut self,
        alloc: Global,
        account: &Text,
        request: &Request,
        now: u64,
    ) -> Result<Reply, Stop>
        requires moment { now ≤ 200_000_000_000 }
        ensures reply { (config : Configuration) (journal : List Entry) → Stands self.old config journal
            → IfOk result (λ reply. reply ≡ (generate_answer config journal account.now request.now now).reply) }
        ensures stands { (config : Configuration) (journal : List Entry) → Stands self.old config journal
            → OnOk result (Stands self.new config (with_entry journal (generate_answer config journal account.now request.now now).entry)) }

        // A crash at any moment of the call leaves the journal from before it, with the entry or without.
        ensures any_moment { (config : Configuration) (journal : List Entry) → Stands self.old config journal
            → Leaves self.old.journal.told self.new.journal.told
            (StandsForEither journal (with_entry journal (generate_answer config journal account.now request.now now).entry)) }

        // Why there is no reply, and what is left then.
        ensures stays { IfErr result (λ stop. Stays stop self.old self.new) }
        ensures cause { IfErr result (λ stop. Causes stop self.old.journal self.new.journal) }
        ensures broken { self.old.journal.broken ≡ true → result ≡ Err stops.Broken }
        ensures whole { OnOk result (self.new.journal.broken ≡ self.old.journal.broken) }
        ensures count { self.old.journal.faults ≤ self.new.journal.faults }
        ensures same { self.new.journal.lender ≡ self.old.journal.lender }
    {
        if self.journal.is_broken() {
            return Err(Stop::Broken);
        }
        let _ = self.journal.bytes();
        let proposal = generate(alloc, &mut self.state, account, request, now)?;
        carry_out(alloc, &mut self.state, &mut self.journal, proposal, "I12")
    }

    /// Answers a command of an administrator, whatever the moment: what it puts stands in place of what stood under its name.
    pub fn admin(&mut self, alloc: Global, request: &Request, _now: u64) -> Result<Reply, Stop>
        ensures reply { (config : Configuration) (journal : List Entry) → Stands self.old config journal
            → IfOk result (λ reply. reply ≡ (command_answer config journal request.now).reply) }
        ensures stands { (config : Configuration) (journal : List Entry) → Stands self.old config journal
            → OnOk result (Stands self.new config (with_entry journal (command_answer config journal request.now).entry)) }

        // A crash at any moment of the call leaves the journal from before it, with the entry or without.
        ensures any_moment { (config : Configuration) (journal : List Entry) → Stands self.old config journal
            → Leaves self.old.journal.told self.new.journal.told
            (StandsForEither journal (with_entry journal (command_answer config journal request.now).entry)) }

        // Why there is no reply, and what is left then.
        ensures stays { IfErr result (λ stop. Stays stop self.old self.new) }
        ensures cause { IfErr result (λ stop. Causes stop self.old.journal self.new.journal) }
        ensures broken { self.old.journal.broken ≡ true → result ≡ Err stops.Broken }
        ensures whole { OnOk result (self.new.journal.broken ≡ self.old.journal.broken) }
        ensures count { self.old.journal.faults ≤ self.new.journal.faults }
        ensures same { self.new.journal.lender ≡ self.old.journal.lender }
    {
        if self.journal.is_broken() {
            return Err(Stop::Broken);
        }
        let _ = self.journal.bytes();
        let proposal = administer(alloc, &self.admin, &mut self.state, request)?;
        carry_out(alloc, &mut self.state, &mut self.journal, proposal, "A7")
    }

    /// Answers whether a token is admitted to a permission on a resource: exactly where the link that it was issued for is
    /// live and allows it and its principal is granted it, and for any other text by what it carries under the key.
    pub fn check(&self, alloc: Global, request: &Request, now: u64) -> Result<Reply, Stop>
        ensures reply { (config : Configuration) (journal : List Entry) → Stands self.now config journal
            → IfOk result (λ reply. reply ≡ checking config.gate (content_of config journal) request.now now) }
        ensures memory { IfErr result (λ stop. (stop ≡ stops.Memory) ⊎ (stop ≡ stops.Broken)) }
        ensures cause { IfErr result (λ stop. Causes stop self.now.journal self.now.journal) }
        ensures broken { self.now.journal.broken ≡ true → result ≡ Err stops.Broken }
    {
        if self.journal.is_broken() {
            return Err(Stop::Broken);
        }
        Ok(check(alloc, &self.gate, &self.state, request, now)?)
    }

    /// Answers an introspection (RFC 7662).
    pub fn introspect(&self, alloc: Global, request: &Request, now: u64) -> Result<Reply, Stop>
        ensures reply { (config : Configuration) (journal : List Entry) → Stands self.now config journal
            → IfOk result (λ reply. reply ≡ introspection_reply config.gate (content_of config journal) request.now now) }
        ensures memory { IfErr result (λ stop. (stop ≡ stops.Memory) ⊎ (stop ≡ stops.Broken)) }
        ensures cause { IfErr result (λ stop. Causes stop self.now.journal self.now.journal) }
        ensures broken { self.now.journal.broken ≡ true → result ≡ Err stops.Broken }
    {
        if self.journal.is_broken() {
            return Err(Stop::Broken);
        }
        Ok(introspect(alloc, &self.gate, &self.state, request, now)?)
    }
}
