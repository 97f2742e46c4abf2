// A gate, a length and a text for each record, and a closed gate at the end.
ghost use Rattle.std.specs.Prelude.{◌≡◌, ◌+◌, ◌≤◌, ◌++◌, [], ◌∷◌, List, ℕ, length, false, OnOk, IfSome};
ghost use Rattle.wif_base.specs.Causes.{HasCause};
ghost use Rattle.wif_base.specs.Disk.{Leaves};
ghost use Rattle.grant_journal.specs.JournalBytes.{framed, Settled, IsBeforeOrAfter};
ghost use Rattle.grant_journal.specs.Answers.{Answers, Breaks, Refuses};

use crate::{Opened, Record};
use std::marker::Model;
use wif_base::{Disk, Failed};

const LIMIT: u64 = 67_108_864;

/// Why a record wasn't added, or may not have been.
#[derive(Clone, Copy, Debug, PartialEq, Eq)]
pub enum AppendFault {
    /// The disk failed. The file has the record or not.
    Fault,
    /// With the record the journal would have so many bytes, more than a journal may have.
    Full { length: u64 },
    /// An earlier record ended in `Fault`. The file has to be opened again.
    Broken,
}

/// A journal on a disk, ready to go on. Contracts see what the disk tells, and how far the journal goes.
#[derive(Drop)]
pub struct Journal<D: Disk> {
    disk: D,
    // The bytes of the marker, the records and the closed gate.
    len: u64,
    // Whether the disk failed while a record was added.
    broken: bool,
}

impl<D: Disk> Model for Journal<D> {
    ghost use Rattle.std.specs.Prelude.{◌≡◌, ◌≤◌, length, false, IfSome};
    ghost use Rattle.grant_journal.specs.Journals.{JournalView};

    ghost Value = { JournalView };

    ghost view = { λ j. record {
      told = D.told j.disk;
      faults = D.faults j.disk;
      lender = D.lender j.disk;
      len = j.len;
      broken = j.broken;
    } };

    ghost invariant = { λ j. (9 ≤ j.len) × (j.len ≤ 67108864)
        × (j.broken ≡ false → IfSome (D.told j.disk) (λ told. j.len ≤ length told.now.bytes)) };
}

// The four calls on the disk.
fn write_record<D: Disk>(disk: &mut D, len: u64, bytes: &[u8]) -> Result<(), Failed>
    requires start { 1 ≤ len }
    requires inside { IfSome (D.told disk.old) (λ told. len ≤ length told.now.bytes) }
    ensures stored { (texts : List (List ℕ)) (text : List ℕ) → bytes.now ≡ framed text → Settled texts len (D.told disk.old)
        → OnOk result (Settled (texts ++ text ∷ []) (len + length bytes.now) (D.told disk.new)) }
    ensures any_moment { (texts : List (List ℕ)) (text : List ℕ) → bytes.now ≡ framed text → Settled texts len (D.told disk.old)
        → Leaves (D.told disk.old) (D.told disk.new) (IsBeforeOrAfter texts text) }
    ensures inside { OnOk result (IfSome (D.told disk.new) (λ told. len + length bytes.now ≤ length told.now.bytes)) }
    ensures cause { HasCause (D.faults disk.old) (D.faults disk.new) result }
    ensures same { D.lender disk.new ≡ D.lender disk.old }
{
    disk.write_at(len, bytes)?;
    disk.sync()?;
    disk.write_at(len - 1, &[1])?;
    disk.sync()
}

impl<D: Disk> Journal<D> {
    /// The journal on a disk that was opened.
    pub fn resume(disk: D, opened: Opened) -> Self
        requires { IfSome (D.told disk) (λ told. opened.len ≤ length told.now.bytes) }
        ensures told { result.told ≡ D.told disk }
        ensures faults { result.faults ≡ D.faults disk }
        ensures lender { result.lender ≡ D.lender disk }
        ensures len { result.len ≡ opened.len }
        ensures broken { result.broken ≡ false }
    {
        Journal {
            disk,
            len: opened.len,
            broken: false,
        }
    }

    /// Adds a record. At `Ok` each crash from then on leaves a file that has it. After `Fault`, open the file again.
    pub fn append(&mut self, rec: &Record) -> Result<(), AppendFault>
        ensures stored { (texts : List (List ℕ)) → Settled texts self.old.len self.old.told
            → OnOk result (Settled (texts ++ rec.now ∷ []) self.new.len self.new.told) }

        // A crash at any moment of the call leaves the records from before it, with the new one or without.
        ensures any_moment { (texts : List (List ℕ)) → Settled texts self.old.len self.old.told
            → Leaves self.old.told self.new.told (IsBeforeOrAfter texts rec.now) }

        // Which answer comes, and why.
        ensures answer { Answers self.old.broken self.old.len (length rec.now) self.old.faults self.new.faults result }
        ensures count { self.old.faults ≤ self.new.faults }
        ensures length { OnOk result (self.new.len ≡ self.old.len + (5 + length rec.now)) }
        ensures refused { Refuses result → self.new ≡ self.old }
        ensures broken { Breaks result self.old.broken self.new.broken }
        ensures same { self.new.lender ≡ self.old.lender }
    {
        if self.broken {
            return Err(AppendFault::Broken);
        }
        let length = self.len + rec.bytes.len() as u64;
        if length > LIMIT {
            return Err(AppendFault::Full { length });
        }
        let Ok(()) = write_record(&mut self.disk, self.len, rec.bytes.as_slice()) else {
            self.broken = true;
            return Err(AppendFault::Fault);
        };
        self.len = length;
        Ok(())
    }

    /// The bytes of the marker, the records and the gate.
    pub fn bytes(&self) -> u64
        ensures bytes { result ≡ self.now.len }
        ensures within { (9 ≤ self.now.len) × (self.now.len ≤ 67108864) }
    {
        self.len
    }

    /// Whether an earlier record ended in `Fault`.
    pub fn is_broken(&self) -> bool
        ensures { result ≡ self.now.broken }
    {
        self.broken
    }

    /// Gives the disk back.
    pub fn close(self) -> D
        ensures told { D.told result ≡ self.told }
        ensures faults { D.faults result ≡ self.faults }
        ensures lender { D.lender result ≡ self.lender }
    {
        self.disk
    }
}
