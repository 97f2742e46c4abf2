use crate::{
    AppendFault, InitFault, Journal, Opened, Standing, init, passes_limit, read_file, record_of,
};
use std::alloc::{AllocError, Global};
use std::test::Fail;
use wif_base::{Disk, Failed, MemDisk};

// A disk in memory that tells nothing, so that a test need not say what it holds.
#[derive(Drop)]
struct Quiet {
    inner: MemDisk,
    faults: u64,
}

impl Quiet {
    ghost use Rattle.std.specs.Prelude.{◌≡◌};
    ghost use Rattle.wif_base.specs.Causes.{HasCause};

    fn counted<T>(&mut self, went: Result<T, Failed>) -> Result<T, Failed>
        ensures same { result ≡ went }
        ensures cause { HasCause self.old.faults self.new.faults result }
    {
        if went.is_err() {
            self.faults = self.faults.saturating_add(1);
        }
        went
    }
}

impl Disk for Quiet {
    ghost use Rattle.std.specs.Prelude.{None};

    ghost told = { λ _. None };

    ghost faults = { λ d. d.faults };

    ghost lender = { λ _. 0 };

    fn len(&mut self) -> Result<u64, Failed> {
        let went = self.inner.len();
        self.counted(went)
    }

    fn read_at(&mut self, at: u64, into: &mut [u8]) -> Result<usize, Failed> {
        let went = self.inner.read_at(at, into);
        self.counted(went)
    }

    fn write_at(&mut self, at: u64, bytes: &[u8]) -> Result<(), Failed> {
        let went = match self.inner.len() {
            Ok(length) if at <= length => self.inner.write_at(at, bytes),
            _ => Err(Failed),
        };
        self.counted(went)
    }

    fn sync(&mut self) -> Result<(), Failed> {
        let went = self.inner.sync();
        self.counted(went)
    }
}

fn quiet_disk(alloc: Global, bytes: &[u8], fail: &[u64]) -> Result<Quiet, AllocError> {
    let inner = MemDisk::new(alloc, bytes, 128, 8, fail.to_vec(alloc)?)?;
    Ok(Quiet { inner, faults: 0 })
}

// The texts of a file, each with a blank behind it, or where it is refused.
fn shown(alloc: Global, image: &[u8]) -> Result<String, AllocError> {
    let mut disk = quiet_disk(alloc, image, &[])?;
    let Ok(file) = read_file(alloc, &mut disk) else {
        return "no file".to_owned(alloc);
    };
    if !file.has_marker() {
        return "J1 at 0".to_owned(alloc);
    }
    let mut texts = String::new(alloc);
    let mut at = 8;
    for _ in 0..4 {
        if passes_limit(at) {
            return "J5".to_owned(alloc);
        }
        match file.standing(at) {
            Standing::Closed => return Ok(texts),
            Standing::Text { text, next } => {
                texts.push_str(std::str::from_utf8(text).unwrap_or("?"))?;
                texts.push_str(" ")?;
                at = next;
            }
            Standing::Bad(rule) => return format!(in alloc; "{rule:?} at {at}"),
        }
    }
    Ok(texts)
}

const ONE_TEXT: &[u8] = b"WIFJ0001\x01\x00\x00\x00\x01a\x00";

// The calls of an append on a quiet disk are 0 to 5: the length, the write and the sync of the record, then of the gate.
#[test]
fn crash_at_each_disk_call_of_an_append(rt: HostRuntime) -> Result<(), Fail> {
    let rec = record_of(rt.alloc(), b"b").expect(&rt, "it is short");
    for (fail, wanted) in [
        (1, ["a ", "a ", "a "]),
        (2, ["a ", "a ", "a "]),
        (4, ["a ", "a ", "a "]),
        (5, ["a ", "a b ", "a "]),
        (6, ["a b ", "a b ", "a b "]),
    ] {
        let disk = quiet_disk(rt.alloc(), ONE_TEXT, &[fail])?;
        let mut journal = Journal::resume(disk, Opened { len: 15 });
        let went = journal.append(&rec);
        assert_eq!(rt; went.is_ok(), fail == 6, "call {fail}");
        let disk = journal.close();
        for (pick, texts) in [0x00, 0x01, 0xFF].iter().zip(wanted) {
            let image = disk.inner.image(rt.alloc(), &[*pick], u64::MAX)?;
            assert_eq!(rt;
                shown(rt.alloc(), &image)?.as_str(),
                texts,
                "call {fail}, pick {pick}"
            );
        }
    }
    Ok(())
}

#[test]
fn journals_begin_empty_and_end_full(rt: HostRuntime) -> Result<(), Fail> {
    let mut disk = quiet_disk(rt.alloc(), b"", &[])?;
    assert_eq!(rt; init(&mut disk), Ok(()));
    let image = disk.inner.image(rt.alloc(), b"\xFF", 0)?;
    assert_eq!(rt; image.as_slice(), b"WIFJ0001\x00".as_slice());
    assert_eq!(rt; init(&mut disk), Err(InitFault::NotEmpty { length: 9 }));

    let text = br#"{"disabled":false,"kind":"pool","pool":"ci-pool","project":"1234"}"#;
    let rec = record_of(rt.alloc(), text).expect(&rt, "it is short");
    let mut journal = Journal::resume(disk, Opened { len: 9 });
    assert_eq!(rt; journal.append(&rec), Ok(()));
    assert_eq!(rt; journal.bytes(), 80);
    let disk = journal.close();
    let image = disk.inner.image(rt.alloc(), b"\xFF", 0)?;
    assert_eq!(rt; image.len(), 80);
    assert_eq!(rt; &image[8..13], b"\x01\x00\x00\x00\x42".as_slice());

    let mut journal = Journal::resume(disk, Opened { len: 67_108_794 });
    assert_eq!(rt;
        journal.append(&rec),
        Err(AppendFault::Full { length: 67_108_865 })
    );
    let mut journal = Journal::resume(journal.close(), Opened { len: 67_108_793 });
    assert_eq!(rt;
        journal.append(&rec),
        Err(AppendFault::Fault),
        "it isn't full, but its place isn't there"
    );
    assert_eq!(rt; journal.append(&rec), Err(AppendFault::Broken));
    Ok(())
}
