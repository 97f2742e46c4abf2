ghost use Rattle.std.specs.Prelude.{◌≡◌, min, vec_len};

/// What was read of a file: how long it is, and its bytes up to the end of the longest record that begins within the limit.
#[derive(Drop)]
pub struct JournalFile {
    pub bytes: Vec<u8>,
    pub length: u64,
    ghost front: { vec_len bytes ≡ min length 67371012 },
}
