ghost use Rattle.std.specs.Prelude.{◌≡◌, ◌≤◌, ◌++◌, length, drop};
ghost use Rattle.std.specs.Str.{bytes_eq};
ghost use Rattle.hmac_jws.specs.Hmac.{hmac_of, block_key, xor_pad};

use sha2::{Digest, Sha256};

const INNER_PAD: u8 = 0x36;

const OUTER_PAD: u8 = 0x5c;

fn write_front(block: &mut [u8], bytes: &[u8])
    requires { length bytes.now ≤ length block.old }
    ensures { block.new ≡ bytes.now ++ drop (length bytes.now) block.old }
{
    block[..bytes.len()].copy_from_slice(bytes);
}

fn padded_key(key: &[u8]) -> [u8; 64]
    ensures { result ≡ block_key key.now }
{
    let mut block = [0u8; 64];
    if key.len() <= 64 {
        write_front(&mut block, key);
    } else {
        let digest = Sha256::digest(key);
        write_front(&mut block, &digest);
    }
    block
}

fn with_pad(block: &[u8; 64], pad: u8) -> [u8; 64]
    ensures { result ≡ xor_pad pad block.now }
{
    let mut out = *block;
    for byte in out.iter_mut() {
        *byte ^= pad;
    }
    out
}

/// HMAC-SHA256 of a message under a key of any length. It takes no memory and copies no message.
#[tactic(auto, unfolding(crate::specs::Hmac::hmac_of))]
pub fn hmac(key: &[u8], message: &[u8]) -> [u8; 32]
    ensures { result ≡ hmac_of key.now message.now }
{
    let block = padded_key(key);
    let mut inner = Sha256::new();
    inner.update(with_pad(&block, INNER_PAD));
    inner.update(message);
    let mut outer = Sha256::new();
    outer.update(with_pad(&block, OUTER_PAD));
    outer.update(inner.finalize());
    outer.finalize()
}

/// Whether bytes are a MAC. However they begin, it looks at all 32 bytes.
pub(crate) fn is_same_mac(found: &[u8], mac: &[u8; 32]) -> bool
    ensures { result ≡ bytes_eq found.now mac.now }
{
    if found.len() != mac.len() {
        return false;
    }
    let mut difference = 0;
    for (at, byte) in mac.iter().enumerate() {
        difference |= found[at] ^ *byte;
    }
    difference == 0
}
