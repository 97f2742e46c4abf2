use iam_names::PoolName;
use std::alloc::{AllocError, Global};
use std::marker::Model;

/// A pool, and whether it is disabled.
#[derive(Debug, Drop)]
pub struct Pool {
    pub name: PoolName,
    pub disabled: bool,
}

/// The pools, each name once, in the order in which the names came. Contracts see a list, and beside it
/// for how many more names there is memory.
#[derive(Debug, Drop)]
pub struct Pools {
    inner: Vec<Pool>,
}

impl Model for Pools {
    ghost use Rattle.std.specs.Prelude.{◌-◌, vec_len};
    ghost use Rattle.std.specs.Vec.{vec_capacity};
    ghost use Rattle.service_view.specs.Pools.{Rows};

    ghost Value = { Rows };

    ghost view = { λ p. record { pools = p.inner.items; spare = vec_capacity p.inner - vec_len p.inner } };
}

impl Pools {
    ghost use Rattle.std.specs.Prelude.{◌≡◌, ◌≤◌, ◌+◌, [], length, OnOk, option_map};
    ghost use Rattle.service_view.specs.Pools as pools;

    pub fn new(alloc: Global) -> Self
        ensures { result.pools ≡ [] }
    {
        Pools {
            inner: Vec::new(alloc),
        }
    }

    pub fn len(&self) -> usize
        ensures { result ≡ length self.now.pools }
    {
        self.inner.len()
    }

    /// Whether the pool is disabled, where it is there.
    pub fn disabled(&self, name: &PoolName) -> Option<bool>
        ensures { result ≡ pools.disabled_at name.now self.now.pools }
    {
        for pool in self.inner.as_slice() {
            if pool.name == *name {
                return Some(pool.disabled);
            }
        }
        None
    }

    /// Takes memory for a further name.
    pub(crate) fn make_room(&mut self) -> Result<(), AllocError>
        ensures pools { self.new.pools ≡ self.old.pools }
        ensures room { OnOk result (1 ≤ self.new.spare) }
    {
        self.inner.reserve(1)
    }

    /// Puts the pool in place of the one of its name. It takes no memory.
    pub(crate) fn place(&mut self, pool: Pool)
        requires { 1 ≤ self.old.spare }
        ensures { self.new.pools ≡ pools.put_pool pool self.old.pools }
    {
        for index in 0..self.inner.len() {
            if pool.name == self.inner[index].name {
                self.inner[index] = pool;
                return;
            }
        }
        let _ = self.inner.push(pool);
    }
}
