ghost use Rattle.std.specs.Prelude.{◌≡◌, option_map};
ghost use Rattle.iam_names.specs.Parts.{path_parts};
ghost use Rattle.iam_names.specs.PoolName as names;
ghost use Rattle.iam_names.specs.Reads.{ReadsName};

use crate::NameError;
use crate::cut::{after, cut_at};
use crate::forms::{PoolId, Project};
use base_types::Text;
use std::alloc::{AllocError, Global};

/// A pool's name: its project and its own name.
#[derive(Debug, Drop, PartialEq, Eq)]
pub struct PoolName {
    pub project: Project,
    pub pool: PoolId,
}

/// The parts of a text that begins with a pool's path and a slash.
#[derive(Clone, Copy)]
pub(crate) struct PoolPath<'a> {
    pub(crate) project: &'a str,
    pub(crate) pool: &'a str,
    pub(crate) rest: &'a str,
}

impl PoolName {
    ghost use Rattle.std.specs.Prelude.{◌≡◌, IfOk, true};
    ghost use Rattle.iam_names.specs.Forms.{is_project, is_id};
    ghost use Rattle.iam_names.specs.PoolName.{pool_of, pool_of_text, pool_text, pool_path};
    ghost use Rattle.iam_names.specs.Reads.{ReadsName};

    /// The pool of a project's text and a pool's text.
    pub fn of_parts(alloc: Global, project: &str, pool: &str) -> Result<Self, NameError>
        ensures { ReadsName result (pool_of project.now pool.now) }
    {
        let project = Project::read(alloc, project)?;
        let pool = PoolId::read(alloc, pool)?;
        Ok(PoolName { project, pool })
    }

    /// Reads `PROJECT/POOL`.
    pub fn read(alloc: Global, text: &str) -> Result<Self, NameError>
        ensures read { ReadsName result (pool_of_text text.now) }
        ensures text { IfOk result (λ name. pool_text name ≡ text.now) }
    {
        read_pool(alloc, text)
    }

    /// `PROJECT/POOL`.
    pub fn print(&self, alloc: Global) -> Result<Text, AllocError>
        ensures { IfOk result (λ text. text ≡ pool_text self.now) }
    {
        let project = self.project.as_str();
        let pool = self.pool.as_str();
        Ok(Text::new(format!(in alloc; "{project}/{pool}")?))
    }

    /// `iam.googleapis.com/projects/PROJECT/locations/global/workloadIdentityPools/POOL`.
    pub fn path(&self, alloc: Global) -> Result<Text, AllocError>
        ensures { IfOk result (λ text. text ≡ pool_path self.now) }
    {
        let project = self.project.as_str();
        let pool = self.pool.as_str();
        Ok(Text::new(format!(in alloc;
            "iam.googleapis.com/projects/{project}/locations/global/workloadIdentityPools/{pool}"
        )?))
    }

    pub fn copy(&self, alloc: Global) -> Result<Self, AllocError>
        ensures copy { IfOk result (λ name. name ≡ self.now) }
        ensures project { IfOk result (λ name. is_project name.project ≡ true) }
        ensures pool { IfOk result (λ name. is_id name.pool ≡ true) }
    {
        let project = self.project.copy(alloc)?;
        let pool = self.pool.copy(alloc)?;
        Ok(PoolName { project, pool })
    }
}

fn read_pool(alloc: Global, text: &str) -> Result<PoolName, NameError>
    ensures { ReadsName result (names.pool_of_text text.now) }
{
    match cut_at(text, '/') {
        None => Err(NameError::Form),
        Some((project, pool)) => PoolName::of_parts(alloc, project, pool),
    }
}

/// The parts of a text that begins with a pool's path and a slash.
pub(crate) fn path_of(text: &str) -> Option<PoolPath<'_>>
    ensures { option_map (λ path. (path.project.now, path.pool.now, path.rest.now)) result ≡ path_parts text.now }
{
    let text = after(text, "iam.googleapis.com/projects/")?;
    let (project, text) = cut_at(text, '/')?;
    let text = after(text, "locations/global/workloadIdentityPools/")?;
    let (pool, rest) = cut_at(text, '/')?;
    Some(PoolPath {
        project,
        pool,
        rest,
    })
}
