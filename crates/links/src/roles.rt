ghost use Rattle.std.specs.Prelude.{◌≡◌, option_map};
ghost use Rattle.std.specs.List.{list_all};
ghost use Rattle.entry_rules.specs.declared.fault.RuleCode.TheVariants.{E12};
ghost use Rattle.links.specs.Licence as licence;
ghost use Rattle.links.specs.Places.{place_of};

use crate::State;
use boundary::{Boundary, Rule};
use iam_names::Role;

/// The first rule of the boundary that names an unknown role.
pub fn unknown_role(state: &State, boundary: &Boundary) -> Option<usize>
    ensures { option_map E12 result ≡ licence.unknown_role state.now.content boundary.now }
{
    unknown_at(state, boundary.rules.as_slice())
}

fn unknown_at(state: &State, rules: &[Rule]) -> Option<usize>
    ensures { result ≡ place_of (licence.has_unknown_role state.now.content) rules.now }
{
    for place in 0..rules.len() {
        if !knows_roles(state, rules[place].roles.as_slice()) {
            return Some(place);
        }
    }
    None
}

fn knows_roles(state: &State, roles: &[Role]) -> bool
    ensures { result ≡ list_all (licence.knows_role state.now.content) roles.now }
{
    let known = &state.view().policies.roles;
    roles.iter().all(|role| known.knows(role))
}
