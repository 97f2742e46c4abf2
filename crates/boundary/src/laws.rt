ghost use Rattle.std.specs.Prelude.{◌≡◌, ◌↔◌, ℕ, List, true, Some};
ghost use Rattle.std.specs.List.{Any};
ghost use Rattle.boundary.specs.declared.rules.Boundary.{Boundary as Limits};
ghost use Rattle.boundary.specs.Allowing.{RoleRows, boundary_allows};
ghost use Rattle.boundary.specs.Allowed.{IsAllowedBy};
ghost use Rattle.boundary.specs.Exact.{IsExactBoundary};
ghost use Rattle.boundary.specs.Written.{boundary_data, listed_boundary};

/// A law: a boundary allows a permission on a resource exactly where there is a rule of it at whose resource or below the resource
/// stands, one of whose roles holds the permission, and whose condition, where it has one, is true.
pub fn a_boundary_allows_by_its_rules()
    ensures { (roles : RoleRows) (boundary : Limits) (permission resource : List ℕ) (now : ℕ)
        → (boundary_allows roles boundary permission resource now ≡ true) ↔ Any (IsAllowedBy roles permission resource now) boundary.rules }
{}

/// A law: an exact boundary, written, reads back as itself.
pub fn a_boundary_reads_back()
    ensures { (boundary : Limits) → IsExactBoundary boundary → listed_boundary (boundary_data boundary) ≡ Some boundary }
{}
