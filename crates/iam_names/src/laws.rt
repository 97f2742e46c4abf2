ghost use Rattle.std.specs.Prelude.{◌≡◌, ◌↔◌, ℕ, List, Some, true};
ghost use Rattle.iam_names.specs.Audience.{audience_of, audience_text, is_audience};
ghost use Rattle.iam_names.specs.Forms.{is_account, is_permission, is_resource, is_role};
ghost use Rattle.iam_names.specs.Joined.{IsAccountText, IsPermissionText, IsResourceText, IsRoleText};
ghost use Rattle.iam_names.specs.Member.{member_of, member_text, is_member};
ghost use Rattle.iam_names.specs.PoolName.{pool_of_text, pool_text, is_pool_name};
ghost use Rattle.iam_names.specs.declared.audience.Audience.{Audience};
ghost use Rattle.iam_names.specs.declared.member.Member.{Member};
ghost use Rattle.iam_names.specs.declared.pool_name.PoolName.{PoolName};

/// A law: the text of each name whose parts are of their forms reads as that name, so a reader refuses
/// no such text and no two names have one text.
pub fn printed_names_read_back()
    ensures pools { (name : PoolName) → is_pool_name name ≡ true → pool_of_text (pool_text name) ≡ Some name }
    ensures audiences { (name : Audience) → is_audience name ≡ true → audience_of (audience_text name) ≡ Some name }
    ensures members { (member : Member) → is_member member ≡ true → member_of (member_text member) ≡ Some member }
{}

/// A law: a text is of the form of an account, a permission, a role or a resource exactly where it is that
/// name's parts joined, each of its own bytes and size.
pub fn names_are_their_parts()
    ensures accounts { (text : List ℕ) → (is_account text ≡ true) ↔ IsAccountText text }
    ensures permissions { (text : List ℕ) → (is_permission text ≡ true) ↔ IsPermissionText text }
    ensures roles { (text : List ℕ) → (is_role text ≡ true) ↔ IsRoleText text }
    ensures resources { (text : List ℕ) → (is_resource text ≡ true) ↔ IsResourceText text }
{}
