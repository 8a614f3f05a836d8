//! The roles that a register entry of a kind may have.

ghost use Rattle.std.specs.Prelude.{◌≡◌};
ghost use Rattle.record_shapes.specs.Roles as roles;

use record_fields::{EntryKind, Role};

/// Whether a role is of a kind of entry.
pub fn is_role_of(kind: EntryKind, role: Role) -> bool
    ensures { result ≡ roles.is_role_of kind role }
{
    match kind {
        EntryKind::Baptism => matches!(
            role,
            Role::Child | Role::Father | Role::Mother | Role::Godparent
        ),
        EntryKind::Marriage => matches!(
            role,
            Role::Groom | Role::Bride | Role::FatherOfGroom | Role::FatherOfBride | Role::Witness
        ),
        EntryKind::Burial => matches!(
            role,
            Role::Buried | Role::Spouse | Role::Father | Role::Mother
        ),
    }
}
