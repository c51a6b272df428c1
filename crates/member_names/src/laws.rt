//! What holds of the definitions alone.
ghost use Rattle.member_names.specs.Kept.{SameMembers};

/// A member of one of the names is that of the whole tree.
pub fn a_kept_member_is_the_same()
    ensures { SameMembers }
{}
