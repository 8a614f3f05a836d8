//! What holds between the calls.

ghost use Rattle.memberships.specs.Laws.{PutsBack, TakesOut};

/// Who is removed from a family is no member of that sort, and the other members and the carried lines stay.
pub fn a_member_is_taken_out()
    ensures { TakesOut }
{}

/// A partner who is added and removed again leaves the family as it was.
pub fn a_partner_is_taken_out_again()
    ensures { PutsBack }
{}
