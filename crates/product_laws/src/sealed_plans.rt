//! What the definitions of a sealed book and of a plan amount to.
ghost use Rattle.product_laws.specs.Recorded.{DrivenPlansHold, SealedPlansHold};

/// What is planned on a sealed book holds of what its seats were told; and what is planned on a driven book holds of what its
/// asks reached, where no page was full. A law: it computes nothing.
pub fn plans_hold_of_what_was_recorded()
    ensures sealed { SealedPlansHold }
    ensures driven { DrivenPlansHold }
{}
