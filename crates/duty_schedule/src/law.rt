//! What the definition of what is due comes to.
ghost use Rattle.duty_schedule.specs.Law.{AnotherRootReplaces, IsOneList, OtherIndicesReplace, SameBasisChangesNothing};

/// Where the epoch is kept, an answer that has another dependent root than what is held of its kind and epoch
/// replaces it: what is due of its kind is then of its rows. So does one with other asked indices. One with the
/// same dependent root and the same indices changes nothing of what is due at any slot. What is due is one list.
pub fn schedule_law()
    ensures another_root { AnotherRootReplaces }
    ensures other_indices { OtherIndicesReplace }
    ensures same { SameBasisChangesNothing }
    ensures one { IsOneList }
{}
