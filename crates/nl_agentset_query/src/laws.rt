//! What choices mean. These functions do nothing: the contract of each is a law.
ghost use Rattle.nl_agentset_query.specs.Laws.{SomeKeepOrder, SomeAreAsMany, AllAreKept, SomeMembersDiffer};

/// Several that are chosen of a list keep their order and stand for one place each. They are as many as are wanted, and all where there are
/// no more.
pub fn some_keep_their_order<T>()
    ensures order { SomeKeepOrder T }
    ensures many { SomeAreAsMany T }
    ensures all { AllAreKept T }
{}

/// Members that are chosen differ, and ascend as those do that they are chosen from.
pub fn some_members_differ()
    ensures { SomeMembersDiffer }
{}
