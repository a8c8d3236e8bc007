//! What queries mean. These functions do nothing: the contract of each is a law.
ghost use Rattle.nl_agentset.specs.Laws.{AnswersFit, OthersAreAllButTheCaller, GreaterRadiiReachMore, UnionsAscend, NeighborsAreMutual, WaysAreOpposite, UndirectedLeadBothWays};

/// What a query answers fits the world.
pub fn answers_fit()
    ensures { AnswersFit }
{}

/// Others are all members but the caller.
pub fn others_are_all_but_the_caller()
    ensures { OthersAreAllButTheCaller }
{}

/// Who is within a radius is within each greater one.
pub fn greater_radii_reach_more()
    ensures { GreaterRadiiReachMore }
{}

/// A union has each member once.
pub fn unions_ascend()
    ensures { UnionsAscend }
{}

/// Neighbors are mutual: by links of any direction, by links without one, and by links with one the other way.
pub fn neighbors_are_mutual()
    ensures any { NeighborsAreMutual }
    ensures ways { WaysAreOpposite }
    ensures undirected { UndirectedLeadBothWays }
{}
