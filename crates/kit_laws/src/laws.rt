//! Laws of the sequential simulation: each is the contract of a function that does nothing.

ghost use Rattle.kit_laws.specs.Laws.{GrantsRise, GrantsEnd, FewGrants, LastGrants, OneSimulation};
ghost use Rattle.kit_laws.specs.Laws.{BlocksAscend, OutstandingStays, NeedIsGreatest};

/// Of two grants that follow each other the second has the later due time, or the same and the
/// greater federate.
pub fn grants_rise()
    ensures { GrantsRise }
{}

/// After as many turns as federates times the end time, no federate stands below the end.
pub fn grants_end()
    ensures { GrantsEnd }
{}

/// There are at most as many grants as federates times the end time.
pub fn few_grants()
    ensures { FewGrants }
{}

/// The last grant of each federate is the end time.
pub fn last_grants()
    ensures { LastGrants }
{}

/// The simulation is the one run of least grants from the start until nobody waits.
pub fn one_simulation()
    ensures { OneSimulation }
{}

/// The grants stand in the order of time and federate, each before those behind it.
pub fn blocks_ascend()
    ensures { BlocksAscend }
{}

/// The grant of another federate leaves the number of transported messages that one has sent and
/// that are later than its time.
pub fn outstanding_stays()
    ensures { OutstandingStays }
{}

/// The need of a federate is the greatest such number at the start and after its own grants.
pub fn need_is_greatest()
    ensures { NeedIsGreatest }
{}
