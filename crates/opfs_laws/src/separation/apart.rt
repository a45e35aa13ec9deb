//! What the parties are to each other.

ghost use Rattle.opfs_laws.specs.Separation.Apart.{EachPartyRunsAlone, OthersLeaveNoTrace};

/// What a party's agents are answered follows from their own calls, and from what is recorded of evictions of its units,
/// refusals of shared room and disk faults: it is a run of the machine that has the party's rows and modes alone. So no
/// call of another origin, nor of an agent without one, is seen in any other way.
///
/// It holds of every legal history from an opening whose rows are in the order of their places, and whose agents' keys
/// are origins' (they name no bucket).
pub fn each_party_runs_alone()
    ensures { EachPartyRunsAlone }
{}

/// In two histories with the same quota and as many agents, in which a party begins with the same agents, rows and
/// modes, asks the same, loses the same units by eviction, and is told the same refusals of shared room and disk faults,
/// each of its calls is answered the same. Which other agents there are, what their origins hold, all that they do, the
/// size of an area and the number of blocks may differ.
pub fn others_leave_no_trace()
    ensures { OthersLeaveNoTrace }
{}
