//! What is an agent's own.

ghost use Rattle.opfs_laws.specs.OwnRowsLaw.{OwnRowsAreTheAgents};
ghost use Rattle.opfs_laws.specs.Leaving.{OthersLeaveAnAgent, ACallMovesItsAgent};

/// A local call's answer, and what it leaves of the agent's own rows, depend on the call and those rows alone. No
/// entry of another agent and no eviction changes those rows, the agent's clock, or the bytes of the files of its open
/// access handles.
pub fn own_rows_are_the_agents()
    ensures { OwnRowsAreTheAgents }
{}

/// Entries of other agents, and evictions, leave all that is an agent's own: its record, its rows, its clock, and the
/// bytes of the files of its open access handles. So whether it may make a call stays, if the call asks nothing of other
/// agents; and its local calls that are not entered yet stay such.
pub fn others_leave_an_agent()
    ensures { OthersLeaveAnAgent }
{}

/// A call, with its evictions, leaves its agent's key and grant. Only an end ends the agent. Own rows stay, but for that
/// which the call uses, and one more is there only after a call that asks for one.
pub fn a_call_moves_its_agent()
    ensures { ACallMovesItsAgent }
{}
