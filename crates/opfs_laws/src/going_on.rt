//! Histories that grow.

ghost use Rattle.opfs_laws.specs.Faults.{TheMachineNeverFaults};
ghost use Rattle.opfs_laws.specs.GoingOn.{LegalHistoriesGoOn};

/// A legal history goes on with each call that its agent may make: with the call's evictions and its entry, and with
/// local calls of the agent before it, which clear no unit. Each front of it that ends with a call is legal.
pub fn legal_histories_go_on()
    ensures { LegalHistoriesGoOn }
{}

/// The machine never answers that the disk failed: not to a call, not to an eviction, and not to a local call that is not
/// entered yet. So each disk fault in a history is that of an entry which was told so.
pub fn the_machine_never_faults()
    ensures { TheMachineNeverFaults }
{}
