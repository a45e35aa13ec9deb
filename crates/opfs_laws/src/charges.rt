//! What is judged of the charge.

ghost use Rattle.opfs_laws.specs.Charges.{TheChargeGrowsAsJudged};

/// The charge growth that is judged of a call is what the charge grows by: the charge after it is the one before it and that
/// growth, just so. Before it means once the call's units are cleared, which only lowers the charge. Of a call that lets rows or
/// kept blocks go, as a removal, a flush, and an end of a stream or an access handle, no growth is judged, and there is none:
/// the charge may fall.
pub fn the_charge_grows_as_judged()
    ensures { TheChargeGrowsAsJudged }
{}
