//! An agent of a conversation.

use opfs_agent::Agent;
use opfs_base::Text;
use opfs_runner::AgentRow;
use opfs_script_run::Hand;
use opfs_store::Store;
use std::marker::Model;

/// An agent of a conversation, none once it has ended; its rows; what its variables name; and the tag that it awaits.
pub struct Seat<S: Store> {
    pub agent: Option<Agent<S>>,
    pub rows: Vec<AgentRow>,
    pub hand: Hand,
    pub awaits: Option<Text>,
}

impl<S: Store> Model for Seat<S> {
    ghost use Rattle.opfs_serving.specs.Seats.{SeatSeen};

    ghost Value = { SeatSeen S.Opening };

    ghost view = { λ s. record { agent = s.agent; rows = s.rows.items; hand = s.hand; awaits = s.awaits } };
}
