//! Examples of tags of agents of one party, and of none: each a history, with another answer to its last call that is refused.

ghost use Rattle.opfs_examples.specs.Parties.{AgentsWithoutAKeyShareNoTags, AnAgentWhoseTagIsPostedIsNotStuck, APostedTagStays};

/// Two agents of opaque origin share no tags.
pub fn agents_without_a_key_share_no_tags()
    ensures { AgentsWithoutAKeyShareNoTags }
{}

/// An agent that waits for a tag is not stuck once that is posted.
pub fn an_agent_whose_tag_is_posted_is_not_stuck()
    ensures { AnAgentWhoseTagIsPostedIsNotStuck }
{}

/// A posted tag serves any number of awaits.
pub fn a_posted_tag_stays()
    ensures { APostedTagStays }
{}
