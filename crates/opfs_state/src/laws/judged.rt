//! What judging does not see.

ghost use Rattle.opfs_state.specs.Laws.Judged.{NotesDecideNothing};

/// A call is judged the same before and after the sum of its agent's local calls is taken in.
pub fn notes_decide_nothing()
    ensures { NotesDecideNothing }
{}
