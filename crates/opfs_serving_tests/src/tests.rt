//! Conversations as they are to be held.

use crate::talking::{Talk, answers_blanks, begins, breaks_off, is_held};
use std::test::Fail;

// A file is written by one of two agents.
const WRITES: Talk = Talk {
    first: r#"{"agents":[{"origin":"https://a.example"},{"origin":"https://a.example"}]}"#,
    text: r#"ready 2
> 1 {"do":"getDirectory","as":"d"}
1.1 getDirectory ok
> 1 {"do":"getFileHandle","dir":"d","name":"note","create":true,"as":"f"}
1.2 getFileHandle ok
> 1 {"do":"createWritable","file":"f","as":"w"}
1.3 createWritable ok
> 1 {"do":"write","stream":"w","data":"hello"}
1.4 write ok
> 1 {"do":"close","stream":"w"}
1.5 close ok
> 2 {"do":"getDirectory","as":"d"}
2.1 getDirectory ok
> 2 {"do":"getFileHandle","dir":"d","name":"note","as":"f"}
2.2 getFileHandle ok
> 2 {"do":"getFile","file":"f","as":"s"}
2.3 getFile ok 5 0
> 2 {"do":"slice","snapshot":"s","at":1,"len":9}
2.4 slice ok 4 656c6c6f
1.6 end ok
2.5 end ok
"#,
};

// No line comes.
const NOTHING: Talk = Talk {
    first: r#"{"agents":[{"origin":"https://a.example"},{"origin":"https://a.example"}]}"#,
    text: r#"ready 2
1.1 end ok
2.1 end ok
"#,
};

// An await is answered behind the post; until then its agent is asked for nothing.
const WAITS: Talk = Talk {
    first: r#"{"agents":[{"origin":"https://a.example"},{"origin":"https://a.example"}]}"#,
    text: r#"ready 2
> 1 {"do":"await","tag":"t"}
> 1 {"do":"persisted"}
? Waiting
> 1 end
? Waiting
> 1 {
? Waiting
> 2 {"do":"moment","ms":1}
2.1 moment ok
> 2 {"do":"post","tag":"u"}
2.2 post ok
> 2 {"do":"post","tag":"t"}
2.3 post ok
1.1 await ok
> 1 {"do":"persisted"}
1.2 persisted ok false
1.3 end ok
2.4 end ok
"#,
};

// What is awaited was posted.
const POSTED: Talk = Talk {
    first: r#"{"agents":[{"origin":"https://a.example"},{"origin":"https://a.example"}]}"#,
    text: r#"ready 2
> 2 {"do":"post","tag":"t"}
2.1 post ok
> 1 {"do":"await","tag":"t"}
1.1 await ok
1.2 end ok
2.2 end ok
"#,
};

// Lines that are refused change nothing.
const REFUSED: Talk = Talk {
    first: r#"{"agents":[{"origin":"https://a.example"},{"origin":"https://a.example"}]}"#,
    text: r#"ready 2
> x
? NoAgent
> 3 {}
? NoAgent
> 0 {}
? NoAgent
> 
? NoAgent
> 1
? NoAgent
> 1{}
? NoAgent
> {"do":"persisted"}
? NoAgent
> 1 {
? NotJson
> 1 
? NotJson
> 1 {"do":"nothing"}
? UnknownStep 1 1
> 1 {"do":"write"}
? BadShape 1 1
> 1 []
? BadShape 1 1
> 1  end
? NotJson
> 2 {"do":"nothing"}
? UnknownStep 2 1
> 1 {"do":"persisted"}
1.1 persisted ok false
> 1 {"do":"persisted"}
1.2 persisted ok false
> 1 {"do":"nothing"}
? UnknownStep 1 3
> 1 {"do":"persisted","more":1}
? BadShape 1 3
> 1 {"do":"persisted"}
1.3 persisted ok false
> 2 {}
? BadShape 2 1
> 2 {"do":"persisted"}
2.1 persisted ok false
1.4 end ok
2.2 end ok
"#,
};

// An agent ends with what it has open, and is asked for nothing behind that.
const ENDS: Talk = Talk {
    first: r#"{"agents":[{"origin":"https://a.example"},{"origin":"https://a.example"}]}"#,
    text: r#"ready 2
> 1 {"do":"getDirectory","as":"d"}
1.1 getDirectory ok
> 1 {"do":"getFileHandle","dir":"d","name":"note","create":true,"as":"f"}
1.2 getFileHandle ok
> 1 {"do":"createWritable","file":"f","as":"w"}
1.3 createWritable ok
> 1 end
1.4 abort ok
1.5 end ok
> 1 {"do":"persisted"}
? Ended
> 1 end
? Ended
> 1 {
? Ended
> 2 {"do":"persisted"}
2.1 persisted ok false
2.2 end ok
"#,
};

// What is open when no line comes any more ends in its order.
const OPEN: Talk = Talk {
    first: r#"{"agents":[{"origin":"https://a.example"}]}"#,
    text: r#"ready 1
> 1 {"do":"getDirectory","as":"d"}
1.1 getDirectory ok
> 1 {"do":"getFileHandle","dir":"d","name":"note","create":true,"as":"f"}
1.2 getFileHandle ok
> 1 {"do":"createWritable","file":"f","as":"w"}
1.3 createWritable ok
> 1 {"do":"getFileHandle","dir":"d","name":"two","create":true,"as":"g"}
1.4 getFileHandle ok
> 1 {"do":"createSyncAccessHandle","file":"g","as":"h"}
1.5 createSyncAccessHandle ok
> 1 {"do":"syncWrite","sync":"h","data":"abc"}
1.6 syncWrite ok 3
1.7 abort ok
1.8 discard ok
1.9 end ok
"#,
};

// An await of an agent alone is stuck.
const STUCK: Talk = Talk {
    first: r#"{"agents":[{"origin":"https://a.example"}]}"#,
    text: r#"ready 1
> 1 {"do":"await","tag":"t"}
1.1 await Stuck
> 1 {"do":"persisted"}
1.2 persisted ok false
1.3 end ok
"#,
};

// An await at the end of the lines is stuck once the others have ended.
const STUCK_LAST: Talk = Talk {
    first: r#"{"agents":[{"origin":"https://a.example"},{"origin":"https://a.example"}]}"#,
    text: r#"ready 2
> 1 {"do":"await","tag":"t"}
2.1 end ok
1.1 await Stuck
1.2 end ok
"#,
};

// An await is stuck once the other agent has ended.
const STUCK_BY_END: Talk = Talk {
    first: r#"{"agents":[{"origin":"https://a.example"},{"origin":"https://a.example"}]}"#,
    text: r#"ready 2
> 1 {"do":"await","tag":"t"}
> 2 end
2.1 end ok
1.1 await Stuck
> 1 {"do":"persisted"}
1.2 persisted ok false
1.3 end ok
"#,
};

// The second of two that wait is stuck, and wakes the first.
const BOTH_WAIT: Talk = Talk {
    first: r#"{"agents":[{"origin":"https://a.example"},{"origin":"https://a.example"}]}"#,
    text: r#"ready 2
> 1 {"do":"await","tag":"t"}
> 2 {"do":"await","tag":"u"}
2.1 await Stuck
> 2 {"do":"post","tag":"t"}
2.2 post ok
1.1 await ok
1.2 end ok
2.3 end ok
"#,
};

// One post wakes two.
const TWO_WOKEN: Talk = Talk {
    first: r#"{"agents":[{"origin":"https://a.example"},{"origin":"https://a.example"},{"origin":"https://a.example"}]}"#,
    text: r#"ready 3
> 1 {"do":"await","tag":"t"}
> 2 {"do":"await","tag":"t"}
> 3 {"do":"post","tag":"t"}
3.1 post ok
1.1 await ok
2.1 await ok
1.2 end ok
2.2 end ok
3.2 end ok
"#,
};

// Agents of two origins share no tags; a grant is of one.
const APART: Talk = Talk {
    first: r#"{"agents":[{"origin":"https://a.example","grants":["persistent-storage"]},{"origin":"https://b.example","grants":[]}]}"#,
    text: r#"ready 2
> 1 {"do":"post","tag":"t"}
1.1 post ok
> 2 {"do":"await","tag":"t"}
2.1 await Stuck
> 1 {"do":"persist"}
1.2 persist ok true
> 2 {"do":"persist"}
2.2 persist ok false
1.3 end ok
2.3 end ok
"#,
};

// An agent without a key.
const NO_KEY: Talk = Talk {
    first: r#"{"agents":[{"origin":"data:x"}]}"#,
    text: r#"ready 1
> 1 {"do":"getDirectory","as":"d"}
1.1 getDirectory SecurityError
> 1 {"do":"getFileHandle","dir":"d","name":"note","create":true,"as":"f"}
1.2 getFileHandle Unbound
> 1 {"do":"persisted"}
1.3 persisted TypeError
1.4 end ok
"#,
};

// An eviction is told before the line of the call that needed the room.
const EVICTS: Talk = Talk {
    first: r#"{"agents":[{"origin":"https://a.example"},{"origin":"https://b.example","grants":["persistent-storage"]},{"origin":"https://c.example"}]}"#,
    text: r#"ready 3
> 1 {"do":"getDirectory","as":"d"}
1.1 getDirectory ok
> 1 {"do":"getFileHandle","dir":"d","name":"x","create":true,"as":"f"}
1.2 getFileHandle ok
> 1 {"do":"createWritable","file":"f","as":"w"}
1.3 createWritable ok
> 1 {"do":"write","stream":"w","data":{"fill":65,"count":8192}}
1.4 write ok
> 1 {"do":"close","stream":"w"}
1.5 close ok
> 1 end
1.6 end ok
> 2 {"do":"persist"}
2.1 persist ok true
> 2 {"do":"getDirectory","as":"d"}
2.2 getDirectory ok
> 2 {"do":"getFileHandle","dir":"d","name":"y","create":true,"as":"f"}
2.3 getFileHandle ok
> 2 {"do":"createWritable","file":"f","as":"w"}
2.4 createWritable ok
> 2 {"do":"write","stream":"w","data":{"fill":66,"count":4096}}
2.5 write ok
> 2 {"do":"close","stream":"w"}
2.6 close ok
> 3 {"do":"getDirectory","as":"d"}
3.1 getDirectory ok
> 3 {"do":"getFileHandle","dir":"d","name":"z","create":true,"as":"f"}
3.2 getFileHandle ok
> 3 {"do":"createWritable","file":"f","as":"w"}
3.3 createWritable ok
> 3 {"do":"write","stream":"w","data":{"fill":65,"count":8192}}
evict https://a.example
3.4 write ok
> 3 {"do":"write","stream":"w","data":{"fill":65,"count":8192}}
3.5 write DataFull 3 2 4
2.7 end ok
3.6 abort ok
3.7 end ok
"#,
};

// All of them, each by what it shows.
const TALKS: [(&str, &Talk); 15] = [
    ("a file that one agent writes and another reads", &WRITES),
    ("no line", &NOTHING),
    ("an await that is posted later", &WAITS),
    ("an await of what was posted", &POSTED),
    ("lines that are refused", &REFUSED),
    ("an agent that ends", &ENDS),
    ("what is open at the end", &OPEN),
    ("an await of an agent alone", &STUCK),
    ("an await at the end", &STUCK_LAST),
    ("an await behind the other's end", &STUCK_BY_END),
    ("two that wait", &BOTH_WAIT),
    ("a post that wakes two", &TWO_WOKEN),
    ("two origins", &APART),
    ("an agent without a key", &NO_KEY),
    ("an eviction", &EVICTS),
];

#[test]
fn each_conversation_is_held_word_by_word(rt: HostRuntime) -> Result<(), Fail> {
    for (what, talk) in TALKS {
        assert!(rt; is_held(&rt, talk)?, "{what}");
    }
    Ok(())
}

#[test]
fn it_breaks_off_where_the_port_fails(rt: HostRuntime) -> Result<(), Fail> {
    for call in 1..21u64 {
        assert!(rt; breaks_off(&rt, &WRITES, call, call as usize - 1)?);
    }
    assert!(rt; breaks_off(&rt, &WRITES, 21, 19)?);
    assert!(rt; breaks_off(&rt, &WRITES, 22, 20)?);
    assert!(rt; !breaks_off(&rt, &WRITES, 23, 21)?);
    Ok(())
}

#[test]
fn the_longest_line_is_looked_at(rt: HostRuntime) -> Result<(), Fail> {
    assert!(rt; answers_blanks(&rt, 33_555_456, " \n? NoAgent\n1.1 end ok\n")?);
    Ok(())
}

#[test]
fn a_line_is_too_long(rt: HostRuntime) -> Result<(), Fail> {
    assert!(rt; answers_blanks(&rt, 33_555_457, " \n? TooMany\n1.1 end ok\n")?);
    Ok(())
}

const MANY: &str = r#"ready 64
> 64 {"do":"persisted"}
64.1 persisted ok false
> 65 {"do":"persisted"}
? NoAgent
> 064 {"do":"persisted"}
? NoAgent
> 6 4 {"do":"persisted"}
? NotJson
> 10 {"do":"persisted"}
10.1 persisted ok false
1.1 end ok
2.1 end ok
"#;

#[test]
fn sixty_four_agents(rt: HostRuntime) -> Result<(), Fail> {
    assert!(rt; begins(&rt, 64, MANY)?);
    Ok(())
}
