//! What the words of a command ask.
ghost use Rattle.std.specs.Prelude.{◌≡◌, ◌<◌, ◌^◌, [], ◌∷◌, ℕ, true, decimal, IfSome};
ghost use Rattle.std.specs.Option.{IfNone};
ghost use Rattle.opfs_image.specs.declared.geometry.Geometry.{Geometry as AGeometry};
ghost use Rattle.opfs_commands.specs.Numbers.{AreNumbers, may_generate};
ghost use Rattle.opfs_commands.specs.Sizes.{AreSizes};
ghost use Rattle.opfs_commands.specs.Commands.{plain_action, meant, AsksNothing, IsAsked, IsPath};
ghost use Rattle.opfs_commands.specs.declared.words.Generation.{Generation as AGeneration};

use itoa::Buffer;
use opfs_base::{Bytes, Words};
use opfs_image::Geometry;
use std::str;

/// The greatest number from which a large run is drawn.
const MOST_SEED: u64 = 9_007_199_254_740_991;

/// What is asked of an image.
#[derive(Clone, Copy, Debug, PartialEq, Eq)]
pub enum Action {
    /// To make it anew, of these sizes.
    Format(Geometry),
    /// To list its units and rows.
    List,
    /// To read its files, and tell their digests.
    Check,
    /// To bring it from format 1 into format 2.
    Migrate,
    /// To put its text out.
    Dump,
}

/// The numbers of which a large run is made.
#[derive(Clone, Copy, Debug, PartialEq, Eq)]
pub struct Generation {
    /// The number from which all is drawn, at most 2^53 - 1.
    pub seed: u64,
    /// How many agents run, 1 to 16.
    pub agents: u32,
    /// How many rounds each of them makes, 1 to 200.
    pub rounds: u32,
}

/// What the words of a command line ask.
#[derive(Clone, Copy)]
pub enum Command<'a> {
    /// To run a script over an empty store.
    Try,
    /// To run a script over the image at a path.
    Run(&'a str),
    /// To judge a transcript of a script.
    Judge,
    /// To make a large run, and to tell its digests.
    Generate(Generation),
    /// To do something with the image at a path.
    OnImage(&'a str, Action),
    /// To make the image at a path anew from the text at another.
    Load(&'a str, &'a str),
}

// The number below 2^64 that a word is, written as it prints.
fn long_number(word: &[u8]) -> Option<u64>
    ensures some { IfSome result (λ n. word.now ≡ decimal n) }
    ensures none { IfNone result ((n : ℕ) → n < 2 ^ 64 → word.now ≡ decimal n → ⊥) }
{
    let Ok(text) = str::from_utf8(word) else {
        return None;
    };
    let Ok(number) = text.parse::<u64>() else {
        return None;
    };
    let mut buffer = Buffer::new();
    if buffer.format(number).as_bytes() != word {
        return None;
    }
    Some(number)
}

// The number below 2^32 that a word is.
fn number(word: &[u8]) -> Option<u32>
    ensures some { IfSome result (λ n. word.now ≡ decimal n) }
    ensures none { IfNone result ((n : ℕ) → n < 2 ^ 32 → word.now ≡ decimal n → ⊥) }
{
    let number = long_number(word)?;
    match u32::try_from(number) {
        Ok(number) => Some(number),
        Err(_) => None,
    }
}

// The path that a word is: any text that is not empty.
fn path_of(word: &[u8]) -> Option<&str>
    ensures same { IfSome result (λ path. path.now ≡ word.now) }
    ensures some { IfSome result (λ path. IsPath path.now) }
    ensures none { IfNone result (IsPath word.now → ⊥) }
{
    let Ok(path) = str::from_utf8(word) else {
        return None;
    };
    if path.is_empty() {
        return None;
    }
    Some(path)
}

// The sizes that three words are.
fn sizes(blocks: &[u8], areas: &[u8], quota: &[u8]) -> Option<Geometry>
    ensures some { IfSome result (λ g. AreSizes g blocks.now areas.now quota.now) }
    ensures none { IfNone result ((g : AGeometry) → AreSizes g blocks.now areas.now quota.now → ⊥) }
{
    let blocks = number(blocks)?;
    let areas = number(areas)?;
    let quota = number(quota)?;
    let geometry = Geometry {
        areas,
        blocks,
        quota,
    };
    if !geometry.is_in_range() {
        return None;
    }
    Some(geometry)
}

impl Generation {
    /// Whether a large run may be made of these numbers.
    pub fn is_in_range(self) -> bool
        ensures { result ≡ may_generate self }
    {
        self.seed <= MOST_SEED
            && 1 <= self.agents
            && self.agents <= 16
            && 1 <= self.rounds
            && self.rounds <= 200
    }
}

// The numbers of a large run that three words are.
fn numbers_of(seed: &[u8], agents: &[u8], rounds: &[u8]) -> Option<Generation>
    ensures some { IfSome result (λ g. AreNumbers g seed.now agents.now rounds.now) }
    ensures none { IfNone result ((g : AGeneration) → AreNumbers g seed.now agents.now rounds.now → ⊥) }
{
    let seed = long_number(seed)?;
    let agents = number(agents)?;
    let rounds = number(rounds)?;
    let generation = Generation {
        seed,
        agents,
        rounds,
    };
    if !generation.is_in_range() {
        return None;
    }
    Some(generation)
}

// What a word asks that names an image alone.
fn action_of(word: &[u8]) -> Option<Action>
    ensures { result ≡ plain_action word.now }
{
    if word == b"list".as_slice() {
        return Some(Action::List);
    }
    if word == b"check".as_slice() {
        return Some(Action::Check);
    }
    if word == b"migrate".as_slice() {
        return Some(Action::Migrate);
    }
    if word == b"dump".as_slice() {
        return Some(Action::Dump);
    }
    None
}

// The command that one word is.
fn read_one<'a>(word: &[u8]) -> Option<Command<'a>>
    ensures some { IfSome result (λ command. IsAsked (word.now ∷ []) (meant command)) }
    ensures none { IfNone result (AsksNothing (word.now ∷ [])) }
{
    if word == b"try".as_slice() {
        return Some(Command::Try);
    }
    if word == b"judge".as_slice() {
        return Some(Command::Judge);
    }
    None
}

// The command that two words are.
fn read_two<'a>(word: &[u8], path: &'a [u8]) -> Option<Command<'a>>
    ensures some { IfSome result (λ command. IsAsked (word.now ∷ path.now ∷ []) (meant command)) }
    ensures none { IfNone result (AsksNothing (word.now ∷ path.now ∷ [])) }
{
    let path = path_of(path)?;
    if word == b"run".as_slice() {
        return Some(Command::Run(path));
    }
    let action = action_of(word)?;
    Some(Command::OnImage(path, action))
}

// The command that three words are.
fn read_three<'a>(word: &[u8], image: &'a [u8], text: &'a [u8]) -> Option<Command<'a>>
    ensures some { IfSome result (λ command. IsAsked (word.now ∷ image.now ∷ text.now ∷ []) (meant command)) }
    ensures none { IfNone result (AsksNothing (word.now ∷ image.now ∷ text.now ∷ [])) }
{
    if word != b"load".as_slice() {
        return None;
    }
    let image = path_of(image)?;
    let text = path_of(text)?;
    Some(Command::Load(image, text))
}

// The command that four words are.
fn read_four<'a>(word: &[u8], seed: &[u8], agents: &[u8], rounds: &[u8]) -> Option<Command<'a>>
    ensures some { IfSome result (λ command. IsAsked (word.now ∷ seed.now ∷ agents.now ∷ rounds.now ∷ []) (meant command)) }
    ensures none { IfNone result (AsksNothing (word.now ∷ seed.now ∷ agents.now ∷ rounds.now ∷ [])) }
{
    if word != b"gen".as_slice() {
        return None;
    }
    let generation = numbers_of(seed, agents, rounds)?;
    Some(Command::Generate(generation))
}

// The command that five words are.
fn read_five<'a>(
    word: &[u8],
    path: &'a [u8],
    blocks: &[u8],
    areas: &[u8],
    quota: &[u8],
) -> Option<Command<'a>>
    ensures some { IfSome result (λ command. IsAsked (word.now ∷ path.now ∷ blocks.now ∷ areas.now ∷ quota.now ∷ []) (meant command)) }
    ensures none { IfNone result (AsksNothing (word.now ∷ path.now ∷ blocks.now ∷ areas.now ∷ quota.now ∷ [])) }
{
    if word != b"format".as_slice() {
        return None;
    }
    let path = path_of(path)?;
    let geometry = sizes(blocks, areas, quota)?;
    Some(Command::OnImage(path, Action::Format(geometry)))
}

/// The command that words ask for; None where they ask for nothing.
pub fn read_command(words: &Words) -> Option<Command<'_>>
    ensures some { IfSome result (λ command. IsAsked words.now (meant command)) }
    ensures none { IfNone result (AsksNothing words.now) }
{
    match words.as_slice() {
        [word] => read_one(word.as_slice()),
        [word, path] => read_two(word.as_slice(), path.as_slice()),
        [word, image, text] => read_three(word.as_slice(), image.as_slice(), text.as_slice()),
        [word, seed, agents, rounds] => read_four(
            word.as_slice(),
            seed.as_slice(),
            agents.as_slice(),
            rounds.as_slice(),
        ),
        [word, path, blocks, areas, quota] => read_five(
            word.as_slice(),
            path.as_slice(),
            blocks.as_slice(),
            areas.as_slice(),
            quota.as_slice(),
        ),
        _ => None,
    }
}
