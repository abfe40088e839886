ghost use Rattle.std.specs.Prelude.{◌≡◌};
ghost use Rattle.sf_words.specs.Verbs.{action_of as action_named, asking_verb_of as asking_verb_named, verb_of as verb_named};

/// The first word of a command.
#[derive(Clone, Copy, Debug, PartialEq, Eq)]
pub enum Verb {
    Layer,
    Column,
    Add,
    AddHex,
    Delete,
    Replace,
    Vertex,
    Set,
    Unset,
    Rule,
    Undo,
    Redo,
    Layers,
    Columns,
    Rules,
    Show,
    Get,
    Find,
    Check,
    Hex,
    Box,
    Simple,
    Area,
    Length,
    Distance,
    Nearest,
    Reach,
    Relate,
    Match,
    Query,
    Join,
}

/// What is done with a layer, a column, a vertex or a rule.
#[derive(Clone, Copy, Debug, PartialEq, Eq)]
pub enum Action {
    Add,
    Drop,
    Rename,
    Move,
    Insert,
    Remove,
}

/// The verb that a word spells, in small letters. Words are compared in turn: those that come most often stand first.
pub fn verb_of(word: &str) -> Option<Verb>
    ensures { result ≡ verb_named word.now }
{
    match word {
        "add" => Some(Verb::Add),
        "set" => Some(Verb::Set),
        "vertex" => Some(Verb::Vertex),
        "undo" => Some(Verb::Undo),
        "redo" => Some(Verb::Redo),
        "delete" => Some(Verb::Delete),
        "replace" => Some(Verb::Replace),
        "unset" => Some(Verb::Unset),
        "addhex" => Some(Verb::AddHex),
        "layer" => Some(Verb::Layer),
        "column" => Some(Verb::Column),
        "rule" => Some(Verb::Rule),
        _ => asking_verb_of(word),
    }
}

/// The verb of a question that a word spells: it changes neither the store nor its history.
fn asking_verb_of(word: &str) -> Option<Verb>
    ensures { result ≡ asking_verb_named word.now }
{
    match word {
        "layers" => Some(Verb::Layers),
        "columns" => Some(Verb::Columns),
        "rules" => Some(Verb::Rules),
        "show" => Some(Verb::Show),
        "get" => Some(Verb::Get),
        "find" => Some(Verb::Find),
        "check" => Some(Verb::Check),
        "hex" => Some(Verb::Hex),
        "box" => Some(Verb::Box),
        "simple" => Some(Verb::Simple),
        "area" => Some(Verb::Area),
        "length" => Some(Verb::Length),
        "distance" => Some(Verb::Distance),
        "nearest" => Some(Verb::Nearest),
        "reach" => Some(Verb::Reach),
        "relate" => Some(Verb::Relate),
        "match" => Some(Verb::Match),
        "query" => Some(Verb::Query),
        "join" => Some(Verb::Join),
        _ => None,
    }
}

/// The action that a word spells, in small letters.
pub fn action_of(word: &str) -> Option<Action>
    ensures { result ≡ action_named word.now }
{
    match word {
        "add" => Some(Action::Add),
        "drop" => Some(Action::Drop),
        "rename" => Some(Action::Rename),
        "move" => Some(Action::Move),
        "insert" => Some(Action::Insert),
        "remove" => Some(Action::Remove),
        _ => None,
    }
}
