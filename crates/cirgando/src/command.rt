// The commands of a transcript.
use crate::words::number;
use std::fmt;
use std::str::SplitWhitespace;

/// A command, with the words that it is given.
#[derive(Clone, Copy)]
pub(crate) enum Command<'a> {
    /// What stands is another thing then.
    Turn(Turn),
    /// A call on what stands.
    Call(Call<'a>),
    /// The hash of a key.
    Key(Key<'a>),
}

/// A command after which another thing stands.
#[derive(Clone, Copy)]
pub(crate) enum Turn {
    /// A new pile.
    Pile(Pile),
    /// A store over the pile.
    Store(Rule),
    /// The pile again, without the store.
    Close,
}

/// What stands: nothing, a pile that is no group device, one that is, or a store over one.
#[derive(Clone, Copy)]
pub(crate) enum Stage {
    Nothing,
    Single,
    Group,
    Store,
}

impl Stage {
    /// The turn, where it can be taken from here.
    pub(crate) fn takes(self, turn: Turn) -> Result<Turn, Wrong> {
        match (self, turn) {
            (_, Turn::Pile(_)) | (Stage::Group, Turn::Store(_)) | (Stage::Store, Turn::Close) => {
                Ok(turn)
            }
            (Stage::Nothing, Turn::Store(_)) => Err(Wrong::NoPile),
            (Stage::Single, Turn::Store(_)) => Err(Wrong::NoGroup),
            (Stage::Store, Turn::Store(_)) => Err(Wrong::StoreStands),
            (_, Turn::Close) => Err(Wrong::NoStore),
        }
    }
}

/// A key, as it is written, and its rule.
#[derive(Clone, Copy)]
pub(crate) struct Key<'a> {
    pub(crate) rule: Rule,
    pub(crate) bytes: &'a str,
}

/// A pile: a disk of so many pages, and the layers on it.
#[derive(Clone, Copy)]
pub(crate) struct Pile {
    pub(crate) pages: u64,
    pub(crate) layers: Layers,
}

/// The layers of a pile, from the bottom up.
#[derive(Clone, Copy)]
pub(crate) enum Layers {
    None,
    Cache,
    Journal,
    JournalCache,
    CacheJournal,
    CacheJournalCache,
}

/// The key rules.
#[derive(Clone, Copy)]
pub(crate) enum Rule {
    Integers,
    Text,
}

/// A call on what stands.
#[derive(Clone, Copy)]
pub(crate) enum Call<'a> {
    /// Arms the disk at the bottom.
    Arm { n: u32, letters: &'a str, t: u64 },
    /// A call on the top of a pile.
    Page(PageCall<'a>),
    /// A call of a store.
    Store(StoreCall<'a>),
}

/// A call on the top of a pile.
#[derive(Clone, Copy)]
pub(crate) enum PageCall<'a> {
    Read { page: u64, len: u64 },
    Write { page: u64, bytes: &'a str },
    Sync,
    Restart,
    Discard,
}

/// A call of a store.
#[derive(Clone, Copy)]
pub(crate) enum StoreCall<'a> {
    Format,
    Recover,
    Get { key: &'a str, len: u64 },
}

/// What is wrong with a line.
#[derive(Clone, Copy, Debug, PartialEq, Eq)]
pub(crate) enum Wrong {
    NotText,
    NoCommand,
    Usage(Form),
    NotANumber,
    NotBytes,
    NoPile,
    NoGroup,
    NoStore,
    StoreStands,
}

/// The forms of the commands.
#[derive(Clone, Copy, Debug, PartialEq, Eq)]
pub(crate) enum Form {
    Pile,
    Arm,
    Page,
    Key,
    Store,
    Close,
    Format,
    Recover,
    Get,
}

impl fmt::Display for Form {
    fn fmt<W: fmt::Write>(&self, f: &mut fmt::Formatter<W>) -> fmt::Result {
        f.write_str(match self {
            Form::Pile =>
                "pile disk PAGES LAYER.., with no layer, cache, journal, journal cache, cache journal or cache journal cache",
            Form::Arm => "arm N LETTERS T",
            Form::Key => "key RULE BYTES, RULE being text or integer",
            Form::Page =>
                "page read P LEN, page write P BYTES, page sync, page restart or page discard",
            Form::Store => "store RULE, RULE being text or integer",
            Form::Close => "close",
            Form::Format => "format",
            Form::Recover => "recover",
            Form::Get => "get KEY LEN",
        })
    }
}

impl fmt::Display for Wrong {
    fn fmt<W: fmt::Write>(&self, f: &mut fmt::Formatter<W>) -> fmt::Result {
        match self {
            Wrong::NotText => f.write_str("the line is not UTF-8 text"),
            Wrong::NoCommand => f.write_str("there is no such command"),
            Wrong::Usage(form) => write!(f, "the form is {form}"),
            Wrong::NotANumber => f.write_str("not a decimal number, or one that does not fit"),
            Wrong::NotBytes => f.write_str("bytes are 0x and an even number of hex digits"),
            Wrong::NoPile => f.write_str("there is no pile"),
            Wrong::NoGroup => f.write_str("the pile is no group device"),
            Wrong::NoStore => f.write_str("there is no store"),
            Wrong::StoreStands => f.write_str("a store stands on the pile"),
        }
    }
}

/// The command that a line writes; none on a blank line or a comment.
pub(crate) fn parse(line: &[u8]) -> Result<Option<Command<'_>>, Wrong> {
    if let [b'#', ..] = line {
        return Ok(None);
    }
    let text = std::str::from_utf8(line).map_err(|_| Wrong::NotText)?;
    let mut words = text.split_whitespace();
    let Some(first) = words.next() else {
        return Ok(None);
    };
    let words = &mut words;
    let command = match first {
        "pile" => Command::Turn(pile_command(words)?),
        "store" => Command::Turn(store_command(words)?),
        "close" => Command::Turn(alone(words, Form::Close, Turn::Close)?),
        "arm" => Command::Call(arm_command(words)?),
        "page" => Command::Call(page_command(words)?),
        "format" => Command::Call(alone(words, Form::Format, Call::Store(StoreCall::Format))?),
        "recover" => Command::Call(alone(words, Form::Recover, Call::Store(StoreCall::Recover))?),
        "get" => Command::Call(get_command(words)?),
        "key" => Command::Key(key_command(words)?),
        _ => return Err(Wrong::NoCommand),
    };
    Ok(Some(command))
}

// A word that has to be there.
fn word<'a>(words: &mut SplitWhitespace<'a>, form: Form) -> Result<&'a str, Wrong> {
    words.next().ok_or(Wrong::Usage(form))
}

// A number that has to be there.
fn number_word<'a>(words: &mut SplitWhitespace<'a>, form: Form) -> Result<u64, Wrong> {
    number(word(words, form)?).ok_or(Wrong::NotANumber)
}

// No word is left.
fn end<'a>(words: &mut SplitWhitespace<'a>, form: Form) -> Result<(), Wrong> {
    match words.next() {
        Some(_) => Err(Wrong::Usage(form)),
        None => Ok(()),
    }
}

// A command of one word.
fn alone<'a, T: Copy>(words: &mut SplitWhitespace<'a>, form: Form, command: T) -> Result<T, Wrong> {
    end(words, form)?;
    Ok(command)
}

fn pile_command<'a>(words: &mut SplitWhitespace<'a>) -> Result<Turn, Wrong> {
    let form = Form::Pile;
    let "disk" = word(words, form)? else {
        return Err(Wrong::Usage(form));
    };
    let pages = number_word(words, form)?;
    let layers = layer_words(words)?;
    Ok(Turn::Pile(Pile { pages, layers }))
}

// The layers that the rest of a line names.
fn layer_words(words: &mut SplitWhitespace<'_>) -> Result<Layers, Wrong> {
    match (words.next(), words.next(), words.next(), words.next()) {
        (None, _, _, _) => Ok(Layers::None),
        (Some("cache"), None, _, _) => Ok(Layers::Cache),
        (Some("journal"), None, _, _) => Ok(Layers::Journal),
        (Some("journal"), Some("cache"), None, _) => Ok(Layers::JournalCache),
        (Some("cache"), Some("journal"), None, _) => Ok(Layers::CacheJournal),
        (Some("cache"), Some("journal"), Some("cache"), None) => Ok(Layers::CacheJournalCache),
        _ => Err(Wrong::Usage(Form::Pile)),
    }
}

fn arm_command<'a>(words: &mut SplitWhitespace<'a>) -> Result<Call<'a>, Wrong> {
    let form = Form::Arm;
    let n = u32::try_from(number_word(words, form)?).map_err(|_| Wrong::NotANumber)?;
    let letters = word(words, form)?;
    let t = number_word(words, form)?;
    end(words, form)?;
    Ok(Call::Arm { n, letters, t })
}

// A key rule, by its name.
fn rule_word<'a>(words: &mut SplitWhitespace<'a>, form: Form) -> Result<Rule, Wrong> {
    match word(words, form)? {
        "text" => Ok(Rule::Text),
        "integer" => Ok(Rule::Integers),
        _ => Err(Wrong::Usage(form)),
    }
}

fn store_command<'a>(words: &mut SplitWhitespace<'a>) -> Result<Turn, Wrong> {
    let rule = rule_word(words, Form::Store)?;
    end(words, Form::Store)?;
    Ok(Turn::Store(rule))
}

fn key_command<'a>(words: &mut SplitWhitespace<'a>) -> Result<Key<'a>, Wrong> {
    let form = Form::Key;
    let rule = rule_word(words, form)?;
    let bytes = word(words, form)?;
    end(words, form)?;
    Ok(Key { rule, bytes })
}

fn get_command<'a>(words: &mut SplitWhitespace<'a>) -> Result<Call<'a>, Wrong> {
    let form = Form::Get;
    let key = word(words, form)?;
    let len = number_word(words, form)?;
    end(words, form)?;
    Ok(Call::Store(StoreCall::Get { key, len }))
}

fn page_command<'a>(words: &mut SplitWhitespace<'a>) -> Result<Call<'a>, Wrong> {
    let form = Form::Page;
    let call = match word(words, form)? {
        "read" => PageCall::Read {
            page: number_word(words, form)?,
            len: number_word(words, form)?,
        },
        "write" => PageCall::Write {
            page: number_word(words, form)?,
            bytes: word(words, form)?,
        },
        "sync" => PageCall::Sync,
        "restart" => PageCall::Restart,
        "discard" => PageCall::Discard,
        _ => return Err(Wrong::Usage(form)),
    };
    end(words, form)?;
    Ok(Call::Page(call))
}
