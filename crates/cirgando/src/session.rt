// Plays the commands of a transcript.
use crate::answer::{Answer, Denial};
use crate::command::{
    Call, Command, Key, Layers, PageCall, Pile, Rule, Stage, StoreCall, Turn, Wrong, parse,
};
use crate::script::Script;
use crate::words::bytes;
use cache::Cache;
use device::{DeviceFault, GroupDevice};
use disk::Disk;
use journal::Journal;
use keys::{IntegerKeys, KeyRule, TextKeys};
use pile::Armed;
use std::alloc::Global;
use std::io::BufRead;
use store::{Store, StoreFault};

/// The most pages of a disk, and the bytes of its raw pages.
const MAX_PAGES: u64 = 131_072;

const RAW_SIZE: usize = 256;

/// The longest buffer that a read is lent. No device takes one of this length, or longer.
const MAX_BUFFER: u64 = 4096;

/// The most lines that are played: no input has more.
const MAX_LINES: u64 = u64::MAX;

/// Plays a whole transcript.
pub(crate) fn play<R: BufRead + Drop>(
    rt: &HostRuntime,
    script: &mut Script<R>,
) -> anyhow::Result<()> {
    let mut turn = play_commands(rt, script, Stage::Nothing, |_| {
        Err(Denial::Wrong(Wrong::NoPile))
    })?;
    for _ in 0..MAX_LINES {
        let Some(Turn::Pile(pile)) = turn else {
            break;
        };
        turn = play_new_pile(rt, script, pile)?;
    }
    Ok(())
}

// Plays the commands up to the next turn, which it answers. What a call is answered is told by `answer`.
fn play_commands<R: BufRead + Drop, F: FnMut(Call<'_>) -> Result<Answer, Denial>>(
    rt: &HostRuntime,
    script: &mut Script<R>,
    stage: Stage,
    mut answer: F,
) -> anyhow::Result<Option<Turn>>
    requires { F.IsAlwaysCallable answer }
{
    for _ in 0..MAX_LINES {
        let Some(line) = script.next_line()? else {
            break;
        };
        match parse(line) {
            Ok(None) => {}
            Ok(Some(Command::Turn(turn))) => match stage.takes(turn) {
                Ok(turn) => return Ok(Some(turn)),
                Err(wrong) => say(rt, Err(Denial::Wrong(wrong)))?,
            },
            Ok(Some(Command::Key(key))) => say(rt, hash(rt.alloc(), key))?,
            Ok(Some(Command::Call(call))) => say(rt, answer(call))?,
            Err(wrong) => say(rt, Err(Denial::Wrong(wrong)))?,
        }
    }
    Ok(None)
}

// Makes a pile over zeroed images, plays the commands on it, and answers the next turn.
fn play_new_pile<R: BufRead + Drop>(
    rt: &HostRuntime,
    script: &mut Script<R>,
    pile: Pile,
) -> anyhow::Result<Option<Turn>> {
    let count = pile.pages.min(MAX_PAGES) as usize;
    let heap = rt.alloc();
    let mut settled = vec![in heap; 0u8; count * RAW_SIZE]?;
    let mut written = vec![in heap; 0u8; count * RAW_SIZE]?;
    let mut marks = vec![in heap; 0u8; count]?;
    play_layers(
        rt,
        script,
        settled.as_mut_slice(),
        written.as_mut_slice(),
        marks.as_mut_slice(),
        pile.layers,
    )
}

// Makes a disk over the images and puts the layers on it, and plays the commands on the pile.
fn play_layers<R: BufRead + Drop>(
    rt: &HostRuntime,
    script: &mut Script<R>,
    settled: &mut [u8],
    written: &mut [u8],
    marks: &mut [u8],
    layers: Layers,
) -> anyhow::Result<Option<Turn>> {
    let disk = Disk::new(settled, written, marks);
    match layers {
        Layers::None => play_single(rt, script, disk),
        Layers::Cache => play_single(rt, script, Cache::new(disk)),
        Layers::Journal => play_group(rt, script, Journal::new(disk)),
        Layers::JournalCache => play_group(rt, script, Cache::new(Journal::new(disk))),
        Layers::CacheJournal => play_group(rt, script, Journal::new(Cache::new(disk))),
        Layers::CacheJournalCache => {
            play_group(rt, script, Cache::new(Journal::new(Cache::new(disk))))
        }
    }
}

// Plays the commands on a pile that is no group device: it has no discard.
fn play_single<R: BufRead + Drop, D: Armed + Drop>(
    rt: &HostRuntime,
    script: &mut Script<R>,
    mut device: D,
) -> anyhow::Result<Option<Turn>> {
    say(rt, Ok(Answer::Count(device.page_count())))?;
    play_pile(rt, script, Stage::Single, &mut device, |_| None)
}

// Plays the commands on a pile that is a group device, and on the stores that stand on it.
fn play_group<R: BufRead + Drop, G: Armed + GroupDevice + Drop>(
    rt: &HostRuntime,
    script: &mut Script<R>,
    device: G,
) -> anyhow::Result<Option<Turn>> {
    let mut pile = Some(device);
    let Some(device) = &mut pile else {
        return Ok(None);
    };
    say(rt, Ok(Answer::Count(device.page_count())))?;
    match play_on_group(rt, script, device)? {
        Some(Turn::Store(rule)) => play_stores(rt, script, &mut pile, rule),
        turn => Ok(turn),
    }
}

// Plays the commands on a pile that is a group device up to the next turn, which may be a store.
fn play_on_group<R: BufRead + Drop, G: Armed + GroupDevice>(
    rt: &HostRuntime,
    script: &mut Script<R>,
    device: &mut G,
) -> anyhow::Result<Option<Turn>> {
    play_pile(
        rt,
        script,
        Stage::Group,
        device,
        |group| Some(group.discard()),
    )
}

// Plays the commands on stores that stand on a pile one after the other, and on the pile between them. The pile moves into a store and back: the
// places for it are of this function, which is not inlined and takes the pile itself, so that a pile without a store does not pay for them.
#[inline(never)]
fn play_stores<R: BufRead + Drop, G: Armed + GroupDevice + Drop>(
    rt: &HostRuntime,
    script: &mut Script<R>,
    pile: &mut Option<G>,
    mut rule: Rule,
) -> anyhow::Result<Option<Turn>> {
    for _ in 0..MAX_LINES {
        let Some(device) = pile.take() else {
            break;
        };
        let (mut device, turn) = match rule {
            Rule::Integers => play_store::<R, G, IntegerKeys>(rt, script, device)?,
            Rule::Text => play_store::<R, G, TextKeys>(rt, script, device)?,
        };
        let Some(Turn::Close) = turn else {
            return Ok(turn);
        };
        let turn = play_on_group(rt, script, &mut device)?;
        let Some(Turn::Store(next)) = turn else {
            return Ok(turn);
        };
        *pile = Some(device);
        rule = next;
    }
    Ok(None)
}

// Plays the commands on a store over a pile, and gives the pile back with the turn that ended it.
fn play_store<R: BufRead + Drop, G: Armed + GroupDevice + Drop, K: KeyRule>(
    rt: &HostRuntime,
    script: &mut Script<R>,
    device: G,
) -> anyhow::Result<(G, Option<Turn>)> {
    let heap = rt.alloc();
    let mut store = Store::<G, K>::new(device);
    say(rt, Ok(Answer::Done))?;
    let turn = play_commands(
        rt,
        script,
        Stage::Store,
        |call| call_store(heap, &mut store, call),
    )?;
    if let Some(Turn::Close) = turn {
        say(rt, Ok(Answer::Done))?;
    }
    Ok((store.into_device(), turn))
}

// Plays the commands on a pile, whose discard is told, if it has one.
fn play_pile<R: BufRead + Drop, D: Armed, F: Fn(&mut D) -> Option<Result<(), DeviceFault>>>(
    rt: &HostRuntime,
    script: &mut Script<R>,
    stage: Stage,
    device: &mut D,
    discard: F,
) -> anyhow::Result<Option<Turn>>
    requires { (f : F) (x : _) → F.pre f x }
{
    let heap = rt.alloc();
    play_commands(
        rt,
        script,
        stage,
        |call|
            requires { (f : _) (x : _) → F.pre f x }
        { call_pile(heap, device, &discard, call) },
    )
}

// Makes a call on a pile.
fn call_pile<D: Armed, F: Fn(&mut D) -> Option<Result<(), DeviceFault>>>(
    heap: Global,
    device: &mut D,
    discard: &F,
    call: Call<'_>,
) -> Result<Answer, Denial>
    requires { (f : F) (x : _) → F.pre f x }
{
    match call {
        Call::Arm { n, letters, t } => device.arm_disk(n, letters.as_bytes(), t as usize)?,
        Call::Page(PageCall::Read { page, len }) => return read(heap, device, page, len),
        Call::Page(PageCall::Write { page, bytes: word }) => {
            let buf = bytes(heap, word)?.ok_or(Wrong::NotBytes)?;
            device.write(page as usize, buf.as_slice())?
        }
        Call::Page(PageCall::Sync) => device.sync()?,
        Call::Page(PageCall::Restart) => device.restart()?,
        Call::Page(PageCall::Discard) => discard(device).ok_or(Wrong::NoGroup)??,
        Call::Store(_) => return Err(Denial::Wrong(Wrong::NoStore)),
    }
    Ok(Answer::Done)
}

// Makes a call on a store.
fn call_store<G: Armed + GroupDevice, K: KeyRule>(
    heap: Global,
    store: &mut Store<G, K>,
    call: Call<'_>,
) -> Result<Answer, Denial> {
    match call {
        Call::Arm { n, letters, t } => {
            store
                .device_mut()
                .arm_disk(n, letters.as_bytes(), t as usize)?
        }
        Call::Page(_) => return Err(Denial::Wrong(Wrong::StoreStands)),
        Call::Store(StoreCall::Format) => store.format()?,
        Call::Store(StoreCall::Recover) => store.recover()?,
        Call::Store(StoreCall::Get { key, len }) => return get(heap, store, key, len),
    }
    Ok(Answer::Done)
}

// Looks a key up with a buffer of `len` bytes.
fn get<G: GroupDevice, K: KeyRule>(
    heap: Global,
    store: &mut Store<G, K>,
    key: &str,
    len: u64,
) -> Result<Answer, Denial> {
    let key = bytes(heap, key)?.ok_or(Wrong::NotBytes)?;
    let mut buf = vec![in heap; 0u8; len.min(MAX_BUFFER) as usize]?;
    let found = store.get(key.as_slice(), buf.as_mut_slice())?;
    buf.truncate(found.length);
    Ok(Answer::Got(found, buf))
}

// Reads a page into a buffer of `len` bytes.
fn read<D: Armed>(heap: Global, device: &mut D, page: u64, len: u64) -> Result<Answer, Denial> {
    let mut buf = vec![in heap; 0u8; len.min(MAX_BUFFER) as usize]?;
    device.read(page as usize, buf.as_mut_slice())?;
    Ok(Answer::Bytes(buf))
}

// The hash of a key.
fn hash(heap: Global, key: Key<'_>) -> Result<Answer, Denial> {
    let key_bytes = bytes(heap, key.bytes)?.ok_or(Wrong::NotBytes)?;
    match key.rule {
        Rule::Integers => hash_by::<IntegerKeys>(key_bytes.as_slice()),
        Rule::Text => hash_by::<TextKeys>(key_bytes.as_slice()),
    }
}

fn hash_by<K: KeyRule>(key: &[u8]) -> Result<Answer, Denial> {
    if !K::is_valid(key) {
        return Err(StoreFault::KeyNotValid.into());
    }
    Ok(Answer::Hash(K::hash(key)))
}

// Prints what a command is answered. Want of memory ends the program.
fn say(rt: &HostRuntime, reply: Result<Answer, Denial>) -> anyhow::Result<()> {
    match reply {
        Ok(answer) => rt.println(answer)?,
        Err(Denial::NoMemory(error)) => return Err(anyhow::Error::from(error)),
        Err(denial) => rt.println(denial)?,
    }
    Ok(())
}
