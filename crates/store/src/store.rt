//! The store.
ghost use Rattle.std.specs.Prelude.{◌≡◌, ℕ, List, [], ◌≢◌};
ghost use Rattle.std.specs.Borrow.{sem, follows};
ghost use Rattle.store.specs.contracts.store.Store.{the_row};
ghost use Rattle.store.specs.Replies.{get, recover, event_of, replied, done_or, got_or, Shaped};
ghost use Rattle.store.specs.Agree.{Unopened};
ghost use Rattle.store.specs.Clauses.{most, after, Follows, Rests, Alone, Formats};

use crate::kinds::{Answer, Call, Phase, StoreFault};
use access::Found;
use device::{Device, GroupDevice};
use keys::KeyRule;
use std::marker::PhantomData;

/// The fewest pages of a device that a store stands on.
const FEWEST_PAGES: usize = 6;

/// The most buckets of a store.
const MOST_BUCKETS: usize = 256;

/// The fewest bytes of a get's buffer: no value is longer.
const VALUE_ROOM: usize = 120;

/// A store of records over a group device, whose keys go by the rule `K`.
#[derive(Drop)]
pub struct Store<D, K> {
    device: D,
    phase: Phase,
    counter: u32,
    // beside the phase, since the book keeps it in each
    changes: u8,
    rule: PhantomData<K>,
}

/// The largest number of buckets that a device of so many pages has room for.
fn most_buckets(pages: usize) -> u16
    ensures { result ≡ most pages }
{
    pages.saturating_sub(5).min(MOST_BUCKETS) as u16
}

// A clause names the key rule and the three ghost members of the device each time: no struct could hold them.
impl<D: GroupDevice, K: KeyRule> Store<D, K> {
    /// A store over a device: stopped, until a format or a recover is accepted.
    pub fn new(device: D) -> Store<D, K>
        ensures device { result.device ≡ device }
        ensures counter { result.counter ≡ 0 }
        ensures unopened { D.Device.agrees device → Unopened D.Device.agrees result }
    {
        Store {
            device,
            phase: Phase::Stopped,
            counter: 0,
            changes: 0,
            rule: PhantomData,
        }
    }

    /// Restarts the device, writes an empty store with the largest number of buckets, syncs, and is idle.
    pub fn format(&mut self) -> Result<(), StoreFault>
        ensures { D.Device.agrees self.old.device → Formats K.KeyRule.rule D.Device.agrees D.Device.meaning D.GroupDevice.grouped self.old (done_or result) self.new }
    {
        let pages = self.device.page_count();
        if pages < FEWEST_PAGES {
            return Err(StoreFault::TooFewPages);
        }
        self.phase = Phase::Stopped;
        access::make_empty_store::<D, K>(&mut self.device, most_buckets(pages))?;
        self.phase = Phase::Idle;
        self.changes = 0;
        Ok(())
    }

    /// A get on a store that is not stopped.
    fn get_running(&mut self, key: &[u8], buf: &mut [u8]) -> Result<Answer, StoreFault>
        requires { self.old.phase ≢ Phase.Stopped }
        ensures shape { Shaped (get key.now) result }
        ensures book { Follows K.KeyRule.rule D.Device.agrees D.Device.meaning D.GroupDevice.grouped (get key.now) self.old buf.old (replied result) buf.new (after (replied result) self.new) }
    {
        if !K::is_valid(key) {
            return Err(StoreFault::KeyNotValid);
        }
        if buf.len() < VALUE_ROOM {
            return Err(StoreFault::ShortBuffer);
        }
        match access::look_up::<D, K>(&mut self.device, key, buf)? {
            Some(found) => Ok(Answer::Got(found)),
            None => Err(StoreFault::KeyAbsent),
        }
    }

    /// A recover, in any phase.
    fn recover_any(&mut self) -> Result<Answer, StoreFault>
        ensures shape { Shaped recover result }
        ensures book { (buf : List ℕ) → Follows K.KeyRule.rule D.Device.agrees D.Device.meaning D.GroupDevice.grouped recover self.old buf (replied result) buf (after (replied result) self.new) }
        ensures alone { (buf : List ℕ) → Alone K.KeyRule.rule D.Device.agrees D.Device.meaning D.GroupDevice.grouped recover self.old buf (replied result) buf (after (replied result) self.new) }
    {
        if self.device.page_count() < FEWEST_PAGES {
            return Err(StoreFault::TooFewPages);
        }
        GroupDevice::restart(&mut self.device)?;
        pages::check_image::<D, K>(&mut self.device)?;
        self.phase = Phase::Idle;
        Ok(Answer::Done)
    }

    /// A call, matched with the phase; a loss of power is not yet noted.
    fn attempt(&mut self, call: Call<'_>, buf: &mut [u8]) -> Result<Answer, StoreFault>
        ensures shape { Shaped (event_of call.entry) result }
        ensures book { Follows K.KeyRule.rule D.Device.agrees D.Device.meaning D.GroupDevice.grouped (event_of call.entry) self.old buf.old (replied result) buf.new (after (replied result) self.new) }
        ensures alone { Alone K.KeyRule.rule D.Device.agrees D.Device.meaning D.GroupDevice.grouped (event_of call.entry) self.old buf.old (replied result) buf.new (after (replied result) self.new) }
    {
        match (self.phase, call) {
            (_, Call::Recover) => self.recover_any(),
            (Phase::Stopped, _) => Err(StoreFault::NotRunning),
            (Phase::Idle | Phase::Open, Call::Get(key)) => self.get_running(key, buf),
        }
    }

    /// Plays one call. Only a loss of power stops the store.
    pub fn step(&mut self, call: Call<'_>, buf: &mut [u8]) -> Result<Answer, StoreFault>
        ensures shape { Shaped (event_of call.entry) result }
        ensures book { Follows K.KeyRule.rule D.Device.agrees D.Device.meaning D.GroupDevice.grouped (event_of call.entry) self.old buf.old (replied result) buf.new self.new }
        ensures alone { Alone K.KeyRule.rule D.Device.agrees D.Device.meaning D.GroupDevice.grouped (event_of call.entry) self.old buf.old (replied result) buf.new self.new }
    {
        let answer = self.attempt(call, buf);
        if let Err(fault) = answer {
            if fault.is_loss() {
                self.phase = Phase::Stopped;
            }
        }
        answer
    }

    /// Looks a key up in the open map, or in the known one when idle, and puts the value of its record at the front of the buffer.
    pub fn get(&mut self, key: &[u8], buf: &mut [u8]) -> Result<Found, StoreFault>
        ensures book { Follows K.KeyRule.rule D.Device.agrees D.Device.meaning D.GroupDevice.grouped (get key.now) self.old buf.old (got_or result) buf.new self.new }
        ensures rests { Rests K.KeyRule.rule D.Device.agrees D.Device.meaning D.GroupDevice.grouped self.old buf.old (got_or result) buf.new self.new }
    {
        match self.step(Call::Get(key), buf)? {
            Answer::Got(found) => Ok(found),
            Answer::Done => unreachable(),
        }
    }

    /// Restarts the device, and opens what stands.
    pub fn recover(&mut self) -> Result<(), StoreFault>
        ensures book { Follows K.KeyRule.rule D.Device.agrees D.Device.meaning D.GroupDevice.grouped recover self.old [] (done_or result) [] self.new }
        ensures alone { Alone K.KeyRule.rule D.Device.agrees D.Device.meaning D.GroupDevice.grouped recover self.old [] (done_or result) [] self.new }
    {
        match self.step(Call::Recover, &mut [])? {
            Answer::Done => Ok(()),
            Answer::Got(_) => unreachable(),
        }
    }
}

impl<D, K> Store<D, K> {
    /// The device below, for what only it has. The store then stands over what is left there.
    pub fn device_mut(&mut self) -> &mut D
        ensures value { result.now ≡ self.old.device }
        ensures* follows { sem 𝓛 (follows (the_row D.row K.row) D.row self.entry.ghost_name result.ghost_name (λ w. record { device = w; phase = self.old.phase; counter = self.old.counter; changes = self.old.changes; rule = self.old.rule })) }
    {
        &mut self.device
    }

    /// The device below, when the store is no longer wanted.
    pub fn into_device(self) -> D
        ensures { result ≡ self.device }
    {
        let Store {
            device,
            phase: _,
            counter: _,
            changes: _,
            rule: _,
        } = self;
        device
    }
}
