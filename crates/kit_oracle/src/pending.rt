//! A federate's undelivered messages, in the order of their keys.

ghost use Rattle.std.specs.Prelude.{◌≡◌, ◌≤◌, true, false, [], ◌∷◌, ◌++◌, IfSome, IfNone, OnOk, OnErr};
ghost use Rattle.std.specs.Option.{option_to_list};
ghost use Rattle.std.specs.List.{AllByRecursion};
ghost use Rattle.std.specs.List.Sorted.{IsStrictlySortedBy};
ghost use Rattle.std.specs.Ordering.{is_lt};
ghost use Rattle.std.specs.BTreeMap.{values};
ghost use Rattle.std.specs.declared.cmp.Ordering.TheVariants.{Less};
ghost use Rattle.kit_base.specs.declared.message.Message.{Message};
ghost use Rattle.kit_base.specs.Order.{key_cmp};
ghost use Rattle.kit_oracle.specs.Pending.{key_of, compare_keys, has_key, queue_with, front_until};
ghost use Rattle.kit_oracle.specs.Pending.{first_time, without_key, IsByKey, IsPlace, IsKeyAt};

use kit_base::Message;
use std::alloc::{AllocError, Global};
use std::collections::{BTreeMap, VecDeque};
use std::marker::Model;

/// What messages are ordered by.
#[derive(Clone, Copy, Debug, PartialEq, Eq, PartialOrd, Ord)]
pub struct Key {
    pub time: u64,
    pub sender: u8,
    pub number: u32,
}

/// How many messages stand in the row at most.
const MOST_NEAR: usize = 128;

/// Messages in the order of their keys: the first of them in a row, and those behind them in a
/// tree, each under its key.
#[derive(Drop)]
pub struct PendingMessages {
    near: VecDeque<Message>,
    far: BTreeMap<Key, Message>,
}

impl Model for PendingMessages {
    ghost use Rattle.std.specs.Prelude.{List, ◌++◌};
    ghost use Rattle.std.specs.BTreeMap.{values};
    ghost use Rattle.kit_base.specs.declared.message.Message.{Message};

    ghost Value = { List Message };

    ghost view = { λ q. q.near.items ++ values q.far };

    ghost use Rattle.std.specs.List.Sorted.{IsStrictlySortedBy};
    ghost use Rattle.kit_base.specs.Order.{key_cmp};
    ghost use Rattle.kit_oracle.specs.Pending.{IsByKey};

    ghost invariant = { λ q. IsByKey q.far.entries
        × IsStrictlySortedBy key_cmp (q.near.items ++ values q.far) };
}

fn key_of(message: &Message) -> Key
    ensures { result ≡ key_of message.now }
{
    Key {
        time: message.time,
        sender: message.sender,
        number: message.number as u32,
    }
}

/// Whether a key comes before another.
fn precedes(key: Key, other: Key) -> bool
    ensures { result ≡ is_lt (compare_keys key other) }
{
    key < other
}

/// Whether a message comes before a key.
fn comes_before(message: &Message, key: Key) -> bool
    ensures { result ≡ is_lt (compare_keys (key_of message.now) key) }
{
    precedes(key_of(message), key)
}

/// Whether a message has a key.
fn has_key(message: &Message, key: Key) -> bool
    ensures { result ≡ has_key key.time key.sender key.number message.now }
{
    key.time == message.time && key.sender == message.sender && key.number == message.number as u32
}

/// How many messages of a row come before a key.
fn place(near: &VecDeque<Message>, key: Key) -> usize
    requires { IsStrictlySortedBy key_cmp near.now.items }
    ensures { IsPlace key near.now.items result }
{
    near.partition_point(|other| comes_before(other, key))
}

/// Whether a key's place in a row is that of a message with the key.
fn has_at(near: &VecDeque<Message>, at: usize, key: Key) -> bool
    ensures { IsKeyAt key near.now.items at result }
{
    match near.get(at) {
        Some(message) => has_key(message, key),
        None => false,
    }
}

/// Puts a message in its place in a row, or in that of the one with its key.
fn put(near: &mut VecDeque<Message>, message: Message) -> Result<(), AllocError>
    requires { IsStrictlySortedBy key_cmp near.old.items }
    ensures ok { OnOk result (near.new.items ≡ queue_with message near.old.items) }
    ensures err { OnErr result (near.new.items ≡ near.old.items) }
{
    let key = key_of(&message);
    let at = place(near, key);
    if has_at(near, at, key) {
        near[at] = message;
        return Ok(());
    }
    near.insert(at, message)?;
    Ok(())
}

/// Takes the message of a key out of a row, if it is there.
fn take_out(near: &mut VecDeque<Message>, key: Key)
    requires { IsStrictlySortedBy key_cmp near.old.items }
    ensures { near.new.items ≡ without_key key.time key.sender key.number near.old.items }
{
    let at = place(near, key);
    if has_at(near, at, key) {
        let _ = near.remove(at);
    }
}

/// Whether a key comes before all of a tree.
fn is_near(far: &BTreeMap<Key, Message>, key: Key) -> bool
    requires { IsByKey far.now.entries }
    ensures near { result ≡ true → AllByRecursion
        (λ (y : _). compare_keys key (key_of y) ≡ Less) (values far.now) }
    ensures far { result ≡ false → (x : Message) → AllByRecursion
        (λ (y : _). key_cmp x y ≡ Less) (values far.now) → compare_keys (key_of x) key ≡ Less }
{
    match far.first_key_value() {
        None => true,
        Some((first, _)) => precedes(key, *first),
    }
}

/// Takes out the first message of a tree, if it is timed `by` or less.
fn pop_far(far: &mut BTreeMap<Key, Message>, by: u64) -> Option<Message>
    requires { IsByKey far.old.entries }
    ensures by_key { IsByKey far.new.entries }
    ensures items { values far.old ≡ option_to_list result ++ values far.new }
    ensures some { IfSome result (λ m. values far.old ≡ m ∷ values far.new) }
    ensures due { IfSome result (λ m. m.time ≤ by) }
    ensures none { IfNone result (front_until by (values far.old) ≡ []) }
    ensures unchanged { IfNone result (values far.new ≡ values far.old) }
{
    match far.first_key_value() {
        Some((_, message)) if message.time <= by => match far.pop_first() {
            Some((_, first)) => Some(first),
            None => None,
        },
        _ => None,
    }
}

/// The time of the first message of a tree, if any is there.
fn first_far(far: &BTreeMap<Key, Message>) -> Option<u64>
    ensures { result ≡ first_time (values far.now) }
{
    match far.first_key_value() {
        None => None,
        Some((_, message)) => Some(message.time),
    }
}

impl PendingMessages {
    pub fn new(alloc: Global) -> PendingMessages
        ensures { result ≡ [] }
    {
        PendingMessages {
            near: VecDeque::new(alloc),
            far: BTreeMap::new(alloc),
        }
    }

    /// Moves the last message of a full row to the tree.
    fn spill(&mut self) -> Result<(), AllocError>
        ensures { self.new ≡ self.old }
    {
        if self.near.len() < MOST_NEAR {
            return Ok(());
        }
        if let Some(last) = self.near.back() {
            let last = *last;
            self.far.insert(key_of(&last), last)?;
            let _ = self.near.pop_back();
        }
        Ok(())
    }

    pub fn insert(&mut self, message: Message) -> Result<(), AllocError>
        ensures ok { OnOk result (self.new ≡ queue_with message self.old) }
        ensures err { OnErr result (self.new ≡ self.old) }
    {
        self.spill()?;
        let key = key_of(&message);
        if is_near(&self.far, key) {
            return put(&mut self.near, message);
        }
        self.far.insert(key, message)?;
        Ok(())
    }

    /// Takes out the message of this key, if it is there.
    pub fn remove(&mut self, key: Key)
        ensures { self.new ≡ without_key key.time key.sender key.number self.old }
    {
        if is_near(&self.far, key) {
            take_out(&mut self.near, key);
        } else {
            let _ = self.far.remove(&key);
        }
    }

    /// The time of the first message, if any is there.
    pub fn first_time(&self) -> Option<u64>
        ensures { result ≡ first_time self.now }
    {
        match self.near.front() {
            Some(message) => Some(message.time),
            None => first_far(&self.far),
        }
    }

    /// Takes out the first message, if it is timed `by` or less.
    pub fn pop_due(&mut self, by: u64) -> Option<Message>
        ensures some { IfSome result (λ m. self.old ≡ m ∷ self.new) }
        ensures due { IfSome result (λ m. m.time ≤ by) }
        ensures none { IfNone result (front_until by self.old ≡ []) }
        ensures unchanged { IfNone result (self.new ≡ self.old) }
    {
        match self.near.front() {
            Some(message) if message.time <= by => self.near.pop_front(),
            Some(_) => None,
            None => pop_far(&mut self.far, by),
        }
    }
}
