// The events of a job as its reader or its keeper lists them.

ghost use Rattle.std.specs.Prelude.{◌≡◌, ◌+◌, ◌<◌, ◌≤◌, [], ◌∷◌, ◌++◌, vec_len, vec_capacity, Some, None, IfOk, OnOk, OnErr};
ghost use Rattle.race_core.specs.declared.event.LaneEvent.TheVariants as event;
ghost use Rattle.race_core.specs.Sharing.{entries, read_more, share_read, share_turns, shared, with_event};
ghost use Rattle.race_core.specs.Listed.{listed};

use crate::event::{Judged, LaneEvent};
use std::alloc::{AllocError, Global};
use std::marker::Model;

/// A list of events, with room for this many more. Room is taken before the step that an event records; so no step is made whose
/// event has no room, and out of memory can always be told.
#[derive(Drop)]
pub struct EventList<T> {
    events: Vec<LaneEvent<T>>,
    room: usize,
}

impl<T> Model for EventList<T> {
    ghost use Rattle.std.specs.Prelude.{◌+◌, ◌≤◌, vec_len, vec_capacity};
    ghost use Rattle.race_core.specs.Sharing.{ListOf};

    ghost Value = { ListOf T };

    ghost view = { λ l. record { events = l.events.items; room = l.room } };

    ghost invariant = { λ l. vec_len l.events + l.room ≤ vec_capacity l.events };
}

// One entry, or two.
#[derive(Drop)]
enum Entries<T> {
    One(LaneEvent<T>),
    Two(LaneEvent<T>, LaneEvent<T>),
}

fn shared_reads<T: Drop>(before: u64, bytes: u64) -> Entries<T>
    ensures { listed result ≡ entries (read_more before) (read_more bytes) (share_read before bytes) }
{
    match before.checked_add(bytes) {
        Some(both) if before > 0 && bytes > 0 => Entries::One(LaneEvent::Read {
            bytes: both,
            progress: Judged::More,
        }),
        _ => Entries::Two(
            LaneEvent::Read {
                bytes: before,
                progress: Judged::More,
            },
            LaneEvent::Read {
                bytes,
                progress: Judged::More,
            },
        ),
    }
}

fn shared_turns<T: Drop>(before: u64, turns: u64) -> Entries<T>
    ensures { listed result ≡ entries (event.Turns before) (event.Turns turns) (share_turns before turns) }
{
    match before.checked_add(turns) {
        Some(both) => Entries::One(LaneEvent::Turns(both)),
        None => Entries::Two(LaneEvent::Turns(before), LaneEvent::Turns(turns)),
    }
}

// The entry that an event shares with the last one, or both.
fn shared_entries<T: Drop>(last: LaneEvent<T>, event: LaneEvent<T>) -> Entries<T>
    ensures { listed result ≡ entries last event (shared last event) }
{
    match (last, event) {
        (
            LaneEvent::Read {
                bytes: before,
                progress: Judged::More,
            },
            LaneEvent::Read {
                bytes,
                progress: Judged::More,
            },
        ) => shared_reads(before, bytes),
        (LaneEvent::Turns(before), LaneEvent::Turns(turns)) => shared_turns(before, turns),
        (last, event) => Entries::Two(last, event),
    }
}

impl<T: Drop> EventList<T> {
    /// An empty list with room for this many events.
    pub fn new(alloc: Global, room: usize) -> Result<Self, AllocError>
        ensures { IfOk result (λ list. list ≡ record { events = []; room = room }) }
    {
        Ok(EventList {
            events: Vec::with_capacity(alloc, room)?,
            room,
        })
    }

    /// Takes room for this many more events, where there isn't as much.
    pub fn take_room(&mut self, room: usize) -> Result<(), AllocError>
        ensures events { self.new.events ≡ self.old.events }
        ensures more { self.old.room ≤ self.new.room }
        ensures ok { OnOk result (room ≤ self.new.room) }
        ensures err { OnErr result (self.new ≡ self.old) }
    {
        if self.room < room {
            self.events.reserve(room)?;
            self.room = room;
        }
        Ok(())
    }

    /// Adds an event, which shares the last entry where it can. It has the room for it.
    pub fn push(&mut self, event: LaneEvent<T>)
        requires { 0 < self.old.room }
        ensures events { self.new.events ≡ with_event event self.old.events }
        ensures room { self.new.room + 1 ≡ self.old.room }
    {
        self.room -= 1;
        match self.events.pop() {
            None => push_within(&mut self.events, event),
            Some(last) => match shared_entries(last, event) {
                Entries::One(both) => push_within(&mut self.events, both),
                Entries::Two(last, event) => {
                    push_within(&mut self.events, last);
                    push_within(&mut self.events, event);
                }
            },
        }
    }

    // The entries alone.
    pub(crate) fn into_events(self) -> Vec<LaneEvent<T>>
        ensures { result.items ≡ self.events }
    {
        let EventList { events, room: _ } = self;
        events
    }

    /// The events so far.
    pub fn events(&self) -> &[LaneEvent<T>]
        ensures { result.now ≡ self.now.events }
    {
        &self.events
    }
}

// Adds an entry where there is room.
pub(crate) fn push_within<T: Drop>(events: &mut Vec<LaneEvent<T>>, event: LaneEvent<T>)
    requires { vec_len events.old < vec_capacity events.old }
    ensures items { events.new.items ≡ events.old.items ++ event ∷ [] }
    ensures capacity { vec_capacity events.old ≤ vec_capacity events.new }
{
    match events.push(event) {
        Ok(()) => {}
        Err(_) => unreachable!(),
    }
}
