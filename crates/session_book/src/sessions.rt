//! The entries of the book, by their sessions.

ghost use Rattle.std.specs.Prelude.{◌≡◌, ◌<◌, ◌≤◌, [], List, ℕ, length, is_some, nat_eq, option_copied, IfOk, OnOk};
ghost use Rattle.std.specs.List.{position};
ghost use Rattle.std.specs.Map.{keys_of};
ghost use Rattle.std.specs.Cmp.Lexicographic.{pointwise};
ghost use Rattle.indexmap.specs.IndexMap.{spare};
ghost use Rattle.session_book.specs.Book.{Row, appended, entry_of, without};
ghost use Rattle.session_book.specs.Holding.{Holds};

use crate::values::{AttributeValue, LONGEST_SESSION, SessionKey, SessionRoom};
use indexmap::IndexMap;
use std::alloc::Global;
use std::hash::RandomState;
use wire_core::NoMemory;

/// What is kept of a session that an access server reported: where from, and by what it names the session.
#[derive(Drop)]
pub struct Entry {
    pub address: u32,
    /// The first User-Name, where there is one.
    pub user: Option<AttributeValue>,
    /// The first Acct-Session-Id.
    pub acct: AttributeValue,
}

/// The entries, each under its Session-Id. An entry goes in and out in the same time however many there are.
#[derive(Drop)]
pub struct Sessions {
    pub(crate) map: IndexMap<SessionKey<'static>, Entry, RandomState>,
}

impl Sessions {
    /// No entries, with room for this many.
    pub(crate) fn new(
        alloc: Global,
        random: RandomState,
        capacity: u32,
    ) -> Result<Sessions, NoMemory>
        ensures { IfOk result (λ s. s.map.entries ≡ []) }
    {
        // One place more, so that a full book makes no more room.
        let room = capacity as usize + 1;
        Ok(Sessions {
            map: IndexMap::with_capacity_and_hasher(alloc, room, random)?,
        })
    }

    /// The entry of this session.
    pub(crate) fn get<'a>(&'a self, session: &'a [u8]) -> Option<&'a Entry>
        ensures { option_copied result ≡ entry_of session.now self.now.map.entries }
    {
        self.map.get(&SessionKey::lent(session))
    }

    /// Makes sure of the room for one more, which is there while there are fewer than the map was made for.
    pub(crate) fn reserve(&mut self) -> Result<(), NoMemory>
        ensures same { self.new.map.entries ≡ self.old.map.entries }
        ensures room { OnOk result (0 < spare self.new.map) }
    {
        self.map.reserve(1)?;
        Ok(())
    }

    /// Puts in the entry of a session that has none, where there are fewer than `capacity`.
    pub(crate) fn append(&mut self, capacity: u32, session: &[u8], room: SessionRoom, entry: Entry)
        requires room { 0 < spare self.old.map }
        requires short { length session.now ≤ 1024 }
        ensures { (rows : List Row) → Holds self.old.map.entries rows
            → Holds self.new.map.entries
            (appended capacity session.now entry rows (entry_of session.now rows)) }
    {
        if self.map.len() < capacity as usize && self.get(session).is_none() {
            // There is room for it, so it is not refused.
            let _ = self.map.insert(room.filled(session), entry);
        }
    }

    /// Where the entry of this session stands.
    fn place_of(&self, session: &[u8]) -> Option<usize>
        ensures place { result
            ≡ position (pointwise nat_eq session.now) (keys_of self.now.map.entries) }
        ensures known { is_some result ≡ is_some (entry_of session.now self.now.map.entries) }
    {
        self.map.get_index_of(&SessionKey::lent(session))
    }

    /// Drops the entry of a session, where it has one.
    pub(crate) fn remove(&mut self, session: &[u8])
        ensures { (rows : List Row) → Holds self.old.map.entries rows
            → Holds self.new.map.entries (without session.now rows) }
    {
        if let Some(place) = self.place_of(session) {
            self.map.swap_remove_index(place);
        }
    }
}
