// The connections of a node, each at its place.
ghost use Rattle.std.specs.Prelude.{◌≡◌, ◌+◌, ◌-◌, ◌^◌, min, not, option_map, slice_get, IfOk, IsSome, length};
ghost use Rattle.std.specs.List.{list_all, position, sum};
ghost use Rattle.reg_connection.specs.Connection.{weight_of};
ghost use Rattle.reg_connection.specs.Places.{HeaviestOf, IsHeaviest, IsOldest, OldestOf, Stirs, TakesFree, all_free, all_weight, greater, held_in, is_free, is_stirred, left_at, lesser, weighed, with_place, with_weight};

use crate::connection::Connection;
use crate::stream::Stream;
use std::alloc::{AllocError, Global};
use std::marker::Model;
use std::mem;

/// Where the connection of a place is.
#[derive(Drop)]
pub enum Place<S: Stream + Drop, T: Drop> {
    /// There is no connection.
    Free,
    /// The poller works on it: the place was taken for a connection that isn't there yet, or its
    /// connection was taken out.
    Out,
    /// The poller has it.
    Held(Connection<S, T>),
    /// A worker has it, or it waits for one. `stirred` is whether the poll reported it meanwhile.
    Lent { stirred: bool },
}

impl<S: Stream + Drop, T: Drop> Place<S, T> {
    fn is_free(&self) -> bool
        ensures { result ≡ is_free self.now }
    {
        match self {
            Place::Free => true,
            Place::Out | Place::Held(_) | Place::Lent { stirred: _ } => false,
        }
    }
}

/// The connections of a node, in a table of fixed size.
#[derive(Drop)]
pub struct Places<S: Stream + Drop, T: Drop> {
    places: Vec<Place<S, T>>,
    /// How many bytes each of them held when it was last seen.
    weights: Vec<usize>,
    /// How many were closed.
    closed: u64,
}

impl<S: Stream + Drop, T: Drop> Model for Places<S, T> {
    ghost use Rattle.reg_connection.specs.Places.{PlaceTable};

    ghost Value = { PlaceTable S T };

    ghost view = { λ p. record { places = p.places.items; weights = p.weights.items; closed = p.closed } };
}

impl<S: Stream + Drop, T: Drop> Places<S, T> {
    /// Makes a table of `places` free places. The only error is out of memory.
    pub fn new(alloc: Global, places: usize) -> Result<Places<S, T>, AllocError>
        ensures { IfOk result (λ made. made ≡ all_free places) }
    {
        let mut made = Vec::with_capacity(alloc, places)?;
        let mut weights = Vec::with_capacity(alloc, places)?;
        for _ in 0..places {
            made.push(Place::Free)?;
            weights.push(0)?;
        }
        Ok(Places {
            places: made,
            weights,
            closed: 0,
        })
    }

    /// Takes a free place; `None` if there is none.
    pub fn take_free(&mut self) -> Option<usize>
        ensures { TakesFree self.old self.new result }
    {
        match first_free(&self.places) {
            Some(at) => {
                self.put(at, Place::Out);
                Some(at)
            }
            None => None,
        }
    }

    /// Returns whether no place is free.
    pub fn is_full(&self) -> bool
        ensures { result ≡ list_all (λ place. not (is_free place)) self.now.places }
    {
        self.places.iter().all(|place| !place.is_free())
    }

    /// Returns whether all places are free.
    pub fn is_empty(&self) -> bool
        ensures { result ≡ list_all is_free self.now.places }
    {
        self.places.iter().all(|place| place.is_free())
    }

    /// Returns how many connections were closed.
    pub fn closed(&self) -> u64
        ensures { result ≡ self.now.closed }
    {
        self.closed
    }

    /// Returns how many bytes of unfinished requests and unsent answers all of them held when they
    /// were last seen; at most 2^64 - 1.
    pub fn weight(&self) -> usize
        ensures { result ≡ all_weight self.now }
    {
        sum_of(&self.weights)
    }

    /// Notes that the poll reported a place. If the poller has its connection, takes it out and
    /// returns it.
    pub fn stir(&mut self, at: usize) -> Option<Connection<S, T>>
        ensures { Stirs at self.old self.new result }
    {
        match self.places.get(at) {
            Some(Place::Held(_)) => self.take_out(at),
            Some(Place::Lent { stirred: _ }) => {
                self.put(at, Place::Lent { stirred: true });
                None
            }
            Some(Place::Free | Place::Out) | None => None,
        }
    }

    /// Takes out the connection of a place that is held.
    fn take_out(&mut self, at: usize) -> Option<Connection<S, T>>
        requires { IsSome (held_in (slice_get self.old.places at)) }
        ensures connection { result ≡ held_in (slice_get self.old.places at) }
        ensures out { self.new ≡ with_place at Place.Out self.old }
    {
        match mem::replace(&mut self.places[at], Place::Out) {
            Place::Held(connection) => Some(connection),
            Place::Free | Place::Out | Place::Lent { stirred: _ } => None,
        }
    }

    /// Returns whether the poll reported a lent place meanwhile.
    pub fn was_stirred(&self, at: usize) -> bool
        ensures { result ≡ is_stirred (slice_get self.now.places at) }
    {
        match self.places.get(at) {
            Some(Place::Lent { stirred }) => *stirred,
            Some(Place::Free | Place::Out | Place::Held(_)) | None => false,
        }
    }

    fn weigh(&mut self, at: usize, weight: usize)
        ensures { self.new ≡ weighed at weight self.old }
    {
        if at < self.weights.len() {
            self.weights[at] = weight;
        }
    }

    fn put(&mut self, at: usize, place: Place<S, T>)
        ensures { self.new ≡ with_place at place self.old }
    {
        if at < self.places.len() {
            self.places[at] = place;
        }
    }

    /// Puts a connection at its place.
    pub fn hold(&mut self, at: usize, connection: Connection<S, T>)
        ensures { self.new ≡ with_weight at (Place.Held connection) (weight_of connection) self.old }
    {
        self.weigh(at, connection.weight());
        self.put(at, Place::Held(connection));
    }

    /// Marks a place as lent to a worker. Its connection holds `weight` bytes.
    pub fn lend(&mut self, at: usize, weight: usize, stirred: bool)
        ensures { self.new ≡ with_weight at (Place.Lent stirred) weight self.old }
    {
        self.weigh(at, weight);
        self.put(at, Place::Lent { stirred });
    }

    /// Closes the connection of a place and frees the place.
    pub fn leave(&mut self, at: usize)
        ensures { self.new ≡ left_at at self.old }
    {
        self.weigh(at, 0);
        self.put(at, Place::Free);
        self.closed = self.closed.saturating_add(1);
    }

    /// Returns the place of the held connection that has waited longest since its last whole
    /// request; `None` if none has waited since `by` or longer.
    pub fn oldest(&self, by: u64) -> Option<usize>
        ensures { IsOldest by self.now.places result }
    {
        let mut oldest = None;
        for at in 0..self.len() {
            oldest = self.older(oldest, at, by);
        }
        place_of(oldest)
    }

    /// Returns the place found so far, or the next one if its connection has waited longer.
    #[tactic(auto, using(crate::proofs::Chosen::oldest_more, crate::proofs::Chosen::oldest_past))]
    fn older(&self, found: Option<(usize, u64)>, at: usize, by: u64) -> Option<(usize, u64)>
        ensures { OldestOf at by self.now.places found → OldestOf (at + 1) by self.now.places result }
    {
        match self.held(at) {
            Some(connection) => lesser(found, at, connection.asked(), by),
            None => found,
        }
    }

    /// Returns the place of the held connection that holds most bytes; `None` if none holds any.
    pub fn heaviest(&self) -> Option<usize>
        ensures { IsHeaviest self.now.places result }
    {
        let mut heaviest = None;
        for at in 0..self.len() {
            heaviest = self.heavier(heaviest, at);
        }
        place_of(heaviest)
    }

    /// Returns the place found so far, or the next one if its connection holds more.
    #[tactic(auto, using(crate::proofs::Chosen::heaviest_more, crate::proofs::Chosen::heaviest_past))]
    fn heavier(&self, found: Option<(usize, u64)>, at: usize) -> Option<(usize, u64)>
        ensures { HeaviestOf at self.now.places found → HeaviestOf (at + 1) self.now.places result }
    {
        match self.held(at) {
            Some(connection) => greater(found, at, connection.weight() as u64),
            None => found,
        }
    }

    /// Returns how many places there are.
    pub fn len(&self) -> usize
        ensures { result ≡ length self.now.places }
    {
        self.places.len()
    }

    /// Returns the connection of a place if it is held.
    pub fn held(&self, at: usize) -> Option<&Connection<S, T>>
        ensures { option_map (λ c. c.now) result ≡ held_in (slice_get self.now.places at) }
    {
        match self.places.get(at) {
            Some(Place::Held(connection)) => Some(connection),
            Some(Place::Free | Place::Out | Place::Lent { stirred: _ }) | None => None,
        }
    }
}

/// Returns the place with the lesser time: the one found so far, or another, which counts only if
/// its time is at most `by`.
fn lesser(found: Option<(usize, u64)>, at: usize, time: u64, by: u64) -> Option<(usize, u64)>
    ensures { result ≡ lesser found at time by }
{
    match found {
        Some((_, least)) => {
            if time < least {
                Some((at, time))
            } else {
                found
            }
        }
        None => { if time <= by { Some((at, time)) } else { None } }
    }
}

/// Returns the place with the greater weight: the one found so far, or another, which counts only
/// if its weight is above 0.
fn greater(found: Option<(usize, u64)>, at: usize, weight: u64) -> Option<(usize, u64)>
    ensures { result ≡ greater found at weight }
{
    match found {
        Some((_, most)) => {
            if most < weight {
                Some((at, weight))
            } else {
                found
            }
        }
        None => { if 0 < weight { Some((at, weight)) } else { None } }
    }
}

/// Returns the place that was found.
fn place_of(found: Option<(usize, u64)>) -> Option<usize>
    ensures { result ≡ option_map (λ chosen. chosen.0) found }
{
    match found {
        Some((at, _)) => Some(at),
        None => None,
    }
}

/// Returns the first free place.
fn first_free<S: Stream + Drop, T: Drop>(places: &[Place<S, T>]) -> Option<usize>
    ensures { result ≡ position is_free places.now }
{
    places.iter().position(|place| place.is_free())
}

/// Returns the sum of the weights, at most 2^64 - 1.
fn sum_of(weights: &[usize]) -> usize
    ensures { result ≡ min (sum weights.now) (2 ^ 64 - 1) }
{
    let mut all = 0usize;
    for weight in weights {
        all = all.saturating_add(*weight);
    }
    all
}
