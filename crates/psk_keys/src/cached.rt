//! Keys that are cached, in four places that are ordered by their last use.

ghost use Rattle.std.specs.Prelude.{◌≡◌, ◌-◌, ◌∷◌, ◌<◌, ℕ, nat_eq, length, take, IfOk};
ghost use Rattle.std.specs.List.{IsDistinct};
ghost use Rattle.std.specs.Map.{keys_of};
ghost use Rattle.std.specs.NonZero.{non_zero_usize_get};
ghost use Rattle.lru.specs.LruCache.{lru_cache, promoted};
ghost use Rattle.psk_keys.specs.Inside.Cached.{nonces_of, empty_places, place_of};

use aes_block::Aes;
use lru::LruCache;
use std::alloc::{AllocError, Global};
use std::num::NonZeroUsize;

/// How many keys are cached (this profile).
pub const CACHED_KEYS: usize = 4;

// A key with its round keys, under its nonce.
#[derive(Drop)]
pub(crate) struct Cached {
    pub(crate) nonce: u32,
    pub(crate) cipher: Aes,
}

// Places by number, the one that was used last first. All of them are there from the beginning, so that no use of one
// takes memory.
pub(crate) type Places = LruCache<usize, Option<Cached>>;

fn place_count() -> NonZeroUsize
    ensures count { non_zero_usize_get result ≡ CACHED_KEYS }
{
    NonZeroUsize::new(CACHED_KEYS).unwrap()
}

// Places without a key.
pub(crate) fn empty_places(alloc: Global) -> Result<Places, AllocError>
    ensures places { IfOk result (λ places. places ≡ lru_cache (empty_places CACHED_KEYS) CACHED_KEYS) }
{
    let mut places = LruCache::new(alloc, place_count())?;
    for place in 0..CACHED_KEYS {
        places.put(place, None)?;
    }
    Ok(places)
}

// The place that has the key of a nonce, where it is cached.
pub(crate) fn place_of(places: &Places, nonce: u32) -> Option<usize>
    ensures place { result ≡ place_of nonce places.now.entries }
{
    for (place, kept) in places {
        if let Some(cached) = kept
            && cached.nonce == nonce
        {
            return Some(*place);
        }
    }
    None
}

// Makes a place the latest.
pub(crate) fn promote(places: &mut Places, place: usize)
    ensures places { places.new ≡ lru_cache (promoted (nat_eq place) places.old.entries) places.old.cap }
{
    places.promote(&place);
}

// Puts a key into the place that was used longest ago, which becomes the latest.
pub(crate) fn put_latest(places: &mut Places, latest: Cached)
    requires some { 0 < length places.old.entries }
    requires distinct { IsDistinct nat_eq (keys_of places.old.entries) }
    ensures places { (place : ℕ) × (places.new
        ≡ lru_cache ((place, Some latest) ∷ take (length places.old.entries - 1) places.old.entries) places.old.cap) }
{
    if let Some((place, _)) = places.peek_lru() {
        let place = *place;
        let _ = places.put(place, Some(latest));
    }
}

// How many places have a key.
pub(crate) fn filled_places(places: &Places) -> usize
    requires four { length places.now.entries ≡ CACHED_KEYS }
    ensures count { result ≡ length (nonces_of places.now.entries) }
{
    let mut count = 0;
    for (_, kept) in places {
        if kept.is_some() {
            count += 1;
        }
    }
    count
}
