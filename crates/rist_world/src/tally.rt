//! What is counted while a simulated network runs.
ghost use Rattle.std.specs.Prelude.{◌≡◌, ◌+◌};
ghost use Rattle.rist_ends.specs.Counts.{capped};
ghost use Rattle.world_rules.specs.Counts.{sent_by};
ghost use Rattle.rist_world.specs.Tally.{raised_if};

use outside_io::NoMemory;
use sender_rules::SendBad;
use std::alloc::Global;
use std::marker::Model;

/// Which datagrams of a link came to the receiver, by their places: none of those behind the last place did.
#[derive(Drop)]
struct Came {
    places: Vec<bool>,
}

impl Model for Came {
    ghost use Rattle.std.specs.Prelude.{List, Bool};

    ghost Value = { List Bool };

    ghost view = { λ c. c.places.items };
}

impl Came {
    ghost use Rattle.std.specs.Prelude.{◌≡◌, ℕ, [], get_or, false, ◌==◌, ◌||◌, IfOk};

    /// None has come.
    fn with(alloc: Global) -> Came
        ensures value { result ≡ [] }
    {
        Came {
            places: Vec::new(alloc),
        }
    }

    /// The datagram at a place has come.
    fn add(&mut self, place: usize) -> Result<(), NoMemory>
        ensures value { IfOk result (λ done. (k : ℕ)
            → get_or self.new k false ≡ (place == k || get_or self.old k false)) }
    {
        if place < self.places.len() {
            self.places[place] = true;
            return Ok(());
        }
        for _ in self.places.len()..place {
            if self.places.push(false).is_err() {
                return Err(NoMemory);
            }
        }
        match self.places.push(true) {
            Ok(()) => Ok(()),
            Err(_) => Err(NoMemory),
        }
    }
}

/// Counts of a run so far. Each stays at its greatest value.
#[derive(Drop)]
pub(crate) struct Tally {
    sent: u64,
    carried: u64,
    came: Vec<Came>,
}

impl Model for Tally {
    ghost use Rattle.rist_world.specs.Tally.{TallyState};

    ghost Value = { TallyState };

    ghost view = { λ t. record {
      sent = t.sent;
      carried = t.carried;
      came = t.came.items;
    } };
}

/// One more, where that is counted.
pub(crate) fn raise_if(count: &mut u64, is: bool)
    ensures value { count.new ≡ raised_if is count.old }
{
    if is {
        *count = count.saturating_add(1);
    }
}

/// How many payloads a call of the sender with this answer sent.
fn sent_by(answer: Result<(), SendBad>) -> u64
    ensures value { result ≡ sent_by answer }
{
    match answer {
        Ok(()) => 1,
        Err(SendBad::Spent) => 0,
        Err(SendBad::LinksDown) => 1,
    }
}

impl Tally {
    ghost use Rattle.std.specs.Prelude.{◌≡◌, ◌<◌, ℕ, [], replicate, length, ◌==◌, ◌||◌, ◌&&◌, IfOk};
    ghost use Rattle.rist_world.specs.Tally.{came_at};

    /// Nothing was counted yet, and nothing has come on so many links.
    pub(crate) fn with(alloc: Global, links: usize) -> Result<Tally, NoMemory>
        ensures value { IfOk result (λ t. t ≡ record {
          sent = 0;
          carried = 0;
          came = replicate links [];
        }) }
    {
        let mut came = Vec::with_capacity(alloc, links)?;
        for made in 0..links {
            match came.push(Came::with(alloc)) {
                Ok(()) => {}
                Err(_) => return Err(NoMemory),
            }
        }
        Ok(Tally {
            sent: 0,
            carried: 0,
            came,
        })
    }

    /// A payload was to be sent: it was, unless no pair or no number was left for it.
    pub(crate) fn send(&mut self, answer: Result<(), SendBad>)
        ensures value { self.new ≡ record self.old { sent = capped (self.old.sent + sent_by answer) } }
    {
        self.sent = self.sent.saturating_add(sent_by(answer));
    }

    /// The datagram at a place of a link came to the receiver: media, or not.
    pub(crate) fn carry(&mut self, link: u8, place: u64, media: bool) -> Result<(), NoMemory>
        ensures counts { IfOk result (λ done. self.new ≡ record self.old {
          carried = raised_if media self.old.carried;
          came = self.new.came;
        }) }
        ensures came { IfOk result (λ done. (k at : ℕ) → k < length self.old.came
            → came_at self.new.came k at ≡ ((link == k && place == at) || came_at self.old.came k at)) }
        ensures length { IfOk result (λ done. length self.new.came ≡ length self.old.came) }
    {
        raise_if(&mut self.carried, media);
        let link = usize::from(link);
        if link < self.came.len() {
            return self.came[link].add(place as usize);
        }
        Ok(())
    }

    /// Whether the datagram at a place of a link came to the receiver.
    pub(crate) fn came(&self, link: u8, place: u64) -> bool
        ensures value { result ≡ came_at self.now.came link place }
    {
        let Some(came) = self.came.get(usize::from(link)) else {
            return false;
        };
        match came.places.get(place as usize) {
            Some(is) => *is,
            None => false,
        }
    }

    /// How many payloads were sent.
    pub(crate) fn sent(&self) -> u64
        ensures value { result ≡ self.now.sent }
    {
        self.sent
    }

    /// How often media came to the receiver.
    pub(crate) fn carried(&self) -> u64
        ensures value { result ≡ self.now.carried }
    {
        self.carried
    }
}
