ghost use Rattle.std.specs.Prelude.{◌≡◌};
ghost use Rattle.sema_root.specs.Treap.{drawn_from, tickets_from};

use rand_core::SeedableRng;
use rand_core::utils::NextWord;
use rand_xoshiro::Xoshiro256PlusPlus;
use std::alloc::AllocError;
use std::marker::Model;

/// The tickets of new nodes, from a seed. The next one is drawn ahead, so that the walk that finds no node
/// for a counter knows on its way where the new one will hang.
#[derive(Drop)]
pub(crate) struct Tickets {
    next: u32,
    generator: Xoshiro256PlusPlus,
}

impl Model for Tickets {
    ghost use Rattle.sema_root.specs.Treap.{Tickets as Ahead};

    ghost Value = { Ahead };

    ghost view = { λ tickets. record {
      next = tickets.next;
      generator = tickets.generator;
    } };
}

impl Tickets {
    pub(crate) fn from_seed(seed: u64) -> Tickets
        ensures { result ≡ tickets_from seed }
    {
        let mut generator = Xoshiro256PlusPlus::seed_from_u64(seed);
        let next = draw(&mut generator);
        Tickets { next, generator }
    }

    pub(crate) fn next(&self) -> u32
        ensures { result ≡ self.now.next }
    {
        self.next
    }

    /// Goes on to the ticket after the next.
    pub(crate) fn advance(&mut self)
        ensures { self.new ≡ drawn_from self.old.generator }
    {
        self.next = draw(&mut self.generator);
    }
}

impl Clone for Tickets {
    ghost is_clone = { λ tickets copy. copy ≡ tickets };

    fn clone(&self) -> Result<Self, AllocError> {
        Ok(Tickets {
            next: self.next,
            generator: self.generator.clone()?,
        })
    }
}

// The low 32 bits of the next word, with the lowest set, as Go has it.
fn draw(generator: &mut Xoshiro256PlusPlus) -> u32
    ensures ticket { result ≡ (drawn_from generator.old).next }
    ensures generator { generator.new ≡ (drawn_from generator.old).generator }
{
    let word = generator.next_word();
    (word % (1 << 32)) as u32 | 1
}
