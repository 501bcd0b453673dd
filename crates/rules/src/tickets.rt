// Tickets in a row of fixed memory, seen in contracts as the list of them.
ghost use Rattle.std.specs.Prelude.{◌≡◌, [], ◌∷◌, ◌++◌, ◌≤◌, ◌<◌, ◌↔◌, IsTrue, length};

use std::marker::Model;

// Up to 64 tickets: those of the claims that a call grants, or of a blocking chain.
#[derive(Clone, Copy)]
pub struct Tickets {
    count: usize,
    places: [u16; 64],
}

impl Model for Tickets {
    ghost use Rattle.std.specs.Prelude.{List, ◌≡◌, ◌++◌, ℕ, ◌-◌, take, replicate, length};
    ghost use Rattle.rules.specs.Padding.{pad, IsPadded};
    ghost use Rattle.std.proofs.Common.{sym, ◌∙◌, ap, arith};
    ghost use Rattle.std.proofs.lemmas.List.{take-append-drop, length-take-le};

    ghost Value = { List ℕ };

    ghost view = { λ t. take t.count t.places };

    ghost invariant = { λ t. IsPadded 0 t.count t.places };

    ghost inverse = { λ l. record { count = length l; places = pad 0 l } };

    ghost inverse_ok = { λ t h i. record {
      count = length-take-le t.count t.places (omega (arith, h.few, h.whole)) i;
      places = (ap (λ k. take t.count t.places ++ replicate (64 - k) 0) (length-take-le t.count t.places (omega (arith, h.few, h.whole))) ∙ ap (λ l. take t.count t.places ++ l) (sym h.rest) ∙ take-append-drop t.count t.places) i;
    } };
}

impl Tickets {
    pub fn new() -> Self
        ensures { result ≡ [] }
    {
        Tickets {
            count: 0,
            places: [0; 64],
        }
    }

    pub fn len(&self) -> usize
        ensures { (result ≡ length self.now) × (result ≤ 64) }
    {
        self.count // at most 64
    }

    pub fn is_empty(&self) -> bool
        ensures { IsTrue result ↔ (self.now ≡ []) }
    {
        self.count == 0
    }

    // One ticket more, behind the others.
    pub fn push(&mut self, ticket: u16)
        requires { length self.old < 64 }
        ensures { self.new ≡ self.old ++ ticket ∷ [] }
    {
        self.places[self.count] = ticket;
        self.count += 1;
    }

    pub fn as_slice(&self) -> &[u16]
        ensures { result.now ≡ self.now }
    {
        &self.places[..self.count]
    }
}
