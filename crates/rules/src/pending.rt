// Claims in a row of fixed memory, seen in contracts as the list of them.
ghost use Rattle.std.specs.Prelude.{◌≡◌, [], ◌∷◌, ◌++◌, ◌≤◌, ◌<◌, ◌↔◌, IsTrue, length, get_or, set, remove};
ghost use Rattle.rules.specs.Vacant.{vacant};

use crate::{Claim, Phase};
use std::marker::Model;

// What stands in a place without a claim.
fn vacant() -> Claim
    ensures { result ≡ vacant }
{
    Claim {
        groups: 0,
        phase: Phase::Waiting(0),
        length: 0,
        ticket: 0,
        units: 0,
        client: 0,
    }
}

// Up to 64 pending claims. The places behind them are vacant.
#[derive(Clone, Copy)]
pub struct Pending {
    count: usize,
    places: [Claim; 64],
}

impl Model for Pending {
    ghost use Rattle.std.specs.Prelude.{List, ◌≡◌, ◌++◌, ◌-◌, length, take, replicate};
    ghost use Rattle.rules.specs.declared.Claim.{Claim};
    ghost use Rattle.rules.specs.Vacant.{vacant};
    ghost use Rattle.rules.specs.Padding.{pad, IsPadded};
    ghost use Rattle.std.proofs.Common.{sym, ◌∙◌, ap, arith};
    ghost use Rattle.std.proofs.lemmas.List.{take-append-drop, length-take-le};

    ghost Value = { List Claim };

    ghost view = { λ t. take t.count t.places };

    ghost invariant = { λ t. IsPadded vacant t.count t.places };

    ghost inverse = { λ l. record { count = length l; places = pad vacant l } };

    ghost inverse_ok = { λ t h i. record {
      count = length-take-le t.count t.places (omega (arith, h.few, h.whole)) i;
      places = (ap (λ k. take t.count t.places ++ replicate (64 - k) vacant) (length-take-le t.count t.places (omega (arith, h.few, h.whole))) ∙ ap (λ l. take t.count t.places ++ l) (sym h.rest) ∙ take-append-drop t.count t.places) i;
    } };
}

impl Pending {
    pub fn new() -> Self
        ensures { result ≡ [] }
    {
        Pending {
            count: 0,
            places: [vacant(); 64],
        }
    }

    pub fn len(&self) -> usize
        ensures { (result ≡ length self.now) × (result ≤ 64) }
    {
        self.count // at most 64
    }

    pub fn is_empty(&self) -> bool
        ensures { IsTrue result ↔ (self.now ≡ []) }
    {
        self.count == 0
    }

    pub fn as_slice(&self) -> &[Claim]
        ensures { result.now ≡ self.now }
    {
        &self.places[..self.count]
    }

    pub fn get(&self, i: usize) -> Claim
        requires { i < length self.now }
        ensures { result ≡ get_or self.now i vacant }
    {
        self.as_slice()[i]
    }

    pub fn set(&mut self, i: usize, claim: Claim)
        requires { i < length self.old }
        ensures { self.new ≡ set self.old i claim }
    {
        let count = self.count;
        self.places[..count][i] = claim;
    }

    // One claim more, behind the others.
    pub fn push(&mut self, claim: Claim)
        requires { length self.old < 64 }
        ensures { self.new ≡ self.old ++ claim ∷ [] }
    {
        self.places[self.count] = claim;
        self.count += 1;
    }

    // The claim at a place taken away: those behind it move up.
    pub fn remove(&mut self, i: usize)
        requires { i < length self.old }
        ensures { self.new ≡ remove self.old i }
    {
        let count = self.count;
        self.places.copy_within(i + 1..count, i);
        self.places[count - 1] = vacant();
        self.count = count - 1;
    }
}
