// The states and inputs of a model.

ghost use Rattle.std.specs.Prelude.{◌≡◌, ◌∷◌, [], ◌++◌, OnErr, OnOk, Some, None, slice_get};
ghost use Rattle.btor_witness.specs.Shape.{open_bits, open_width, place_of, places_from, widths};

use std::alloc::{AllocError, Global};
use std::marker::Model;

/// How many bits a state or an input has, and whether it is for a witness to say what they are. It is so for an input, and for a state
/// that has no `init`.
#[derive(Clone, Copy, Debug, PartialEq, Eq)]
pub struct Slot {
    pub width: u32,
    pub is_open: bool,
}

/// How many bits a state or an input has, and where these begin among the open bits, if they are open.
#[derive(Clone, Copy, Debug, PartialEq, Eq)]
pub struct Place {
    pub width: u32,
    pub first: Option<usize>,
}

/// States or inputs, in file order.
#[derive(Drop)]
pub struct Slots {
    places: Vec<Place>,
    bits: usize,
}

impl Model for Slots {
    ghost use Rattle.std.specs.Prelude.{◌≡◌, List, map};
    ghost use Rattle.btor_witness.specs.Shape.{open_bits, places_from, slot_of};
    ghost use Rattle.btor_witness.specs.declared.shape.Slot.{Slot};

    ghost Value = { List Slot };

    ghost view = { λ a. map slot_of a.places.items };

    ghost invariant = { λ a. (a.places.items ≡ places_from 0 (map slot_of a.places.items)) × (a.bits ≡ open_bits (map slot_of a.places.items)) };
}

/// The states and the inputs of a model, each in file order.
#[derive(Drop)]
pub struct Shape {
    pub states: Slots,
    pub inputs: Slots,
}

fn open_width(slot: Slot) -> usize
    ensures { result ≡ open_width slot }
{
    if slot.is_open { slot.width as usize } else { 0 }
}

fn place_of(bits: usize, slot: Slot) -> Place
    ensures { result ≡ place_of bits slot }
{
    Place {
        width: slot.width,
        first: if slot.is_open { Some(bits) } else { None },
    }
}

impl Slots {
    pub fn new(alloc: Global) -> Slots
        ensures { result ≡ [] }
    {
        Slots {
            places: Vec::new(alloc),
            bits: 0,
        }
    }

    /// Adds one at the end. Memory runs out, too, where there are 2^64 open bits.
    pub fn push(&mut self, slot: Slot) -> Result<(), AllocError>
        ensures ok { OnOk result (self.new ≡ self.old ++ slot ∷ []) }
        ensures err { OnErr result (self.new ≡ self.old) }
    {
        let place = place_of(self.bits, slot);
        let Some(bits) = self.bits.checked_add(open_width(slot)) else {
            return Err(AllocError);
        };
        self.places.push(place)?;
        self.bits = bits;
        Ok(())
    }

    // How many bits are open.
    pub(crate) fn open_bits(&self) -> usize
        ensures { result ≡ open_bits self.now }
    {
        self.bits
    }

    pub(crate) fn place(&self, number: u64) -> Option<Place>
        ensures { result ≡ slice_get (places_from 0 self.now) number }
    {
        self.places.get(number as usize).copied()
    }

    #[tactic(auto, using(crate::proofs::Placing::place_width, crate::proofs::Placing::place_none))]
    pub(crate) fn width(&self, number: u64) -> Option<u32>
        ensures { result ≡ slice_get (widths self.now) number }
    {
        match self.place(number) {
            Some(place) => Some(place.width),
            None => None,
        }
    }
}
