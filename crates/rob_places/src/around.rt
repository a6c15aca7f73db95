//! The ranges around a place.

ghost use Rattle.std.specs.Prelude.{◌≡◌, length, IfOk, OnOk};
ghost use Rattle.rob_index.specs.Fast.{index_form};
ghost use Rattle.rob_syntax.specs.Seen.{seen_atom, seen_index, seen_range};
ghost use Rattle.rob_places.specs.Around.{binds, has_loose, inside, is_loose, nothing_around, outside};
ghost use Rattle.rob_places.specs.Tests.{form_of, length_of};

use rob_index_forms::{ends_of, index_form};
use rob_number::Memory;
use rob_number::list::remove_first;
use rob_ranges::{Form, Nest};
use rob_syntax::syntax::{Atom, Index, Range};
use std::alloc::Global;
use std::marker::Model;

/// The ranges around a place. Contracts see their names, the innermost first, and their ends as forms, the outermost
/// first.
#[derive(Drop)]
pub struct Around {
    names: Vec<usize>,
    nest: Nest,
}

impl Model for Around {
    ghost use Rattle.rob_places.specs.Around as spec;

    ghost Value = { spec.Around };

    ghost view = { λ around. record { names = around.names.items; nest = around.nest } };
}

impl Around {
    /// No range is around.
    pub fn new(alloc: Global) -> Around
        ensures nothing { result ≡ nothing_around }
    {
        Around {
            names: Vec::new(alloc),
            nest: Nest::new(alloc),
        }
    }

    /// One range more. `asked`: whether much is asked inside it.
    pub fn enter(&mut self, alloc: Global, asked: bool, range: &Range) -> Result<(), Memory>
        ensures entered { OnOk result (self.new ≡ inside self.old (seen_range range.now)) }
    {
        let ends = ends_of(alloc, self.names.as_slice(), range)?;
        self.nest.enter(alloc, asked, ends)?;
        self.names.insert(0, range.name)?;
        Ok(())
    }

    /// One range fewer.
    pub fn leave(&mut self)
        ensures left { self.new ≡ outside self.old }
    {
        self.nest.leave();
        remove_first(&mut self.names);
    }

    /// How many ranges are around.
    pub fn depth(&self) -> usize
        ensures depth { result ≡ length self.now.names }
    {
        self.names.len()
    }

    /// The ranges as they are open.
    pub fn nest(&self) -> &Nest
        ensures nest { result.now ≡ self.now.nest }
    {
        &self.nest
    }

    /// An index as a form over the values of the ranges.
    pub fn form_of(&self, alloc: Global, index: &Index) -> Result<Form, Memory>
        ensures form { IfOk result (λ form. form ≡ form_of self.now (seen_index index.now)) }
    {
        index_form(alloc, self.names.as_slice(), index)
    }

    /// How far a range's end is from its start.
    pub fn length_of(&self, alloc: Global, range: &Range) -> Result<Form, Memory>
        ensures length { IfOk result (λ form. form ≡ length_of self.now (seen_range range.now)) }
    {
        let ends = ends_of(alloc, self.names.as_slice(), range)?;
        ends.length(alloc)
    }

    /// Whether a range around has the name.
    pub fn binds(&self, name: usize) -> bool
        ensures binds { result ≡ binds self.now name }
    {
        self.names.iter().any(|own| *own == name)
    }

    /// Whether the atom is a name that no range around has.
    pub fn is_loose(&self, atom: Atom) -> bool
        ensures loose { result ≡ is_loose self.now (seen_atom atom) }
    {
        match atom {
            Atom::Digits(_) => false,
            Atom::Bound(name) => !self.binds(name),
        }
    }

    /// Whether such a name is in the index.
    pub fn has_loose(&self, index: &Index) -> bool
        ensures loose { result ≡ has_loose self.now (seen_index index.now) }
    {
        if self.is_loose(index.first) {
            return true;
        }
        for step in index.more.items() {
            if self.is_loose(step.atom) {
                return true;
            }
        }
        false
    }
}
