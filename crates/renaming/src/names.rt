//! The names of registers at a place of a block.
ghost use Rattle.std.specs.Prelude.{◌≡◌, ℕ, true, nat_eq, if◌then◌else◌, slice_get, Some, OnOk, IfOk};
ghost use Rattle.std.specs.List.{list_all};
ghost use Rattle.std.specs.Option.{option_map_or};
ghost use Rattle.vcode.specs.declared.place.Argument.{Argument as AnArgument};
ghost use Rattle.renaming.specs.Renamed.{is_plain, owner, is_name, is_named, reads_named, jump_named, plain_names, called, all_called, has_name, are_names, are_met, owners_of, listed, names_of};

use crate::plan::Renamed;
use std::alloc::AllocError;
use vcode::{Argument, Jump, Line, Operand, Replace};

/// Which names registers may have, and which ones they have at a place of a block.
#[derive(Drop)]
pub(crate) struct Names {
    pub(crate) plain: Vec<bool>,
    pub(crate) beyond: Vec<u32>,

    /// the names of registers that aren't plain, as they were given in this block
    pub(crate) named: Vec<Renamed>,

    /// for each register where its name is listed last, if it is listed there
    pub(crate) places: Vec<usize>,
}

impl Names {
    pub(crate) fn is_plain(&self, register: u32) -> bool
        ensures { result ≡ is_plain (owners_of self.now) register }
    {
        match self.plain.get(register as usize) {
            Some(plain) => *plain,
            None => false,
        }
    }

    fn owner(&self, name: u32) -> u32
        ensures { result ≡ owner (owners_of self.now) name }
    {
        let plain = self.plain.len();
        if (name as usize) < plain {
            name
        } else {
            match self.beyond.get(name as usize - plain) {
                Some(owner) => *owner,
                None => 0,
            }
        }
    }

    /// Whether the register may have this name.
    pub(crate) fn is_name(&self, register: u32, name: u32) -> bool
        ensures { result ≡ is_name (owners_of self.now) register name }
    {
        let owner = if self.is_plain(register) {
            name
        } else {
            self.owner(name)
        };
        (name as usize) < self.plain.len() + self.beyond.len() && owner == register
    }

    /// The listed name of the register.
    fn listed(&self, register: u32) -> Option<u32>
        ensures { result ≡ listed self.now.named.items (slice_get self.now.places.items register) register }
    {
        match self.places.get(register as usize) {
            Some(place) => match self.named.get(*place) {
                Some(named) => if named.register == register {
                    Some(named.name)
                } else {
                    None
                },
                None => None,
            },
            None => None,
        }
    }

    /// The name of the register.
    fn name_of(&self, register: u32) -> Option<u32>
        ensures { result ≡ names_of self.now register }
    {
        if self.is_plain(register) {
            Some(register)
        } else {
            self.listed(register)
        }
    }

    fn has_name(&self, register: u32, name: u32) -> bool
        ensures { result ≡ has_name (names_of self.now register) name }
    {
        match self.name_of(register) {
            Some(found) => found == name,
            None => false,
        }
    }

    fn is_named(&self, operand: &Operand<u32>) -> bool
        ensures { result ≡ is_named (names_of self.now) operand.now }
    {
        match operand {
            Operand::At(register) => match self.name_of(*register) {
                Some(_) => true,
                None => false,
            },
            _ => true,
        }
    }

    fn are_args_named(&self, args: &[Argument<u32>]) -> bool
        ensures { result ≡ list_all (λ (a : AnArgument ℕ). is_named (names_of self.now) a.value) args.now }
    {
        args.iter().all(|arg| self.is_named(&arg.value))
    }

    /// Whether all that the line reads has a name.
    pub(crate) fn reads_named(&self, line: &Line<u32>) -> bool
        ensures { result ≡ reads_named (names_of self.now) line.now }
    {
        match line {
            Line::Tick { .. } | Line::Alloc { .. } => true,
            Line::Set { value, .. } => self.is_named(value),
            Line::Operate { left, right, .. } => self.is_named(left) && self.is_named(right),
            Line::Load { at, .. } => self.is_named(&at.base),
            Line::Store { value, at, .. } => self.is_named(value) && self.is_named(&at.base),
            Line::Blit { from, to, .. } => self.is_named(from) && self.is_named(to),
            Line::Call { callee, args, .. } => {
                self.is_named(callee) && self.are_args_named(args.as_slice())
            }
        }
    }

    /// Whether all that the jump reads has a name.
    pub(crate) fn jump_named(&self, jump: &Jump<u32>) -> bool
        ensures { result ≡ jump_named (names_of self.now) jump.now }
    {
        match jump {
            Jump::Branch { on, .. } => self.is_named(&on.left) && self.is_named(&on.right),
            Jump::Return(Some(returned)) => self.is_named(&returned.value),
            _ => true,
        }
    }

    /// Whether these names hold.
    pub(crate) fn are_met(&self, names: &[Renamed]) -> bool
        ensures { result ≡ are_met (names_of self.now) names.now }
    {
        names
            .iter()
            .all(|renamed| self.has_name(renamed.register, renamed.name))
    }

    /// Whether all of these may be names.
    pub(crate) fn are_names(&self, names: &[Renamed]) -> bool
        ensures { result ≡ are_names (owners_of self.now) names.now }
    {
        names
            .iter()
            .all(|renamed| self.is_name(renamed.register, renamed.name))
    }

    /// Lists the name of the register last; false where the register has no place.
    fn list(&mut self, register: u32, name: u32) -> Result<bool, AllocError>
        ensures listed { IfOk result (λ b. b ≡ true → (q : ℕ) → listed self.new.named.items (slice_get self.new.places.items q) q ≡ (if nat_eq q register then Some name else listed self.old.named.items (slice_get self.old.places.items q) q)) }
        ensures owners { OnOk result (owners_of self.new ≡ owners_of self.old) }
    {
        let last = self.named.len();
        match self.places.get_mut(register as usize) {
            Some(place) => {
                *place = last;
                self.named.push(Renamed { register, name })?;
                Ok(true)
            }
            None => Ok(false),
        }
    }

    /// From here on the register has this name; false where it can't have one.
    ///
    /// # Errors
    ///
    /// Only where memory was refused.
    pub(crate) fn call(&mut self, register: u32, name: u32) -> Result<bool, AllocError>
        requires { is_name (owners_of self.old) register name ≡ true }
        ensures names { IfOk result (λ b. b ≡ true → names_of self.new ≡ called (names_of self.old) register name) }
        ensures owners { OnOk result (owners_of self.new ≡ owners_of self.old) }
    {
        if self.is_plain(register) {
            Ok(true)
        } else {
            self.list(register, name)
        }
    }

    fn call_all(&mut self, names: &[Renamed]) -> Result<bool, AllocError>
        requires { are_names (owners_of self.old) names.now ≡ true }
        ensures names { IfOk result (λ b. b ≡ true → names_of self.new ≡ all_called (names_of self.old) names.now) }
        ensures owners { OnOk result (owners_of self.new ≡ owners_of self.old) }
    {
        for renamed in names {
            if !self.call(renamed.register, renamed.name)? {
                return Ok(false);
            }
        }
        Ok(true)
    }

    /// A block begins, with these names beside those of the plain registers; false where a register can't have its name.
    ///
    /// # Errors
    ///
    /// Only where memory was refused.
    pub(crate) fn begin(&mut self, names: &[Renamed]) -> Result<bool, AllocError>
        requires { are_names (owners_of self.old) names.now ≡ true }
        ensures names { IfOk result (λ b. b ≡ true → names_of self.new ≡ all_called (plain_names (owners_of self.old)) names.now) }
        ensures owners { OnOk result (owners_of self.new ≡ owners_of self.old) }
    {
        self.named.clear();
        self.call_all(names)
    }
}

impl Replace for Names {
    ghost use Rattle.renaming.specs.Renamed.{read_by};
    ghost use Rattle.renaming.specs.Renamed.{names_of};

    ghost replacing = { λ k. read_by (names_of k) };

    fn operand(&self, from: &Operand<u32>) -> Operand<u32> {
        match from {
            Operand::At(register) => match self.name_of(*register) {
                Some(name) => Operand::At(name),
                None => *from,
            },
            other => *other,
        }
    }
}
