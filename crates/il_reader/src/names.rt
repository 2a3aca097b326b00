//! Names, numbered in order of first appearance.
ghost use Rattle.std.specs.Prelude.{◌≡◌, ◌<◌, [], ◌∷◌, nat_eq, length, map, OnOk, IfOk, IfSome};
ghost use Rattle.std.specs.Cmp.Lexicographic.{pointwise, nat_list_eq_equiv};
ghost use Rattle.std.specs.Cmp.{partial_equiv_from_equiv, on_per, on_equiv};
ghost use Rattle.std.specs.Cmp.Rules.{hashing};
ghost use Rattle.std.proofs.Common.{rules};
ghost use Rattle.il_reader.specs.Prelude.{place, with_name, key_bytes};

use crate::words::is_text;
use il_ast::{Name, Seq};
use indexmap::IndexSet;
use std::alloc::{AllocError, Global};
use std::hash::{Hash, Hasher};
use std::marker::Model;

/// Among so few names one is looked for without its hash.
const FEW: usize = 8;

/// A name in a set. Its bytes are hashed at once, and compared one by one.
#[derive(Clone, Copy)]
struct Key<'a> {
    bytes: &'a [u8],
}

impl<'a> PartialEq for Key<'a> {
    ghost eq = { λ one other. pointwise nat_eq (key_bytes one) (key_bytes other) };

    ghost laws = { on_per key_bytes (partial_equiv_from_equiv nat_list_eq_equiv) };

    fn eq(&self, other: &Self) -> bool {
        is_text(other.bytes, self.bytes)
    }
}

impl<'a> Eq for Key<'a> {
    ghost laws = { on_equiv key_bytes nat_list_eq_equiv };
}

impl<'a> Hash for Key<'a> {
    ghost hash_input = { λ key. key_bytes key ∷ [] };

    ghost respects_eq = { Prim.search (hashing, rules) };

    fn hash<H: Hasher>(&self, state: &mut H) {
        state.write(self.bytes);
    }
}

/// Where a name stands among others, if it does.
fn place_among(names: &[Key<'_>], name: &[u8]) -> Option<usize>
    ensures within { IfSome result (λ k. k < length names.now) }
    ensures place { IfSome result (λ k. k ≡ place name.now (map key_bytes names.now)) }
{
    for (k, other) in names.iter().enumerate() {
        if is_text(name, other.bytes) {
            return Some(k);
        }
    }
    None
}

/// Names, each once, in order of first appearance. They lie in the text.
#[derive(Drop)]
pub(crate) struct Names<'a> {
    names: IndexSet<Key<'a>>,
}

impl<'a> Model for Names<'a> {
    ghost use Rattle.std.specs.Prelude.{ℕ, List, map};
    ghost use Rattle.il_reader.specs.Keys.{key_bytes};

    ghost Value = { List (List ℕ) };

    ghost view = { λ n. map key_bytes n.names.keys };
}

impl<'a> Names<'a> {
    /// No names.
    pub(crate) fn new(alloc: Global) -> Self
        ensures { result ≡ [] }
    {
        Names {
            names: IndexSet::new(alloc),
        }
    }

    /// The place of a name, which comes behind the others where it is new.
    pub(crate) fn place(&mut self, name: &'a [u8]) -> Result<usize, AllocError>
        ensures value { IfOk result (λ n. n ≡ place name.now self.old) }
        ensures names { OnOk result (self.new ≡ with_name name.now self.old) }
    {
        if self.names.len() <= FEW {
            if let Some(place) = place_among(self.names.as_slice(), name) {
                return Ok(place);
            }
        }
        let (place, _) = self.names.insert_full(Key { bytes: name })?;
        Ok(place)
    }

    /// Forgets them all.
    pub(crate) fn clear(&mut self)
        ensures { self.new ≡ [] }
    {
        self.names.clear();
    }

    /// A list of them.
    pub(crate) fn list(&self, alloc: Global) -> Result<Seq<Name>, AllocError>
        ensures { IfOk result (λ names. names ≡ self.now) }
    {
        copied(alloc, self.names.as_slice())
    }
}

fn copied(alloc: Global, names: &[Key<'_>]) -> Result<Seq<Name>, AllocError>
    ensures { IfOk result (λ copies. copies ≡ map key_bytes names.now) }
{
    let mut copies = Seq::from_vec(Vec::with_capacity(alloc, names.len())?);
    for name in names {
        let bytes = Vec::from_slice(alloc, name.bytes)?;
        copies.push(Seq::from_vec(bytes))?;
    }
    Ok(copies)
}
