//! Allocators of local surface ids. The parent's allocator raises the parent number, the child's
//! allocator the child number, as Chromium's `ParentLocalSurfaceIdAllocator` and
//! `ChildLocalSurfaceIdAllocator` do.
ghost use Rattle.std.specs.Prelude.{◌≡◌, ◌+◌, ◌<◌, IsOk, IsErr, IfOk, OnErr, IsTrue, ◌↔◌, ◌⊎◌, ◌≢◌};
ghost use Rattle.vz_ids.specs.Allocating.{first_id, with_parent, with_child, adopted, adopts};

use crate::{EmbedToken, LocalSurfaceId};
use std::error::Error;
use std::fmt;
use std::marker::Model;

/// The allocator has no number left: the one that it would raise is 4,294,967,295.
#[derive(Clone, Copy, Debug, PartialEq, Eq, Hash)]
pub struct Spent;

impl fmt::Display for Spent {
    fn fmt<W: fmt::Write>(&self, f: &mut fmt::Formatter<W>) -> fmt::Result {
        f.write_str("no number is left to raise")
    }
}

impl Error for Spent {}

/// The allocator of an embedder. In contracts its value is the id that it allocated last.
#[derive(Drop)]
pub struct ParentAllocator {
    last: LocalSurfaceId,
}

impl Model for ParentAllocator {
    ghost use Rattle.vz_ids.specs.declared.LocalSurfaceId.{LocalSurfaceId as LocalId};

    ghost Value = { LocalId };

    ghost view = { λ a. a.last };
}

impl ParentAllocator {
    /// Makes the allocator of a new embedding. Its first id has the numbers 1 and 1 and this
    /// token.
    pub fn new(token: EmbedToken) -> ParentAllocator
        ensures { result ≡ first_id token }
    {
        ParentAllocator {
            last: LocalSurfaceId {
                parent: 1,
                child: 1,
                token,
            },
        }
    }

    /// Returns the next id, with the parent number raised by one. The error is `Spent`, exactly
    /// if that number is 4,294,967,295; then nothing changes.
    pub fn next(&mut self) -> Result<LocalSurfaceId, Spent>
        ensures when { IsErr result ↔ (self.old.parent ≡ u32.MAX) }
        ensures next { IfOk result (λ id. id ≡ with_parent (self.old.parent + 1) self.old) }
        ensures kept { IfOk result (λ id. self.new ≡ id) }
        ensures unchanged { OnErr result (self.new ≡ self.old) }
    {
        if self.last.parent == u32::MAX {
            return Err(Spent);
        }
        self.last.parent += 1;
        Ok(self.last)
    }

    /// The id that was allocated last.
    pub fn current(&self) -> LocalSurfaceId
        ensures { result ≡ self.now }
    {
        self.last
    }
}

/// The allocator of an embedded client. In contracts its value is the id that it allocated or
/// adopted last.
#[derive(Drop)]
pub struct ChildAllocator {
    last: LocalSurfaceId,
}

impl Model for ChildAllocator {
    ghost use Rattle.vz_ids.specs.declared.LocalSurfaceId.{LocalSurfaceId as LocalId};

    ghost Value = { LocalId };

    ghost view = { λ a. a.last };
}

impl ChildAllocator {
    /// Makes an allocator that continues from the id that the embedder gave.
    pub fn new(id: LocalSurfaceId) -> ChildAllocator
        ensures { result ≡ id }
    {
        ChildAllocator { last: id }
    }

    /// Returns the next id, with the child number raised by one. The error is `Spent`, exactly if
    /// that number is 4,294,967,295; then nothing changes.
    pub fn next(&mut self) -> Result<LocalSurfaceId, Spent>
        ensures when { IsErr result ↔ (self.old.child ≡ u32.MAX) }
        ensures next { IfOk result (λ id. id ≡ with_child (self.old.child + 1) self.old) }
        ensures kept { IfOk result (λ id. self.new ≡ id) }
        ensures unchanged { OnErr result (self.new ≡ self.old) }
    {
        if self.last.child == u32::MAX {
            return Err(Spent);
        }
        self.last.child += 1;
        Ok(self.last)
    }

    /// Takes over the parent number and the token of an id that the embedder gave, and keeps the
    /// child number. It returns true if the token differs or the parent number is greater.
    /// Otherwise it returns false and changes nothing.
    pub fn adopt(&mut self, from: LocalSurfaceId) -> bool
        ensures when { result ≡ adopts self.old from }
        ensures new { self.new ≡ adopted self.old from }
    {
        if self.last.token == from.token && from.parent <= self.last.parent {
            return false;
        }
        self.last.parent = from.parent;
        self.last.token = from.token;
        true
    }

    /// The id that was allocated or adopted last.
    pub fn current(&self) -> LocalSurfaceId
        ensures { result ≡ self.now }
    {
        self.last
    }
}
