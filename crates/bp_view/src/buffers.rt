//! Texts in memory that grow by pieces. A refusal of memory sticks, and is reported at the end.
ghost use Rattle.std.specs.Prelude.{◌≡◌, ◌<◌, ◌≤◌, ◌++◌, ◌∷◌, [], ℕ, List, decimal, false, flat_map, true, IfOk, length, take, OnOk};
ghost use Rattle.bp_text.specs.Pieces.{piece_text};
ghost use Rattle.bp_view.specs.Buffers.{Grown, HasTaken, IsEmpty, IsLed, IsListed, then};
ghost use Rattle.bp_view.specs.declared.buffers.Buffer.{Buffer as Given};

use bp_text::Piece::Bytes;
use bp_text::{Piece, push_piece, push_pieces};
use std::alloc::{AllocError, Global};

/// A text in memory. Once memory was refused, its contents are unspecified.
#[derive(Drop)]
pub(crate) struct Buffer {
    pub(crate) bytes: Vec<u8>,
    pub(crate) refused: bool,
}

impl Buffer {
    /// Makes an empty buffer.
    pub(crate) fn new(alloc: Global) -> Buffer
        ensures { IsEmpty result }
    {
        Buffer {
            bytes: Vec::new(alloc),
            refused: false,
        }
    }

    /// Records that memory was refused.
    pub(crate) fn refuse(&mut self)
        ensures { self.new.refused ≡ true }
    {
        self.refused = true;
    }

    /// Empties the buffer, and forgets a refusal.
    pub(crate) fn clear(&mut self)
        ensures { IsEmpty self.new }
    {
        self.bytes.clear();
        self.refused = false;
    }

    /// Adds the decimal of a number below 10.
    #[inline(always)]
    fn put_digit(&mut self, digit: u8)
        requires { digit < 10 }
        ensures { Grown self.old self.new (decimal digit) }
    {
        let Ok(()) = self.bytes.push(b'0' + digit) else {
            self.refused = true;
            return;
        };
    }

    /// Adds the decimal of a number of two digits.
    #[inline(always)]
    fn put_tens(&mut self, number: u8)
        requires { (10 ≤ number) × (number < 100) }
        ensures { Grown self.old self.new (decimal number) }
    {
        self.put_digit(number / 10);
        self.put_digit(number % 10)
    }

    /// Adds a piece. Most numbers of an attempt have one digit or two, which are pushed: formatting
    /// them takes five times as long.
    #[inline(always)]
    pub(crate) fn put(&mut self, piece: Piece<'_>)
        ensures { Grown self.old self.new (piece_text piece.entry) }
    {
        match piece {
            Piece::Number(n) | Piece::NumberOrNull(Some(n)) if n < 10 => self.put_digit(n as u8),
            Piece::Number(n) | Piece::NumberOrNull(Some(n)) if n < 100 => self.put_tens(n as u8),
            _ => self.put_other(piece),
        }
    }

    /// Adds any piece.
    #[inline(always)]
    fn put_other(&mut self, piece: Piece<'_>)
        ensures { Grown self.old self.new (piece_text piece.entry) }
    {
        let Ok(()) = push_piece(&mut self.bytes, piece) else {
            self.refused = true;
            return;
        };
    }

    /// Adds two pieces. Frequent texts are made by this call and the next two, since a slice of
    /// pieces takes twice as long.
    #[inline(always)]
    pub(crate) fn put_two(&mut self, first: Piece<'_>, second: Piece<'_>)
        ensures given { let text = piece_text first.entry ++ piece_text second.entry in
            Grown self.old self.new text }
        ensures followed { (later : Given) (rest : List ℕ)
            → Grown self.new later rest
            → let pieces = first.entry ∷ second.entry ∷ [] in
            Grown self.old later (then pieces rest) }
    {
        self.put(first);
        self.put(second)
    }

    /// Adds three pieces.
    #[inline(always)]
    pub(crate) fn put_three(&mut self, first: Piece<'_>, second: Piece<'_>, third: Piece<'_>)
        ensures given { let others = piece_text second.entry ++ piece_text third.entry in
            Grown self.old self.new (piece_text first.entry ++ others) }
        ensures followed { (later : Given) (rest : List ℕ)
            → Grown self.new later rest
            → let pieces = first.entry ∷ second.entry ∷ third.entry ∷ [] in
            Grown self.old later (then pieces rest) }
    {
        self.put(first);
        self.put_two(second, third)
    }

    /// Adds four pieces.
    #[inline(always)]
    pub(crate) fn put_four(
        &mut self,
        first: Piece<'_>,
        second: Piece<'_>,
        third: Piece<'_>,
        fourth: Piece<'_>,
    )
        ensures followed { (later : Given) (rest : List ℕ)
            → Grown self.new later rest
            → let pieces = first.entry ∷ second.entry ∷ third.entry ∷ fourth.entry ∷ [] in
            Grown self.old later (then pieces rest) }
    {
        self.put_two(first, second);
        self.put_two(third, fourth)
    }

    /// Adds the pieces one after the other.
    pub(crate) fn put_pieces(&mut self, pieces: &[Piece<'_>])
        ensures given { Grown self.old self.new (flat_map piece_text pieces.now) }
        ensures followed { (later : Given) (rest : List ℕ)
            → Grown self.new later rest
            → Grown self.old later (then pieces.now rest) }
    {
        let Ok(()) = push_pieces(&mut self.bytes, pieces) else {
            self.refused = true;
            return;
        };
    }

    /// Adds the text of another buffer.
    pub(crate) fn put_all(&mut self, other: &Buffer)
        ensures given { (text : List ℕ) → HasTaken other.now text → Grown self.old self.new text }
        ensures fine { self.new.refused ≡ false → other.now.refused ≡ false }
    {
        if other.refused {
            return self.refuse();
        }
        self.put(Bytes(&other.bytes))
    }

    /// Ends a list of JSON whose items, each after a comma, begin at `start`: its bracket takes the
    /// place of the first comma.
    pub(crate) fn close_list(&mut self, start: usize)
        ensures { IsListed start self.old self.new }
    {
        if start < self.bytes.len() {
            self.bytes[start] = b'[';
        } else {
            self.put(Bytes(b"["));
        }
        self.put(Bytes(b"]"))
    }

    /// Removes the text since `start`, if nothing was added since `middle`.
    pub(crate) fn drop_lead(&mut self, start: usize, middle: usize)
        ensures { IsLed start middle self.old self.new }
    {
        if self.bytes.len() <= middle {
            self.bytes.truncate(start);
        }
    }

    /// Returns the number of bytes.
    pub(crate) fn len(&self) -> usize
        ensures { result ≡ length self.now.bytes.items }
    {
        self.bytes.len()
    }

    /// Returns the allocator of its memory.
    pub(crate) fn allocator(&self) -> Global {
        *self.bytes.allocator()
    }

    /// Keeps the first `size` bytes at most.
    pub(crate) fn truncate(&mut self, size: usize)
        ensures { (self.new.refused ≡ self.old.refused)
            × (self.new.bytes.items ≡ take size self.old.bytes.items) }
    {
        self.bytes.truncate(size);
    }

    /// Returns an error if memory was refused.
    pub(crate) fn finish(&self) -> Result<(), AllocError>
        ensures { OnOk result (self.now.refused ≡ false) }
    {
        if self.refused {
            Err(AllocError)
        } else {
            Ok(())
        }
    }

    /// Returns the text, or an error if memory was refused.
    pub(crate) fn into_bytes(self) -> Result<Vec<u8>, AllocError>
        ensures { IfOk result (λ v. (self.refused ≡ false) × (v.items ≡ self.bytes.items)) }
    {
        if self.refused {
            Err(AllocError)
        } else {
            Ok(self.bytes)
        }
    }
}
